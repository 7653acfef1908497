// A step of a sound world, for callers that know it to be sound: no word is tested for soundness. A refusal
// changes nothing. Who knows that all processes are quiescent says so, and spares an arrival the search for ready
// messages.
#![tactic(auto)]

ghost use Rattle.std.specs.Prelude.{◌≡◌, get_or};
ghost use Rattle.definitions.specs.World.{view, encode};
ghost use Rattle.definitions.specs.Steps.{read, refusal, step as stepped, after};
ghost use Rattle.definitions.specs.Answers.{outcome_number};
ghost use Rattle.world.specs.SoundLaws.{Sound};
ghost use Rattle.quiescence.specs.Quiescent.{AllQuiescentIf};
ghost use Rattle.index.specs.Index.{Index};
ghost use Rattle.given.specs.Given.{step_of};
ghost use Rattle.stepping.specs.Stepping.{Judges};

use cells::Words;
use definitions::Refusal;
use given::Given;

// The refusal of a step, lowest number first, or that it is taken.
#[tactic(auto, using(bounds::specs::Bounds::sound_bounds))]
fn refused(w: &Words, x: Given) -> Result<(), Refusal>
    requires { Sound (view w.now) }
    ensures { outcome_number result ≡ refusal (view w.now) (step_of x) }
{
    match x {
        Given::Multicast(p, groups, _) => refusals::of_multicast(w, p, groups),
        Given::Arrival(letter) => refusals::of_letter(w, letter, false),
        Given::Loss(letter) => refusals::of_letter(w, letter, true),
        Given::Trust(p, set) => refusals::of_trust(w, p, set),
        Given::Crash(p) => refusals::of_crash(w, p),
    }
}

// The step that the bytes ask for, judged.
pub fn judge(w: &Words, bytes: &[u8]) -> Result<Given, Refusal>
    requires { Sound (view w.now) }
    ensures { Judges result (view w.now) (read bytes.now) }
{
    let x = given::take(bytes).ok_or(Refusal::Malformed)?;
    refused(w, x)?;
    Ok(x)
}

// What a step does that is taken.
pub fn act(w: &mut Words, x: &mut index::Table, g: Given, quiescent: bool)
    requires sound { Sound (view w.old) }
    requires index { Index (view w.old) x.old }
    requires quiescent { AllQuiescentIf quiescent (view w.old) }
    requires taken { refusal (view w.old) (step_of g) ≡ 0 }
    ensures words { w.new ≡ encode (stepped (view w.old) (step_of g)) }
    ensures index { Index (view w.new) x.new }
{
    match g {
        Given::Multicast(p, groups, order) => multicasts::send_new(w, x, p, groups, order),
        Given::Arrival(letter) => {
            arrivals::arrive(w, x, letter, quiescent);
        }
        Given::Loss(letter) => short_steps::lose(w, letter),
        Given::Trust(p, set) => short_steps::replace_trust(w, x, p, set),
        Given::Crash(p) => short_steps::take_down(w, p),
    }
}

// The step that the bytes ask for.
pub fn step(
    w: &mut Words,
    x: &mut index::Table,
    bytes: &[u8],
    quiescent: bool,
) -> Result<(), Refusal>
    requires sound { Sound (view w.old) }
    requires index { Index (view w.old) x.old }
    requires quiescent { AllQuiescentIf quiescent (view w.old) }
    ensures answer { outcome_number result ≡ refusal (view w.old) (read bytes.now) }
    ensures words { w.new ≡ encode (after (view w.old) (read bytes.now)) }
    ensures index { Index (view w.new) x.new }
{
    let g = judge(w, bytes)?;
    act(w, x, g, quiescent);
    Ok(())
}

// The same of bytes whose kind is that of an arrival: judged and done at once.
pub fn arrival(
    w: &mut Words,
    x: &mut index::Table,
    bytes: &[u8; 8],
    quiescent: bool,
) -> Result<(), Refusal>
    requires sound { Sound (view w.old) }
    requires index { Index (view w.old) x.old }
    requires quiescent { AllQuiescentIf quiescent (view w.old) }
    requires kind { get_or bytes.now 0 0 ≡ 2 }
    ensures answer { outcome_number result ≡ refusal (view w.old) (read bytes.now) }
    ensures words { w.new ≡ encode (after (view w.old) (read bytes.now)) }
    ensures index { Index (view w.new) x.new }
{
    let letter = given::letter(bytes).ok_or(Refusal::Malformed)?;
    refusals::of_letter(w, letter, false)?;
    arrivals::arrive(w, x, letter, quiescent);
    Ok(())
}
