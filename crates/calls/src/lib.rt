// The calls that change a lent world, or show the change on a copy: each tests the world, which leaves its index,
// and then does its work. None asks anything of its caller.
#![tactic(auto)]

ghost use Rattle.std.specs.Prelude.{IfOk, ◌≡◌};
ghost use Rattle.definitions.specs.World.{view};
ghost use Rattle.definitions.specs.Settle.{lowest_first, by_turns};
ghost use Rattle.definitions.specs.Words.{needs_world, step_refusal, stepped_words, previewed_words, preview_reply, settle_reply, settled_words};
ghost use Rattle.world.specs.SoundLaws.{Sound};
ghost use Rattle.index.specs.Index.{Index};
ghost use Rattle.definitions.specs.Answers.{outcome_number, previewing_reply, settling_reply};

use cells::Words;
use definitions::{Previewing, Refusal, Settling};

// Whether the words are a sound world, 2; and then their index is left in x.
#[tactic(auto, using(world::specs::SoundLaws::sound_facts))]
fn indexed(w: &Words, x: &mut index::Table) -> Result<(), Refusal>
    ensures answer { outcome_number result ≡ needs_world w.now 0 }
    ensures sound { IfOk result (λ _. Sound (view w.now)) }
    ensures index { IfOk result (λ _. Index (view w.now) x.new) }
{
    if soundness::test_and_index(w, x) {
        return Ok(());
    }
    Err(Refusal::WorldUnsound)
}

// Takes the step that the bytes ask for: 1, 2, then 4 to 12.
pub fn step(w: &mut [u16], bytes: &[u8]) -> Result<(), Refusal>
    ensures answer { outcome_number result ≡ step_refusal w.old bytes.now }
    ensures words { w.new ≡ stepped_words w.old bytes.now }
{
    let Some(w) = w.as_mut_array() else {
        return Err(Refusal::WorldLength);
    };
    let mut x = [0; 112];
    indexed(w, &mut x)?;
    stepping::step(w, &mut x, bytes, false)
}

// Shows on the second slice what the step that the bytes ask for would leave, and gives the deliveries that it adds: 1,
// for either slice, 2, then 4 to 12.
pub fn preview(w: &[u16], bytes: &[u8], second: &mut [u16]) -> Result<Previewing, Refusal>
    ensures answer { previewing_reply result ≡ preview_reply w.now bytes.now second.old }
    ensures words { second.new ≡ previewed_words w.now bytes.now second.old }
{
    let Some(second) = second.as_mut_array() else {
        return Err(Refusal::WorldLength);
    };
    let Ok(world) = <&Words>::try_from(w) else {
        return Err(Refusal::WorldLength);
    };
    let mut x = [0; 112];
    indexed(world, &mut x)?;
    previewing::preview(world, &mut x, bytes, second)
}

// Makes at most `budget` arrivals, each of the lowest letter to an up process: 1, then 2.
pub fn settle(w: &mut [u16], budget: u32) -> Result<Settling, Refusal>
    ensures answer { settling_reply result ≡ settle_reply lowest_first w.old budget }
    ensures words { w.new ≡ settled_words lowest_first w.old budget }
{
    let Some(w) = w.as_mut_array() else {
        return Err(Refusal::WorldLength);
    };
    let mut x = [0; 112];
    indexed(w, &mut x)?;
    Ok(settling::settle_sound(w, &mut x, budget))
}

// Makes at most `budget` arrivals, the processes served in turn, each with the lowest letter to it: 1, then 2. What it shares
// with `settle` is the test in front, which a function of both would have to hand a lent world out of.
pub fn settle_fair(w: &mut [u16], budget: u32) -> Result<Settling, Refusal>
    ensures answer { settling_reply result ≡ settle_reply by_turns w.old budget }
    ensures words { w.new ≡ settled_words by_turns w.old budget }
{
    let Some(w) = w.as_mut_array() else {
        return Err(Refusal::WorldLength);
    };
    let mut x = [0; 112];
    indexed(w, &mut x)?;
    let mut a = [0; 1041];
    Ok(serving::serve(w, &mut x, &mut a, budget))
}
