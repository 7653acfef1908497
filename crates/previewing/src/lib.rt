// The preview of a step of a sound world, for callers that know it to be sound: the step is judged on the world, and only
// one that is taken is done, on a copy and with the index of both. A refusal changes nothing of the copy.
#![tactic(auto)]

ghost use Rattle.std.specs.Prelude.{◌≡◌, ◌-◌, ◌≤◌, ◌<◌};
ghost use Rattle.definitions.specs.World.{view};
ghost use Rattle.definitions.specs.Words.{log_length, previewed_words, preview_reply};
ghost use Rattle.definitions.specs.Answers.{previewing_reply};
ghost use Rattle.definitions.specs.Previews.{step_process};
ghost use Rattle.world.specs.SoundLaws.{Sound};
ghost use Rattle.index.specs.Index.{Index};
ghost use Rattle.given.specs.Given.{step_of};

use cells::Words;
use definitions::{Previewing, Refusal};
use given::Given;

// The process of a step, the only one that can deliver.
fn process(g: Given) -> usize
    ensures { result ≡ step_process (step_of g) }
{
    match g {
        Given::Multicast(p, _, _) => p,
        Given::Arrival(letter) => letter.to,
        Given::Loss(letter) => letter.to,
        Given::Trust(p, _) => p,
        Given::Crash(p) => p,
    }
}

// By how much the FIFO or the causal log of process p is longer in the second world.
fn growth(w: &Words, second: &Words, p: usize, causal: bool) -> u32
    requires { (p < 16) × (log_length (view w.now) p causal ≤ log_length (view second.now) p causal) × (log_length (view second.now) p causal ≤ 64) }
    ensures { result ≡ log_length (view second.now) p causal - log_length (view w.now) p causal }
{
    (logs::items(second, p, causal) - logs::items(w, p, causal)) as u32
}

// The step that the bytes ask for, done on a copy of the world, with the deliveries that it adds.
pub fn preview(
    w: &Words,
    x: &mut index::Table,
    bytes: &[u8],
    second: &mut Words,
) -> Result<Previewing, Refusal>
    requires sound { Sound (view w.now) }
    requires index { Index (view w.now) x.old }
    ensures answer { previewing_reply result ≡ preview_reply w.now bytes.now second.old }
    ensures words { second.new ≡ previewed_words w.now bytes.now second.old }
{
    let g = stepping::judge(w, bytes)?;
    slices::copy(w, second);
    stepping::act(second, x, g, false);
    let p = process(g);
    let fifo = growth(w, second, p, false);
    let causal = growth(w, second, p, true);
    Ok(Previewing { fifo, causal })
}
