// The logs of a world: where each stands among its words, how long it is, the log itself, and a message appended.
#![tactic(auto)]

ghost use Rattle.std.specs.Prelude.{◌≡◌, ◌+◌, ◌≤◌, ◌<◌, take, drop};
ghost use Rattle.definitions.specs.General.{pick};
ghost use Rattle.definitions.specs.World.{addr, view};
ghost use Rattle.definitions.specs.Words.{log_length, log_start};
ghost use Rattle.world.specs.Layout.{Changes};
ghost use Rattle.logs.specs.Pushed.{length_cell, pushed};

use cells::Words;

// What holds for the FIFO or for the causal log: one of two offsets in a process's block. A bool picks causal, as document 01
// has it and C gives it.
fn offset(causal: bool, of_fifo: usize, of_causal: usize) -> usize
    requires of_fifo_in { of_fifo < 429 }
    requires of_causal_in { of_causal < 429 }
    ensures { (result ≡ pick causal of_causal of_fifo) × (result < 429) }
{
    if causal { of_causal } else { of_fifo }
}

// Where the FIFO or the causal log of process p begins.
pub fn start(p: usize, causal: bool) -> usize
    requires { p < 16 }
    ensures { result ≡ log_start p causal }
{
    let i = offset(causal, cells::FIFO, cells::CAUSAL);
    cells::PROCESSES + p * cells::PROCESS + i
}

// Where its length stands.
fn length_at(p: usize, causal: bool) -> usize
    requires { p < 16 }
    ensures { result ≡ addr (length_cell p causal) }
{
    let i = offset(causal, cells::FIFO_LENGTH, cells::CAUSAL_LENGTH);
    cells::PROCESSES + p * cells::PROCESS + i
}

// How many items it has.
pub fn items(w: &Words, p: usize, causal: bool) -> usize
    requires { p < 16 }
    ensures { result ≡ log_length (view w.now) p causal }
{
    cells::word(w, length_at(p, causal))
}

// The log itself, as a part of the words, where it lies among them.
pub fn part(w: &Words, p: usize, causal: bool) -> &[u16]
    requires p_in { p < 16 }
    requires inside { log_start p causal + log_length (view w.now) p causal ≤ 20480 }
    ensures { result.now ≡ take (log_length (view w.now) p causal) (drop (log_start p causal) w.now) }
{
    let n = items(w, p, causal);
    let at = start(p, causal);
    &w[at..at + n]
}

// Message m appended to it.
#[tactic(auto, using(crate::specs::Pushed::pushed_law))]
pub fn push(w: &mut Words, p: usize, causal: bool, m: usize)
    requires p_in { p < 16 }
    requires m_in { m < 64 }
    requires room { log_length (view w.old) p causal < 64 }
    ensures { Changes w.old w.new (λ s. pushed s p causal m) }
{
    let n = items(w, p, causal);
    let a = start(p, causal);
    let l = length_at(p, causal);
    w[a + n] = m as u16;
    w[l] = (n + 1) as u16;
}
