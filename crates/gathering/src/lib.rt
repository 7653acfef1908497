// The letters that can move join the queues, from the words: all of them once, and what an arrival sent after it.
#![tactic(auto)]

ghost use Rattle.std.specs.Prelude.{false, ◌≡◌, ◌<◌};
ghost use Rattle.definitions.specs.General.{mask_of};
ghost use Rattle.definitions.specs.World.{view, size};
ghost use Rattle.definitions.specs.Steps.{is_up};
ghost use Rattle.world.specs.SoundLaws.{Sound};
ghost use Rattle.queues.specs.Queues.{Places, Queues};
ghost use Rattle.gathering.specs.Gathered.{lettered, gathered, told, all_told};

use cells::Words;
use masks::Set;
use queues::Table;

// The letters of message m that can move join the queues.
fn gather_message(w: &Words, a: &mut Table, up: u16, m: usize)
    requires message { m < 64 }
    requires ups { up ≡ mask_of (view w.now size) (is_up (view w.now)) }
    ensures { (f : Places) → Queues f a.old → Queues (gathered f (view w.now) m 48) a.new }
{
    for place in 0..48 {
        let receivers = letters::receivers(w, up, m, place / 16, place % 16);
        queues::note(a, m, place, receivers);
    }
}

// All letters that can move, sorted.
pub fn gather(w: &Words, a: &mut Table, up: u16)
    requires sound { Sound (view w.now) }
    requires ups { up ≡ mask_of (view w.now size) (is_up (view w.now)) }
    requires none { Queues (λ _ _ _. false) a.old }
    ensures { Queues (lettered (view w.now)) a.new }
{
    let n = cells::word(w, cells::COUNT);
    for m in 0..n {
        gather_message(w, a, up, m);
    }
}

// The answers and OKs of p for message m join the queues.
fn note_message(w: &Words, a: &mut Table, up: u16, p: usize, m: usize)
    requires letter { (p < 16) × (m < 64) }
    requires ups { up ≡ mask_of (view w.now size) (is_up (view w.now)) }
    ensures { (f : Places) → Queues f a.old → Queues (told f (view w.now) p m) a.new }
{
    let answers = letters::receivers(w, up, m, 1, p);
    queues::note(a, m, 16 + p, answers);
    let oks = letters::receivers(w, up, m, 2, p);
    queues::note(a, m, 32 + p, oks);
}

// The answers and OKs of p for the messages of a set join the queues.
pub fn note_sent(w: &Words, a: &mut Table, up: u16, p: usize, sent: u64)
    requires process { p < 16 }
    requires ups { up ≡ mask_of (view w.now size) (is_up (view w.now)) }
    ensures { (f : Places) → Queues f a.old → Queues (all_told f (view w.now) p sent) a.new }
{
    let mut left = sent;
    while left != 0 {
        let m = left.lowest();
        left = left.rest();
        note_message(w, a, up, p, m);
    }
}
