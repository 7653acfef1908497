// The arrival of a letter of kind k for message m from q at p, in two parts: the letter and its mark, after which mostly
// nothing follows; and the rest, a message that was not held held and answered, then the cascade. Who knows that p is
// quiescent says so: then only message m can be ready. The place of a letter is 48 m + 16 k + q.
#![tactic(auto)]

ghost use Rattle.std.specs.Prelude.{true, false, ◌≡◌, ◌<◌};
ghost use Rattle.definitions.specs.General.{every, pick};
ghost use Rattle.bounds.specs.Bounds.{Bounds};
ghost use Rattle.index.specs.Index.{Index, Logs};
ghost use Rattle.cascade.specs.Ready.{Ready};
ghost use Rattle.definitions.specs.Machine.{marked, cascade, hold};
ghost use Rattle.definitions.specs.World.{view, size, count, held};
ghost use Rattle.world.specs.Layout.{Changes};
ghost use Rattle.arrivals.specs.Arrival.{Leans, Silent, Posts, OnlyIf, marked_of, Arrives, Arrived};

use cells::{Letter, Words};
use masks::Set;

// A place past all places. No Option: as a number it goes into `min`, and settle compares a place in one test.
pub const NOWHERE: usize = 3072;

// The messages that are ready at p, where it may be known that no message but m is.
fn ready_now(w: &Words, x: &index::Table, p: usize, m: usize, only: bool) -> u64
    requires p_in { p < 16 }
    requires m_in { m < view w.now count }
    requires bounds { Bounds (view w.now) }
    requires index { Index (view w.now) x.now }
    requires only_m { OnlyIf only (view w.now) p m }
    ensures { Ready (view w.now) p result }
{
    if !only {
        return cascade::ready_set(w, x, p);
    }
    if sends::is_ready(w, x, p, m) {
        return 0u64.join(m);
    }
    0
}

// The kind of the answer: OK to a message in turn, else relay.
fn answer_kind(in_turn: bool) -> usize
    ensures { (result ≡ pick in_turn 2 1) × (result < 3) }
{
    if in_turn { 2 } else { 1 }
}

// A message that p did not hold is held, and answered: at the place told.
fn take_hold(w: &mut Words, x: &index::Table, m: usize, p: usize) -> usize
    requires p_in { p < 16 }
    requires m_in { m < view w.old count }
    requires bounds { Bounds (view w.old) }
    requires index { Index (view w.old) x.now }
    ensures words { Changes w.old w.new (λ s. hold s p m) }
    ensures place { Silent (view w.old) (hold (view w.old) p m) result }
{
    if cells::word(w, cells::PROCESSES + p * cells::PROCESS + cells::HELD + m) == 1 {
        return NOWHERE;
    }
    let in_turn = sends::in_turn(w, p, m);
    let k = answer_kind(in_turn);
    w[cells::PROCESSES + p * cells::PROCESS + cells::HELD + m] = 1;
    sends::send(w, x, p, m, k);
    m * 48 + k * 16 + p
}

// The letter leaves flight, and an OK sets its mark. Whether anything can follow.
pub fn touch(w: &mut Words, x: &index::Table, letter: Letter, quiescent: bool) -> bool
    requires kind_in { letter.kind < 3 }
    requires message_in { letter.message < view w.old count }
    requires from_in { letter.from < 16 }
    requires to_in { letter.to < 16 }
    requires bounds { Bounds (view w.old) }
    requires index { Index (view w.old) x.now }
    ensures words { Changes w.old w.new (λ s. marked_of s letter.kind letter.message letter.from letter.to) }
    ensures over { result ≡ false → (quiescent ≡ true) × (view w.new (held letter.to letter.message) ≡ 1) × (every (view w.new size) (marked (view w.new) letter.to letter.message) ≡ false) }
{
    receiving::take_out(w, letter);
    receiving::set_mark(w, letter);
    if !quiescent {
        return true;
    }
    let at = cells::PROCESSES + letter.to * cells::PROCESS + cells::HELD + letter.message;
    if cells::word(w, at) != 1 {
        return true;
    }
    sends::has_marks(w, x, letter.to, letter.message)
}

// Where letters were sent: a place below which none was, and the messages of them all.
#[derive(Drop)]
pub struct Sent {
    pub place: usize,
    pub messages: u64,
}

// The rest of an arrival, and where it sent letters: an answer for m, and OKs, none but from p.
pub fn follow(w: &mut Words, x: &mut index::Table, m: usize, p: usize, only: bool) -> Sent
    requires { Leans w.old x.old p m only }
    ensures words { Changes w.old w.new (λ s. cascade (hold s p m) p) }
    ensures index { Index (view w.new) x.new × Logs (view w.new) p }
    ensures place { Silent (view w.old) (view w.new) result.place }
    ensures messages { Posts (view w.old) (view w.new) p result.messages }
{
    let at = take_hold(w, x, m, p);
    let ready = ready_now(w, x, p, m, only);
    if ready == 0 {
        let answered = 0u64.join_if(m, at < NOWHERE);
        return Sent {
            place: at,
            messages: answered,
        };
    }
    let oks = cascade::cascade(w, x, p, ready);
    let place = at.min(oks.lowest() * 48 + 32 + p);
    let all = oks.join_if(m, at < NOWHERE);
    Sent {
        place,
        messages: all,
    }
}

// The whole arrival. A place below which it sent no letter.
pub fn arrive(w: &mut Words, x: &mut index::Table, letter: Letter, quiescent: bool) -> usize
    requires { Arrives w.old x.old letter.kind letter.message letter.from letter.to quiescent }
    ensures { Arrived w.old w.new x.new letter.kind letter.message letter.from letter.to result }
{
    if touch(w, x, letter, quiescent) {
        return follow(w, x, letter.message, letter.to, quiescent).place;
    }
    NOWHERE
}
