// Letters: who the addressees of a message are, and the letters and OKs that a process sends to them; which messages it
// can deliver in FIFO order.
#![tactic(auto)]

ghost use Rattle.std.specs.Prelude.{not, ◌&&◌, ◌≡◌, ◌+◌, ◌<◌, get_or};
ghost use Rattle.definitions.specs.General.{bit, with, pick, every, tally};
ghost use Rattle.definitions.specs.World.{addressed, view, State, encode, size, count, sender};
ghost use Rattle.definitions.specs.Machine.{addressees, in_turn, marked, ready, due, send_ok, send_oks};
ghost use Rattle.world.specs.Layout.{Reads, Changes};
ghost use Rattle.sets.specs.Lowest.{Has};
ghost use Rattle.bounds.specs.Bounds.{Bounds};
ghost use Rattle.index.specs.Index.{frame, Index, is_from};
ghost use Rattle.sends.specs.Sends.{sent};
ghost use Rattle.sends.specs.Ready.{cleared};
ghost use Rattle.sends.specs.Marks.{unmarked};
ghost use Rattle.sends.specs.Oks.{owed};

use cells::Words;
use masks::Set;

// Whether process q is an addressee of message m.
pub fn is_addressed(w: &Words, m: usize, q: usize) -> bool
    requires m_in { m < 64 }
    requires q_in { q < 16 }
    requires bounds { Bounds (view w.now) }
    ensures { result ≡ addressed (view w.now) m q }
{
    let groups = w[cells::MESSAGES + m * cells::MESSAGE + cells::MASK];
    let g = cells::word(w, cells::PROCESSES + q * cells::PROCESS);
    groups.has(g)
}

// The addressees of message m, as a mask.
pub fn addressees_of(w: &Words, m: usize) -> u16
    requires m_in { m < 64 }
    requires bounds { Bounds (view w.now) }
    ensures { Reads w.now result (λ s. addressees s m) }
{
    let n = cells::word(w, cells::SIZE);
    let mut a: u16 = 0;
    for q in 0..n {
        a = a.join_if(q, is_addressed(w, m, q));
    }
    a
}

// Whether message m is the next of its sender at p.
pub fn in_turn(w: &Words, p: usize, m: usize) -> bool
    requires p_in { p < 16 }
    requires m_in { m < 64 }
    requires bounds { Bounds (view w.now) }
    ensures { result ≡ in_turn (view w.now) p m }
{
    let g = cells::word(w, cells::PROCESSES + p * cells::PROCESS);
    let q = cells::word(w, cells::MESSAGES + m * cells::MESSAGE);
    let x = cells::word(w, cells::MESSAGES + m * cells::MESSAGE + cells::NUMBERS + g);
    let y = cells::word(w, cells::PROCESSES + p * cells::PROCESS + cells::NEXTS + q);
    x == y
}

// Sends letters of kind k for message m from p to all its addressees.
pub fn send(w: &mut Words, x: &index::Table, p: usize, m: usize, k: usize)
    requires p_in { p < 16 }
    requires m_in { m < view w.old count }
    requires k_in { k < 3 }
    requires bounds { Bounds (view w.old) }
    requires index { Index (view w.old) x.now }
    ensures { Changes w.old w.new (λ s. sent s p m k) }
{
    let a = index::to(x, m);
    cells::set_letters(w, m, k, p, a);
}

// How many addressees of message m there are whose mark p waits for: those that it trusts and has no mark of.
fn missing(w: &Words, x: &index::Table, p: usize, m: usize) -> usize
    requires p_in { p < 16 }
    requires m_in { m < view w.now count }
    requires bounds { Bounds (view w.now) }
    requires index { Index (view w.now) x.now }
    ensures { result ≡ tally (view w.now size) (unmarked (view w.now) p m) }
{
    let to = index::to(x, m);
    let t = w[cells::PROCESSES + p * cells::PROCESS + cells::TRUST];
    let k = w[cells::PROCESSES + p * cells::PROCESS + cells::MARKS + m];
    (t & (t ^ k) & to).count()
}

// Whether p waits for no mark for message m.
pub fn has_marks(w: &Words, x: &index::Table, p: usize, m: usize) -> bool
    requires p_in { p < 16 }
    requires m_in { m < view w.now count }
    requires bounds { Bounds (view w.now) }
    requires index { Index (view w.now) x.now }
    ensures { result ≡ every (view w.now size) (marked (view w.now) p m) }
{
    missing(w, x, p, m) == 0
}

// Whether message m is outside p's FIFO log.
pub fn is_new(x: &index::Table, p: usize, m: usize) -> bool
    requires p_in { p < 16 }
    requires m_in { m < 64 }
    ensures { result ≡ not (bit (get_or x.now (80 + p) 0) m) }
{
    !x[index::LISTED + p].has(m)
}

// Whether p waits for no mark for message m, and has it outside its FIFO log.
pub fn is_cleared(w: &Words, x: &index::Table, p: usize, m: usize) -> bool
    requires p_in { p < 16 }
    requires m_in { m < view w.now count }
    requires bounds { Bounds (view w.now) }
    requires index { Index (view w.now) x.now }
    ensures { result ≡ cleared (view w.now) p m }
{
    has_marks(w, x, p, m) && is_new(x, p, m)
}

// Whether p can deliver message m in FIFO order.
#[tactic(auto, unfolding(definitions::specs::Machine::ready))]
pub fn is_ready(w: &Words, x: &index::Table, p: usize, m: usize) -> bool
    requires p_in { p < 16 }
    requires m_in { m < view w.now count }
    requires bounds { Bounds (view w.now) }
    requires index { Index (view w.now) x.now }
    ensures { result ≡ ready (view w.now) p m }
{
    cells::word(w, cells::PROCESSES + p * cells::PROCESS + cells::HELD + m) == 1
        && in_turn(w, p, m)
        && is_cleared(w, x, p, m)
}

// Whether p owes an OK for message m.
#[tactic(auto, using(base::specs::Tests::eqb_refl), unfolding(definitions::specs::Machine::due))]
fn is_owed(w: &Words, p: usize, m: usize) -> bool
    requires p_in { p < 16 }
    requires m_in { m < 64 }
    requires bounds { Bounds (view w.now) }
    ensures { result ≡ owed (view w.now) p m }
{
    cells::word(w, cells::PROCESSES + p * cells::PROCESS + cells::HELD + m) == 1 && in_turn(w, p, m)
}

// The messages that are ready, and those for which an OK was sent.
#[derive(Drop)]
pub struct Turn {
    pub ready: u64,
    pub sent: u64,
}

// Sends the OK for message m, if p owes it.
fn answer(w: &mut Words, x: &index::Table, p: usize, m: usize, t: Turn) -> Turn
    requires p_in { p < 16 }
    requires m_in { m < view w.old count }
    requires bounds { Bounds (view w.old) }
    requires index { Index (view w.old) x.now }
    ensures words { Changes w.old w.new (λ s. send_ok s p (s (sender m)) m) }
    ensures sets { (result.ready ≡ pick (ready (view w.old) p m) (with t.ready m) t.ready) × (result.sent ≡ pick (owed (view w.old) p m) (with t.sent m) t.sent) }
{
    if !is_owed(w, p, m) {
        return t;
    }
    let yes = is_cleared(w, x, p, m);
    send(w, x, p, m, 2);
    let r = t.ready;
    let s = t.sent;
    Turn {
        ready: r.join_if(m, yes),
        sent: s.join(m),
    }
}

// Sends the OK for each message of q for which p owes it. The messages of q that are ready, and those with an OK.
pub fn send_oks(w: &mut Words, x: &index::Table, p: usize, q: usize) -> Turn
    requires p_in { p < 16 }
    requires q_in { q < 16 }
    requires bounds { Bounds (view w.old) }
    requires index { Index (view w.old) x.now }
    ensures words { Changes w.old w.new (λ s. send_oks s p q (s count)) }
    ensures sets { (s : State) → w.old ≡ encode s → Has result.ready (λ m. is_from (frame s) q m && ready s p m) × Has result.sent (λ m. is_from (frame s) q m && due s p q m) }
{
    let mut left = x[index::OWN + q];
    let mut t = Turn { ready: 0, sent: 0 };
    while left != 0 {
        let m = left.lowest();
        t = answer(w, x, p, m, t);
        left = left.rest();
    }
    t
}
