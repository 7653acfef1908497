// FIFO deliveries, and the cascade: while some message is ready, the lowest is delivered. The messages that are ready are
// a set, made once; after a delivery only those of its sender can change.
#![tactic(auto)]

ghost use Rattle.std.specs.Prelude.{true, false, ◌&&◌, ◌≡◌, ℕ, ◌≤◌, ◌<◌};
ghost use Rattle.definitions.specs.General.{bit};
ghost use Rattle.definitions.specs.World.{outside_fifo, State, encode, view, count, next, sender, flight};
ghost use Rattle.definitions.specs.Machine.{ready, appended, raised_next, fifo_one, cascade};
ghost use Rattle.world.specs.Layout.{Changes};
ghost use Rattle.sets.specs.Lowest.{Has};
ghost use Rattle.bounds.specs.Bounds.{Bounds};
ghost use Rattle.index.specs.Index.{Index, Logs, is_from, frame};
ghost use Rattle.cascade.specs.Ready.{Ready};

use cells::Words;
use masks::Set;

// Message m appended to p's FIFO log.
fn append(w: &mut Words, x: &mut index::Table, p: usize, m: usize)
    requires p_in { p < 16 }
    requires m_in { m < view w.old count }
    requires bounds { Bounds (view w.old) }
    requires index { Index (view w.old) x.old }
    requires logs { Logs (view w.old) p }
    requires outside { outside_fifo (view w.old) p m ≡ true }
    ensures words { Changes w.old w.new (λ s. appended s p m) }
    ensures index { Bounds (view w.new) × Index (view w.new) x.new × Logs (view w.new) p }
{
    let n = cells::word(
        w,
        cells::PROCESSES + p * cells::PROCESS + cells::FIFO_LENGTH,
    );
    x[index::LISTED + p] = x[index::LISTED + p].join(m);
    x[index::OPEN + p] = x[index::OPEN + p].join(n);
    logs::push(w, p, false, m);
}

// What p expects of q next rises by 1.
#[tactic(auto, using(crate::specs::Cascade::raised_law))]
pub fn raise_next(w: &mut Words, p: usize, q: usize)
    requires p_in { p < 16 }
    requires q_in { q < 16 }
    requires next_low { view w.old (next p q) ≤ 65 }
    ensures { Changes w.old w.new (λ s. raised_next s p q) }
{
    let x = cells::word(w, cells::PROCESSES + p * cells::PROCESS + cells::NEXTS + q);
    w[cells::PROCESSES + p * cells::PROCESS + cells::NEXTS + q] = (x + 1) as u16;
}

// Message m delivered in FIFO order, with what follows causally and the OKs. The messages of its sender that are ready
// then, and those with an OK.
pub fn fifo_one(w: &mut Words, x: &mut index::Table, p: usize, m: usize) -> sends::Turn
    requires p_in { p < 16 }
    requires m_in { m < view w.old count }
    requires bounds { Bounds (view w.old) }
    requires index { Index (view w.old) x.old }
    requires logs { Logs (view w.old) p }
    requires outside { outside_fifo (view w.old) p m ≡ true }
    ensures words { Changes w.old w.new (λ s. fifo_one s p m) }
    ensures index { Index (view w.new) x.new × Logs (view w.new) p }
    ensures sets { (s : State) → w.old ≡ encode s → Has result.ready (λ k. is_from (frame s) (s (sender m)) k && ready (fifo_one s p m) p k) × ((k : ℕ) → k < 64 → bit result.sent k ≡ false → fifo_one s p m (flight k 2 p) ≡ s (flight k 2 p)) }
{
    let q = cells::word(w, cells::MESSAGES + m * cells::MESSAGE);
    append(w, x, p, m);
    causal::causal_all(w, x, p);
    raise_next(w, p, q);
    sends::send_oks(w, x, p, q)
}

// The messages that are ready at p.
pub fn ready_set(w: &Words, x: &index::Table, p: usize) -> u64
    requires p_in { p < 16 }
    requires bounds { Bounds (view w.now) }
    requires index { Index (view w.now) x.now }
    ensures { Ready (view w.now) p result }
{
    let n = cells::word(w, cells::COUNT);
    let mut set: u64 = 0;
    for m in 0..n {
        set = set.join_if(m, sends::is_ready(w, x, p, m));
    }
    set
}

// The cascade at p, from the messages that are ready. The messages with an OK.
pub fn cascade(w: &mut Words, x: &mut index::Table, p: usize, ready: u64) -> u64
    requires p_in { p < 16 }
    requires bounds { Bounds (view w.old) }
    requires index { Index (view w.old) x.old }
    requires logs { Logs (view w.old) p }
    requires ready { Ready (view w.old) p ready }
    ensures words { Changes w.old w.new (λ s. cascade s p) }
    ensures index { Index (view w.new) x.new × Logs (view w.new) p }
    ensures unsent { (s : State) → w.old ≡ encode s → (k : ℕ) → k < 64 → bit result k ≡ false → cascade s p (flight k 2 p) ≡ s (flight k 2 p) }
{
    let mut left = ready;
    let mut sent: u64 = 0;
    while left != 0 {
        let m = left.lowest();
        let q = cells::word(w, cells::MESSAGES + m * cells::MESSAGE);
        let t = fifo_one(w, x, p, m);
        let own = x[index::OWN + q];
        let rest = sets::minus(left, own);
        left = sets::union(rest, t.ready);
        sent = sets::union(sent, t.sent);
    }
    sent
}
