// The multicast of a message by process p to the groups of a mask, with an order number: p's counters and sequence counts rise,
// are then copied onto the message, the message is numbered, and first letters go in flight.
#![tactic(auto)]

ghost use Rattle.std.specs.Prelude.{◌≡◌, ◌+◌, ◌<◌, get_or, set};
ghost use Rattle.definitions.specs.General.{bit, pick, with};
ghost use Rattle.definitions.specs.World.{count, view, encode};
ghost use Rattle.definitions.specs.Machine.{addressees, numbered, multicast};
ghost use Rattle.world.specs.Layout.{Changes};
ghost use Rattle.bounds.specs.Bounds.{Bounds};
ghost use Rattle.index.specs.Index.{Index};
ghost use Rattle.multicasts.specs.Raise.{Below, raised_one, raised_below, Low};
ghost use Rattle.multicasts.specs.Multicast.{with_stamps, with_copy};

use cells::Words;
use masks::Set;

// The record of p with C[g][p] and b[g] raised, if the mask has g.
fn raise_one(r: records::Process, p: usize, g: usize, groups: u16) -> records::Process
    requires p_in { p < 16 }
    requires g_in { g < 8 }
    requires counters { Below 60000 r.counters }
    requires sequences { Below 60000 r.sequences }
    ensures { result ≡ pick (bit groups g) (raised_one r p g) r }
{
    if groups.has(g) {
        let mut q = r;
        q.counters[g * 16 + p] += 1;
        q.sequences[g] += 1;
        return q;
    }
    r
}

// The record of p with C[g][p] and b[g] raised for every group g of the mask.
fn raise_all(r: records::Process, p: usize, groups: u16) -> records::Process
    requires p_in { p < 16 }
    requires counters { Below 1000 r.counters }
    requires sequences { Below 1000 r.sequences }
    ensures { result ≡ raised_below 8 p groups r }
{
    let mut q = r;
    for g in 0..8 {
        q = raise_one(q, p, g, groups);
    }
    q
}

// Copies the counters and sequence counts of a record onto message m as C and s.
fn stamp(w: &mut Words, m: usize, r: records::Process)
    requires { m < 64 }
    ensures { Changes w.old w.new (λ s. with_stamps s m r) }
{
    cells::put(
        w,
        cells::MESSAGES + m * cells::MESSAGE + cells::STAMPS,
        &r.counters,
    );
    cells::put(
        w,
        cells::MESSAGES + m * cells::MESSAGE + cells::NUMBERS,
        &r.sequences,
    );
}

// Raises what p counts of the groups of the mask, and only then copies it onto message m.
fn raise(w: &mut Words, p: usize, groups: u16, m: usize)
    requires p_in { p < 16 }
    requires m_in { m < 64 }
    requires low { Low (view w.old) p }
    ensures { Changes w.old w.new (λ s. with_copy s p groups m) }
{
    let r = records::load(w, p);
    let q = raise_all(r, p, groups);
    records::store(w, p, q);
    stamp(w, m, q);
}

// The next message is p's, to the groups of the mask, with this order number.
#[tactic(auto, using(crate::specs::Multicast::numbered_law))]
fn enter(w: &mut Words, p: usize, groups: u16, order: u16)
    requires p_in { p < 16 }
    requires room { view w.old count < 64 }
    ensures { Changes w.old w.new (λ s. numbered s p groups order) }
{
    let m = cells::word(w, cells::COUNT);
    let at = cells::MESSAGES + m * cells::MESSAGE;
    w[at] = p as u16;
    w[at + cells::MASK] = groups;
    w[at + cells::ORDER] = order;
    w[cells::COUNT] = (m + 1) as u16;
}

// Message m of p, and who its addressees are, go into the index.
fn index_new(w: &Words, x: &mut index::Table, p: usize, m: usize)
    requires p_in { p < 16 }
    requires m_in { m < 64 }
    requires bounds { Bounds (view w.now) }
    ensures { x.new ≡ set (set x.old m (addressees (view w.now) m)) (64 + p) (with (get_or x.old (64 + p) 0) m) }
{
    x[m] = u64::from(sends::addressees_of(w, m));
    x[index::OWN + p] = x[index::OWN + p].join(m);
}

// The whole multicast.
pub fn send_new(w: &mut Words, x: &mut index::Table, p: usize, groups: u16, order: u16)
    requires p_in { p < 16 }
    requires room { view w.old count < 64 }
    requires bounds { Bounds (view w.old) }
    requires low { Low (view w.old) p }
    requires index { Index (view w.old) x.old }
    ensures words { w.new ≡ encode (multicast (view w.old) p groups order) }
    ensures index { Index (view w.new) x.new }
{
    let m = cells::word(w, cells::COUNT);
    raise(w, p, groups, m);
    enter(w, p, groups, order);
    index_new(w, x, p, m);
    sends::send(w, x, p, m, 0);
}
