// The tables that the soundness test builds once: the limits of what is counted, the addressees and the sender of each
// message.
#![tactic(auto)]

ghost use Rattle.std.specs.Prelude.{◌+◌, ◌≤◌, length};
ghost use Rattle.definitions.specs.World.{view};
ghost use Rattle.heads.specs.Known.{Sized, Placed};
ghost use Rattle.limits.specs.Limits.{Filled, Limits};
ghost use Rattle.limits.specs.Senders.{Senders};
ghost use Rattle.limits.specs.Members.{Members, Joined};
ghost use Rattle.limits.specs.Addressees.{Addressees};

use cells::Words;
use masks::Set;

// Stores v in the n places from a on.
fn fill(t: &mut [u16], a: usize, n: usize, v: u16)
    requires { a + n ≤ length t.old }
    ensures { Filled t.old a n v t.new }
{
    t[a..a + n].fill(v);
}

// The most that each place may hold: 8 groups by 16 processes, then 8 groups alone, then 16 processes alone, with the
// count where they exist; then what a log of 64 places has, and as many places past it.
pub fn limits(n: usize, groups: u16, count: u16) -> [u16; 280]
    requires { n ≤ 16 }
    ensures { Limits n groups count result }
{
    let mut t: [u16; 280] = [0; 280];
    fill(&mut t, 136, n, count);
    fill(&mut t, 152, 64, 63);
    for g in 0..8 {
        if groups.has(g) {
            fill(&mut t, g * 16, n, count);
            t[128 + g] = count;
        }
    }
    t
}

// The sender of each message, 0 past the count.
pub fn senders(w: &Words, n: usize, count: usize) -> [u32; 64]
    requires { Sized w.now n count }
    ensures { Senders (view w.now) count result }
{
    let mut t: [u32; 64] = [0; 64];
    for m in 0..count {
        t[m] = u32::from(w[cells::MESSAGES + m * cells::MESSAGE]);
    }
    t
}

// The processes of each group.
fn members(w: &Words, n: usize, count: usize) -> [u16; 8]
    requires sized { Sized w.now n count }
    requires placed { Placed (view w.now) }
    ensures { Members (view w.now) n result }
{
    let mut t: [u16; 8] = [0; 8];
    for p in 0..n {
        let g = cells::word(w, cells::PROCESSES + p * cells::PROCESS);
        t[g] = t[g].join(p);
    }
    t
}

// The processes of the groups of a mask.
fn addressed(members: &[u16; 8], to: u16) -> u16
    ensures { Joined members.now to 8 result }
{
    let mut set: u16 = 0;
    for (g, of) in members.iter().enumerate() {
        if to.has(g) {
            set |= *of;
        }
    }
    set
}

// The addressees of each message, none past the count.
pub fn addressees(w: &Words, n: usize, count: usize) -> [u16; 64]
    requires sized { Sized w.now n count }
    requires placed { Placed (view w.now) }
    ensures { Addressees (view w.now) result }
{
    let of = members(w, n, count);
    let mut t: [u16; 64] = [0; 64];
    for m in 0..count {
        t[m] = addressed(&of, w[cells::MESSAGES + m * cells::MESSAGE + cells::MASK]);
    }
    t
}
