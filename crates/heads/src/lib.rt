// What exists in a world: whether n and the count obey the limits, the groups of the processes are numbered
// without a gap, and each message has a sender and a mask that exist.
#![tactic(auto)]

ghost use Rattle.std.specs.Prelude.{◌≡◌, ◌&&◌, leb, eqb};
ghost use Rattle.definitions.specs.World.{view};
ghost use Rattle.heads.specs.Known.{Sized, Grouped};
ghost use Rattle.heads.specs.Groups.{GroupSet, GroupTest};
ghost use Rattle.heads.specs.Messages.{head_ok, heads_fine};

use cells::Words;
use masks::Set;

// Whether n, the count and the word for a later rule obey the limits.
pub fn header(n: usize, count: usize, rule: usize) -> bool
    ensures { result ≡ (((leb 1 n && leb n 16) && leb count 64) && eqb rule 0) }
{
    (1 <= n) & (n <= 16) & (count <= 64) & (rule == 0)
}

// The set of the processes' groups modulo 8, and the bits that any group has.
#[derive(Drop)]
struct Gathered {
    set: u16,
    any: usize,
}

fn gather(w: &Words, n: usize, count: usize) -> Gathered
    requires { Sized w.now n count }
    ensures { GroupSet (view w.now) n result.set result.any }
{
    let mut set: u16 = 0;
    let mut any: usize = 0;
    for p in 0..n {
        let g = cells::word(w, cells::PROCESSES + p * cells::PROCESS);
        any |= g;
        set = set.join(g % 8);
    }
    Gathered { set, any }
}

// The set of the groups, where they are at most 8 and numbered from 0 without a gap.
pub fn groups(w: &Words, n: usize, count: usize) -> Option<u16>
    requires { Sized w.now n count }
    ensures { GroupTest (view w.now) n result }
{
    let Gathered { set, any } = gather(w, n, count);
    let above = set >> 1;
    let good = ((any >> 3) == 0) & (above & set == above);
    if good { Some(set) } else { None }
}

// Whether a message may have this sender and this mask.
fn head(sender: usize, mask: u16, n: usize, groups: u16) -> bool
    ensures { result ≡ head_ok sender mask n groups }
{
    (sender < n) & (mask != 0) & (mask & groups == mask)
}

// Whether each message has an existing sender and a non-empty mask of existing groups.
pub fn messages(w: &Words, n: usize, count: usize, groups: u16) -> bool
    requires sized { Sized w.now n count }
    requires grouped { Grouped (view w.now) groups }
    ensures { result ≡ heads_fine (view w.now) count }
{
    let mut ok = true;
    for m in 0..count {
        let at = cells::MESSAGES + m * cells::MESSAGE;
        ok &= head(cells::word(w, at), w[at + cells::MASK], n, groups);
    }
    ok
}
