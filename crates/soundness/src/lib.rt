// The soundness test: whether lent words are a sound world, sentence by sentence of document 01, section "The
// world". What exists is tested first; then the blocks, against tables built once; absent processes are one
// range of zeros, absent messages and the words after them another. What it gathers is left as the index of the world.
#![tactic(auto)]

ghost use Rattle.std.specs.Prelude.{◌≡◌};
ghost use Rattle.definitions.specs.World.{view};
ghost use Rattle.definitions.specs.Sound.{sound};
ghost use Rattle.heads.specs.Known.{Sized, Grouped, Placed, Headed};
ghost use Rattle.blocks.specs.Known.{Ready, Tables};
ghost use Rattle.soundness.specs.Whole.{beyond_fine};
ghost use Rattle.soundness.specs.Indexed.{Room, Entered, Tested};

use blocks::Known;
use cells::Words;

// Leaves the addressees of each message in an index, and the messages of each sender, whatever it held.
fn enter(x: &mut index::Table, t: &Known)
    requires { Room t.now }
    ensures { Entered t.now.addressees t.now.from t.now.count x.new }
{
    x.fill(0);
    for m in 0..t.count {
        // a cast, since std has no `From<u32>` for usize
        let q = t.from[m] as usize;
        x[index::OWN + q] |= t.bits[m];
        x[m] = u64::from(t.addressees[m]);
    }
}

// Whether all may stand that is past the blocks of the processes.
fn beyond(w: &Words, t: &Known) -> bool
    requires { Ready w.now t.now }
    ensures { result ≡ beyond_fine w.now t.now.size t.now.count }
{
    let past = t.size * cells::PROCESS;
    let rest = t.count * cells::MESSAGE;
    ranges::zeros(&w[cells::PROCESSES + past..cells::MESSAGES])
        & blocks::messages(w, t)
        & ranges::zeros(&w[cells::MESSAGES + rest..])
}

// Whether the world is sound, by what is known; and then its index is left in x.
fn tabled(w: &Words, t: &Known, x: &mut index::Table) -> bool
    requires ready { Ready w.now t.now }
    requires tables { Tables (view w.now) t.now }
    ensures { Tested (view w.now) result x.new }
{
    enter(x, t);
    let first = blocks::processes(w, t, x);
    first & beyond(w, t)
}

// Whether the world is sound, where what exists has been tested; and then its index is left in x.
fn whole(w: &Words, size: usize, count: usize, groups: u16, x: &mut index::Table) -> bool
    requires sized { Sized w.now size count }
    requires grouped { Grouped (view w.now) groups }
    requires placed { Placed (view w.now) }
    requires headed { Headed (view w.now) }
    ensures { Tested (view w.now) result x.new }
{
    let t = Known {
        size,
        count,
        limits: limits::limits(size, groups, w[cells::COUNT]),
        addressees: limits::addressees(w, size, count),
        from: limits::senders(w, size, count),
        bits: sets::bits(),
    };
    tabled(w, &t, x)
}

// Whether the words are a sound world; and then its index is left in x.
pub fn test_and_index(w: &Words, x: &mut index::Table) -> bool
    ensures { Tested (view w.now) result x.new }
{
    let n = cells::word(w, cells::SIZE);
    let count = cells::word(w, cells::COUNT);
    if !heads::header(n, count, cells::word(w, 2)) {
        return false;
    }
    let Some(groups) = heads::groups(w, n, count) else {
        return false;
    };
    if !heads::messages(w, n, count, groups) {
        return false;
    }
    whole(w, n, count, groups, x)
}

// Whether the words are a sound world.
pub fn test(w: &Words) -> bool
    ensures { result ≡ sound (view w.now) }
{
    let mut x: index::Table = [0; 112];
    test_and_index(w, &mut x)
}
