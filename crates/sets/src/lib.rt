// Sets of numbers below 64, one bit for each: two joined, one taken from another; the set of the items of a log.
#![tactic(auto)]

ghost use Rattle.std.specs.Prelude.{◌≡◌, not, ◌&&◌, ◌||◌, ℕ, ◌<◌, length};
ghost use Rattle.definitions.specs.General.{bit};
ghost use Rattle.sets.specs.Members.{Members, item_of};
ghost use Rattle.sets.specs.Powers.{Powers, Low};

// The members of a that b lacks.
pub fn minus(a: u64, b: u64) -> u64
    ensures { (i : ℕ) → i < 64 → bit result i ≡ (bit a i && not (bit b i)) }
{
    a - (a & b)
}

// The members of a or b.
pub fn union(a: u64, b: u64) -> u64
    ensures { (i : ℕ) → bit result i ≡ (bit a i || bit b i) }
{
    a | b
}

// The set of i alone, for each i below 64.
pub fn bits() -> [u64; 64]
    ensures { Powers result }
{
    let mut t: [u64; 64] = [0; 64];
    for (i, x) in t.iter_mut().enumerate() {
        *x = 1 << i;
    }
    t
}

// The words of a part, all of them below 64, as a set; the bits are lent.
pub fn of(part: &[u16], bits: &[u64; 64]) -> u64
    requires low { Low part.now }
    requires powers { Powers bits.now }
    ensures { Members result (length part.now) (item_of part.now) }
{
    let mut set: u64 = 0;
    for x in part {
        set |= bits[usize::from(*x)];
    }
    set
}
