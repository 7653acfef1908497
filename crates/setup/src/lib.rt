// The setup record of a world: read and tested.
#![tactic(auto)]

ghost use Rattle.std.specs.Prelude.{◌≡◌, ◌≤◌, ◌<◌};
ghost use Rattle.definitions.specs.World.{has_group};
ghost use Rattle.definitions.specs.Setup.{fresh, setup_bits, good_setup};
ghost use Rattle.setup.specs.Groups.{group_in, follows, no_gap};

// The 48 bits of a setup record, low byte first.
pub fn bits(setup: &[u8; 8]) -> u64
    ensures { result ≡ setup_bits setup.now }
{
    u64::from_le_bytes(*setup) >> 16
}

// The group of process i.
#[tactic(auto, unfolding(crate::specs::Groups::group_in))]
pub fn group_of(bits: u64, i: usize) -> u64
    requires { i < 16 }
    ensures { result ≡ group_in bits i }
{
    (bits >> (3 * i)) % 8
}

// Whether some process below n is of group g.
fn has(bits: u64, n: usize, g: u64) -> bool
    requires { n ≤ 16 }
    ensures { result ≡ has_group (fresh n (group_in bits)) g }
{
    for p in 0..n {
        if group_of(bits, p) == g {
            return true;
        }
    }
    false
}

// Whether the group of p is 0, or follows one that a process has.
fn follows_one(bits: u64, n: usize, p: usize) -> bool
    requires { (n ≤ 16) × (p < n) }
    ensures { result ≡ follows bits n p }
{
    let g = group_of(bits, p);
    g == 0 || has(bits, n, g - 1)
}

// Whether the groups are numbered from 0 without a gap.
fn without_gap(bits: u64, n: usize) -> bool
    requires { n ≤ 16 }
    ensures { result ≡ no_gap bits n }
{
    for p in 0..n {
        if !follows_one(bits, n, p) {
            return false;
        }
    }
    true
}

// Whether a setup record is one: 8 bytes, a zero, n from 1 to 16, and n groups without a gap.
pub fn good(setup: &[u8]) -> bool
    ensures { result ≡ good_setup setup.now }
{
    let Ok(setup) = <&[u8; 8]>::try_from(setup) else {
        return false;
    };
    let n = usize::from(setup[1]);
    if setup[0] != 0 || n < 1 || 16 < n {
        return false;
    }
    let all = bits(setup);
    all >> (3 * n) == 0 && without_gap(all, n)
}
