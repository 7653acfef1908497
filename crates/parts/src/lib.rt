// Parts of byte slices: filled, and tested for zeros.
#![tactic(auto)]

ghost use Rattle.std.specs.Prelude.{◌≡◌, ◌≤◌, length};
ghost use Rattle.definitions.specs.General.{filled, all_zero};

// Fills the part with the bytes of s, and with zeros after them.
pub fn fill(part: &mut [u8], s: &[u8])
    requires { length s.now ≤ length part.old }
    ensures { part.new ≡ filled (length part.old) s.now }
{
    let n = s.len();
    slices::copy(s, &mut part[..n]);
    part[n..].fill(0);
}

// Whether every byte is zero: gathered over the whole slice and tested once.
pub fn all_zero(s: &[u8]) -> bool
    ensures { result ≡ all_zero s.now }
{
    let mut any: u8 = 0;
    for x in s {
        any |= *x;
    }
    any == 0
}
