// Tests over a run of words: what offends is gathered by or over the whole run, and tested once.
#![tactic(auto)]

ghost use Rattle.std.specs.Prelude.{◌≡◌, ◌-◌, length};
ghost use Rattle.ranges.specs.Ranges.{all_zero, all_within};

// Whether the words are all zero. As `parts::all_zero` of bytes: one function of both would need a trait with a law of `|`, and
// `all` of an iterator stops at the first that is not, which the compiler makes no wide loop of.
pub fn zeros(part: &[u16]) -> bool
    ensures { result ≡ all_zero part.now }
{
    let mut any: u16 = 0;
    for x in part {
        any |= *x;
    }
    any == 0
}

// By how much x is above the limit.
pub fn excess(x: u16, limit: u16) -> u16
    ensures { result ≡ x - limit }
{
    x.saturating_sub(limit)
}

// Whether the words are at most as many limits.
pub fn within(part: &[u16], limits: &[u16]) -> bool
    requires { length part.now ≡ length limits.now }
    ensures { result ≡ all_within part.now limits.now }
{
    let mut any: u16 = 0;
    // By index: of a zip the proof would say all that the two iterators yield.
    for i in 0..part.len() {
        any |= excess(part[i], limits[i]);
    }
    any == 0
}
