// Tests over the regions of a world whose words rest on other words: held flags and marks, letters, next.
#![tactic(auto)]

ghost use Rattle.std.specs.Prelude.{◌≡◌, ◌+◌, ◌-◌, ◌*◌, ◌≤◌, ◌<◌, eqb, length};
ghost use Rattle.std.specs.Int.Bits.{bit_and};
ghost use Rattle.definitions.specs.General.{pick, bit};
ghost use Rattle.definitions.specs.World.{view};
ghost use Rattle.limits.specs.Addressees.{Addressees};
ghost use Rattle.regions.specs.Rows.{Block, row_ok, rows_fine};
ghost use Rattle.regions.specs.Letters.{letter_ok, letters_at};
ghost use Rattle.regions.specs.Nexts.{Small, next_of, nexts_at};

use cells::Words;
use masks::Set;

// 1 where the mask has p, else 0.
fn flag(mask: u16, p: usize) -> u16
    requires { p < 16 }
    ensures { result ≡ pick (bit mask p) 1 0 }
{
    u16::from(mask.has(p))
}

// What of x the other mask lacks, if it counts (1); else all of x (0).
fn lacking(x: u16, mask: u16, counts: u16) -> u16
    requires { counts ≤ 1 }
    ensures { result ≡ x - bit_and x (mask * counts) }
{
    x - (x & (mask * counts))
}

// 0 where process p may have this held flag and these marks for a message with these addressees.
fn row(held: u16, marks: u16, to: u16, p: usize) -> u16
    requires { p < 16 }
    ensures { eqb result 0 ≡ row_ok held marks to p }
{
    let mine = flag(to, p);
    lacking(marks, to, mine) | ranges::excess(held, mine)
}

// Whether the held flags and the marks of process p are only for messages addressed to it, the marks only from
// addressees.
pub fn rows(w: &Words, p: usize, addressees: &[u16; 64]) -> bool
    requires block { Block w.now p }
    requires addressees { Addressees (view w.now) addressees.now }
    ensures { result ≡ rows_fine (view w.now) p }
{
    let at = cells::PROCESSES + p * cells::PROCESS;
    let mut any: u16 = 0;
    for m in 0..64 {
        any |= row(
            w[at + cells::HELD + m],
            w[at + cells::MARKS + m],
            addressees[m],
            p,
        );
    }
    any == 0
}

// Whether letters from q may be in flight to these receivers.
fn letter(receivers: u16, origins: u16, to: u16, q: usize) -> bool
    requires { q < 16 }
    ensures { result ≡ letter_ok receivers origins to q }
{
    if origins.has(q) {
        receivers & to == receivers
    } else {
        receivers == 0
    }
}

// Whether the 16 masks of receivers from a on are only for the origins, and only among the addressees.
pub fn letters(w: &[u16], a: usize, origins: u16, to: u16) -> bool
    requires { a + 16 ≤ length w.now }
    ensures { result ≡ letters_at w.now a origins to }
{
    let mut ok = true;
    for q in 0..16 {
        ok &= letter(w[a + q], origins, to, q);
    }
    ok
}

// What next[q] must be where x messages of q are in the log.
fn expected(x: u16, n: usize, q: usize) -> u16
    requires { x ≤ 64 }
    ensures { result ≡ next_of x n q }
{
    if q < n { x + 1 } else { 0 }
}

// Whether each of the 16 words from a on is next for what was counted, and zero from n on.
pub fn nexts(w: &[u16], a: usize, n: usize, t: &[u16; 16]) -> bool
    requires a_in_bounds { a + 16 ≤ length w.now }
    requires small { Small t.now }
    ensures { result ≡ nexts_at w.now a n t.now }
{
    let mut ok = true;
    for q in 0..16 {
        ok &= w[a + q] == expected(t[q], n, q);
    }
    ok
}
