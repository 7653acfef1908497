// A step as it is given, 8 bytes, read: kind, operands, zeros.
#![tactic(auto)]

ghost use Rattle.std.specs.Prelude.{◌≡◌, ◌≤◌, ◌<◌, get_or};
ghost use Rattle.definitions.specs.General.{low_first};
ghost use Rattle.definitions.specs.Steps.{zeros_from, read};
ghost use Rattle.given.specs.Given.{asked_for, letter_in};

use cells::Letter;

// What the bytes ask for. A multicast is its process, group mask and order number. Steps are of these kinds and no other, so
// that what is done with one is a match.
#[derive(Clone, Copy)]
pub enum Given {
    Multicast(usize, u16, u16),
    Arrival(Letter),
    Loss(Letter),
    Trust(usize, u16),
    Crash(usize),
}

// The 16 bits at byte i, low byte first.
fn low_first(bytes: &[u8; 8], i: usize) -> u16
    requires { i < 7 }
    ensures { result ≡ low_first bytes.now i }
{
    u16::from_le_bytes([bytes[i], bytes[i + 1]])
}

// Whether the bytes from i on are zero: gathered, and tested once. Not by `parts::all_zero`, whose definition is of a journal's
// bytes and not of a step's.
fn zeros(bytes: &[u8; 8], i: usize) -> bool
    requires { i ≤ 8 }
    ensures { result ≡ zeros_from bytes.now i }
{
    let mut ok = true;
    for b in &bytes[i..] {
        ok &= *b == 0;
    }
    ok
}

// The letter of an arrival or a loss: none, where the bytes are not well formed. Its kind is below 3, and bytes 5 to 7 are zero.
pub fn letter(bytes: &[u8; 8]) -> Option<Letter>
    ensures { result ≡ letter_in bytes.now }
{
    if bytes[1] < 3 && zeros(bytes, 5) {
        return Some(Letter {
            kind: usize::from(bytes[1]),
            message: usize::from(bytes[2]),
            from: usize::from(bytes[3]),
            to: usize::from(bytes[4]),
        });
    }
    None
}

// The step of bytes whose kind is that of a multicast.
fn multicast(bytes: &[u8; 8]) -> Option<Given>
    requires { get_or bytes.now 0 0 ≡ 1 }
    ensures { asked_for result ≡ read bytes.now }
{
    if zeros(bytes, 5) {
        return Some(Given::Multicast(
            usize::from(bytes[1]),
            u16::from(bytes[2]),
            low_first(bytes, 3),
        ));
    }
    None
}

// The step of bytes whose kind is that of a trust step.
fn trust(bytes: &[u8; 8]) -> Option<Given>
    requires { get_or bytes.now 0 0 ≡ 4 }
    ensures { asked_for result ≡ read bytes.now }
{
    if zeros(bytes, 4) {
        return Some(Given::Trust(usize::from(bytes[1]), low_first(bytes, 2)));
    }
    None
}

// The step of bytes whose kind is that of a crash.
fn crash(bytes: &[u8; 8]) -> Option<Given>
    requires { get_or bytes.now 0 0 ≡ 5 }
    ensures { asked_for result ≡ read bytes.now }
{
    if zeros(bytes, 2) {
        return Some(Given::Crash(usize::from(bytes[1])));
    }
    None
}

// The step that the bytes ask for: none, where they are malformed.
pub fn take(bytes: &[u8]) -> Option<Given>
    ensures { asked_for result ≡ read bytes.now }
{
    let Ok(step) = <&[u8; 8]>::try_from(bytes) else {
        return None;
    };
    match step[0] {
        1 => multicast(step),
        2 => Some(Given::Arrival(letter(step)?)),
        3 => Some(Given::Loss(letter(step)?)),
        4 => trust(step),
        5 => crash(step),
        _ => None,
    }
}
