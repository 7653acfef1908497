// The words of a world: the places of docs/LAYOUT.md, a word read, letters read and stored, and parts read and stored.
#![tactic(auto)]

ghost use Rattle.std.specs.Prelude.{◌≡◌, ◌+◌, ◌*◌, ◌≤◌, ◌<◌, length, take, drop, get_or, set};
ghost use Rattle.base.specs.Tabulate.{splice};

// The words of a world.
pub type Words = [u16; 20480];

// The words of the world itself.
pub const SIZE: usize = 0;

pub const COUNT: usize = 1;

// Process p's block begins at PROCESSES + p * PROCESS. That p is below 16, and a message below 64, is a clause of each function
// and no type: addresses are reckoned from them, so that a type would be made, with a proof, in every loop and taken apart at
// every address.
pub const PROCESSES: usize = 3;

pub const PROCESS: usize = 429;

// Offsets in it.
pub const TRUST: usize = 1;

pub const COUNTERS: usize = 2;

pub const SEQUENCES: usize = 130;

pub const NEXTS: usize = 138;

pub const DELIVERED: usize = 154;

pub const UP: usize = 170;

pub const FIFO_LENGTH: usize = 171;

pub const CAUSAL_LENGTH: usize = 172;

pub const HELD: usize = 173;

pub const MARKS: usize = 237;

pub const FIFO: usize = 301;

pub const CAUSAL: usize = 365;

// Message m's block begins at MESSAGES + m * MESSAGE.
pub const MESSAGES: usize = 6867;

pub const MESSAGE: usize = 187;

// Offsets in it: the sender stands first.
pub const MASK: usize = 1;

pub const STAMPS: usize = 2;

pub const NUMBERS: usize = 130;

pub const FLIGHT: usize = 138;

pub const ORDER: usize = 186;

// A letter: its kind, the number of its message, its origin and its receiver. Numbers, since its place is
// reckoned from them: an enum of the three kinds would be turned back and forth in the searches, which go through places.
#[derive(Clone, Copy)]
pub struct Letter {
    pub kind: usize,
    pub message: usize,
    pub from: usize,
    pub to: usize,
}

// The word at a.
pub fn word(w: &[u16], a: usize) -> usize
    requires { a < length w.now }
    ensures { result ≡ get_or w.now a 0 }
{
    usize::from(w[a])
}

// The receivers of the letters of kind k for message m from q.
pub fn letters(w: &Words, m: usize, k: usize, q: usize) -> u16
    requires { (m < 64) × (k < 3) × (q < 16) }
    ensures { result ≡ get_or w.now (6867 + m * 187 + 138 + (k * 16 + q)) 0 }
{
    w[MESSAGES + m * MESSAGE + FLIGHT + (k * 16 + q)]
}

// Stores them.
pub fn set_letters(w: &mut Words, m: usize, k: usize, q: usize, to: u16)
    requires { (m < 64) × (k < 3) × (q < 16) }
    ensures { w.new ≡ set w.old (6867 + m * 187 + 138 + (k * 16 + q)) to }
{
    w[MESSAGES + m * MESSAGE + FLIGHT + (k * 16 + q)] = to;
}

// Fills a with the words from at on.
pub fn get(w: &[u16], at: usize, a: &mut [u16])
    requires { at + length a.old ≤ length w.now }
    ensures { a.new ≡ take (length a.old) (drop at w.now) }
{
    let e = at + a.len();
    slices::copy(&w[at..e], a);
}

// Stores the words of a from at on.
pub fn put(w: &mut [u16], at: usize, a: &[u16])
    requires { at + length a.now ≤ length w.old }
    ensures { w.new ≡ splice w.old at a.now }
{
    let e = at + a.len();
    slices::copy(a, &mut w[at..e]);
}
