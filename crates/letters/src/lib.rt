// The search for the lowest letter to an up process, by message, kind, from, to, from a place before which none stands.
#![tactic(auto)]

ghost use Rattle.std.specs.Prelude.{◌≡◌, ◌≤◌, ◌<◌};
ghost use Rattle.definitions.specs.General.{mask_of};
ghost use Rattle.definitions.specs.World.{size, count, view};
ghost use Rattle.definitions.specs.Steps.{is_up};
ghost use Rattle.definitions.specs.Settle.{lowest, any};
ghost use Rattle.letters.specs.Letters.{choice_of};
ghost use Rattle.letters.specs.Search.{waiting};
ghost use Rattle.letters.specs.Places.{Passed};

use cells::{Letter, Words};
use masks::Set;

// The up processes, as a mask.
pub fn up_mask(w: &Words) -> u16
    requires { view w.now size ≤ 16 }
    ensures { result ≡ mask_of (view w.now size) (is_up (view w.now)) }
{
    let n = cells::word(w, cells::SIZE);
    let mut mask: u16 = 0;
    for q in 0..n {
        mask = mask.join_if(
            q,
            cells::word(w, cells::PROCESSES + q * cells::PROCESS + cells::UP) == 1,
        );
    }
    mask
}

// The up receivers of the letters of kind k for m from q, whether q is up or down.
pub fn receivers(w: &Words, up: u16, m: usize, k: usize, q: usize) -> u16
    requires places { (m < 64) × (k < 3) × (q < 16) }
    requires ups { up ≡ mask_of (view w.now size) (is_up (view w.now)) }
    ensures { result ≡ waiting (view w.now) m k q }
{
    cells::letters(w, m, k, q) & up
}

// A place in the search for the lowest letter: a message, a kind, an origin.
#[derive(Clone, Copy)]
pub struct Place {
    pub message: usize,
    pub kind: usize,
    pub origin: usize,
}

// The lowest letter to an up process, by message, kind, from, to. None stands before the place.
pub fn lowest_letter(w: &Words, up: u16, from: Place) -> Option<Letter>
    requires processes { view w.now size ≤ 16 }
    requires messages { view w.now count ≤ 64 }
    requires ups { up ≡ mask_of (view w.now size) (is_up (view w.now)) }
    requires passed { Passed (view w.now) from }
    ensures { choice_of result ≡ lowest any (view w.now) }
{
    let n = cells::word(w, cells::SIZE);
    let messages = cells::word(w, cells::COUNT);
    let mut found = None;
    let mut m = from.message;
    let mut k = from.kind;
    let mut q = from.origin;
    // Whiles, since the search begins at a place within the three of them.
    'search: while m < messages {
        while k < 3 {
            while q < n {
                let p = receivers(w, up, m, k, q).lowest();
                if p < n {
                    found = Some(Letter {
                        kind: k,
                        message: m,
                        from: q,
                        to: p,
                    });
                    break 'search;
                }
                q += 1;
            }
            q = 0;
            k += 1;
        }
        k = 0;
        m += 1;
    }
    found
}
