// A letter that arrives or is lost: it leaves flight, and an OK sets its mark.
#![tactic(auto)]

ghost use Rattle.std.specs.Prelude.{◌≡◌, ◌<◌, eqb};
ghost use Rattle.definitions.specs.General.{pick, with};
ghost use Rattle.definitions.specs.Machine.{leave, mark};
ghost use Rattle.world.specs.Layout.{Changes};

use cells::{Letter, Words};
use masks::Set;

// The letter leaves flight.
#[tactic(auto, using(crate::specs::Receiving::leave_law))]
pub fn take_out(w: &mut Words, letter: Letter)
    requires kind_in { letter.kind < 3 }
    requires message_in { letter.message < 64 }
    requires from_in { letter.from < 16 }
    requires to_in { letter.to < 16 }
    ensures { Changes w.old w.new (λ s. leave s letter.kind letter.message letter.from letter.to) }
{
    let x = cells::letters(w, letter.message, letter.kind, letter.from);
    let y = x.drop(letter.to);
    cells::set_letters(w, letter.message, letter.kind, letter.from, y);
}

// The marks with that of q, where the letter is an OK.
fn with_mark(marks: u16, k: usize, q: usize) -> u16
    requires { q < 16 }
    ensures { result ≡ pick (eqb k 2) (with marks q) marks }
{
    if k == 2 {
        return marks.join(q);
    }
    marks
}

// An OK sets the mark of its origin. The word is written in any case, so that there is no branch.
#[tactic(auto, using(crate::specs::Receiving::mark_law))]
pub fn set_mark(w: &mut Words, letter: Letter)
    requires message_in { letter.message < 64 }
    requires from_in { letter.from < 16 }
    requires to_in { letter.to < 16 }
    ensures { Changes w.old w.new (λ s. mark s letter.kind letter.message letter.from letter.to) }
{
    let a = cells::PROCESSES + letter.to * cells::PROCESS + cells::MARKS + letter.message;
    w[a] = with_mark(w[a], letter.kind, letter.from);
}
