// The fair settle: arrivals one after the other, the processes served in turn, each with its lowest letter. The letters that
// can move are sorted beside the words once; after an arrival only what it sent is noted, from the words.
#![tactic(auto)]

ghost use Rattle.std.specs.Prelude.{false, ◌≡◌};
ghost use Rattle.definitions.specs.World.{view};
ghost use Rattle.definitions.specs.Settle.{by_turns};
ghost use Rattle.definitions.specs.Words.{settle_words};
ghost use Rattle.definitions.specs.Answers.{ending_of};
ghost use Rattle.world.specs.SoundLaws.{Sound};
ghost use Rattle.index.specs.Index.{Index};
ghost use Rattle.queues.specs.Queues.{Queues};
ghost use Rattle.serving.specs.Serving.{Serves, Served};

use cells::{Letter, Words};
use definitions::Settling;
use masks::Set;

// The arrival of a letter, and the queues after it.
fn serve_one(
    w: &mut Words,
    x: &mut index::Table,
    a: &mut queues::Table,
    up: u16,
    letter: Letter,
    known: bool,
)
    requires { Serves w.old x.old a.old up letter.kind letter.message letter.from letter.to known }
    ensures { Served w.old w.new x.new a.new letter.kind letter.message letter.from letter.to }
{
    let m = letter.message;
    let p = letter.to;
    queues::leave(a, m, letter.kind * 16 + letter.from, p);
    if arrivals::touch(w, x, letter, known) {
        let sent = arrivals::follow(w, x, m, p, known);
        gathering::note_sent(w, a, up, p, sent.messages);
    }
}

// Makes at most `budget` arrivals in a sound world, the processes served in turn from 0 on.
pub fn serve(w: &mut Words, x: &mut index::Table, a: &mut queues::Table, budget: u32) -> Settling
    requires sound { Sound (view w.old) }
    requires index { Index (view w.old) x.old }
    requires none { Queues (λ _ _ _. false) a.old }
    ensures answer { ending_of result ≡ (settle_words by_turns w.old budget).ending }
    ensures words { w.new ≡ (settle_words by_turns w.old budget).world }
{
    let up = letters::up_mask(w);
    gathering::gather(w, a, up);
    let mut quiescent: u16 = 0;
    let mut turn: usize = 0;
    for made in 0..budget {
        let Some(p) = queues::served(a[queues::WAITING], turn) else {
            return Settling::Done(made);
        };
        let m = a[queues::MESSAGES + p].lowest();
        let place = a[m * 16 + p].lowest();
        let letter = Letter {
            kind: place / 16,
            message: m,
            from: place % 16,
            to: p,
        };
        let known = quiescent.has(p);
        serve_one(w, x, a, up, letter, known);
        quiescent = quiescent.join(p);
        turn = p + 1;
    }
    match queues::served(a[queues::WAITING], turn) {
        Some(_) => Settling::Stopped(budget),
        None => Settling::Done(budget),
    }
}
