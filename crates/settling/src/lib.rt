// Settle: arrivals one after the other, each of the lowest letter to an up process. The letters of one place go to its
// receivers in a batch, as long as none sends a letter at that place or below; then the search goes on from there. The
// processes at which a letter has arrived are known to be quiescent.
#![tactic(auto)]

ghost use Rattle.std.specs.Prelude.{◌≢◌, ◌≡◌, ◌<◌};
ghost use Rattle.index.specs.Index.{Index};
ghost use Rattle.definitions.specs.World.{view, size, count};
ghost use Rattle.definitions.specs.Settle.{lowest_first};
ghost use Rattle.definitions.specs.Words.{settle_words};
ghost use Rattle.definitions.specs.Answers.{ending_of};
ghost use Rattle.world.specs.SoundLaws.{Sound};
ghost use Rattle.settling.specs.Places.{next_at};
ghost use Rattle.settling.specs.Batch.{Receives, Batched};

use cells::{Letter, Words};
use definitions::Settling;
use letters::Place;
use masks::Set;

// Where the search goes on after the arrival of a letter of a place that sent none below r.
fn next_place(from: Place, r: usize) -> Place
    requires { (from.kind < 3) × (from.message < 64) × (from.origin < 16) }
    ensures { result ≡ next_at from.kind from.message from.origin r }
{
    if r < from.message * 48 + from.kind * 16 + from.origin {
        return Place {
            message: r / 48,
            kind: 0,
            origin: 0,
        };
    }
    from
}

// What settling has come to: the arrivals made, the processes known to be quiescent, and where the search goes on.
#[derive(Clone, Copy)]
pub struct Reached {
    pub made: u32,
    pub quiescent: u16,
    pub place: Place,
}

// Arrivals of the letters of the place reached at its receivers, lowest first, until one has sent a letter there or below.
fn batch(
    w: &mut Words,
    x: &mut index::Table,
    up: u16,
    receivers: u16,
    from: Reached,
    budget: u32,
) -> Reached
    requires begins { Batched w.old w.old x.old up from.quiescent from.made from.made budget from.place }
    requires receives { Receives (view w.old) from.place.kind from.place.message from.place.origin receivers }
    requires some { receivers ≢ 0 }
    requires more { from.made < budget }
    requires origin { from.place.origin < view w.old size }
    requires message { from.place.message < view w.old count }
    ensures reached { Batched w.old w.new x.new up result.quiescent from.made result.made budget result.place }
    ensures some { from.made < result.made }
{
    let place = from.place;
    let here = place.message * 48 + place.kind * 16 + place.origin;
    let mut left = receivers;
    let mut reached = from;
    while left != 0 {
        if reached.made == budget {
            return reached;
        }
        let p = left.lowest();
        let known = reached.quiescent.has(p);
        left = left.drop(p);
        reached.made += 1;
        let letter = Letter {
            kind: place.kind,
            message: place.message,
            from: place.origin,
            to: p,
        };
        if arrivals::touch(w, x, letter, known) {
            reached.quiescent = reached.quiescent.join(p);
            let sent = arrivals::follow(w, x, letter.message, p, known);
            if sent.place <= here {
                reached.place = next_place(place, sent.place);
                return reached;
            }
        }
    }
    reached
}

// Makes at most `budget` arrivals in a sound world, each of the lowest letter, in batches.
pub fn settle_sound(w: &mut Words, x: &mut index::Table, budget: u32) -> Settling
    requires sound { Sound (view w.old) }
    requires index { Index (view w.old) x.old }
    ensures answer { ending_of result ≡ (settle_words lowest_first w.old budget).ending }
    ensures words { w.new ≡ (settle_words lowest_first w.old budget).world }
{
    let up = letters::up_mask(w);
    let mut reached = Reached {
        made: 0,
        quiescent: 0,
        place: Place {
            message: 0,
            kind: 0,
            origin: 0,
        },
    };
    while reached.made < budget {
        let Some(letter) = letters::lowest_letter(w, up, reached.place) else {
            return Settling::Done(reached.made);
        };
        reached.place = Place {
            message: letter.message,
            kind: letter.kind,
            origin: letter.from,
        };
        let receivers = letters::receivers(w, up, letter.message, letter.kind, letter.from);
        reached = batch(w, x, up, receivers, reached, budget);
    }
    match letters::lowest_letter(w, up, reached.place) {
        Some(_) => Settling::Stopped(reached.made),
        None => Settling::Done(reached.made),
    }
}
