// The causal deliveries at a process by the open places of its FIFO log.
#![tactic(auto)]

ghost use Rattle.std.specs.Prelude.{◌<◌};
ghost use Rattle.definitions.specs.Machine.{causal_all};
ghost use Rattle.index.specs.Index.{frame, Index, Logs, is_open};
ghost use Rattle.world.specs.Layout.{Changes};
ghost use Rattle.definitions.specs.World.{view};
ghost use Rattle.sets.specs.Lowest.{Has};
ghost use Rattle.bounds.specs.Bounds.{Bounds};
ghost use Rattle.causal.specs.Open.{Earliest};

use cells::Words;
use masks::Set;

// The earliest open place of p's FIFO log that can be delivered causally.
pub fn first_open(w: &Words, p: usize, places: u64) -> Option<usize>
    requires p_in { p < 16 }
    requires bounds { Bounds (view w.now) }
    requires places { Has places (is_open (frame (view w.now)) p) }
    ensures { Earliest (view w.now) p result }
{
    let mut left = places;
    while left != 0 {
        let i = left.lowest();
        let m = cells::word(w, cells::PROCESSES + p * cells::PROCESS + cells::FIFO + i);
        if deliverable::fits_all(w, p, m) {
            return Some(i);
        }
        left = left.rest();
    }
    None
}

// All causal deliveries at p.
pub fn causal_all(w: &mut Words, x: &mut index::Table, p: usize)
    requires p_in { p < 16 }
    requires bounds { Bounds (view w.old) }
    requires index { Index (view w.old) x.old }
    requires logs { Logs (view w.old) p }
    ensures words { Changes w.old w.new (λ s. causal_all s p) }
    ensures index { Index (view w.new) x.new × Logs (view w.new) p }
{
    let mut places = x[index::OPEN + p];
    while places != 0 {
        let Some(i) = first_open(w, p, places) else {
            break;
        };
        delivery::causal_one(w, p, i);
        places = places.drop(i);
    }
    x[index::OPEN + p] = places;
}
