// The test "deliverable": whether a message of a process's FIFO log can be delivered causally.
#![tactic(auto)]

ghost use Rattle.std.specs.Prelude.{◌≡◌, ◌<◌};
ghost use Rattle.definitions.specs.World.{view};
ghost use Rattle.definitions.specs.Machine.{deliverable};
ghost use Rattle.bounds.specs.Bounds.{Bounds};

use cells::Words;

// Whether message m is deliverable at p, that is whether the answer of the test is yes: all counters on it for the group of
// p, but for its sender's, let it. Whose message is awaited is searched for where it is asked (crate awaiting).
pub fn fits_all(w: &Words, p: usize, m: usize) -> bool
    requires p_in { p < 16 }
    requires m_in { m < 64 }
    requires bounds { Bounds (view w.now) }
    ensures { result ≡ deliverable (view w.now) p m }
{
    let process = cells::PROCESSES + p * cells::PROCESS;
    let message = cells::MESSAGES + m * cells::MESSAGE;
    let g = cells::word(w, process);
    let c = message + cells::STAMPS + g * 16;
    let d = process + cells::DELIVERED;
    let counters = <&[u16; 16]>::try_from(&w[c..c + 16]).unwrap();
    let del = <&[u16; 16]>::try_from(&w[d..d + 16]).unwrap();
    counters::at_most(counters, del, w[message], w[cells::SIZE])
}
