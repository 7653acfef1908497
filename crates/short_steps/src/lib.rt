// The steps that are a store or two: loss, trust and crash.
#![tactic(auto)]

ghost use Rattle.std.specs.Prelude.{◌≡◌, ◌<◌};
ghost use Rattle.definitions.specs.World.{view, encode};
ghost use Rattle.definitions.specs.Machine.{leave, trust_set, crash};
ghost use Rattle.bounds.specs.Bounds.{Bounds};
ghost use Rattle.index.specs.Index.{Index, Logs};

use cells::{Letter, Words};

// The letter is lost.
pub fn lose(w: &mut Words, letter: Letter)
    requires kind_in { letter.kind < 3 }
    requires message_in { letter.message < 64 }
    requires from_in { letter.from < 16 }
    requires to_in { letter.to < 16 }
    ensures { w.new ≡ encode (leave (view w.old) letter.kind letter.message letter.from letter.to) }
{
    receiving::take_out(w, letter);
}

// Process p trusts the processes of a mask from now on.
pub fn replace_trust(w: &mut Words, x: &mut index::Table, p: usize, set: u16)
    requires p_in { p < 16 }
    requires bounds { Bounds (view w.old) }
    requires index { Index (view w.old) x.old }
    requires logs { Logs (view w.old) p }
    ensures words { w.new ≡ encode (trust_set (view w.old) p set) }
    ensures index { Index (view w.new) x.new }
{
    w[cells::PROCESSES + p * cells::PROCESS + cells::TRUST] = set;
    let ready = cascade::ready_set(w, x, p);
    cascade::cascade(w, x, p, ready);
}

// Process p crashes.
#[tactic(auto, using(crate::specs::Short::crash_law))]
pub fn take_down(w: &mut Words, p: usize)
    requires { p < 16 }
    ensures { w.new ≡ encode (crash (view w.old) p) }
{
    w[cells::PROCESSES + p * cells::PROCESS + cells::UP] = 0;
}
