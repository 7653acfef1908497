// What the benchmark calls; the archive that is delivered exports none of it.
#![tactic(auto)]

ghost use Rattle.std.specs.Prelude.{◌&&◌, ◌≡◌, eqb, ltb};
ghost use Rattle.definitions.specs.General.{pick};
ghost use Rattle.definitions.specs.World.{view};
ghost use Rattle.definitions.specs.Machine.{deliverable};
ghost use Rattle.definitions.specs.Words.{needs_world};

use cells::Words;

// The refusal of words that are no sound world: 1, 2, or 0 for a sound one.
#[unsafe(no_mangle)]
pub extern "C" fn wt_bench_sound(w: &[u16]) -> u32
    ensures { result ≡ needs_world w.now 0 }
{
    let Ok(w) = <&Words>::try_from(w) else {
        return 1;
    };
    if soundness::test(w) { 0 } else { 2 }
}

// 1 where the words are a sound world and message m is deliverable at process p, else 0.
#[unsafe(no_mangle)]
pub extern "C" fn wt_bench_deliverable(w: &[u16], p: usize, m: usize) -> u32
    ensures { result ≡ pick (eqb (needs_world w.now 0) 0 && ltb p 16 && ltb m 64 && deliverable (view w.now) p m) 1 0 }
{
    let Ok(w) = <&Words>::try_from(w) else {
        return 0;
    };
    if !soundness::test(w) {
        return 0;
    }
    if 16 <= p {
        return 0;
    }
    if 64 <= m {
        return 0;
    }
    if deliverable::fits_all(w, p, m) { 1 } else { 0 }
}
