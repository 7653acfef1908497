// Sets of small numbers, one bit for each: a word of 16 or of 64 bits is the set of the places of its ones.
#![tactic(auto)]

ghost use Rattle.std.specs.Prelude.{◌≡◌, ◌≢◌, ℕ, ◌<◌};
ghost use Rattle.definitions.specs.General.{first_from, tally, pick, bit, with, without};

// A set: how many numbers it has room for, and what it is as a number. The impls cast what std counts: it has no `From<u32>` for
// usize.
pub trait Set: Copy {
    ghost width: { ℕ };

    ghost mask: { Self → ℕ };

    // Whether x is a member.
    fn has(self, x: usize) -> bool
        requires { x < width }
        ensures { result ≡ bit (mask self) x };

    // The set with x.
    fn join(self, x: usize) -> Self
        requires { x < width }
        ensures { mask result ≡ with (mask self) x };

    // The set without x.
    fn drop(self, x: usize) -> Self
        requires { x < width }
        ensures { mask result ≡ without (mask self) x };

    // The lowest member, the width where there is none. No Option: most callers know that there is a member, and would take
    // it apart again.
    fn lowest(self) -> usize
        ensures { result ≡ first_from width 0 (bit (mask self)) };

    // The set without its lowest member.
    fn rest(self) -> Self
        requires { mask self ≢ 0 }
        ensures { mask result ≡ without (mask self) (first_from width 0 (bit (mask self))) };

    // How many members there are.
    fn count(self) -> usize
        ensures { result ≡ tally width (bit (mask self)) };

    // The set with x, if so.
    final fn join_if(self, x: usize, yes: bool) -> Self
        requires { x < width }
        ensures { mask result ≡ pick yes (with (mask self) x) (mask self) }
    {
        if yes { self.join(x) } else { self }
    }
}

impl Set for u16 {
    ghost width = { 16 };

    ghost mask = { λ m. m };

    fn has(self, x: usize) -> bool {
        (self >> x) % 2 == 1
    }

    fn join(self, x: usize) -> u16 {
        self | (1 << x)
    }

    fn drop(self, x: usize) -> u16 {
        self - (self & (1 << x))
    }

    fn lowest(self) -> usize {
        self.trailing_zeros() as usize
    }

    fn rest(self) -> u16 {
        self & (self - 1)
    }

    fn count(self) -> usize {
        self.count_ones() as usize
    }
}

impl Set for u64 {
    ghost width = { 64 };

    ghost mask = { λ m. m };

    fn has(self, x: usize) -> bool {
        (self >> x) % 2 == 1
    }

    fn join(self, x: usize) -> u64 {
        self | (1 << x)
    }

    fn drop(self, x: usize) -> u64 {
        self - (self & (1 << x))
    }

    fn lowest(self) -> usize {
        self.trailing_zeros() as usize
    }

    fn rest(self) -> u64 {
        self & (self - 1)
    }

    fn count(self) -> usize {
        self.count_ones() as usize
    }
}
