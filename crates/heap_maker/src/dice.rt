//! The random numbers of a heap.
ghost use Rattle.std.specs.Prelude.{◌<◌, ◌≤◌};

use rand_core::{Rng, SeedableRng};
use rand_xoshiro::Xoshiro256PlusPlus;

/// A generator of random numbers. The same seed gives the same numbers on every machine.
#[derive(Drop)]
pub(crate) struct Dice {
    source: Xoshiro256PlusPlus,
}

impl Dice {
    pub(crate) fn new(seed: u64) -> Dice {
        Dice {
            source: Xoshiro256PlusPlus::seed_from_u64(seed),
        }
    }

    pub(crate) fn word(&mut self) -> u64 {
        self.source.next_u64()
    }

    /// Draws a number below `end`.
    pub(crate) fn below(&mut self, end: u64) -> u64
        requires { 0 < end }
        ensures { result < end }
    {
        self.word() % end
    }

    /// Draws the size of an object: one in 64 has 41 to 512 words, the others 2 to 40, of which small sizes are more
    /// frequent.
    pub(crate) fn size(&mut self) -> u64
        ensures some { 1 ≤ result }
        ensures few { result ≤ 512 }
    {
        if self.below(64) == 0 {
            return 41 + self.below(472);
        }
        let one = self.below(39);
        let other = self.below(39);
        2 + one.min(other)
    }
}
