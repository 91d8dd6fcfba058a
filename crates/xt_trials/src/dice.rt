//! Random choices, the same for the same seed.

ghost use Rattle.std.specs.Prelude.{◌<◌};

use rand_xoshiro::Xoshiro256PlusPlus;
use rand_xoshiro::rand_core::{Rng, SeedableRng};

/// A generator of random choices.
#[derive(Drop)]
pub struct Dice {
    rng: Xoshiro256PlusPlus,
}

impl Dice {
    /// The choices of a seed.
    pub fn new(seed: u64) -> Self {
        Dice {
            rng: Xoshiro256PlusPlus::seed_from_u64(seed),
        }
    }

    /// A number below `end`.
    pub fn below(&mut self, end: u32) -> u32
        requires { 0 < end }
        ensures { result < end }
    {
        (self.rng.next_u64() % u64::from(end)) as u32
    }

    /// True one time in so many.
    pub fn is_one_in(&mut self, count: u32) -> bool
        requires { 0 < count }
    {
        self.below(count) == 0
    }

    /// A byte.
    pub fn byte(&mut self) -> u8 {
        self.below(256) as u8
    }
}
