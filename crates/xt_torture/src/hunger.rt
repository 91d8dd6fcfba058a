//! Memory that is taken away for the time of one step.

use std::alloc::{AllocError, Global};
use xt_trials::dice::Dice;

/// The sizes in which memory is taken, the greatest first.
const SIZES: [usize; 8] = [1 << 24, 1 << 20, 1 << 16, 1 << 13, 1 << 10, 256, 96, 24];

/// How many of a size are taken at most. Where the program's memory has a limit, that is enough to leave none.
const MOST: usize = 1_500;

/// Takes all memory that there is, and gives it back.
#[derive(Drop)]
pub struct Hunger {
    alloc: Global,
    taken: Vec<Vec<u8>>,
}

impl Hunger {
    /// One that takes nothing yet.
    pub fn new(alloc: Global) -> Result<Self, AllocError> {
        Ok(Hunger {
            alloc,
            taken: Vec::with_capacity(alloc, SIZES.len() * MOST)?,
        })
    }

    /// Takes memory of one size until there is none.
    fn take(&mut self, size: usize) {
        for _ in 0..MOST {
            let Ok(bytes) = Vec::with_capacity(self.alloc, size) else {
                return;
            };
            if self.taken.push(bytes).is_err() {
                return;
            }
        }
    }

    /// Takes all memory, but for some small parts, so that a step may fail at its first growth or at a later one.
    pub fn take_all(&mut self, dice: &mut Dice) {
        for size in SIZES {
            self.take(size);
        }
        for _ in 0..dice.below(6) {
            self.taken.pop();
        }
    }

    /// Gives all back.
    pub fn give_back(&mut self) {
        self.taken.clear();
    }
}
