//! The time between two tries of a worker that is refused memory.

use std::sync::{Condvar, Wait};
use std::time::Duration;

/// How long a worker pauses at first, in milliseconds.
const FIRST_MILLIS: u64 = 1;

/// How long it pauses at most: twice as long each time while memory is refused, so that a worker which waits for memory costs next to
/// nothing.
const LONGEST_MILLIS: u64 = 64;

/// Pauses of one thread, each twice as long as the one before, from a millisecond up to 64. A thread that pauses holds no lock of a slot.
#[derive(Drop)]
pub struct Pause {
    /// Nobody rings it: who waits for it waits for the time to pass.
    bell: Condvar,
    millis: u64,
}

impl Pause {
    /// None yet.
    pub fn new() -> Self {
        Pause {
            bell: Condvar::new(),
            millis: FIRST_MILLIS,
        }
    }

    /// Pauses. It may end before its time.
    pub fn wait<R: Wait>(&mut self, rt: &R) {
        let rung = self.bell.notifications();
        self.bell
            .sleep(rt, rung, Duration::from_millis(self.millis));
        self.millis = self.millis.saturating_mul(2).min(LONGEST_MILLIS);
    }

    /// Has the next pause be as short as the first, as where memory was found.
    pub fn reset(&mut self) {
        self.millis = FIRST_MILLIS;
    }
}
