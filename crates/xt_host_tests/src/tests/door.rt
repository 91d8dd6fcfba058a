//! When workers stop.

use std::sync::atomic::{AtomicBool, Ordering};
use std::thread;
use xt_base::names::JobName;
use xt_host::gate::Gate;

/// How often a thread looks at most whether another one has asked a door, or shut it.
const LOOKS: u32 = 10_000_000;

/// Looks at a flag until it is raised, and lets others run between two looks: whether it was seen so.
fn is_seen(flag: &AtomicBool) -> bool {
    for _ in 0..LOOKS {
        if flag.load(Ordering::SeqCst) {
            return true;
        }
        thread::yield_now();
    }
    false
}

/// A gate that is shut when the callers are done: workers go then, once no name waits.
#[derive(Drop)]
pub struct Door {
    is_shut: AtomicBool,
    /// Whether a worker that found no name has asked.
    is_asked: AtomicBool,
    /// Whether a worker has looked for names since it was shut, or is about to.
    is_last_look: AtomicBool,
    /// Whether it answers only once it is shut.
    lingers: bool,
}

impl Door {
    /// An open one, or one that is shut from the start, behind which the first look is the last.
    fn new(is_shut: bool, lingers: bool) -> Self {
        Door {
            is_shut: AtomicBool::new(is_shut),
            is_asked: AtomicBool::new(false),
            is_last_look: AtomicBool::new(is_shut),
            lingers,
        }
    }

    /// An open one.
    pub fn open() -> Self {
        Door::new(false, false)
    }

    /// An open one, which leaves a worker that found no name waiting until it is shut.
    pub fn lingering() -> Self {
        Door::new(false, true)
    }

    /// One that is shut.
    pub fn closed() -> Self {
        Door::new(true, false)
    }

    /// Shuts it.
    pub fn shut(&self) {
        self.is_shut.store(true, Ordering::SeqCst);
    }

    /// Whether it is shut.
    pub fn is_shut(&self) -> bool {
        self.is_shut.load(Ordering::SeqCst)
    }

    /// Waits until a worker that found no name has asked: whether one did.
    pub fn is_asked_in_time(&self) -> bool {
        is_seen(&self.is_asked)
    }
}

impl Gate for Door {
    fn before(&self, _name: &JobName) {}

    /// A name may have been posted, and the door shut, since a worker found none: so whoever finds it shut first looks once more.
    fn go_on(&self) -> bool {
        self.is_asked.store(true, Ordering::SeqCst);
        if self.lingers {
            let _in_time = is_seen(&self.is_shut);
        }
        if !self.is_shut() {
            return true;
        }
        let was_last = self.is_last_look.load(Ordering::SeqCst);
        self.is_last_look.store(true, Ordering::SeqCst);
        !was_last
    }
}
