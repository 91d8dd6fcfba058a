//! When workers stop, and when sessions are cut.

use std::sync::atomic::{AtomicBool, Ordering};

/// A door that threads share: it is open until one of them shuts it.
#[derive(Drop)]
pub struct Door {
    is_shut: AtomicBool,
    /// How many seconds a client may be silent; None where it may be as long as it likes.
    patience: Option<u32>,
}

impl Door {
    /// An open one, through which a client may be silent.
    pub fn new() -> Self {
        Door {
            is_shut: AtomicBool::new(false),
            patience: None,
        }
    }

    /// The same; but a session whose client is silent for so many seconds ends.
    pub fn with_patience(seconds: u32) -> Self {
        Door {
            is_shut: AtomicBool::new(false),
            patience: Some(seconds),
        }
    }

    /// Whether a client that was silent for so many tenths of a second may be so still.
    pub fn bears(&self, tenths: u64) -> bool {
        match self.patience {
            Some(seconds) => tenths < u64::from(seconds) * 10,
            None => true,
        }
    }

    /// Shuts it.
    pub fn shut(&self) {
        self.is_shut.store(true, Ordering::SeqCst);
    }

    /// Whether it was shut.
    pub fn is_shut(&self) -> bool {
        self.is_shut.load(Ordering::SeqCst)
    }
}
