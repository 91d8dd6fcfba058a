//! What a row showed while memory was refused.

/// What was seen of a row.
#[derive(Clone, Copy, Default)]
pub struct Seen {
    /// Steps that were given to a host, those that were tried again counted once.
    pub steps: u64,
    /// Steps that were answered ENOMEM, and runs that had no memory to tell what they were told.
    pub refused: u64,
    /// Replies that are neither the row's nor ENOMEM, and whatever else is not as it must be.
    pub wrong: u64,
}

impl Seen {
    /// One more step.
    pub fn count(&mut self) {
        self.steps = self.steps.saturating_add(1);
    }

    /// One more refusal.
    pub fn refuse(&mut self) {
        self.refused = self.refused.saturating_add(1);
    }

    /// Whether it is as it must be.
    pub fn judge(&mut self, is_right: bool) {
        if !is_right {
            self.wrong = self.wrong.saturating_add(1);
        }
    }

    /// The exit status that says so: 0 where all is as it must be and nothing was refused, 3 where something was refused, 2 where something is wrong.
    pub fn status(&self) -> u8 {
        match self {
            Seen {
                wrong: 0,
                refused: 0,
                ..
            } => 0,
            Seen { wrong: 0, .. } => 3,
            _ => 2,
        }
    }
}
