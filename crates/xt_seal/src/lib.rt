//! Seals: sums by which a reader of a log tells a text that was written whole from whatever a loss of power left.
#![tactic(auto)]

pub mod header;
pub mod reading;
pub mod sealer;

pub use header::{HEAD_BYTES, HEADER_BYTES, Header};
pub use reading::{Sealed, judge_sealed};
pub use sealer::{SEAL_BYTES, Sealer};
