//! What a mount logs: its item lists beside the contents that they are of, and whether it is live.
#![tactic(auto)]

pub mod journal;
mod keeping;
mod losing;
mod settling;

pub use journal::Journal;
