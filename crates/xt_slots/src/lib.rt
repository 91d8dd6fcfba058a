//! The locked slots of a host, each behind a lock of its own, and what a host asks of them.
#![tactic(auto)]

pub mod commands;
pub mod desk;
mod making;
pub mod slot_lock;

pub use commands::{Command, Outcome};
pub use desk::{Desk, FromBlanks, IntoBooks, Slots};
