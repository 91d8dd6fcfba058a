//! What all mounts share: the queue of job names, and the board of shutdown words.
//! Neither has a lock, and nothing here says that a thread gets on.
#![tactic(auto)]

pub mod board;
pub mod jobs;
pub mod laws;
mod rule;
mod views;
mod words;

pub use board::{Board, Seat};
pub use jobs::{JobQueue, Passes, PostPass, WorkPass};
