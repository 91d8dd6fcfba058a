//! A window over a log: the log is read piece by piece, and its texts are taken one after another.
#![tactic(auto)]

pub mod fault;
pub mod rest;
pub mod start;
pub mod way;
pub mod window;
