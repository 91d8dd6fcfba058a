//! The pure host: sixteen slots, one queue of names, and the hands of eight workers, run over a list of steps.
#![tactic(auto)]

mod cell;
pub mod host;
pub mod laws;
mod offers;
pub mod run;
mod turns;

pub use host::HostCore;
