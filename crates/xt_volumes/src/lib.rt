//! Volumes as words of a command line name them: read, looked at, and put in order.
#![tactic(auto)]

pub mod fault;
pub mod name;
pub mod refusal;
pub mod volume;

pub use fault::{VolumeFault, WordFault};
pub use name::{NAME_BYTES, header_name};
pub use refusal::word_fault;
pub use volume::{Volume, volumes};
