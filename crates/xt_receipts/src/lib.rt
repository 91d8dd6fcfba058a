//! The receipts that a call leaves with its caller, and how they are compared with the books at the end of a host.
#![tactic(auto)]

pub mod again;
pub mod comparing;
pub mod counting;
pub mod fault;
pub mod receipts;

pub use comparing::{compare, compare_all};
pub use fault::CloseFault;
