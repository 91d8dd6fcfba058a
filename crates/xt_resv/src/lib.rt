//! The ledger of a mount's log space, and the tickets of what transactions were granted.
#![tactic(auto)]

pub mod space;

pub use space::{LogSpace, Ticket};
