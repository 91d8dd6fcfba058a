//! What a mount has to do for itself: which jobs are asked, which are outstanding, and their names.
#![tactic(auto)]

pub mod table;

pub use table::JobTable;
