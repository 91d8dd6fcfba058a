//! What several programs of trials share: random steps of a slot, and scripts beside what they print.
#![tactic(auto)]

pub mod dice;
pub mod guess;
pub mod row;
pub mod seen;
pub mod words;
