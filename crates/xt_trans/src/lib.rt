//! Transactions: what the present leg of one did to its blocks.
#![tactic(auto)]

mod costs;
mod entries;
mod item;
pub mod trans;

pub use trans::{Change, ChangeMarks, ChangeState, TransRec};
