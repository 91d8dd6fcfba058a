//! The item lists of a mount: the commit list, the checkpoint in flight, the active list, and what a flush writes of it.
#![tactic(auto)]

mod clean;
pub mod items;
pub mod plan;
mod sieved;
mod spares;

pub use items::Items;
pub use plan::FlushPlan;
