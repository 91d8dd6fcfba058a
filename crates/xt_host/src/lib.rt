//! The running host: calls of many threads to sixteen locked slots, and the workers' jobs.
#![tactic(auto)]

mod admin;
mod ask;
mod attempt;
pub mod gate;
mod held;
pub mod host;
mod leg;
mod making;
pub mod outcomes;
pub mod pause;
pub mod slots;
pub mod tokens;
mod told;
mod trans;
mod waiting;
pub mod work;

pub use gate::Gate;
pub use host::{BOOK_ENTRIES, Host};
pub use outcomes::{CommitFault, Forced, Relse, RollFault};
pub use tokens::{HeldBuf, HeldList, Trans};
pub use xt_receipts::{CloseFault, comparing, counting, fault, receipts};
pub use xt_slots::{Desk, IntoBooks, Slots, desk};
