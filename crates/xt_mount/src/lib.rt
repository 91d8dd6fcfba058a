//! One mount, step by step: transactions over locked buffers, the committed item list, checkpoints.
#![tactic(auto)]

mod accounts;
mod accounts_contents;
mod accounts_legs;
mod alloc;
mod busy;
mod cancel;
mod ckpt;
mod commit;
mod flush;
mod force;
mod freeze;
mod get;
mod hold;
mod inval;
mod join;
mod leg_end;
mod log;
mod machine;
pub mod mount;
mod open_trans;
mod opened;
mod read;
mod relse;
mod roll;
mod serve;
mod settle;
pub mod slot;
mod snapshot;
mod stat;
pub mod state;
mod staying;
mod unmount;
mod view;

pub use mount::{Mount, Stage};
pub use slot::MountSlot;
pub use state::{SlotState, State};
