//! What one slot's lock guards: its mount, its devices, its book of events, and the way to the shared queue.
#![tactic(auto)]

pub mod account;
mod asking;
pub mod book;
mod booked_calls;
mod booked_jobs;
pub mod cell;
mod event;
pub mod house;
pub mod job;
pub mod kept;
pub mod mount_ref;
pub mod mounting;
pub mod poster;
pub mod posting;
mod reading;
pub mod records;
pub mod reserve;
pub mod rooms;
pub mod running;
pub mod seat;
pub mod shares;
pub mod tally;
mod twin;

pub use account::Account;
pub use book::SlotBook;
pub use cell::SlotCell;
pub use house::{House, Of};
pub use job::{CkptJob, DoneJob};
pub use mount_ref::MountRef;
pub use mounting::MountRefused;
pub use poster::Poster;
pub use records::{Entry, Receipt};
pub use reserve::{Blanks, Books, Reserve};
pub use running::EndFault;
pub use seat::HostSeat;
pub use shares::{Counts, Shares};
