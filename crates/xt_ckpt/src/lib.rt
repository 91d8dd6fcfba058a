//! The text of a checkpoint: written from its items, and read again.
#![tactic(auto)]

mod costs;
mod draft;
pub mod format;
pub mod item;
pub mod laws;
pub mod piece_writer;
mod place;
pub mod reading;
pub mod rooms;
pub mod source;
pub mod writing;

pub use item::Item;
pub use piece_writer::PieceWriter;
pub use reading::{Checkpoint, CkptFault, ReadFault, read_checkpoint, read_checkpoint_into};
pub use rooms::Rooms;
pub use source::ItemSource;
pub use writing::{write_checkpoint, write_checkpoint_in, write_checkpoint2};
