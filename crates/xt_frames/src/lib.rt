//! The contents that a mount keeps: committed ones of busy blocks, fresh marks, and the idle list.
#![tactic(auto)]

pub mod buf;
mod busy;
pub mod frames;
mod fresh;
mod idle;
mod kept;
pub mod share;
mod spares;
pub mod table;

pub use buf::Buf;
pub use frames::Frames;
pub use share::FrameShare;
pub use table::FrameTable;
