//! Log vectors: the bytes of the chunks that were logged of a block, as a checkpoint writes them.
#![tactic(auto)]

pub mod edit;
pub mod vector;

pub use edit::Edit;
pub use vector::{LogVector, VectorRoom};
