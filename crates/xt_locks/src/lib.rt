//! Who owns a block of a mount: a transaction, nobody yet (held), or a checkpoint that has to land first.
#![tactic(auto)]

pub mod locks;

pub use locks::Locks;
