//! What the calls of a host answer, where a number or an error alone would not say it.

use crate::tokens::{HeldList, Trans};
use xt_base::names::CkptNo;
use xt_base::steps::Errno;

/// What became of a lock that was given back.
#[derive(Clone, Copy, Debug, PartialEq, Eq)]
pub enum Relse {
    /// The block is still the transaction's: it was locked more than once, or was changed in this leg.
    Kept,
    /// The block is free.
    Free,
}

/// How far a force has come.
#[derive(Clone, Copy, Debug, PartialEq, Eq)]
pub enum Forced {
    /// All that it asks for is in the log.
    Done,
    /// This checkpoint is still to land: the force is to be repeated, or that number to be forced.
    Wait(CkptNo),
}

/// Why a commit was not done.
#[derive(Debug)]
pub enum CommitFault {
    /// It was refused, and nothing changed: the transaction comes back.
    Back(Trans, Errno),
    /// EIO: the mount is shut, and the leg was given up. The transaction is over; these buffers stay held.
    Aborted(HeldList),
}

/// Why a roll was not done.
#[derive(Debug)]
pub enum RollFault {
    /// It was refused, and the transaction is as it was.
    Back(Trans, Errno),
    /// EIO: the mount is shut, and the leg was given up. The transaction is still open, clean and without log space, and is to be
    /// cancelled; these buffers stay held.
    Aborted(Trans, HeldList),
}
