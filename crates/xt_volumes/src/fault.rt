//! Why words name no volumes that can be mounted together.

use std::alloc::AllocError;
use thiserror::Error;
use xt_base::names::Slot;
use xt_base::sizes::{LEAST_LOG, MOST_BLOCKS, MOST_LOG};
use xt_base::steps::Errno;

/// Why words name no volumes that can be mounted together.
#[derive(Clone, Copy, Debug, PartialEq, Eq, Error)]
pub enum VolumeFault {
    /// A word that spells no volume: how many words stand before it.
    #[error("fault: volume")]
    Word(usize),
    /// A volume that can't be mounted beside those before it: `Invalid` for its sizes, `Busy` where its slot is named twice.
    #[error("fault: slot {} {}", .0.index(), .1.name())]
    Slot(Slot, Errno),
    /// Memory was refused.
    #[error("fault: {0}")]
    Memory(#[from(alloc)] AllocError),
}

/// What is wrong with a word that is to name a volume.
#[derive(Clone, Copy, Debug, PartialEq, Eq, Error)]
pub enum WordFault {
    /// It has fewer than five parts.
    #[error("it is not of the form SLOT:LOGBYTES:BLOCKS:HOMEFILE:LOGFILE[:SIZE]")]
    Form,
    /// Its first part spells no slot.
    #[error("SLOT is no number from 0 to 15")]
    Slot,
    /// Its second part spells no bytes that a log may have.
    #[error("LOGBYTES is no number from {} to {}", LEAST_LOG, MOST_LOG)]
    LogBytes,
    /// Its third part spells no blocks that a home device may have.
    #[error("BLOCKS is no number from 1 to {}", MOST_BLOCKS)]
    Blocks,
    /// The name of the home device's file is empty.
    #[error("HOMEFILE is empty")]
    HomeFile,
    /// The name of the log's file is empty.
    #[error("LOGFILE is empty")]
    LogFile,
    /// Its last part spells no bytes that a block may have.
    #[error("SIZE is none of 512, 1024, 2048 and 4096")]
    Size,
    /// Each part would do, but a number is not as it is spelled.
    #[error("a number has a sign or a zero in front")]
    Zeros,
}
