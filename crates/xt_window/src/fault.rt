//! Why a log was not read to its end.

use std::alloc::AllocError;
use std::io;
use thiserror::Error;

/// Why a log was not read to its end.
#[derive(Debug, Drop, Error)]
pub enum LogFault {
    /// A log of more bytes than it may have.
    #[error("fault: log too long")]
    TooLong,
    /// The reader failed, or a writer of what was read.
    #[error("fault: {0}")]
    Io(#[from] io::Error),
    /// Memory was refused.
    #[error("fault: {0}")]
    Memory(#[from(alloc)] AllocError),
}
