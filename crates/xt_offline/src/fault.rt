//! Why a script was not run to its end, or a log not printed to its end.

ghost use Rattle.std.specs.Prelude.{◌≡◌};
ghost use Rattle.xt_offline.specs.Script.{status_of};

use std::alloc::AllocError;
use std::io;
use thiserror::Error;
use xt_window::fault::LogFault;

/// Why a script was not run to its end.
#[derive(Debug, Drop, Error)]
pub enum ScriptFault {
    /// A line that is no step's, counted from 1.
    #[error("bad line {0}")]
    BadLine(usize),
    /// A script of more than 16,777,216 bytes.
    #[error("fault: script too long")]
    TooLong,
    /// The reader or the writer failed.
    #[error("fault: {0}")]
    Io(#[from] io::Error),
    /// Memory was refused.
    #[error("fault: {0}")]
    Memory(#[from(alloc)] AllocError),
}

impl ScriptFault {
    /// The exit status: 2 for a line that is no step's, else 1.
    pub fn status(&self) -> u8
        ensures { result ≡ status_of self.now }
    {
        match self {
            ScriptFault::BadLine(_) => 2,
            ScriptFault::TooLong | ScriptFault::Io(_) | ScriptFault::Memory(_) => 1,
        }
    }
}

/// Why a log was not printed to its end.
#[derive(Debug, Drop, Error)]
pub enum DumpFault {
    /// It was not read to its end.
    #[error("{0}")]
    Log(LogFault),
    /// Its second file was not read to its end.
    #[error("{0}")]
    Second(LogFault),
    /// What is printed of it could not be written.
    #[error("fault: {0}")]
    Output(io::Error),
    /// Memory was refused.
    #[error("fault: {0}")]
    Memory(AllocError),
}

impl DumpFault {
    /// Whether a file has more bytes than it may have.
    pub fn is_too_long(&self) -> bool {
        matches!(
            self,
            DumpFault::Log(LogFault::TooLong) | DumpFault::Second(LogFault::TooLong)
        )
    }
}
