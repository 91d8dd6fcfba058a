//! What a device answers where it failed, and why a file is no device.

use std::io;
use thiserror::Error;

/// A device failed in a call.
#[derive(Clone, Copy, Debug, PartialEq, Eq, Error)]
#[error("the device failed")]
pub struct DevFault;

/// Why a file was not opened as a device.
#[derive(Debug, Drop, Error)]
pub enum FileFault {
    /// The file could not be opened.
    #[error("{0}")]
    Io(#[from] io::Error),
    /// The file of a new log has something in it.
    #[error("the log file is not empty")]
    NotEmpty,
}
