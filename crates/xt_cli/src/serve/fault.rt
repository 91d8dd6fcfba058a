//! Why volumes are not served.

use std::alloc::AllocError;
use std::io::{self, Write};
use thiserror::Error;
use xt_base::names::Slot;
use xt_base::steps::Errno;
use xt_dev::fault::FileFault;
use xt_recover::command::CommandFault;
use xt_volumes::{VolumeFault, WordFault};

/// A word that names no volume that can be mounted, and what is wrong with it.
#[derive(Debug, Drop, Error)]
#[error("volume '{word}': {fault}")]
pub struct WrongWord {
    pub word: String,
    pub fault: WordFault,
}

/// Why volumes are not served, or not to the end of the service.
#[derive(Debug, Drop, Error)]
pub enum ServeFault {
    /// Words that name no volumes that can be mounted together, and the one that is wrong, if one is by itself.
    #[error("{0}")]
    Volume(VolumeFault, Option<WrongWord>),
    /// A slot that can't be mounted.
    #[error("fault: slot {} {}", .0.index(), .1.name())]
    Slot(Slot, Errno),
    /// A slot that is mounted still, since something of it is open or unwritten.
    #[error("fault: slot {} busy", .0.index())]
    Busy(Slot),
    /// A file that two devices would have.
    #[error("fault: {0} is named twice")]
    Twice(String),
    /// A file that another process has, or another device by another name.
    #[error("fault: {0}: in use")]
    InUse(String),
    /// A file that can't be a device.
    #[error("fault: {0}: {1}")]
    File(String, FileFault),
    /// A log that has something in it, which is not to be recovered.
    #[error("fault: {0}: the log is not empty; recover it with xth recover, or serve with --recover")]
    NotRecovered(String),
    /// A file of a sealed log that is missing, and the other one.
    #[error("fault: {0}: it is missing, and {1} is of a sealed log; with --any-log that is recovered alone")]
    LogMissing(String, String),
    /// A volume that was not recovered: its slot, and the name of the file at fault.
    #[error("slot {}: {}: {}", .0.index(), .1, .2)]
    Recovery(Slot, String, CommandFault),
    /// No volume could be recovered, so there is none to be served.
    #[error("fault: no volume was recovered")]
    NoneRecovered,
    /// A port that can't be listened at.
    #[error("fault: port {0}: {1}")]
    Port(u16, io::Error),
    /// A path that can't be listened at.
    #[error("fault: {0}: {1}")]
    Path(String, io::Error),
    /// A word that is no address to listen at.
    #[error("fault: listen '{0}': it is neither 127.0.0.1:PORT nor unix:PATH")]
    Address(String),
    /// The service could not begin.
    #[error("fault: start {}", .0.name())]
    Start(Errno),
    /// The books of the host and its seats do not agree.
    #[error("fault: close")]
    Close,
    /// Standard output failed.
    #[error("fault: {0}")]
    Io(#[from] io::Error),
    /// Memory was refused.
    #[error("fault: {0}")]
    Memory(#[from(alloc)] AllocError),
}

impl ServeFault {
    /// Says why, in a line of its own, where there is more to say than the words of the fault do.
    pub fn explain<W: Write>(&self, err: &mut W) -> io::Result<()> {
        match self {
            ServeFault::Volume(_, Some(wrong)) => writeln!(err, "{wrong}"),
            ServeFault::Volume(VolumeFault::Slot(slot, Errno::Busy), None) => {
                writeln!(err, "slot {} is named twice", slot.index())
            }
            _ => Ok(()),
        }
    }
}
