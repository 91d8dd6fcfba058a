//! A log in a file. It tells nothing: no clause can say what a file has.

ghost use Rattle.std.specs.Prelude.{◌≡◌, ◌≤◌, [], false, is_ok, length, IfOk};
ghost use Rattle.std.specs.Result.{result_err};
ghost use Rattle.xt_dev.specs.Devices.{failures_after};
ghost use Rattle.xt_dev.specs.Failed.{log_fault};

use crate::failures::Failures;
use crate::fault::{DevFault, FileFault};
use crate::log::LogDevice;
use crate::tail::Tail;
use std::fs::File;
use std::io::{self, Write};
use std::path::AsPath;
use std::rt::Files;
use xt_base::sizes::PIECE_BYTES;

/// A file is emptied by a cut where it is longer than so many times the log of its mount.
const LONG_LOGS: u64 = 4;

/// A log in a file, which is appended to. A failed call may leave a part of its piece at the end; from then on each call fails, since
/// what would stand behind such a part could not be read.
#[derive(Drop)]
pub struct FileLog {
    file: File,
    /// How many bytes were appended since the file was empty.
    length: u64,
    /// Whether a cut empties it.
    is_cut: bool,
    /// What a text ends with, where that waits until the bytes before it are safe.
    tail: Option<Tail>,
    /// What its last call came to, if that failed.
    fault: Option<io::Error>,
    failures: Failures,
}

impl FileLog {
    /// Opens the file of a new log; it is made where it is missing. `NotEmpty` where it has a byte, since what a log has is
    /// never read again; `Io` where it can't be opened or is no file to write to, as a folder.
    pub fn open<R: Files<File = File>, P: AsPath>(files: &R, path: P) -> Result<Self, FileFault>
        ensures { IfOk result (λ log. ⟦<FileLog as LogDevice>⟧.log_failures log ≡ 0) }
    {
        let file = File::options().create(true).append(true).open(files, path)?;
        if file.metadata()?.len() > 0 {
            return Err(FileFault::NotEmpty);
        }
        Ok(FileLog {
            file,
            length: 0,
            is_cut: false,
            tail: None,
            fault: None,
            failures: Failures::none(),
        })
    }

    /// The same log, which a cut empties where it is longer than four times the log of its mount. Without this a cut is left undone.
    pub fn emptied_by_cuts(self) -> Self
        ensures { ⟦<FileLog as LogDevice>⟧.log_failures result ≡ ⟦<FileLog as LogDevice>⟧.log_failures self }
    {
        FileLog {
            is_cut: true,
            ..self
        }
    }

    /// The same log, with a barrier before the end of each text: the last 16 bytes before a sync are written only once those before them
    /// are safe. So a file system that leaves zeros, or bytes in another order, in what was not synced can't leave a whole text there.
    pub fn with_barrier(self) -> Self
        ensures { ⟦<FileLog as LogDevice>⟧.log_failures result ≡ ⟦<FileLog as LogDevice>⟧.log_failures self }
    {
        FileLog {
            tail: Some(Tail::none()),
            ..self
        }
    }

    /// How many bytes were appended since the file was empty.
    pub fn bytes(&self) -> u64 {
        self.length
    }

    /// Why each call fails, since one did or a cut was not made safe; None where none failed yet.
    pub fn fault(&self) -> Option<io::Error>
        ensures { result ≡ log_fault self.now }
    {
        self.fault
    }

    /// Fails as the call before did, if that failed.
    fn check(&self) -> io::Result<()>
        ensures { result_err result ≡ log_fault self.now }
    {
        match self.fault {
            None => Ok(()),
            Some(error) => Err(error),
        }
    }

    /// Writes a piece; with a barrier all but the last bytes.
    fn write(&mut self, piece: &[u8]) -> io::Result<()>
        requires short { length piece.now ≤ PIECE_BYTES }
        ensures { self.new.failures ≡ self.old.failures }
    {
        self.check()?;
        self.length = self.length.saturating_add(piece.len() as u64);
        match &mut self.tail {
            Some(tail) => tail.pass(&mut self.file, piece),
            None => self.file.write_all(piece),
        }
    }

    /// Makes what was written safe, and with a barrier what it held back too.
    fn make_safe(&mut self) -> io::Result<()>
        ensures { self.new.failures ≡ self.old.failures }
    {
        self.check()?;
        self.file.sync_data()?;
        match &mut self.tail {
            Some(tail) => {
                tail.release(&mut self.file)?;
                self.file.sync_data()
            }
            None => Ok(()),
        }
    }

    /// Empties the file, if that can be done. What is empty but not safe yet is broken.
    fn empty(&mut self)
        ensures { self.new.failures ≡ self.old.failures }
    {
        if self.file.set_len(0).is_ok() {
            self.length = 0;
            self.fault = self.file.sync_data().err();
        }
    }

    /// What is answered to a call that came to this. Why it failed is kept.
    fn answer(&mut self, outcome: io::Result<()>) -> Result<(), DevFault>
        ensures ok { is_ok result ≡ is_ok outcome }
        ensures count { self.new.failures.count ≡ failures_after (is_ok outcome) self.old.failures.count }
        ensures fault { log_fault self.new ≡ result_err outcome }
    {
        let succeeded = outcome.is_ok();
        self.fault = outcome.err();
        self.failures.answer(succeeded)
    }
}

impl LogDevice for FileLog {
    ghost log_tells = { λ _. false };

    ghost log_taken = { λ _. [] };

    ghost log_failures = { λ d. d.failures.count };

    fn append(&mut self, piece: &[u8]) -> Result<(), DevFault> {
        let written = self.write(piece);
        self.answer(written)
    }

    fn sync(&mut self) -> Result<(), DevFault> {
        let safe = self.make_safe();
        self.answer(safe)
    }

    fn cut(&mut self, size: u32) {
        if self.is_cut && self.fault.is_none() && self.length > LONG_LOGS * u64::from(size) {
            self.empty();
        }
    }
}
