//! A home device in a file. It tells nothing: no clause can say what a file has.

ghost use Rattle.std.specs.Prelude.{◌≡◌, [], Some, false, is_ok, length, nat_eq, true, IfErr, IfOk};
ghost use Rattle.std.specs.Set.{distinct_count};
ghost use Rattle.xt_base.specs.Form.{is_size};
ghost use Rattle.xt_dev.specs.Devices.{failures_after};
ghost use Rattle.xt_dev.specs.Failed.{home_fault, in_doubt};

use crate::doubts::Doubts;
use crate::failures::Failures;
use crate::fault::{DevFault, FileFault};
use crate::home::HomeDevice;
use crate::sectors::Sectors;
use std::alloc::Global;
use std::fs::File;
use std::io::{self, ErrorKind};
use std::os::unix::fs::FileExt;
use std::path::AsPath;
use std::rt::Files;
use xt_base::names::Block;

/// A home device in a file: block B begins at B times its size. What lies behind the file's end is read as zeros. A call for
/// a block from `FILE_BLOCKS` on fails. So does a read of a block that was written before a sync that failed, until it is written and
/// synced again: what the file shows of it may not be what a crash leaves.
#[derive(Drop)]
pub struct FileHome {
    file: File,
    doubts: Doubts,
    /// What the last call that failed came to, if one did.
    fault: Option<io::Error>,
    failures: Failures,
}

impl FileHome {
    /// Opens the file of a home device; it is made where it is missing, and keeps what it has. `Io` where it can't be
    /// opened or is no file to read and write, as a folder.
    pub fn open<R: Files<File = File>, P: AsPath>(
        files: &R,
        alloc: Global,
        path: P,
    ) -> Result<Self, FileFault>
        ensures { IfOk result (λ home. ⟦<FileHome as HomeDevice>⟧.home_failures home ≡ 0) }
    {
        let file = File::options()
            .read(true)
            .write(true)
            .create(true)
            .open(files, path)?;
        Ok(FileHome {
            file,
            doubts: Doubts::none(alloc),
            fault: None,
            failures: Failures::none(),
        })
    }

    /// Why the last call that failed did, if one failed.
    pub fn fault(&self) -> Option<io::Error>
        ensures { result ≡ home_fault self.now }
    {
        self.fault
    }

    /// How many sectors of 512 bytes are in doubt: they were written before a sync that failed, and not written and synced since.
    /// Each counts once, however often it was written.
    pub fn sectors_in_doubt(&self) -> usize
        ensures { result ≡ distinct_count nat_eq (in_doubt self.now) }
    {
        self.doubts.count()
    }

    /// What is answered to a call that came to this. Why it failed is kept.
    fn answer(&mut self, outcome: io::Result<()>) -> Result<(), DevFault>
        ensures ok { is_ok result ≡ is_ok outcome }
        ensures count { self.new.failures.count ≡ failures_after (is_ok outcome) self.old.failures.count }
        ensures fault { IfErr outcome (λ error. home_fault self.new ≡ Some error) }
    {
        let succeeded = outcome.is_ok();
        if let Err(error) = outcome {
            self.fault = Some(error);
        }
        self.failures.answer(succeeded)
    }

    /// Reads a block, with zeros for what lies behind the file's end.
    fn read_block(&self, block: Block, into: &mut [u8]) -> io::Result<()>
        requires whole { is_size (Some (length into.old)) ≡ true }
        ensures { length into.new ≡ length into.old }
    {
        let sectors = sectors_of(block, into.len())?;
        if self.doubts.has(sectors) {
            return Err(io::Error::other("what was written was not synced"));
        }
        into.fill(0);
        match self.file.read_exact_at(into, sectors.begin()) {
            Err(error) if error.kind() != ErrorKind::UnexpectedEof => Err(error),
            _ => Ok(()),
        }
    }

    /// Writes a block, which is noted first.
    fn write_block(&mut self, block: Block, content: &[u8]) -> io::Result<()>
        requires whole { is_size (Some (length content.now)) ≡ true }
        ensures { self.new.failures ≡ self.old.failures }
    {
        let sectors = sectors_of(block, content.len())?;
        self.doubts.note(sectors)?;
        self.file.write_all_at(content, sectors.begin())
    }
}

impl HomeDevice for FileHome {
    ghost home_tells = { λ _. false };

    ghost home_taken = { λ _. [] };

    ghost home_failures = { λ d. d.failures.count };

    fn read(&mut self, block: Block, into: &mut [u8]) -> Result<(), DevFault> {
        let read = self.read_block(block, into);
        self.answer(read)
    }

    fn write(&mut self, block: Block, content: &[u8]) -> Result<(), DevFault> {
        let written = self.write_block(block, content);
        self.answer(written)
    }

    fn sync(&mut self) -> Result<(), DevFault> {
        let synced = self.file.sync_data();
        if synced.is_ok() {
            self.doubts.synced();
        } else {
            self.doubts.not_synced();
        }
        self.answer(synced)
    }
}

/// The sectors of a block, if a file can have it.
fn sectors_of(block: Block, size: usize) -> io::Result<Sectors>
    requires size { is_size (Some size) ≡ true }
{
    match Sectors::of(block, size) {
        Some(sectors) => Ok(sectors),
        None => Err(io::Error::from(ErrorKind::FileTooLarge)),
    }
}
