//! A log of sealed texts in two files by turns. It tells nothing: no clause can say what a file has.

ghost use Rattle.std.specs.Prelude.{◌≡◌, ◌≤◌, ◌∷◌, [], Err, IfOk, IfSome, None, OnOk, Some, false, is_ok, length};
ghost use Rattle.std.specs.Result.{result_err};
ghost use Rattle.xt_base.specs.declared.steps.LogOffer.{LogOffer};
ghost use Rattle.xt_dev.specs.Devices.{Tells, failures_after};
ghost use Rattle.xt_dev.specs.Failed.{IsBrokenStill, sealed_fault};
ghost use Rattle.xt_dev.specs.SealedLogs.{HasRoom, IsLog};
ghost use Rattle.xt_dev.specs.TwoFiles.{IsFirst, TwoFiles, first_log, synced, with_piece};

use crate::failures::Failures;
use crate::fault::{DevFault, FileFault};
use crate::log::LogDevice;
use crate::sealed_files::SealedFiles;
use crate::segment::LogFile;
use std::fs::File;
use std::io;
use std::path::AsPath;
use std::rt::Files;
use xt_base::sizes::PIECE_BYTES;
use xt_seal::{HEADER_BYTES, Header};

/// A log in two files, which are written by turns. Each begins with a header, and behind each text stands its seal, so that a reader tells the texts that
/// were written whole from whatever a loss of power left behind them. A text stands in one file, whole. Where one comes with which the texts of the file
/// that is written would have more bytes than the log of the mount, `log_bytes` of the header, the other file is emptied and written from then on. What it had is
/// of no use any more: the texts behind it have more bytes than all that a mount may still need. No text is longer than the log of its mount. So a file
/// has at most as many bytes of texts as that log, 8 for each text's seal, and 64 of the header, unless the system refuses to empty the other one.
///
/// Behind its texts a file may have zeros, written ahead so that a sync makes no new length safe: whole pages, never beyond the header and as many bytes as
/// the log has, nor more than 263,212 bytes behind the last seal that is safe, which a reader takes for a torn end.
///
/// A failed call may leave a part of its bytes at the end; from then on each call fails, since what would stand behind such a part could not be read.
#[derive(Drop)]
pub struct SealedLog {
    files: SealedFiles<LogFile>,
    /// Why each call fails, since one did or a turn was not made safe.
    fault: Option<io::Error>,
    failures: Failures,
}

impl SealedLog {
    /// Opens the two files of a new log; they are made where they are missing. The first one gets the header, of generation 1 and with no link, and that is safe
    /// before the first text. `NotEmpty` where either has a byte, since what a log has is never read again: both are as they were then. `Io` where one can't be
    /// opened or is no file to write to, as a folder, or where the header can't be written or made safe.
    pub fn open<R: Files<File = File>, P: AsPath, Q: AsPath>(
        files: &R,
        first: P,
        second: Q,
        header: Header,
    ) -> Result<Self, FileFault>
        requires begins { IsFirst header }
        ensures begun { IfOk result (λ log. IsLog log (first_log header)) }
        ensures failures { IfOk result (λ log. ⟦<SealedLog as LogDevice>⟧.log_failures log ≡ 0) }
        ensures loses { IfOk result (λ log. ⟦<SealedLog as LogDevice>⟧.log_loses log ≡ Some header.log_bytes) }
        ensures fault { IfOk result (λ log. sealed_fault log ≡ None) }
    {
        let most = u64::from(header.log_bytes) + HEADER_BYTES as u64;
        let first = LogFile::open(files, first, most)?;
        let second = LogFile::open(files, second, most)?;
        Ok(SealedLog {
            files: SealedFiles::begin(first, second, header)?,
            fault: None,
            failures: Failures::none(),
        })
    }

    /// How many bytes both files have together, as far as they were written: headers, texts and seals.
    pub fn bytes(&self) -> u64 {
        let (newer, older) = self.files.files();
        newer.bytes().saturating_add(older.bytes())
    }

    /// Why each call fails, since one did or a turn was not made safe; None where none failed yet.
    pub fn fault(&self) -> Option<io::Error>
        ensures { result ≡ sealed_fault self.now }
    {
        self.fault
    }

    /// Fails as the call before did, if that failed.
    fn check(&self) -> io::Result<()>
        ensures { result_err result ≡ sealed_fault self.now }
    {
        match self.fault {
            None => Ok(()),
            Some(error) => Err(error),
        }
    }

    /// Writes a piece of a text.
    fn write(&mut self, piece: &[u8]) -> io::Result<()>
        ensures kept { OnOk result ((log : TwoFiles) → IsLog self.old log → IsLog self.new (with_piece piece.now log)) }
        ensures failures { self.new.failures ≡ self.old.failures }
        ensures header { self.new.files.header ≡ self.old.files.header }
        ensures broken { IfSome (sealed_fault self.old) (λ error. (result ≡ Err error) × (self.new ≡ self.old)) }
    {
        self.check()?;
        self.files.append(piece)
    }

    /// Ends a text with its seal, and makes it safe.
    fn make_safe(&mut self) -> io::Result<()>
        ensures kept { OnOk result ((log : TwoFiles) → IsLog self.old log → IsLog self.new (synced log)) }
        ensures failures { self.new.failures ≡ self.old.failures }
        ensures header { self.new.files.header ≡ self.old.files.header }
        ensures broken { IfSome (sealed_fault self.old) (λ error. (result ≡ Err error) × (self.new ≡ self.old)) }
    {
        self.check()?;
        self.files.sync()
    }

    /// What is answered to a call that came to this. Why it failed is kept.
    fn answer(&mut self, outcome: io::Result<()>) -> Result<(), DevFault>
        ensures ok { is_ok result ≡ is_ok outcome }
        ensures count { self.new.failures.count ≡ failures_after (is_ok outcome) self.old.failures.count }
        ensures fault { sealed_fault self.new ≡ result_err outcome }
        ensures files { self.new.files ≡ self.old.files }
    {
        let succeeded = outcome.is_ok();
        self.fault = outcome.err();
        self.failures.answer(succeeded)
    }
}

impl LogDevice for SealedLog {
    ghost log_tells = { λ _. false };

    ghost log_taken = { λ _. [] };

    ghost log_failures = { λ d. d.failures.count };

    ghost log_loses = { λ d. Some d.files.header.log_bytes };

    fn append(&mut self, piece: &[u8]) -> Result<(), DevFault>
        requires short { length piece.now ≤ PIECE_BYTES }
        ensures told { Tells (⟦<SealedLog as LogDevice>⟧.log_tells self.old) (⟦<SealedLog as LogDevice>⟧.log_taken self.old) (LogOffer.Piece piece.now (is_ok result) ∷ []) (⟦<SealedLog as LogDevice>⟧.log_tells self.new) (⟦<SealedLog as LogDevice>⟧.log_taken self.new) }
        ensures failures { ⟦<SealedLog as LogDevice>⟧.log_failures self.new ≡ failures_after (is_ok result) (⟦<SealedLog as LogDevice>⟧.log_failures self.old) }
        ensures cuts { ⟦<SealedLog as LogDevice>⟧.log_cuts self.new ≡ ⟦<SealedLog as LogDevice>⟧.log_cuts self.old }
        ensures loses { ⟦<SealedLog as LogDevice>⟧.log_loses self.new ≡ ⟦<SealedLog as LogDevice>⟧.log_loses self.old }
        // The piece, and nothing else, is more of the text that is begun.
        ensures kept { OnOk result ((log : TwoFiles) → IsLog self.old log → IsLog self.new (with_piece piece.now log)) }
        // After a call that failed each one fails, as that did.
        ensures broken { IsBrokenStill (sealed_fault self.old) (sealed_fault self.new) result }
    {
        let written = self.write(piece);
        self.answer(written)
    }

    fn sync(&mut self) -> Result<(), DevFault>
        ensures told { Tells (⟦<SealedLog as LogDevice>⟧.log_tells self.old) (⟦<SealedLog as LogDevice>⟧.log_taken self.old) (LogOffer.Sync (is_ok result) ∷ []) (⟦<SealedLog as LogDevice>⟧.log_tells self.new) (⟦<SealedLog as LogDevice>⟧.log_taken self.new) }
        ensures failures { ⟦<SealedLog as LogDevice>⟧.log_failures self.new ≡ failures_after (is_ok result) (⟦<SealedLog as LogDevice>⟧.log_failures self.old) }
        ensures cuts { ⟦<SealedLog as LogDevice>⟧.log_cuts self.new ≡ ⟦<SealedLog as LogDevice>⟧.log_cuts self.old }
        ensures loses { ⟦<SealedLog as LogDevice>⟧.log_loses self.new ≡ ⟦<SealedLog as LogDevice>⟧.log_loses self.old }
        // The text that was begun, if one was, has its seal.
        ensures kept { OnOk result ((log : TwoFiles) → IsLog self.old log → IsLog self.new (synced log)) }
        // After a call that failed each one fails, as that did.
        ensures broken { IsBrokenStill (sealed_fault self.old) (sealed_fault self.new) result }
    {
        let safe = self.make_safe();
        self.answer(safe)
    }

    fn make_room(&mut self, bytes: u64)
        ensures tells { ⟦<SealedLog as LogDevice>⟧.log_tells self.new ≡ ⟦<SealedLog as LogDevice>⟧.log_tells self.old }
        ensures taken { ⟦<SealedLog as LogDevice>⟧.log_taken self.new ≡ ⟦<SealedLog as LogDevice>⟧.log_taken self.old }
        ensures failures { ⟦<SealedLog as LogDevice>⟧.log_failures self.new ≡ ⟦<SealedLog as LogDevice>⟧.log_failures self.old }
        ensures cuts { ⟦<SealedLog as LogDevice>⟧.log_cuts self.new ≡ ⟦<SealedLog as LogDevice>⟧.log_cuts self.old }
        ensures loses { ⟦<SealedLog as LogDevice>⟧.log_loses self.new ≡ ⟦<SealedLog as LogDevice>⟧.log_loses self.old }
        // A turn is taken just where one is due, unless the older file can't be emptied.
        ensures room { sealed_fault self.old ≡ None → sealed_fault self.new ≡ None → (log : TwoFiles) → IsLog self.old log → HasRoom bytes self.old self.new log }
        // After a call that failed it does nothing.
        ensures broken { IfSome (sealed_fault self.old) (λ _. self.new ≡ self.old) }
    {
        if self.fault.is_none() {
            self.fault = self.files.make_room(bytes).err();
        }
    }
}
