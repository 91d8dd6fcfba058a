//! One of the two files of a sealed log, or what stands for one.

ghost use Rattle.std.specs.Prelude.{◌≡◌, ◌+◌, ◌-◌, ◌^◌, IfSome, List, None, OnErr, OnOk, Option, Some, is_ok, length, min, option_map, ℕ};
ghost use Rattle.xt_dev.specs.Devices.{failures_after};
ghost use Rattle.xt_dev.specs.Segments.{IsSettled, Stored, emptied, made_safe, with_more};

use crate::failures::Failures;
use crate::fault::FileFault;
use std::fs::File;
use std::io;
use std::os::unix::fs::FileExt;
use std::path::AsPath;
use std::rt::Files;

/// A file of a log: it is appended to, made safe, and emptied. What it does is said of two things that only proofs see: its bytes, with those
/// that are safe, where they are known; and how many of its calls failed.
pub(crate) trait Segment: Drop {
    /// What it has; None where that is not known.
    ghost stored: { Self → Option Stored };

    /// How many of its calls failed: an error comes only in a call that raised them.
    ghost faults: { Self → ℕ };

    /// Puts a piece behind what it has. At an error a part of the piece may stand there. Nothing is said of a file that was emptied while that is not
    /// safe: a loss of power may leave old bytes behind such a piece, or among them.
    fn append(&mut self, piece: &[u8]) -> io::Result<()>
        ensures stored { OnOk result (IfSome (stored self.old) IsSettled → stored self.new ≡ option_map (with_more piece.now) (stored self.old)) }
        ensures faults { faults self.new ≡ failures_after (is_ok result) (faults self.old) };

    /// Makes safe what was appended.
    fn sync_data(&mut self) -> io::Result<()>
        ensures stored { OnOk result (IfSome (stored self.old) IsSettled → stored self.new ≡ option_map made_safe (stored self.old)) }
        ensures faults { faults self.new ≡ failures_after (is_ok result) (faults self.old) };

    /// Takes all its bytes away, or leaves it as it is. That it is empty is not safe yet.
    fn empty(&mut self) -> io::Result<()>
        ensures emptied { OnOk result (stored self.new ≡ option_map emptied (stored self.old)) }
        ensures left { OnErr result (stored self.new ≡ stored self.old) }
        ensures faults { faults self.new ≡ failures_after (is_ok result) (faults self.old) };

    /// Makes safe what it has, also where it was emptied.
    fn sync_all(&mut self) -> io::Result<()>
        ensures stored { OnOk result (stored self.new ≡ option_map made_safe (stored self.old)) }
        ensures faults { faults self.new ≡ failures_after (is_ok result) (faults self.old) };
}

/// How many zeros are written ahead at once.
const AHEAD_BYTES: u64 = 262_144;

/// How many bytes may stand behind those that are safe: no text has more, with its seal. A reader takes so many for a torn end, and more for rot.
const UNSAFE_BYTES: u64 = 263_212;

/// How many bytes a page has.
const PAGE_BYTES: usize = 4096;

/// A file. What it has no clause can say. Behind what was appended it may have zeros, which are written ahead once something of it is safe: a sync
/// that makes no new length safe is the faster one.
#[derive(Drop)]
pub(crate) struct LogFile {
    file: File,
    /// How many bytes were appended since it was empty, those of a failed call among them.
    length: u64,
    /// How many of them are safe.
    safe: u64,
    /// How many bytes it has, the zeros among them.
    reach: u64,
    /// No zeros are written beyond so many bytes.
    most: u64,
    faults: Failures,
}

impl LogFile {
    /// Opens a file that has no byte; it is made where it is missing. `NotEmpty` where it has one. No zeros are written ahead beyond `most` bytes.
    pub(crate) fn open<R: Files<File = File>, P: AsPath>(
        files: &R,
        path: P,
        most: u64,
    ) -> Result<Self, FileFault> {
        let file = File::options().create(true).write(true).open(files, path)?;
        if file.metadata()?.len() > 0 {
            return Err(FileFault::NotEmpty);
        }
        Ok(LogFile {
            file,
            length: 0,
            safe: 0,
            reach: 0,
            most,
            faults: Failures::none(),
        })
    }

    /// How many bytes were appended since it was empty.
    pub(crate) fn bytes(&self) -> u64
        ensures { result ≡ self.now.length }
    {
        self.length
    }

    /// Up to where zeros are to stand behind what was appended: whole pages.
    fn ahead(&self) -> u64 {
        let most = self.safe.saturating_add(UNSAFE_BYTES).min(self.most);
        self.length.saturating_add(AHEAD_BYTES).min(most) & !(PAGE_BYTES as u64 - 1)
    }

    /// Writes zeros ahead, page by page, and answers how many bytes the file has then. What fails here is no fault: the file is only shorter.
    fn write_ahead(&self) -> u64 {
        const PAGE: u64 = PAGE_BYTES as u64;
        let end = self.ahead();
        let mut reach = self.length;
        for page in self.length.saturating_add(PAGE - 1) / PAGE..end / PAGE {
            let begin = page.saturating_mul(PAGE);
            if self.file.write_all_at(&[0; PAGE_BYTES], begin).is_err() {
                return reach;
            }
            reach = begin.saturating_add(PAGE);
        }
        reach
    }

    /// What a call came to; a failure is counted.
    fn count(&mut self, outcome: io::Result<()>) -> io::Result<()>
        ensures outcome { result ≡ outcome }
        ensures faults { self.new.faults.count ≡ failures_after (is_ok outcome) self.old.faults.count }
        ensures length { self.new.length ≡ self.old.length }
    {
        if outcome.is_err() {
            self.faults = self.faults.one_more();
        }
        outcome
    }
}

impl Segment for LogFile {
    ghost stored = { λ _. None };

    ghost faults = { λ f. f.faults.count };

    fn append(&mut self, piece: &[u8]) -> io::Result<()> {
        let begin = self.length;
        self.length = begin.saturating_add(piece.len() as u64);
        let written = self.file.write_all_at(piece, begin);
        // Not behind a header that is not safe: a file that has none, and more bytes than one, is no part of a log.
        if self.safe > 0 && self.length > self.reach {
            self.reach = self.write_ahead();
        }
        self.count(written)
    }

    fn sync_data(&mut self) -> io::Result<()> {
        let synced = self.file.sync_data();
        if synced.is_ok() {
            self.safe = self.length;
        }
        self.count(synced)
    }

    fn empty(&mut self) -> io::Result<()> {
        let emptied = self.file.set_len(0);
        if emptied.is_ok() {
            self.length = 0;
            self.safe = 0;
            self.reach = 0;
        }
        self.count(emptied)
    }

    fn sync_all(&mut self) -> io::Result<()> {
        let synced = self.file.sync_all();
        self.count(synced)
    }
}
