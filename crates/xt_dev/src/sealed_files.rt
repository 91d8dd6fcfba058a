//! Two files of a log, written by turns: a header in each, and behind it texts, each with its seal.

ghost use Rattle.std.specs.Prelude.{◌≡◌, ◌+◌, IfErr, IfOk, IfSome, None, OnOk, Some, [], false, if◌then◌else◌, is_ok, true};
ghost use Rattle.xt_dev.specs.Devices.{failures_after};
ghost use Rattle.xt_dev.specs.Segments.{all_safe};
ghost use Rattle.xt_dev.specs.TwoFiles.{Holds, IsFirst, TwoFiles, after_room, first_log, is_due, next_header, synced, with_piece};
ghost use Rattle.xt_seal.specs.Headers.{head_bytes, header_bytes};
ghost use Rattle.xt_seal.specs.Seal.{Seals, seal_of};

use crate::segment::Segment;
use std::{io, mem};
use xt_seal::{HEADER_BYTES, Header, SEAL_BYTES, Sealer};

/// What is kept of a file that has nothing but a header.
#[derive(Clone, Copy)]
struct Start {
    sealer: Sealer,
    seal: [u8; SEAL_BYTES],
}

/// Writes a header into a file that has nothing, and makes it safe.
fn write_header<S: Segment>(file: &mut S, header: &Header) -> io::Result<Start>
    ensures stored { OnOk result (IfSome (S.stored file.old) (λ s. s ≡ all_safe []) → IfSome (S.stored file.new) (λ s. s ≡ all_safe (header_bytes header.now))) }
    ensures sums { IfOk result (λ start. Seals start.sealer (head_bytes header.now) (seal_of (head_bytes header.now)) []) }
    ensures seal { IfOk result (λ start. start.seal ≡ seal_of (head_bytes header.now)) }
    ensures faults { S.faults file.new ≡ failures_after (is_ok result) (S.faults file.old) }
{
    let (bytes, sealer) = header.begin();
    file.append(&bytes)?;
    file.sync_data()?;
    let mut seal = [0; SEAL_BYTES];
    seal.copy_from_slice(&bytes[HEADER_BYTES - SEAL_BYTES..]);
    Ok(Start { sealer, seal })
}

/// A log in two files. A text stands in one of them, whole. After a call that failed nothing more is said of it.
#[derive(Drop)]
pub(crate) struct SealedFiles<S> {
    /// The file that is written.
    newer: S,
    /// The other one, whose texts are older.
    older: S,
    /// The header of the newer file.
    header: Header,
    sealer: Sealer,
    /// The seal at the end of the newer file's whole texts: of the last one, or of the header.
    last: [u8; SEAL_BYTES],
    /// How many bytes the newer file's texts have, the one that is begun among them.
    length: u64,
    /// Whether a text is begun.
    is_within: bool,
}

impl<S: Segment> SealedFiles<S> {
    /// Begins a life in two files that have nothing: the first one gets a header, which is safe then.
    pub(crate) fn begin(first: S, second: S, header: Header) -> io::Result<Self>
        requires begins { IsFirst header }
        ensures begun { IfOk result (λ files. IfSome (S.stored first) (λ s. s ≡ all_safe []) → IfSome (S.stored second) (λ s. s ≡ all_safe []) → Holds S.stored files (first_log header)) }
        ensures header { IfOk result (λ files. files.header ≡ header) }
        ensures older { IfOk result (λ files. files.older ≡ second) }
    {
        let mut newer = first;
        let Start { sealer, seal } = write_header(&mut newer, &header)?;
        Ok(SealedFiles {
            newer,
            older: second,
            header,
            sealer,
            last: seal,
            length: 0,
            is_within: false,
        })
    }

    /// Puts a piece of a text behind what the newer file has; one that is not empty begins a text where none is begun.
    pub(crate) fn append(&mut self, piece: &[u8]) -> io::Result<()>
        ensures kept { OnOk result ((log : TwoFiles) → Holds S.stored self.old log → Holds S.stored self.new (with_piece piece.now log)) }
        // The other file is as it was, also where this fails.
        ensures older { self.new.older ≡ self.old.older }
        ensures header { self.new.header ≡ self.old.header }
        ensures faults { S.faults self.new.newer ≡ failures_after (is_ok result) (S.faults self.old.newer) }
    {
        self.newer.append(piece)?;
        self.sealer.note(piece);
        self.length = self.length.saturating_add(piece.len() as u64);
        self.is_within = self.is_within || !piece.is_empty();
        Ok(())
    }

    /// Ends the text that is begun with its seal, if one is, and makes the newer file safe, by one sync.
    pub(crate) fn sync(&mut self) -> io::Result<()>
        ensures kept { OnOk result ((log : TwoFiles) → Holds S.stored self.old log → Holds S.stored self.new (synced log)) }
        // The other file is as it was, also where this fails.
        ensures older { self.new.older ≡ self.old.older }
        ensures header { self.new.header ≡ self.old.header }
        ensures faults { S.faults self.new.newer ≡ failures_after (is_ok result) (S.faults self.old.newer) }
    {
        if !self.is_within {
            return self.newer.sync_data();
        }
        let seal = self.sealer.seal();
        self.newer.append(&seal)?;
        self.last = seal;
        self.is_within = false;
        self.newer.sync_data()
    }

    /// Takes a turn where one is due, since a text of so many bytes comes next: the older file is emptied, that is made safe, and it gets the next header,
    /// which is safe then; it is the newer one from then on. Answers whether it did. An older file that can't be emptied stays as it is, and the next call tries
    /// again. An error is one of the older file, which was emptied then.
    pub(crate) fn make_room(&mut self, bytes: u64) -> io::Result<bool>
        ensures kept { IfOk result (λ turns. (log : TwoFiles) → Holds S.stored self.old log → Holds S.stored self.new (after_room turns log)) }
        // What was newer is older now, untouched.
        ensures aside { IfOk result (λ turns. turns ≡ true → self.new.older ≡ self.old.newer) }
        ensures due { IfOk result (λ turns. turns ≡ true → (log : TwoFiles) → Holds S.stored self.old log → is_due bytes log ≡ true) }
        // Where none is due nothing changes, and where one is due and not taken the older file could not be emptied.
        ensures idle { (log : TwoFiles) → Holds S.stored self.old log → is_due bytes log ≡ false → self.new ≡ self.old }
        ensures stays { IfOk result (λ turns. turns ≡ false → self.new.newer ≡ self.old.newer) }
        ensures refused { IfOk result (λ turns. turns ≡ false → (log : TwoFiles) → Holds S.stored self.old log → is_due bytes log ≡ true → S.faults self.new.older ≡ S.faults self.old.older + 1) }
        // At an error what was newer is so still, untouched.
        ensures fault { IfErr result (λ _. self.new.newer ≡ self.old.newer) }
        ensures faults { IfErr result (λ _. S.faults self.new.older ≡ S.faults self.old.older + 1) }
        ensures log_bytes { self.new.header.log_bytes ≡ self.old.header.log_bytes }
    {
        match self.due_header(bytes) {
            Some(header) => self.take_turn(header),
            None => Ok(false),
        }
    }

    /// Its two files: the one that is written, and the other one.
    pub(crate) fn files(&self) -> (&S, &S)
        ensures newer { result.0.now ≡ self.now.newer }
        ensures older { result.1.now ≡ self.now.older }
    {
        (&self.newer, &self.older)
    }

    /// The header of the next turn, where one is due.
    fn due_header(&self, bytes: u64) -> Option<Header>
        ensures due { (log : TwoFiles) → Holds S.stored self.now log → result ≡ (if is_due bytes log then Some (next_header log.newer) else None) }
        ensures closed { IfSome result (λ _. self.now.is_within ≡ false) }
        ensures log_bytes { IfSome result (λ header. header.log_bytes ≡ self.now.header.log_bytes) }
    {
        let length = self.length.saturating_add(bytes);
        if self.is_within || length <= u64::from(self.header.log_bytes) {
            return None;
        }
        let generation = self.header.generation.checked_add(1)?;
        Some(Header {
            generation,
            link: self.last,
            ..self.header
        })
    }

    /// Takes a turn that is due, with this header.
    fn take_turn(&mut self, header: Header) -> io::Result<bool>
        requires closed { self.old.is_within ≡ false }
        requires log_bytes { header.log_bytes ≡ self.old.header.log_bytes }
        ensures kept { IfOk result (λ turns. (log : TwoFiles) → header ≡ next_header log.newer → Holds S.stored self.old log → Holds S.stored self.new (after_room turns log)) }
        ensures aside { IfOk result (λ turns. turns ≡ true → self.new.older ≡ self.old.newer) }
        ensures stays { IfOk result (λ turns. turns ≡ false → self.new.newer ≡ self.old.newer) }
        ensures refused { IfOk result (λ turns. turns ≡ false → S.faults self.new.older ≡ S.faults self.old.older + 1) }
        ensures fault { IfErr result (λ _. self.new.newer ≡ self.old.newer) }
        ensures faults { IfErr result (λ _. S.faults self.new.older ≡ S.faults self.old.older + 1) }
        ensures log_bytes { self.new.header.log_bytes ≡ self.old.header.log_bytes }
    {
        if self.older.empty().is_err() {
            return Ok(false);
        }
        self.older.sync_all()?;
        let Start { sealer, seal } = write_header(&mut self.older, &header)?;
        mem::swap(&mut self.newer, &mut self.older);
        self.header = header;
        self.sealer = sealer;
        self.last = seal;
        self.length = 0;
        self.is_within = false;
        Ok(true)
    }
}
