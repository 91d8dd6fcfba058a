//! A log read piece by piece, of which only what is not yet taken as texts is held.

ghost use Rattle.std.specs.Prelude.{◌+◌, ◌<◌, ◌≤◌, ◌≡◌, [], IfErr, IfOk, IfSome, IsNone, List, OnOk, drop, false, length, take, ◌^◌, ℕ};
ghost use Rattle.xt_seal.specs.Seal.{Seals};
ghost use Rattle.xt_window.specs.Window.{ahead, is_too_long, taken, unread, with_more, IsAhead, IsAheadSealed, IsNext, IsNextSealed, IsOfGrammar, IsRefilled, IsSameUnlessTaken, IsTakenSealed, IsTextTaken, IsTied, IsWhy};

use crate::fault::LogFault;
use std::alloc::{AllocError, Global};
use std::io::{self, ErrorKind, Read};
use std::marker::Model;
use xt_ckpt::{Checkpoint, ReadFault, Rooms, read_checkpoint_into};
use xt_seal::{SEAL_BYTES, Sealed, Sealer, judge_sealed};

/// How many bytes are read at once.
pub const PIECE_BYTES: usize = 65_536;

/// The most bytes of a text: of 64 whole blocks, where it says their size.
const TEXT_BYTES: usize = 263_204;

/// What comes next in a log.
#[derive(Debug, Drop)]
pub enum Found {
    /// A whole text.
    Text(Checkpoint),
    /// So many bytes up to the end, which are no text yet.
    Rest(u64),
    /// A field that breaks its rule, by its offset in the log.
    Fault(u64),
}

/// A text of a sealed log, and the seal that stands behind it.
#[derive(Debug, Drop)]
pub struct SealedText {
    pub checkpoint: Checkpoint,
    pub seal: [u8; SEAL_BYTES],
}

/// What is held of a log that is read. Clauses see the bytes that are not taken yet, their offset in the log, whether the log ends
/// with them, and how many bytes it may have.
#[derive(Debug, Drop)]
pub struct Window {
    bytes: Vec<u8>,
    /// How many of the bytes are taken.
    taken: usize,
    /// Where the bytes begin in the log.
    start: u64,
    is_ended: bool,
    /// The most bytes that the log may have.
    limit: u64,
}

impl Model for Window {
    ghost use Rattle.std.specs.Prelude.{drop, length, ◌+◌, ◌<◌, ◌≤◌, ◌^◌};
    ghost use Rattle.xt_window.specs.Window.{Held};

    ghost Value = { Held };

    ghost view = { λ w. record { bytes = drop w.taken w.bytes.items; offset = w.start + w.taken; is_ended = w.is_ended; limit = w.limit } };

    ghost invariant = { λ w. (w.taken ≤ length w.bytes.items) × (w.start + length w.bytes.items ≤ w.limit) × (w.limit < 2 ^ 64) };
}

impl Window {
    /// The beginning of a log that may have so many bytes, of which nothing is read.
    pub fn new(alloc: Global, limit: u64) -> Self
        ensures { result ≡ unread limit }
    {
        Window {
            bytes: Vec::new(alloc),
            taken: 0,
            start: 0,
            is_ended: false,
            limit,
        }
    }

    /// The bytes that are not taken.
    pub(crate) fn held(&self) -> &[u8]
        ensures { result.now ≡ self.now.bytes }
    {
        &self.bytes[self.taken..]
    }

    /// The offset in the log, in bytes, of what comes next: so many are taken.
    pub fn offset(&self) -> u64
        ensures value { result ≡ self.now.offset }
        ensures bound { result + length self.now.bytes < 2 ^ 64 }
    {
        self.start + self.taken as u64
    }

    /// Whether the log ends with them.
    pub(crate) fn is_ended(&self) -> bool
        ensures { result ≡ self.now.is_ended }
    {
        self.is_ended
    }

    /// The first bytes are taken.
    pub(crate) fn take(&mut self, len: usize)
        requires { len ≤ length self.old.bytes }
        ensures { self.new ≡ taken len self.old }
    {
        self.taken += len;
    }

    /// Takes the text that begins what is held, or says how the log ends; where more bytes are wanted they are read, by way of `piece`.
    /// A reader that is interrupted is asked again. The items of a text stand in `rooms`, as far as there are some.
    #[tactic(auto, using(crate::proofs::WindowLemmas::is_tied, crate::proofs::WindowLemmas::refilled_more, crate::proofs::WindowLemmas::refilled_none, crate::proofs::WindowLemmas::why_ahead, crate::proofs::WindowLemmas::why_other))]
    pub fn next<R: Read>(
        &mut self,
        reader: &mut R,
        piece: &mut [u8],
        rooms: &mut Rooms,
    ) -> Result<Found, LogFault>
        requires room { 0 < length piece.old }
        requires ended { IsTied self.old (R.remaining reader.old) }
        ensures grammar { IfOk result IsOfGrammar }
        ensures found { IfOk result (λ found. IfSome (ahead self.old (R.remaining reader.old)) (λ log. IsAhead self.old log found self.new (R.remaining reader.new))) }
        ensures tied { OnOk result (IsTied self.new (R.remaining reader.new)) }
        ensures limit { OnOk result (self.new.limit ≡ self.old.limit) }
        ensures fault { IfErr result (λ fault. IfSome (ahead self.old (R.remaining reader.old)) (λ log. IsWhy self.old.limit (self.old.offset + length log) fault)) }
    {
        for _ in 0..u64::MAX {
            if let Some(found) = self.judge(rooms)? {
                return Ok(found);
            }
            self.refill(reader, piece)?;
        }
        Err(LogFault::Io(io::Error::from(ErrorKind::TimedOut)))
    }

    /// Judges what is held, once no text has more bytes or the log ends with them; None where more is to be read. So a text is read once.
    fn judge(&mut self, rooms: &mut Rooms) -> Result<Option<Found>, LogFault>
        ensures judged { IfOk result (λ found. IsNext self.old found self.new) }
        ensures bound { self.old.offset + length self.old.bytes ≤ self.old.limit }
        ensures fault { IfErr result (λ fault. is_too_long fault ≡ false) }
    {
        if self.bytes.len() - self.taken < TEXT_BYTES && !self.is_ended {
            return Ok(None);
        }
        self.judge_held(rooms)
    }

    /// Judges what is held, however little it is.
    fn judge_held(&mut self, rooms: &mut Rooms) -> Result<Option<Found>, LogFault>
        ensures judged { IfOk result (λ found. IsNext self.old found self.new) }
        ensures fault { IfErr result (λ fault. is_too_long fault ≡ false) }
    {
        match read_checkpoint_into(rooms, self.held()) {
            Ok(Some((checkpoint, len))) => {
                self.take(len);
                Ok(Some(Found::Text(checkpoint)))
            }
            Ok(None) if self.is_ended() => Ok(Some(Found::Rest(self.held().len() as u64))),
            Ok(None) => Ok(None),
            Err(ReadFault::Ckpt(fault)) => Ok(Some(Found::Fault(self.offset() + fault.at as u64))),
            Err(ReadFault::Memory) => Err(LogFault::Memory(AllocError)),
        }
    }

    /// Takes the text that comes next in a sealed log, behind what was summed up, and its seal, and sums them up. None where the log ends: no text with
    /// its seal stands there, whatever else does, and nothing is taken. Bytes are read by way of `piece`; a reader that is interrupted is asked again.
    /// The items of a text stand in `rooms`, as far as there are some.
    #[tactic(auto, using(crate::proofs::WindowLemmas::refilled_more, crate::proofs::WindowLemmas::refilled_none, crate::proofs::WindowLemmas::why_ahead, crate::proofs::WindowLemmas::why_other))]
    pub fn next_sealed<R: Read>(
        &mut self,
        reader: &mut R,
        piece: &mut [u8],
        rooms: &mut Rooms,
        sealer: &mut Sealer,
    ) -> Result<Option<SealedText>, LogFault>
        requires room { 0 < length piece.old }
        requires ended { IsTied self.old (R.remaining reader.old) }
        ensures grammar { IfOk result (λ found. IfSome found (λ text. (head before : List ℕ) → Seals sealer.old head before [] → IsTakenSealed head before text sealer.new)) }
        ensures text { IfOk result IsTextTaken }
        ensures found { IfOk result (λ found. IfSome (ahead self.old (R.remaining reader.old)) (λ log. (head before : List ℕ) → Seals sealer.old head before [] → IsAheadSealed head before self.old log found sealer.new self.new (R.remaining reader.new))) }
        ensures none { IfOk result (λ found. IsNone found → sealer.new ≡ sealer.old) }
        ensures tied { OnOk result (IsTied self.new (R.remaining reader.new)) }
        ensures limit { OnOk result (self.new.limit ≡ self.old.limit) }
        ensures fault { IfErr result (λ fault. IfSome (ahead self.old (R.remaining reader.old)) (λ log. IsWhy self.old.limit (self.old.offset + length log) fault)) }
    {
        for _ in 0..u64::MAX {
            if let Some(found) = self.judge_next(rooms, sealer)? {
                return Ok(found);
            }
            self.refill(reader, piece)?;
        }
        Err(LogFault::Io(io::Error::from(ErrorKind::TimedOut)))
    }

    /// Judges what is held of a sealed log, once no text and seal have more bytes or the log ends with them; None where more is to be read.
    fn judge_next(
        &mut self,
        rooms: &mut Rooms,
        sealer: &mut Sealer,
    ) -> Result<Option<Option<SealedText>>, LogFault>
        ensures judged { IfOk result (λ found. (head before : List ℕ) → Seals sealer.old head before [] → IsNextSealed head before self.old found sealer.new self.new) }
        ensures text { IfOk result (λ found. IfSome found IsTextTaken) }
        ensures same { IfOk result (λ found. IsSameUnlessTaken found sealer.old sealer.new) }
        ensures more { IfOk result (λ found. IsNone found → (self.old.is_ended ≡ false) × (self.new ≡ self.old)) }
        ensures ended { OnOk result (self.new.is_ended ≡ self.old.is_ended) }
        ensures limit { OnOk result (self.new.limit ≡ self.old.limit) }
        ensures fault { IfErr result (λ fault. is_too_long fault ≡ false) }
    {
        if self.bytes.len() - self.taken < TEXT_BYTES + SEAL_BYTES && !self.is_ended {
            return Ok(None);
        }
        self.judge_next_held(rooms, sealer)
    }

    /// Judges what is held of a sealed log, however little it is.
    fn judge_next_held(
        &mut self,
        rooms: &mut Rooms,
        sealer: &mut Sealer,
    ) -> Result<Option<Option<SealedText>>, LogFault>
        ensures judged { IfOk result (λ found. (head before : List ℕ) → Seals sealer.old head before [] → IsNextSealed head before self.old found sealer.new self.new) }
        ensures text { IfOk result (λ found. IfSome found IsTextTaken) }
        ensures same { IfOk result (λ found. IsSameUnlessTaken found sealer.old sealer.new) }
        ensures more { IfOk result (λ found. IsNone found → (self.old.is_ended ≡ false) × (self.new ≡ self.old)) }
        ensures ended { OnOk result (self.new.is_ended ≡ self.old.is_ended) }
        ensures limit { OnOk result (self.new.limit ≡ self.old.limit) }
        ensures fault { IfErr result (λ fault. is_too_long fault ≡ false) }
    {
        match judge_sealed(rooms, sealer, self.held()) {
            Ok(Sealed::Text(checkpoint, len)) => {
                let seal = self.take_sealed(len);
                Ok(Some(Some(SealedText { checkpoint, seal })))
            }
            Ok(Sealed::Nothing) => Ok(Some(None)),
            Ok(Sealed::More) if self.is_ended() => Ok(Some(None)),
            Ok(Sealed::More) => Ok(None),
            Err(AllocError) => Err(LogFault::Memory(AllocError)),
        }
    }

    /// A text of so many bytes is taken, and the seal behind it, which is answered.
    fn take_sealed(&mut self, len: usize) -> [u8; SEAL_BYTES]
        requires { len + 8 ≤ length self.old.bytes }
        ensures seal { result ≡ take 8 (drop len self.old.bytes) }
        ensures taken { self.new ≡ taken (len + 8) self.old }
    {
        let mut seal = [0; SEAL_BYTES];
        seal.copy_from_slice(&self.held()[len..len + SEAL_BYTES]);
        self.take(len + SEAL_BYTES);
        seal
    }

    /// Reads some more bytes behind what is held.
    pub(crate) fn refill<R: Read>(
        &mut self,
        reader: &mut R,
        piece: &mut [u8],
    ) -> Result<(), LogFault>
        requires room { 0 < length piece.old }
        requires going { self.old.is_ended ≡ false }
        ensures more { OnOk result (IsRefilled self.old self.new (R.remaining reader.old) (R.remaining reader.new)) }
        ensures fault { IfErr result (λ fault. IfSome (ahead self.old (R.remaining reader.old)) (λ log. IsWhy self.old.limit (self.old.offset + length log) fault)) }
    {
        match reader.read(piece) {
            Ok(0) => {
                self.is_ended = true;
                Ok(())
            }
            Ok(count) => {
                self.let_go();
                self.keep(&piece[..count])
            }
            Err(error) if error.kind() == ErrorKind::Interrupted => Ok(()),
            Err(error) => Err(LogFault::Io(error)),
        }
    }

    /// Puts bytes behind what is held. `TooLong` where the log has more bytes than it may have.
    fn keep(&mut self, more: &[u8]) -> Result<(), LogFault>
        ensures kept { OnOk result (self.new ≡ with_more more.now self.old) }
        ensures fault { IfErr result (IsWhy self.old.limit (self.old.offset + length self.old.bytes + length more.now)) }
    {
        if more.len() as u64 > self.limit - self.start - self.bytes.len() as u64 {
            return Err(LogFault::TooLong);
        }
        self.bytes.extend_from_slice(more).map_err(LogFault::Memory)
    }

    /// The room of what was taken is used again, once it is more than what is held: so little is moved.
    fn let_go(&mut self)
        ensures { self.new ≡ self.old }
    {
        let len = self.bytes.len();
        let held = len - self.taken;
        if held < self.taken {
            self.bytes.copy_within(self.taken..len, 0);
            self.bytes.truncate(held);
            self.start += self.taken as u64;
            self.taken = 0;
        }
    }
}
