//! How a file of a log begins.

ghost use Rattle.std.specs.Prelude.{◌≡◌, ◌+◌, ◌++◌, ◌<◌, ◌≤◌, ◌⊎◌, [], IfErr, IfOk, IfSome, OnOk, drop, length, true};
ghost use Rattle.xt_seal.specs.Headers.{head_bytes, header_bytes};
ghost use Rattle.xt_seal.specs.Seal.{Seals, seal_of};
ghost use Rattle.xt_window.specs.Start.{IsFilled, IsShort, IsStart, IsStarted, begins_bare};
ghost use Rattle.xt_window.specs.Window.{ahead, IsRefilled, IsTied, IsWhy};

use crate::fault::LogFault;
use crate::window::Window;
use std::io::{self, ErrorKind, Read};
use xt_seal::{HEADER_BYTES, Header, Sealer};

/// How a file of a log begins.
#[derive(Clone, Copy)]
pub enum Start {
    /// With a header, its seal, and something behind them; with that sealer its texts are read.
    Sealed(Header, Sealer),
    /// With no header, or nothing but one.
    Other(Unsealed),
}

/// What is seen of a file that no header begins, or that has nothing but one.
#[derive(Clone, Copy, Debug, PartialEq, Eq)]
pub struct Unsealed {
    /// Whether the first word of a text begins it.
    pub has_text: bool,
    /// How many bytes it has, where these are no more than a header has: then it has no text of a sealed log.
    pub short: Option<usize>,
}

/// Whether bytes begin as the text of a checkpoint does, by their first word.
pub fn begins_as_text(bytes: &[u8]) -> bool
    ensures { result ≡ begins_bare bytes.now }
{
    bytes.starts_with(b"XCP1") || bytes.starts_with(b"XCP2")
}

impl Window {
    /// Looks how the file begins, before anything is taken of it. A header and its seal are taken; of another file nothing is.
    #[tactic(auto, using(crate::proofs::WindowLemmas::why_other))]
    pub fn start<R: Read>(&mut self, reader: &mut R, piece: &mut [u8]) -> Result<Start, LogFault>
        requires room { 0 < length piece.old }
        requires ended { IsTied self.old (R.remaining reader.old) }
        ensures found { IfOk result (λ start. IfSome (ahead self.old (R.remaining reader.old)) (λ log. IsStart self.old log start self.new (R.remaining reader.new))) }
        ensures tied { OnOk result (IsTied self.new (R.remaining reader.new)) }
        ensures limit { OnOk result (self.new.limit ≡ self.old.limit) }
        ensures fault { IfErr result (λ fault. IfSome (ahead self.old (R.remaining reader.old)) (λ log. IsWhy self.old.limit (self.old.offset + length log) fault)) }
    {
        self.fill(reader, piece, HEADER_BYTES + 1)?;
        Ok(self.judge_start())
    }

    /// Judges how what is held begins.
    fn judge_start(&mut self) -> Start
        ensures { IsStarted self.old result self.new }
    {
        match Header::read(self.held()) {
            Some((header, sealer)) => self.judge_header(header, sealer),
            None => Start::Other(self.unsealed()),
        }
    }

    /// The same, where a header and its seal begin it. One alone counts for none: a file that was emptied may have got back, of old bytes, what it had
    /// in front.
    #[tactic(auto, using(crate::proofs::StartLemmas::header_alone, crate::proofs::StartLemmas::header_begins))]
    fn judge_header(&mut self, header: Header, sealer: Sealer) -> Start
        requires begins { self.old.bytes ≡ header_bytes header ++ drop 64 self.old.bytes }
        requires seals { Seals sealer (head_bytes header) (seal_of (head_bytes header)) [] }
        ensures { IsStarted self.old result self.new }
    {
        if self.held().len() <= HEADER_BYTES {
            return Start::Other(self.unsealed());
        }
        self.take(HEADER_BYTES);
        Start::Sealed(header, sealer)
    }

    /// What is seen of what is held, which no header begins.
    fn unsealed(&self) -> Unsealed
        ensures word { result.has_text ≡ begins_bare self.now.bytes }
        ensures short { IsShort self.now.bytes result.short }
    {
        let held = self.held();
        Unsealed {
            has_text: begins_as_text(held),
            short: if held.len() <= HEADER_BYTES {
                Some(held.len())
            } else {
                None
            },
        }
    }

    /// Reads on until so many bytes are held, or the log ends with what is. A reader that is interrupted is asked again.
    #[tactic(auto, using(crate::proofs::WindowLemmas::refilled_more, crate::proofs::WindowLemmas::refilled_none, crate::proofs::WindowLemmas::why_ahead, crate::proofs::WindowLemmas::why_other))]
    pub(crate) fn fill<R: Read>(
        &mut self,
        reader: &mut R,
        piece: &mut [u8],
        len: usize,
    ) -> Result<(), LogFault>
        requires room { 0 < length piece.old }
        requires ended { IsTied self.old (R.remaining reader.old) }
        ensures more { OnOk result (IsRefilled self.old self.new (R.remaining reader.old) (R.remaining reader.new)) }
        ensures held { OnOk result (IsFilled len self.new) }
        ensures fault { IfErr result (λ fault. IfSome (ahead self.old (R.remaining reader.old)) (λ log. IsWhy self.old.limit (self.old.offset + length log) fault)) }
    {
        for _ in 0..u64::MAX {
            if self.held().len() >= len || self.is_ended() {
                return Ok(());
            }
            self.refill(reader, piece)?;
        }
        Err(LogFault::Io(io::Error::from(ErrorKind::TimedOut)))
    }
}
