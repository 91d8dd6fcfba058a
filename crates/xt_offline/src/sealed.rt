//! A file of a sealed log, printed.

ghost use Rattle.std.specs.Io.KnownBytes.{Appends};
ghost use Rattle.std.specs.Prelude.{◌+◌, ◌<◌, ◌≡◌, IfErr, IfOk, IfSome, OnErr, OnOk, length, ℕ};
ghost use Rattle.xt_offline.specs.LogDump.{HasShortItems, IsLogStatus, checkpoint_lines};
ghost use Rattle.xt_offline.specs.Printing.{Begins};
ghost use Rattle.xt_offline.specs.SealedDump.{IsChained, IsEndBegun, IsEndPrinted, IsFurther, IsNextOf, IsFileWhy, IsOther, IsSealedBegun, IsSealedPrinted, IsTextsBegun, IsTextsPrinted, IsUnprinted, end_lines, end_status};
ghost use Rattle.xt_seal.specs.declared.header.TheConstants.{HEADER_BYTES};
ghost use Rattle.xt_seal.specs.Headers.{head_bytes};
ghost use Rattle.xt_window.specs.Rest.{IsRest};
ghost use Rattle.xt_window.specs.Start.{IsStart};
ghost use Rattle.xt_window.specs.Window.{ahead, unread, IsTied, IsWhy};

use crate::fault::DumpFault;
use crate::logdump::{print_checkpoint, print_fault, print_rest};
use std::alloc::Global;
use std::io::{self, ErrorKind, Read, Write};
use xt_ckpt::Rooms;
use xt_seal::{HEAD_BYTES, Header, SEAL_BYTES, Sealer};
use xt_text::buffer::Text;
use xt_window::fault::LogFault;
use xt_window::rest::Rest;
use xt_window::start::Start;
use xt_window::way::Which;
use xt_window::window::{SealedText, Window};

/// A fault of reading a file of a log, as one of the dump.
pub(crate) fn unread(which: Which, fault: LogFault) -> DumpFault
    ensures { (limit size : ℕ) → IsWhy limit size fault → IsFileWhy which limit size result }
{
    match which {
        Which::One => DumpFault::Log(fault),
        Which::Other => DumpFault::Second(fault),
    }
}

/// A file of a log that is opened: how it begins, and what is held of it.
#[derive(Drop)]
pub(crate) struct OpenFile {
    pub(crate) start: Start,
    pub(crate) window: Window,
}

/// Looks how a file of a log begins, which may have so many bytes. A header that begins it is taken.
pub(crate) fn open_file<R: Read>(
    alloc: Global,
    which: Which,
    limit: u64,
    reader: &mut R,
    piece: &mut [u8],
) -> Result<OpenFile, DumpFault>
    requires room { 0 < length piece.old }
    ensures opened { IfOk result (λ file. IfSome (R.remaining reader.old) (λ bytes. IsStart (unread limit) bytes file.start file.window (R.remaining reader.new))) }
    ensures tied { IfOk result (λ file. IsTied file.window (R.remaining reader.new)) }
    ensures limit { IfOk result (λ file. file.window.limit ≡ limit) }
    ensures why { IfErr result (λ fault. IfSome (R.remaining reader.old) (λ bytes. IsFileWhy which limit (length bytes) fault)) }
{
    let mut window = Window::new(alloc, limit);
    match window.start(reader, piece) {
        Ok(start) => Ok(OpenFile { start, window }),
        Err(fault) => Err(unread(which, fault)),
    }
}

/// A file of a sealed log, of which the header was taken.
#[derive(Drop)]
pub(crate) struct SealedFile {
    pub(crate) which: Which,
    pub(crate) window: Window,
    pub(crate) header: Header,
    sealer: Sealer,
    /// The seal of the last text that was printed, the header's own before the first.
    pub(crate) last: [u8; SEAL_BYTES],
    rooms: Rooms,
}

impl SealedFile {
    /// A file of which the header is taken, and nothing behind it.
    pub(crate) fn new(alloc: Global, which: Which, window: Window, header: Header) -> Self
        ensures chained { IsChained result }
        ensures unprinted { window.offset ≡ HEADER_BYTES → IsUnprinted result }
        ensures window { result.window ≡ window }
        ensures header { result.header ≡ header }
        ensures which { result.which ≡ which }
    {
        let (bytes, sealer) = header.begin();
        let mut last = [0; SEAL_BYTES];
        last.copy_from_slice(&bytes[HEAD_BYTES..]);
        SealedFile {
            which,
            window,
            header,
            sealer,
            last,
            rooms: Rooms::new(alloc),
        }
    }

    /// Prints its texts, and how it ends: the status.
    pub(crate) fn dump<R: Read, W: Write>(
        &mut self,
        reader: &mut R,
        piece: &mut [u8],
        text: &mut Text,
        writer: &mut W,
    ) -> Result<u8, DumpFault>
        requires room { 0 < length piece.old }
        requires chained { IsChained self.old }
        requires ended { IsTied self.old.window (R.remaining reader.old) }
        ensures printed { IfOk result (λ status. IfSome (ahead self.old.window (R.remaining reader.old)) (λ bytes. IsUnprinted self.old → IsSealedPrinted self.old.header bytes (W.contents writer.old) (W.contents writer.new) status)) }
        ensures begun { OnErr result (IfSome (ahead self.old.window (R.remaining reader.old)) (λ bytes. IsUnprinted self.old → IsSealedBegun self.old.header bytes (W.contents writer.old) (W.contents writer.new))) }
        ensures why { IfErr result (λ fault. IfSome (ahead self.old.window (R.remaining reader.old)) (λ bytes. IsUnprinted self.old → IsFileWhy self.old.which self.old.window.limit (HEADER_BYTES + length bytes) fault)) }
        ensures status { IfOk result IsLogStatus }
        ensures which { OnOk result (self.new.which ≡ self.old.which) }
    {
        self.print_texts(reader, piece, text, writer)?;
        self.print_end(reader, piece, writer)
    }

    /// Prints its texts, up to the first place where no text with its seal stands.
    pub(crate) fn print_texts<R: Read, W: Write>(
        &mut self,
        reader: &mut R,
        piece: &mut [u8],
        text: &mut Text,
        writer: &mut W,
    ) -> Result<(), DumpFault>
        requires room { 0 < length piece.old }
        requires chained { IsChained self.old }
        requires ended { IsTied self.old.window (R.remaining reader.old) }
        ensures printed { OnOk result (IfSome (ahead self.old.window (R.remaining reader.old)) (λ bytes. IsUnprinted self.old → IsTextsPrinted bytes self.new (R.remaining reader.new) (W.contents writer.old) (W.contents writer.new))) }
        ensures begun { OnErr result (IfSome (ahead self.old.window (R.remaining reader.old)) (λ bytes. IsUnprinted self.old → IsTextsBegun self.old.header bytes (W.contents writer.old) (W.contents writer.new))) }
        ensures why { IfErr result (λ fault. IfSome (ahead self.old.window (R.remaining reader.old)) (λ bytes. IsUnprinted self.old → IsFileWhy self.old.which self.old.window.limit (HEADER_BYTES + length bytes) fault)) }
        ensures further { OnOk result (IsFurther self.old self.new) }
        ensures tied { OnOk result (IsTied self.new.window (R.remaining reader.new)) }
    {
        for _ in 0..u64::MAX {
            match self.next(reader, piece)? {
                Some(found) => print_text(&mut self.rooms, found, text, writer)?,
                None => return Ok(()),
            }
        }
        Err(unread(
            self.which,
            LogFault::Io(io::Error::from(ErrorKind::TimedOut)),
        ))
    }

    /// The text that comes next, with its seal, which is the last one then.
    fn next<R: Read>(
        &mut self,
        reader: &mut R,
        piece: &mut [u8],
    ) -> Result<Option<SealedText>, DumpFault>
        requires room { 0 < length piece.old }
        requires chained { IsChained self.old }
        requires ended { IsTied self.old.window (R.remaining reader.old) }
        ensures short { IfOk result (λ found. IfSome found (λ text. HasShortItems text.checkpoint)) }
        ensures found { IfOk result (λ found. IfSome (ahead self.old.window (R.remaining reader.old)) (λ bytes. IsNextOf self.old bytes found self.new (R.remaining reader.new))) }
        ensures why { IfErr result (λ fault. IfSome (ahead self.old.window (R.remaining reader.old)) (λ bytes. IsFileWhy self.old.which self.old.window.limit (self.old.window.offset + length bytes) fault)) }
        ensures chained { OnOk result (IsChained self.new) }
        ensures further { OnOk result (IsFurther self.old self.new) }
        ensures tied { OnOk result (IsTied self.new.window (R.remaining reader.new)) }
    {
        match self
            .window
            .next_sealed(reader, piece, &mut self.rooms, &mut self.sealer)
        {
            Ok(Some(found)) => {
                let seal = found.seal;
                self.last = seal;
                Ok(Some(found))
            }
            Ok(None) => Ok(None),
            Err(fault) => Err(unread(self.which, fault)),
        }
    }

    /// Prints how it ends behind its last text: the status.
    pub(crate) fn print_end<R: Read, W: Write>(
        &mut self,
        reader: &mut R,
        piece: &mut [u8],
        writer: &mut W,
    ) -> Result<u8, DumpFault>
        requires room { 0 < length piece.old }
        requires ended { IsTied self.old.window (R.remaining reader.old) }
        ensures printed { IfOk result (λ status. IfSome (ahead self.old.window (R.remaining reader.old)) (λ bytes. IsEndPrinted self.old.header self.old.window.offset bytes (W.contents writer.old) (W.contents writer.new) status)) }
        ensures begun { OnErr result (IfSome (ahead self.old.window (R.remaining reader.old)) (λ bytes. IsEndBegun self.old.header self.old.window.offset bytes (W.contents writer.old) (W.contents writer.new))) }
        ensures why { IfErr result (λ fault. IfSome (ahead self.old.window (R.remaining reader.old)) (λ bytes. IsFileWhy self.old.which self.old.window.limit (self.old.window.offset + length bytes) fault)) }
        ensures status { IfOk result IsLogStatus }
        ensures which { self.new.which ≡ self.old.which }
    {
        let place = self.window.offset();
        let rest = self.rest(reader, piece)?;
        print_rest_of(writer, place, rest)
    }

    /// What stands behind its last text.
    fn rest<R: Read>(&mut self, reader: &mut R, piece: &mut [u8]) -> Result<Rest, DumpFault>
        requires room { 0 < length piece.old }
        requires ended { IsTied self.old.window (R.remaining reader.old) }
        ensures found { IfOk result (λ rest. IfSome (ahead self.old.window (R.remaining reader.old)) (λ bytes. IsRest (head_bytes self.old.header) bytes rest)) }
        ensures why { IfErr result (λ fault. IfSome (ahead self.old.window (R.remaining reader.old)) (λ bytes. IsFileWhy self.old.which self.old.window.limit (self.old.window.offset + length bytes) fault)) }
        ensures which { self.new.which ≡ self.old.which }
    {
        match self
            .window
            .rest(reader, piece, &mut self.rooms, &self.header)
        {
            Ok(rest) => Ok(rest),
            Err(fault) => Err(unread(self.which, fault)),
        }
    }
}

/// Prints a text, and lets it go: its room is used again.
fn print_text<W: Write>(
    rooms: &mut Rooms,
    found: SealedText,
    text: &mut Text,
    writer: &mut W,
) -> Result<(), DumpFault>
    requires short { HasShortItems found.checkpoint }
    ensures all { OnOk result (Appends (W.contents writer.old) (W.contents writer.new) (checkpoint_lines found.checkpoint)) }
    ensures part { Begins (W.contents writer.old) (W.contents writer.new) (checkpoint_lines found.checkpoint) }
    ensures fault { IfErr result IsOther }
{
    let printed = print_checkpoint(writer, text, &found.checkpoint);
    rooms.give_back(found.checkpoint);
    match printed {
        Ok(()) => Ok(()),
        Err(error) => Err(DumpFault::Output(error)),
    }
}

/// Prints what stands behind the last text of a file, which ends at a place: the status.
fn print_rest_of<W: Write>(writer: &mut W, place: u64, rest: Rest) -> Result<u8, DumpFault>
    ensures all { OnOk result (Appends (W.contents writer.old) (W.contents writer.new) (end_lines place rest)) }
    ensures part { Begins (W.contents writer.old) (W.contents writer.new) (end_lines place rest) }
    ensures status { IfOk result (λ status. status ≡ end_status rest) }
    ensures fault { IfErr result IsOther }
{
    let (printed, status) = match rest {
        Rest::Torn(count) => (print_rest(writer, count), 0),
        Rest::TooLong | Rest::Later => (print_fault(writer, place), 3),
    };
    match printed {
        Ok(()) => Ok(status),
        Err(error) => Err(DumpFault::Output(error)),
    }
}
