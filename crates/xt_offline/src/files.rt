//! `xth logdump` of a log in two files.

ghost use Rattle.std.specs.Io.KnownBytes.{Appends};
ghost use Rattle.std.specs.Prelude.{◌+◌, ◌<◌, ◌≡◌, List, IfErr, IfOk, IfSome, OnErr, length, ℕ};
ghost use Rattle.xt_offline.specs.FilesDump.{AreBegun, ArePrinted, IsFilesCut, IsFilesPrinted, IsFilesRun, IsFilesWhy, IsWhyOfEither};
ghost use Rattle.xt_offline.specs.LogDump.{fault_line, whole_log, IsBareBegun, IsBarePrinted, IsLogStatus};
ghost use Rattle.xt_offline.specs.Printing.{Begins};
ghost use Rattle.xt_offline.specs.SealedDump.{IsChained, IsFileWhy, IsOther, IsSealedBegun, IsSealedPrinted, IsUnprinted};
ghost use Rattle.xt_seal.specs.declared.header.TheConstants.{HEADER_BYTES};
ghost use Rattle.xt_window.specs.Start.{IsStart};
ghost use Rattle.xt_window.specs.Window.{ahead, unread, IsTied};

use crate::fault::DumpFault;
use crate::logdump::{Source, dump_bare, print_fault, tell};
use crate::sealed::{OpenFile, SealedFile, open_file};
use std::alloc::Global;
use std::io::{Read, Write};
use xt_text::buffer::Text;
use xt_window::way::{Way, Which, way_of};
use xt_window::window::{PIECE_BYTES, Window};

/// How a dump of a log in two files ended: its status, and in which file.
#[derive(Clone, Copy, Debug, PartialEq, Eq)]
pub struct Dumped {
    pub status: u8,
    pub which: Which,
}

/// Prints the checkpoints of a log in two files, of a sealed one those of the older file first. Answers in which file it ended, and the exit status: 0, after `rest N` where N bytes
/// behind the last whole text may be what a loss of power left; 3 after the texts before the first fault and `fault OFFSET`, counted in that file; 1 after a fault of a reader, of
/// the writer or of memory, or of a file that turns out too long, which is printed on `err`, with at most a beginning of what is printed of the log. What is printed on `err` may
/// end early, where `err` fails.
#[tactic(auto, using(crate::proofs::FilesLemmas::files_whole, crate::proofs::FilesLemmas::files_stopped))]
pub fn dump_files<R: Read, W: Write, E: Write>(
    alloc: Global,
    source: Source,
    first: &mut R,
    second: &mut R,
    writer: &mut W,
    err: &mut E,
) -> Dumped
    ensures run { IfSome (R.remaining first.old) (λ one. IfSome (R.remaining second.old) (λ other. IsFilesRun source.entry.limit one other (W.contents writer.old) (W.contents writer.new) (E.contents err.old) (E.contents err.new) result)) }
    ensures status { IsLogStatus result.status }
{
    match dump_to_the_end(alloc, source.limit, first, second, writer) {
        Ok(dumped) => dumped,
        Err(fault) => Dumped {
            status: tell(err, source.name, &fault),
            which: file_of(&fault),
        },
    }
}

/// Of which file a fault is.
fn file_of(fault: &DumpFault) -> Which {
    match fault {
        DumpFault::Second(_) => Which::Other,
        DumpFault::Log(_) | DumpFault::Output(_) | DumpFault::Memory(_) => Which::One,
    }
}

/// Prints all texts, with all that the writer holds back written too.
#[tactic(auto, using(crate::proofs::FilesLemmas::files_other, crate::proofs::FilesLemmas::files_kept))]
fn dump_to_the_end<R: Read, W: Write>(
    alloc: Global,
    limit: u64,
    first: &mut R,
    second: &mut R,
    writer: &mut W,
) -> Result<Dumped, DumpFault>
    ensures printed { IfOk result (λ ended. IfSome (R.remaining first.old) (λ one. IfSome (R.remaining second.old) (λ other. IsFilesPrinted limit one other (W.contents writer.old) (W.contents writer.new) ended))) }
    ensures begun { OnErr result (IfSome (R.remaining first.old) (λ one. IfSome (R.remaining second.old) (λ other. IsFilesCut limit one other (W.contents writer.old) (W.contents writer.new)))) }
    ensures why { IfErr result (λ fault. IfSome (R.remaining first.old) (λ one. IfSome (R.remaining second.old) (λ other. IsFilesWhy limit (length one) (length other) fault))) }
    ensures status { IfOk result (λ ended. IsLogStatus ended.status) }
{
    let dumped = dump_texts(alloc, limit, first, second, writer)?;
    writer.flush().map_err(DumpFault::Output)?;
    Ok(dumped)
}

/// The same, without what the writer holds back.
#[tactic(auto, using(crate::proofs::FilesLemmas::files_other))]
fn dump_texts<R: Read, W: Write>(
    alloc: Global,
    limit: u64,
    first: &mut R,
    second: &mut R,
    writer: &mut W,
) -> Result<Dumped, DumpFault>
    ensures printed { IfOk result (λ ended. IfSome (R.remaining first.old) (λ one. IfSome (R.remaining second.old) (λ other. IsFilesPrinted limit one other (W.contents writer.old) (W.contents writer.new) ended))) }
    ensures begun { OnErr result (IfSome (R.remaining first.old) (λ one. IfSome (R.remaining second.old) (λ other. IsFilesCut limit one other (W.contents writer.old) (W.contents writer.new)))) }
    ensures why { IfErr result (λ fault. IfSome (R.remaining first.old) (λ one. IfSome (R.remaining second.old) (λ other. IsFilesWhy limit (length one) (length other) fault))) }
    ensures status { IfOk result (λ ended. IsLogStatus ended.status) }
{
    let mut piece = vec![in alloc; 0u8; PIECE_BYTES].map_err(DumpFault::Memory)?;
    let mut text = Text::new(alloc).map_err(DumpFault::Memory)?;
    dump_by_pieces(alloc, limit, first, second, &mut piece, &mut text, writer)
}

/// Looks how both files begin, and prints them so.
#[tactic(auto, using(crate::proofs::FilesLemmas::unopened_first, crate::proofs::FilesLemmas::unopened_second))]
fn dump_by_pieces<R: Read, W: Write>(
    alloc: Global,
    limit: u64,
    first: &mut R,
    second: &mut R,
    piece: &mut [u8],
    text: &mut Text,
    writer: &mut W,
) -> Result<Dumped, DumpFault>
    requires room { 0 < length piece.old }
    ensures printed { IfOk result (λ ended. IfSome (R.remaining first.old) (λ one. IfSome (R.remaining second.old) (λ other. IsFilesPrinted limit one other (W.contents writer.old) (W.contents writer.new) ended))) }
    ensures begun { OnErr result (IfSome (R.remaining first.old) (λ one. IfSome (R.remaining second.old) (λ other. IsFilesCut limit one other (W.contents writer.old) (W.contents writer.new)))) }
    ensures why { IfErr result (λ fault. IfSome (R.remaining first.old) (λ one. IfSome (R.remaining second.old) (λ other. IsFilesWhy limit (length one) (length other) fault))) }
    ensures status { IfOk result (λ ended. IsLogStatus ended.status) }
{
    let one = open_file(alloc, Which::One, limit, first, piece)?;
    let other = open_file(alloc, Which::Other, limit, second, piece)?;
    dump_opened(alloc, one, first, other, second, piece, text, writer)
}

/// Prints two files that are opened, in the way in which they are read.
fn dump_opened<R: Read, W: Write>(
    alloc: Global,
    one: OpenFile,
    first: &mut R,
    other: OpenFile,
    second: &mut R,
    piece: &mut [u8],
    text: &mut Text,
    writer: &mut W,
) -> Result<Dumped, DumpFault>
    requires room { 0 < length piece.old }
    requires ended { IsTied one.window (R.remaining first.old) }
    requires ended_too { IsTied other.window (R.remaining second.old) }
    ensures printed { IfOk result (λ ended. (limit : ℕ) (a b : List ℕ) → IsStart (unread limit) a one.start one.window (R.remaining first.old) → IsStart (unread limit) b other.start other.window (R.remaining second.old) → one.window.limit ≡ limit → other.window.limit ≡ limit → IsFilesPrinted limit a b (W.contents writer.old) (W.contents writer.new) ended) }
    ensures begun { OnErr result ((limit : ℕ) (a b : List ℕ) → IsStart (unread limit) a one.start one.window (R.remaining first.old) → IsStart (unread limit) b other.start other.window (R.remaining second.old) → one.window.limit ≡ limit → other.window.limit ≡ limit → IsFilesCut limit a b (W.contents writer.old) (W.contents writer.new)) }
    ensures why { IfErr result (λ fault. (limit : ℕ) (a b : List ℕ) → IsStart (unread limit) a one.start one.window (R.remaining first.old) → IsStart (unread limit) b other.start other.window (R.remaining second.old) → one.window.limit ≡ limit → other.window.limit ≡ limit → IsFilesWhy limit (length a) (length b) fault) }
    ensures status { IfOk result (λ ended. IsLogStatus ended.status) }
{
    match way_of(&one.start, &other.start) {
        Some(Way::Bare) => dump_first(alloc, one.window, first, piece, text, writer),
        Some(Way::Linked(Which::One, begun, next)) => {
            let mut older = SealedFile::new(alloc, Which::One, one.window, begun.header);
            let mut newer = SealedFile::new(alloc, Which::Other, other.window, next.header);
            dump_linked(&mut older, first, &mut newer, second, piece, text, writer)
        }
        Some(Way::Linked(Which::Other, begun, next)) => {
            let mut older = SealedFile::new(alloc, Which::Other, other.window, begun.header);
            let mut newer = SealedFile::new(alloc, Which::One, one.window, next.header);
            dump_linked(&mut older, second, &mut newer, first, piece, text, writer)
        }
        Some(Way::Alone(Which::Other, begun)) => {
            let mut file = SealedFile::new(alloc, Which::One, one.window, begun.header);
            dump_newer(&mut file, first, piece, text, writer)
        }
        Some(Way::Alone(Which::One, begun)) => {
            let mut file = SealedFile::new(alloc, Which::Other, other.window, begun.header);
            dump_newer(&mut file, second, piece, text, writer)
        }
        Some(Way::Nothing) => Ok(Dumped {
            status: 0,
            which: Which::One,
        }),
        None => dump_fault(writer, 0, Which::One),
    }
}

/// Prints a log without seals, which the first file is.
fn dump_first<R: Read, W: Write>(
    alloc: Global,
    window: Window,
    reader: &mut R,
    piece: &mut [u8],
    text: &mut Text,
    writer: &mut W,
) -> Result<Dumped, DumpFault>
    requires room { 0 < length piece.old }
    requires ended { IsTied window (R.remaining reader.old) }
    ensures printed { IfOk result (λ ended. (ended.which ≡ Which.One) × IfSome (whole_log window (R.remaining reader.old)) (λ log. IsBarePrinted window.limit log (W.contents writer.old) (W.contents writer.new) ended.status)) }
    ensures begun { OnErr result (IfSome (whole_log window (R.remaining reader.old)) (λ log. IsBareBegun window.limit log (W.contents writer.old) (W.contents writer.new))) }
    ensures why { IfErr result (λ fault. IfSome (whole_log window (R.remaining reader.old)) (λ log. IsFileWhy Which.One window.limit (length log) fault)) }
    ensures status { IfOk result (λ ended. IsLogStatus ended.status) }
{
    let status = dump_bare(alloc, window, reader, writer, piece, text)?;
    Ok(Dumped {
        status,
        which: Which::One,
    })
}

/// Prints where a file is at fault.
fn dump_fault<W: Write>(writer: &mut W, place: u64, which: Which) -> Result<Dumped, DumpFault>
    ensures printed { IfOk result (λ ended. (ended ≡ record { status = 3; which = which }) × Appends (W.contents writer.old) (W.contents writer.new) (fault_line place)) }
    ensures begun { Begins (W.contents writer.old) (W.contents writer.new) (fault_line place) }
    ensures fault { IfErr result IsOther }
{
    match print_fault(writer, place) {
        Ok(()) => Ok(Dumped { status: 3, which }),
        Err(error) => Err(DumpFault::Output(error)),
    }
}

/// Prints the older file, which must end with the seal behind which the newer one goes on, and then that.
fn dump_linked<R: Read, W: Write>(
    older: &mut SealedFile,
    older_reader: &mut R,
    newer: &mut SealedFile,
    newer_reader: &mut R,
    piece: &mut [u8],
    text: &mut Text,
    writer: &mut W,
) -> Result<Dumped, DumpFault>
    requires room { 0 < length piece.old }
    requires chained { IsChained older.old × IsChained newer.old }
    requires ended { IsTied older.old.window (R.remaining older_reader.old) }
    requires ended_too { IsTied newer.old.window (R.remaining newer_reader.old) }
    ensures printed { IfOk result (λ ended. IfSome (ahead older.old.window (R.remaining older_reader.old)) (λ bytes. IfSome (ahead newer.old.window (R.remaining newer_reader.old)) (λ more. IsUnprinted older.old → IsUnprinted newer.old → ArePrinted older.old.header newer.old.header bytes more older.old.which newer.old.which (W.contents writer.old) (W.contents writer.new) ended))) }
    ensures begun { OnErr result (IfSome (ahead older.old.window (R.remaining older_reader.old)) (λ bytes. IfSome (ahead newer.old.window (R.remaining newer_reader.old)) (λ more. IsUnprinted older.old → IsUnprinted newer.old → AreBegun older.old.header newer.old.header bytes more older.old.which newer.old.which (W.contents writer.old) (W.contents writer.new)))) }
    ensures why { IfErr result (λ fault. IfSome (ahead older.old.window (R.remaining older_reader.old)) (λ bytes. IfSome (ahead newer.old.window (R.remaining newer_reader.old)) (λ more. IsUnprinted older.old → IsUnprinted newer.old → IsWhyOfEither older.old.which older.old.window.limit (HEADER_BYTES + length bytes) newer.old.which newer.old.window.limit (HEADER_BYTES + length more) fault))) }
    ensures status { IfOk result (λ ended. IsLogStatus ended.status) }
{
    older.print_texts(older_reader, piece, text, writer)?;
    if older.last != newer.header.link {
        return dump_fault(writer, older.window.offset(), older.which);
    }
    dump_newer(newer, newer_reader, piece, text, writer)
}

/// Prints the newer file, or the only one, and how it ends.
fn dump_newer<R: Read, W: Write>(
    file: &mut SealedFile,
    reader: &mut R,
    piece: &mut [u8],
    text: &mut Text,
    writer: &mut W,
) -> Result<Dumped, DumpFault>
    requires room { 0 < length piece.old }
    requires chained { IsChained file.old }
    requires ended { IsTied file.old.window (R.remaining reader.old) }
    ensures printed { IfOk result (λ ended. (ended.which ≡ file.old.which) × IfSome (ahead file.old.window (R.remaining reader.old)) (λ bytes. IsUnprinted file.old → IsSealedPrinted file.old.header bytes (W.contents writer.old) (W.contents writer.new) ended.status)) }
    ensures begun { OnErr result (IfSome (ahead file.old.window (R.remaining reader.old)) (λ bytes. IsUnprinted file.old → IsSealedBegun file.old.header bytes (W.contents writer.old) (W.contents writer.new))) }
    ensures why { IfErr result (λ fault. IfSome (ahead file.old.window (R.remaining reader.old)) (λ bytes. IsUnprinted file.old → IsFileWhy file.old.which file.old.window.limit (HEADER_BYTES + length bytes) fault)) }
    ensures status { IfOk result (λ ended. IsLogStatus ended.status) }
{
    let status = file.dump(reader, piece, text, writer)?;
    Ok(Dumped {
        status,
        which: file.which,
    })
}
