//! `xth logdump`: the checkpoints of a log, printed.

ghost use Rattle.std.specs.Prelude.{◌+◌, ◌++◌, ◌<◌, ◌≡◌, ◌≤◌, All, IfErr, IfOk, IfSome, OnErr, OnOk, length};
ghost use Rattle.std.specs.Io.KnownBytes.{Appends};
ghost use Rattle.xt_ckpt.specs.declared.item.Item.{Item as AnItem};
ghost use Rattle.xt_offline.specs.LogDump.{checkpoint_lines, fault_line, found_lines, item_lines, rest_lines, status_after, AreShort, IsBareBegun, IsBarePrinted, IsDumpWhy, IsLogStatus, IsTold, whole_log};
ghost use Rattle.xt_offline.specs.Printing.{ended, Begins};
ghost use Rattle.xt_offline.specs.SealedDump.{IsFileWhy, IsLogBegun, IsLogPrinted, IsLogRun};
ghost use Rattle.xt_text.specs.Items.{head_text, item_text};
ghost use Rattle.xt_window.specs.Window.{ahead, IsAhead, IsOfGrammar, IsTied};
ghost use Rattle.xt_window.specs.declared.way.Which.{Which as AWhich};

use crate::fault::DumpFault;
use crate::printing::print_line;
use crate::sealed::{OpenFile, SealedFile, open_file};
use crate::writing::{write_bytes, write_numbered};
use std::alloc::Global;
use std::io::{self, ErrorKind, Read, Write};
use xt_base::sizes::DATA_BYTES;
use xt_ckpt::{Checkpoint, Item, Rooms};
use xt_text::buffer::Text;
use xt_text::print_ckpt::{print_head, print_item};
use xt_window::fault::LogFault;
use xt_window::start::Start;
use xt_window::way::Which;
use xt_window::window::{Found, PIECE_BYTES, Window};

/// The most bytes of a log that is printed, where no more are asked for.
pub const LOG_BYTES: u64 = 67_108_864;

/// A log that is printed.
#[derive(Clone, Copy, Debug)]
pub struct Source<'a> {
    /// The name by which a fault of it is told.
    pub name: &'a str,
    /// The most bytes that it may have.
    pub limit: u64,
}

/// Prints the checkpoints of a log, and answers the exit status: 0, after `rest N` where N bytes behind the last whole text are
/// no text yet; 3 after the texts before the first fault and `fault OFFSET`; 1 after a fault of the reader, of the writer or of memory, or of a
/// log that turns out too long, which is printed on `err`, with at most a beginning of what is printed of the log. What is printed on `err` may
/// end early, where `err` fails.
#[tactic(auto, using(crate::proofs::DumpLemmas::dump_whole, crate::proofs::DumpLemmas::dump_stopped))]
pub fn dump<R: Read, W: Write, E: Write>(
    alloc: Global,
    source: Source,
    reader: &mut R,
    writer: &mut W,
    err: &mut E,
) -> u8
    ensures run { IfSome (R.remaining reader.old) (λ log. IsLogRun source.entry.limit log (W.contents writer.old) (W.contents writer.new) (E.contents err.old) (E.contents err.new) result) }
    ensures status { IsLogStatus result }
{
    match dump_to_the_end(alloc, source.limit, reader, writer) {
        Ok(status) => status,
        Err(fault) => tell(err, source.name, &fault),
    }
}

/// Tells of a fault of the log of this name, and answers its exit status, 1.
pub fn tell<E: Write>(err: &mut E, name: &str, fault: &DumpFault) -> u8
    ensures status { result ≡ 1 }
    ensures told { IsTold fault.now (E.contents err.old) (E.contents err.new) }
{
    let _ = report(err, name, fault);
    1
}

/// Tells that a log is too long, or the words of another fault, with its name where reading it failed.
fn report<E: Write>(err: &mut E, name: &str, fault: &DumpFault) -> io::Result<()>
    ensures { IsTold fault.now (E.contents err.old) (E.contents err.new) }
{
    match fault {
        DumpFault::Log(LogFault::TooLong) | DumpFault::Second(LogFault::TooLong) => write_bytes(
            err,
            b"fault: log too long\n",
        ),
        DumpFault::Log(LogFault::Io(error)) => writeln!(err, "fault: {name}: {error}"),
        DumpFault::Second(LogFault::Io(error)) => writeln!(err, "fault: {name}.1: {error}"),
        DumpFault::Log(LogFault::Memory(_))
        | DumpFault::Second(LogFault::Memory(_))
        | DumpFault::Output(_)
        | DumpFault::Memory(_) => writeln!(err, "{fault}"),
    }
}

/// Prints all texts, with all that the writer holds back written too.
#[tactic(auto, using(crate::proofs::DumpLemmas::why_known, crate::proofs::DumpLemmas::log_printed_kept))]
fn dump_to_the_end<R: Read, W: Write>(
    alloc: Global,
    limit: u64,
    reader: &mut R,
    writer: &mut W,
) -> Result<u8, DumpFault>
    ensures printed { IfOk result (λ status. IfSome (R.remaining reader.old) (λ log. IsLogPrinted limit log (W.contents writer.old) (W.contents writer.new) status)) }
    ensures begun { OnErr result (IfSome (R.remaining reader.old) (λ log. IsLogBegun limit log (W.contents writer.old) (W.contents writer.new))) }
    ensures why { IfErr result (λ fault. IfSome (R.remaining reader.old) (λ log. IsDumpWhy limit (length log) fault)) }
    ensures status { IfOk result IsLogStatus }
{
    let status = dump_texts(alloc, limit, reader, writer)?;
    writer.flush().map_err(DumpFault::Output)?;
    Ok(status)
}

/// The same, without what the writer holds back.
#[tactic(auto, using(crate::proofs::DumpLemmas::why_known))]
fn dump_texts<R: Read, W: Write>(
    alloc: Global,
    limit: u64,
    reader: &mut R,
    writer: &mut W,
) -> Result<u8, DumpFault>
    ensures printed { IfOk result (λ status. IfSome (R.remaining reader.old) (λ log. IsLogPrinted limit log (W.contents writer.old) (W.contents writer.new) status)) }
    ensures begun { OnErr result (IfSome (R.remaining reader.old) (λ log. IsLogBegun limit log (W.contents writer.old) (W.contents writer.new))) }
    ensures why { IfErr result (λ fault. IfSome (R.remaining reader.old) (λ log. IsDumpWhy limit (length log) fault)) }
    ensures status { IfOk result IsLogStatus }
{
    let mut piece = vec![in alloc; 0u8; PIECE_BYTES].map_err(DumpFault::Memory)?;
    let mut text = Text::new(alloc).map_err(DumpFault::Memory)?;
    dump_by_start(alloc, limit, reader, writer, &mut piece, &mut text)
}

/// The same, by how the log begins: each text with its seal, where a header does. The log is read by way of `piece`.
fn dump_by_start<R: Read, W: Write>(
    alloc: Global,
    limit: u64,
    reader: &mut R,
    writer: &mut W,
    piece: &mut [u8],
    text: &mut Text,
) -> Result<u8, DumpFault>
    requires room { 0 < length piece.old }
    ensures printed { IfOk result (λ status. IfSome (R.remaining reader.old) (λ log. IsLogPrinted limit log (W.contents writer.old) (W.contents writer.new) status)) }
    ensures begun { OnErr result (IfSome (R.remaining reader.old) (λ log. IsLogBegun limit log (W.contents writer.old) (W.contents writer.new))) }
    ensures why { IfErr result (λ fault. IfSome (R.remaining reader.old) (λ log. IsDumpWhy limit (length log) fault)) }
    ensures status { IfOk result IsLogStatus }
{
    let OpenFile { start, window } = open_file(alloc, Which::One, limit, reader, piece)?;
    match start {
        Start::Sealed(header, _) => {
            let mut file = SealedFile::new(alloc, Which::One, window, header);
            file.dump(reader, piece, text, writer)
        }
        Start::Other(_) => dump_bare(alloc, window, reader, writer, piece, text),
    }
}

/// Prints each text of a log without seals, of which nothing is taken, and how it ends: the status is 0, or 3 where a text breaks a rule.
#[tactic(auto, using(crate::proofs::DumpLemmas::status_found, crate::proofs::DumpLemmas::why_bare))]
pub(crate) fn dump_bare<R: Read, W: Write>(
    alloc: Global,
    window: Window,
    reader: &mut R,
    writer: &mut W,
    piece: &mut [u8],
    text: &mut Text,
) -> Result<u8, DumpFault>
    requires room { 0 < length piece.old }
    requires ended { IsTied window (R.remaining reader.old) }
    ensures printed { IfOk result (λ status. IfSome (whole_log window (R.remaining reader.old)) (λ log. IsBarePrinted window.limit log (W.contents writer.old) (W.contents writer.new) status)) }
    ensures begun { OnErr result (IfSome (whole_log window (R.remaining reader.old)) (λ log. IsBareBegun window.limit log (W.contents writer.old) (W.contents writer.new))) }
    ensures why { IfErr result (λ fault. IfSome (whole_log window (R.remaining reader.old)) (λ log. IsFileWhy AWhich.One window.limit (length log) fault)) }
    ensures status { IfOk result IsLogStatus }
{
    let mut window = window;
    let mut rooms = Rooms::new(alloc);
    for _ in 0..u64::MAX {
        let found = next_found(&mut window, reader, piece, &mut rooms)?;
        let status = print_found(writer, text, &found).map_err(DumpFault::Output)?;
        if let Some(status) = status {
            return Ok(status);
        }
        let_go(&mut rooms, found);
    }
    Err(DumpFault::Log(LogFault::Io(io::Error::from(ErrorKind::TimedOut))))
}

/// What comes next in a log: a fault of reading is one of the dump.
fn next_found<R: Read>(
    window: &mut Window,
    reader: &mut R,
    piece: &mut [u8],
    rooms: &mut Rooms,
) -> Result<Found, DumpFault>
    requires room { 0 < length piece.old }
    requires ended { IsTied window.old (R.remaining reader.old) }
    ensures grammar { IfOk result IsOfGrammar }
    ensures found { IfOk result (λ found. IfSome (ahead window.old (R.remaining reader.old)) (λ log. IsAhead window.old log found window.new (R.remaining reader.new))) }
    ensures tied { OnOk result (IsTied window.new (R.remaining reader.new)) }
    ensures limit { OnOk result (window.new.limit ≡ window.old.limit) }
    ensures fault { IfErr result (λ fault. IfSome (ahead window.old (R.remaining reader.old)) (λ log. IsFileWhy AWhich.One window.old.limit (window.old.offset + length log) fault)) }
{
    match window.next(reader, piece, rooms) {
        Ok(found) => Ok(found),
        Err(fault) => Err(DumpFault::Log(fault)),
    }
}

/// What was printed is let go, and its room is used again.
fn let_go(rooms: &mut Rooms, found: Found) {
    if let Found::Text(checkpoint) = found {
        rooms.give_back(checkpoint);
    }
}

/// Prints what was found, and answers the status, where the log ends with it: 0, or 3 where a text breaks a rule.
fn print_found<W: Write>(writer: &mut W, text: &mut Text, found: &Found) -> io::Result<Option<u8>>
    requires short { AreShort found.now }
    ensures all { OnOk result (Appends (W.contents writer.old) (W.contents writer.new) (found_lines found.now)) }
    ensures part { Begins (W.contents writer.old) (W.contents writer.new) (found_lines found.now) }
    ensures status { IfOk result (λ status. status ≡ status_after found.now) }
{
    match found {
        Found::Text(checkpoint) => {
            print_checkpoint(writer, text, checkpoint)?;
            Ok(None)
        }
        Found::Rest(count) => {
            print_rest(writer, *count)?;
            Ok(Some(0))
        }
        Found::Fault(offset) => {
            print_fault(writer, *offset)?;
            Ok(Some(3))
        }
    }
}

/// Prints a checkpoint: its number with the count of its items, and the size of a block where its text says it; and a line for each item.
pub(crate) fn print_checkpoint<W: Write>(
    writer: &mut W,
    text: &mut Text,
    checkpoint: &Checkpoint,
) -> io::Result<()>
    requires short { All (λ (i : AnItem). length i.content.items ≤ DATA_BYTES) checkpoint.now.items.items }
    ensures all { OnOk result (Appends (W.contents writer.old) (W.contents writer.new) (checkpoint_lines checkpoint.now)) }
    ensures part { Begins (W.contents writer.old) (W.contents writer.new) (checkpoint_lines checkpoint.now) }
{
    print_head_line(writer, text, checkpoint)?;
    print_items(writer, text, &checkpoint.items)
}

/// Prints the number of a checkpoint and the count of its items, and the size of a block where its text says it.
fn print_head_line<W: Write>(
    writer: &mut W,
    text: &mut Text,
    checkpoint: &Checkpoint,
) -> io::Result<()>
    ensures all { OnOk result (Appends (W.contents writer.old) (W.contents writer.new) (ended (head_text checkpoint.now.no (length checkpoint.now.items.items) checkpoint.now.size))) }
    ensures part { Begins (W.contents writer.old) (W.contents writer.new) (ended (head_text checkpoint.now.no (length checkpoint.now.items.items) checkpoint.now.size)) }
{
    text.clear();
    print_head(checkpoint.no, checkpoint.items.len(), checkpoint.size, text);
    print_line(writer, text)
}

/// Prints a line for each item.
#[tactic(auto, using(crate::proofs::AppendLemmas::begins_all, crate::proofs::AppendLemmas::begins_at, crate::proofs::AppendLemmas::begins_same))]
fn print_items<W: Write>(writer: &mut W, text: &mut Text, items: &[Item]) -> io::Result<()>
    requires short { All (λ (i : AnItem). length i.content.items ≤ DATA_BYTES) items.now }
    ensures all { OnOk result (Appends (W.contents writer.old) (W.contents writer.new) (item_lines items.now)) }
    ensures part { Begins (W.contents writer.old) (W.contents writer.new) (item_lines items.now) }
{
    for item in items {
        print_item_line(writer, text, item)?;
    }
    Ok(())
}

/// Prints an item.
fn print_item_line<W: Write>(writer: &mut W, text: &mut Text, item: &Item) -> io::Result<()>
    requires short { length item.now.content.items ≤ DATA_BYTES }
    ensures all { OnOk result (Appends (W.contents writer.old) (W.contents writer.new) (ended (item_text item.now.block item.now.chunks item.now.content.items))) }
    ensures part { Begins (W.contents writer.old) (W.contents writer.new) (ended (item_text item.now.block item.now.chunks item.now.content.items)) }
{
    text.clear();
    print_item(item.block, item.chunks, &item.content, text);
    print_line(writer, text)
}

/// Prints how many bytes stand behind the last whole text, if there are any.
#[tactic(auto, using(crate::proofs::AppendLemmas::appends_none, crate::proofs::AppendLemmas::begins_same))]
pub(crate) fn print_rest<W: Write>(writer: &mut W, count: u64) -> io::Result<()>
    ensures all { OnOk result (Appends (W.contents writer.old) (W.contents writer.new) (rest_lines count)) }
    ensures part { Begins (W.contents writer.old) (W.contents writer.new) (rest_lines count) }
{
    if count == 0 {
        return Ok(());
    }
    write_numbered(writer, b"rest ", count)
}

/// Prints where a text breaks a rule, counted in the log from 0.
pub(crate) fn print_fault<W: Write>(writer: &mut W, offset: u64) -> io::Result<()>
    ensures all { OnOk result (Appends (W.contents writer.old) (W.contents writer.new) (fault_line offset)) }
    ensures part { Begins (W.contents writer.old) (W.contents writer.new) (fault_line offset) }
{
    write_numbered(writer, b"fault ", offset)
}
