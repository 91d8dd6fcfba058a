//! Sessions over memory: what is written, however the bytes are cut and wherever the streams fail.
//!
//! A test function is proved too, at a cost that grows with the square of its length. So rows stand
//! in constants, helpers compare, and a test has few assertions.

mod core_calls;
mod endless;
mod host;
mod stand;
mod tcp;

use std::alloc::Global;
use std::cell::Cell;
use std::io::{self, ErrorKind, Read, Write};
use std::process::Abort;
use xt_base::names::{CkptNo, Life, TransNo};
use xt_base::steps::{Reply, Request, Step};
use xt_service::calls::Calls;
use xt_service::session::{session, session_bounded};
use xt_service::session_end::SessionEnd;
use xt_text::line::Line;

/// Requests and lines that are none.
const ROW_IN: &[u8] = b"0.1 alloc 1 1 plain\n0.1 unmount\npush\n\n0.1 force\n";

/// What is written for them.
const ROW_OUT: &[u8] = b"t1\nbad line\nbad line\nbad line\ndone\n";

/// An object that answers by a small table, and counts.
#[derive(Debug, Drop)]
struct Table {
    calls: usize,
    ends: usize,
}

impl Table {
    fn new() -> Self {
        Table { calls: 0, ends: 0 }
    }
}

impl Calls for Table {
    ghost answers = { λ old line reply new. Unit {0} };

    ghost ends = { λ old new. Unit {0} };

    fn call(&mut self, line: Line) -> Reply {
        self.calls = self.calls.saturating_add(1);
        match &line.0 {
            Step::Call {
                request: Request::Alloc { .. },
                ..
            } => Reply::Trans(TransNo(1)),
            Step::Call {
                request: Request::Commit { .. },
                ..
            } => Reply::Committed(CkptNo(1)),
            Step::Call {
                request: Request::Force,
                ..
            } => Reply::Done,
            Step::Peek(_) => Reply::Seen {
                life: Life(1),
                reason: None,
            },
            _ => Reply::Okay,
        }
    }

    fn end(&mut self) {
        self.ends = self.ends.saturating_add(1);
    }
}

/// Gives at most so many bytes a turn; the turn of a number, counted from 0, gives an error.
#[derive(Drop)]
struct Pieces<'a> {
    rest: &'a [u8],
    size: usize,
    turns: usize,
    fails_at: usize,
    error: ErrorKind,
}

impl<'a> Pieces<'a> {
    fn of(input: &'a [u8], size: usize) -> Self {
        Pieces::failing(input, size, usize::MAX, ErrorKind::Other)
    }

    fn failing(input: &'a [u8], size: usize, fails_at: usize, error: ErrorKind) -> Self {
        Pieces {
            rest: input,
            size,
            turns: 0,
            fails_at,
            error,
        }
    }
}

impl Read for Pieces<'_> {
    fn read(&mut self, buf: &mut [u8]) -> io::Result<usize> {
        let turn = self.turns;
        self.turns = turn.saturating_add(1);
        if turn == self.fails_at {
            return Err(io::Error::from(self.error));
        }
        let count = self.size.min(buf.len()).min(self.rest.len());
        let (now, later) = self.rest.split_at(count);
        buf[..count].copy_from_slice(now);
        self.rest = later;
        Ok(count)
    }
}

/// Takes at most so many bytes at a write, and after so many in all fails: with an error, or by taking none.
#[derive(Drop)]
struct Narrow {
    taken: Vec<u8>,
    size: usize,
    room: usize,
    error: Option<ErrorKind>,
}

impl Write for Narrow {
    fn write(&mut self, buf: &[u8]) -> io::Result<usize> {
        if self.room == 0 {
            return match self.error {
                Some(ErrorKind::Interrupted) => {
                    self.room = usize::MAX;
                    Err(io::Error::from(ErrorKind::Interrupted))
                }
                Some(error) => Err(io::Error::from(error)),
                None => Ok(0),
            };
        }
        let count = self.size.min(buf.len()).min(self.room);
        self.taken.extend_from_slice(&buf[..count])?;
        self.room -= count;
        Ok(count)
    }

    fn flush(&mut self) -> io::Result<()> {
        Ok(())
    }
}

/// How many lines of a text end.
fn ended_lines(text: &[u8]) -> usize {
    text.iter().filter(|byte| **byte == b'\n').count()
}

/// The first lines of a text, so many of them.
fn first_lines(text: &[u8], count: usize) -> &[u8] {
    let mut left = count;
    for (at, byte) in text.iter().enumerate() {
        if left == 0 {
            return &text[..at];
        }
        if *byte == b'\n' {
            left -= 1;
        }
    }
    text
}

/// What a session wrote, how it ended, and how often its object was called and ended.
#[derive(Drop)]
struct Told {
    out: Vec<u8>,
    end: SessionEnd,
    table: Table,
}

impl Told {
    /// What a session over a reader does that may read so many bytes.
    fn by(alloc: Global, reader: &mut Pieces, bound: u64) -> Self {
        let (mut out, mut table) = (Vec::new(alloc), Table::new());
        let end = session_bounded(alloc, reader, &mut out, &mut table, bound);
        Told { out, end, table }
    }

    /// Whether it wrote just this, ended so, and ended its object once.
    fn is(&self, want: &[u8], end: SessionEnd) -> bool {
        self.end == end && self.out.as_slice() == want && self.table.ends == 1
    }
}

/// More than any input here.
const PLENTY: u64 = 1_000_000;

/// Asserts what a session writes, how it ends, and how often its object was called, for input in pieces of a size.
fn says(rt: &impl Abort, alloc: Global, input: &[u8], want: &[u8], end: SessionEnd, calls: usize) {
    for size in [1, 7, 4096, 8401] {
        let told = Told::by(alloc, &mut Pieces::of(input, size), PLENTY);
        assert!(rt;
            told.is(want, end) && told.table.calls == calls,
            "pieces of {size}"
        );
    }
}

/// Input, what is written for it, and how often the object is called.
const ROWS: &[(&[u8], &[u8], usize)] = &[
    (ROW_IN, ROW_OUT, 2),
    (b"", b"", 0),
    (b"\n", b"bad line\n", 0),
    (b"0.1 force", b"done\n", 1),
    (b"0.1 force\n0.1 forc", b"done\nbad line\n", 1),
    (b"0.1 force\0\n\0\n", b"bad line\nbad line\n", 0),
    (b"0.1 force\r\n 0.1 force\n", b"bad line\nbad line\n", 0),
    (
        b"peek 0\npeek 16\nshow 0\n",
        b"seen 1 live\nbad line\nbad line\n",
        1,
    ),
    (
        b"0.1 read t1 7\n0.1 read t1 7 = fail\n",
        b"ok\nbad line\n",
        1,
    ),
    (
        b"0.1 log t1 7 0 aa*4\n0.1 log t1 7 0 aaaaaaaa\n",
        b"ok\nbad line\n",
        1,
    ),
    (
        b"mount 0 65536 8\npost 0.1.ckpt.1\ntake 0 0.1.ckpt.1\nbegin 0 0.1.ckpt.1\nend 0 0.1.ckpt.1 1 ok\nflush 0 0.1.flush.1 ok ok\n",
        b"bad line\nbad line\nbad line\nbad line\nbad line\nbad line\n",
        0,
    ),
];

#[test]
fn each_line_is_answered_by_one(rt: HostRuntime) {
    for (input, want, calls) in ROWS {
        says(&rt, rt.alloc(), input, want, SessionEnd::End, *calls);
    }
}

/// A session for which no bound is named.
#[test]
fn a_session_answers_to_the_end(rt: HostRuntime) {
    let (mut reader, mut table) = (Pieces::of(ROW_IN, 4096), Table::new());
    let mut out = Vec::new(rt.alloc());
    let end = session(rt.alloc(), &mut reader, &mut out, &mut table);
    assert!(rt; Told { out, end, table }.is(ROW_OUT, SessionEnd::End));
}

/// A text before so many letters `a` and one after them, what is written, how it ends, and the calls.
const LONG: &[(&[u8], usize, &[u8], &[u8], SessionEnd, usize)] = &[
    (b"", 8400, b"", b"bad line\n", SessionEnd::End, 0),
    (
        b"",
        8400,
        b"\n0.1 force\n",
        b"bad line\ndone\n",
        SessionEnd::End,
        1,
    ),
    (b"", 8401, b"", b"bad line\n", SessionEnd::TooLong, 0),
    (
        b"",
        8401,
        b"\n0.1 force\n",
        b"bad line\n",
        SessionEnd::TooLong,
        0,
    ),
    (
        b"0.1 force\n",
        8401,
        b"\n0.1 force\n",
        b"done\nbad line\n",
        SessionEnd::TooLong,
        1,
    ),
];

/// A text, so many letters `a`, and another text.
fn with_letters(alloc: Global, before: &[u8], count: usize, after: &[u8]) -> Option<Vec<u8>> {
    let mut text = Vec::new(alloc);
    text.extend_from_slice(before).ok()?;
    let letters = vec![in alloc; b'a'; count].ok()?;
    text.extend_from_slice(&letters).ok()?;
    text.extend_from_slice(after).ok()?;
    Some(text)
}

#[test]
fn a_line_too_long_ends_the_session(rt: HostRuntime) {
    for (before, count, after, want, end, calls) in LONG {
        let Some(input) = with_letters(rt.alloc(), before, *count, after) else {
            return assert!(rt; false, "the input");
        };
        says(&rt, rt.alloc(), &input, want, *end, *calls);
    }
}

/// Whether a session over a reader that fails at a turn ends so, with all lines answered that were read.
fn reader_fails(alloc: Global, turn: usize, error: ErrorKind, end: SessionEnd) -> bool {
    let told = Told::by(alloc, &mut Pieces::failing(ROW_IN, 1, turn, error), PLENTY);
    let read = match end {
        SessionEnd::End => ROW_IN,
        _ => &ROW_IN[..turn.min(ROW_IN.len())],
    };
    told.is(first_lines(ROW_OUT, ended_lines(read)), end)
}

#[test]
fn a_reader_that_fails_leaves_whole_lines(rt: HostRuntime) {
    let (reset, retry) = (ErrorKind::ConnectionReset, ErrorKind::Interrupted);
    for turn in 0..=ROW_IN.len() {
        assert!(rt;
            reader_fails(rt.alloc(), turn, reset, SessionEnd::ReadFault),
            "turn {turn}"
        );
        assert!(rt;
            reader_fails(rt.alloc(), turn, retry, SessionEnd::End),
            "turn {turn}"
        );
    }
}

/// How a session ends over a writer that fails after so many bytes, how many it takes, and how often the object is called.
fn end_at(room: usize, error: Option<ErrorKind>) -> (SessionEnd, usize, usize) {
    if error == Some(ErrorKind::Interrupted) {
        (SessionEnd::End, ROW_OUT.len(), 2)
    } else if room < 30 {
        (SessionEnd::WriteFault, room, 1)
    } else {
        (SessionEnd::WriteFault, room, 2)
    }
}

/// Whether a session over a writer that fails ends as it is to, and has written the beginning of what was to be.
fn writer_fails(alloc: Global, size: usize, room: usize, error: Option<ErrorKind>) -> bool {
    let taken = Vec::new(alloc);
    let (mut reader, mut table) = (Pieces::of(ROW_IN, 4096), Table::new());
    let mut writer = Narrow {
        taken,
        size,
        room,
        error,
    };
    let end = session(alloc, &mut reader, &mut writer, &mut table);
    let went = writer.taken.len();
    (end, went, table.calls) == end_at(room, error)
        && ROW_OUT.starts_with(&writer.taken)
        && table.ends == 1
}

/// Whether it is so for pieces of each size.
fn writers_fail(alloc: Global, room: usize, error: Option<ErrorKind>) -> bool {
    writer_fails(alloc, 1, room, error)
        && writer_fails(alloc, 3, room, error)
        && writer_fails(alloc, 100, room, error)
}

#[test]
fn a_writer_that_fails_ends_the_session(rt: HostRuntime) {
    let (pipe, retry) = (ErrorKind::BrokenPipe, ErrorKind::Interrupted);
    for room in 0..ROW_OUT.len() {
        assert!(rt; writers_fail(rt.alloc(), room, Some(pipe)), "room {room}");
        assert!(rt; writers_fail(rt.alloc(), room, None), "room {room}");
        assert!(rt; writers_fail(rt.alloc(), room, Some(retry)), "room {room}");
    }
}

/// Whether input that is cut is answered to its end: its whole lines as they are, and a piece of a line by one.
fn cut_is_answered(alloc: Global, cut: &[u8]) -> bool {
    let told = Told::by(alloc, &mut Pieces::of(cut, 7), PLENTY);
    let whole = ended_lines(cut);
    let last = usize::from(!cut.is_empty() && !cut.ends_with(b"\n"));
    told.end == SessionEnd::End
        && told.out.starts_with(first_lines(b"t1\nok\nok\n", whole))
        && ended_lines(&told.out) == whole.saturating_add(last)
        && told.table.ends == 1
}

#[test]
fn input_that_is_cut_is_answered_to_its_end(rt: HostRuntime) {
    let input = b"0.1 alloc 176 1 plain\n0.1 read t1 7\n0.1 log t1 7 0 11\n".as_slice();
    for len in 0..=input.len() {
        assert!(rt; cut_is_answered(rt.alloc(), &input[..len]), "cut at {len}");
    }
}

/// Whether a session that may read so many bytes answers the lines that end in them, and reads no more.
fn is_bounded(alloc: Global, bound: usize) -> bool {
    let told = Told::by(alloc, &mut Pieces::of(ROW_IN, 7), bound as u64);
    if bound > ROW_IN.len() {
        return told.is(ROW_OUT, SessionEnd::End);
    }
    let lines = ended_lines(&ROW_IN[..bound.min(ROW_IN.len())]);
    told.is(first_lines(ROW_OUT, lines), SessionEnd::ReadFault)
}

#[test]
fn a_session_reads_no_more_than_its_bound(rt: HostRuntime) {
    for bound in 0..=ROW_IN.len() + 2 {
        assert!(rt; is_bounded(rt.alloc(), bound), "bound {bound}");
    }
}

/// Is interrupted at each turn.
#[derive(Drop)]
struct Restless(usize);

impl Read for Restless {
    fn read(&mut self, _: &mut [u8]) -> io::Result<usize> {
        self.0 = self.0.saturating_add(1);
        Err(io::Error::from(ErrorKind::Interrupted))
    }
}

#[test]
fn a_reader_that_gives_nothing_is_given_up(rt: HostRuntime) {
    let alloc = rt.alloc();
    let (mut out, mut table, mut reader) = (Vec::new(alloc), Table::new(), Restless(0));
    let got = session_bounded(alloc, &mut reader, &mut out, &mut table, 1000);
    assert!(rt; got == SessionEnd::ReadFault && reader.0 == 1000 && table.ends == 1);
}

/// One who gives the next line once the reply to the last was seen.
#[derive(Drop)]
struct Asking<'a> {
    given: usize,
    seen: &'a Cell<usize>,
    waited: bool,
}

impl Read for Asking<'_> {
    fn read(&mut self, buf: &mut [u8]) -> io::Result<usize> {
        let line = b"0.1 force\n";
        if self.seen.get() != self.given || buf.len() < line.len() {
            self.waited = true;
            return Ok(0);
        }
        if self.given >= 2000 {
            return Ok(0);
        }
        self.given = self.given.saturating_add(1);
        buf[..line.len()].copy_from_slice(line);
        Ok(line.len())
    }
}

/// Counts the lines that are written.
#[derive(Drop)]
struct Hearing<'a>(&'a Cell<usize>);

impl Write for Hearing<'_> {
    fn write(&mut self, buf: &[u8]) -> io::Result<usize> {
        self.0.set(self.0.get().saturating_add(ended_lines(buf)));
        Ok(buf.len())
    }

    fn flush(&mut self) -> io::Result<()> {
        Ok(())
    }
}

#[test]
fn a_reply_is_written_before_the_next_line_is_read(rt: HostRuntime) {
    let (seen, mut table) = (Cell::new(0), Table::new());
    let mut reader = Asking {
        given: 0,
        seen: &seen,
        waited: false,
    };
    let got = session(rt.alloc(), &mut reader, &mut Hearing(&seen), &mut table);
    assert!(rt; got == SessionEnd::End && !reader.waited && table.calls == 2000);
}

/// Keeps what is written in a place of its own.
#[derive(Drop)]
struct Slate {
    bytes: [u8; 64],
    len: usize,
}

impl Write for Slate {
    fn write(&mut self, buf: &[u8]) -> io::Result<usize> {
        let from = self.len.min(64);
        let count = buf.len().min(64 - from);
        self.bytes[from..from + count].copy_from_slice(&buf[..count]);
        self.len = from + count;
        Ok(count)
    }

    fn flush(&mut self) -> io::Result<()> {
        Ok(())
    }
}

/// Whether a session over a line that asks for memory, between two that don't, did nothing for want of
/// buffers, or answered each line, the second one perhaps by ENOMEM. It has this end, and the object was called so often.
fn is_told(end: SessionEnd, wrote: &[u8], turns: usize, calls: usize) -> bool {
    if end == SessionEnd::Memory {
        wrote.is_empty() && turns == 0 && calls == 0
    } else if wrote == b"done\nENOMEM\ndone\n".as_slice() {
        calls == 2
    } else {
        wrote == b"done\nok\ndone\n".as_slice() && calls == 3
    }
}

/// Whatever is refused memory: a session without buffers does nothing, and a line that can't be parsed is answered so.
#[test]
fn want_of_memory_is_told(rt: HostRuntime) {
    let input = b"0.1 force\n0.1 log t1 7 0 aa*4\n0.1 force\n".as_slice();
    let (mut reader, mut table) = (Pieces::of(input, 4096), Table::new());
    let mut writer = Slate {
        bytes: [0; 64],
        len: 0,
    };
    let got = session(rt.alloc(), &mut reader, &mut writer, &mut table);
    let wrote = &writer.bytes[..writer.len.min(64)];
    assert!(rt; is_told(got, wrote, reader.turns, table.calls) && table.ends == 1);
}
