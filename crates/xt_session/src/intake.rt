//! What was read of a session's input and is not answered yet.

ghost use Rattle.std.specs.Io.KnownBytes.{Consumes, IsAtEnd, Keeps};
ghost use Rattle.std.specs.Prelude.{◌≡◌, ◌≤◌, ◌<◌, ◌+◌, ◌-◌, ◌↔◌, [], IfOk, IsTrue, OnErr, drop, length, take};
ghost use Rattle.xt_session.specs.Intake.{Fetches};

use std::alloc::{AllocError, Global};
use std::io::{self, ErrorKind, Read};
use std::marker::Model;
use xt_text::parse::LINE_BYTES;

/// How many bytes are held at most: a line and its newline.
const ROOM: usize = LINE_BYTES + 1;

/// What a turn at the reader gave.
#[derive(Clone, Copy, Debug)]
pub(crate) enum Fetched {
    /// So many bytes.
    Bytes(usize),
    /// The end of the input.
    End,
    /// Nothing, since a signal came.
    Again,
    /// An error.
    Fault,
}

/// The bytes that were read and are not answered yet, at most 8,401 of them. Its room is made when it is made.
#[derive(Debug, Drop)]
pub(crate) struct Intake {
    bytes: Vec<u8>,
    held: usize,
}

impl Model for Intake {
    ghost use Rattle.std.specs.Prelude.{◌≡◌, ◌≤◌, List, length, take, ℕ};

    ghost Value = { List ℕ };

    ghost view = { λ intake. take intake.held intake.bytes.items };

    ghost invariant = { λ intake. (length intake.bytes.items ≡ 8401) × (intake.held ≤ 8401) };
}

/// One turn at the reader, into a part of a buffer.
fn read_into<R: Read>(
    reader: &mut R,
    bytes: &mut [u8],
    from: usize,
    room: usize,
) -> io::Result<usize>
    requires { from + room ≤ length bytes.old }
    ensures same { length bytes.new ≡ length bytes.old }
    ensures kept { take from bytes.new ≡ take from bytes.old }
    ensures room { IfOk result (λ n. n ≤ room) }
    ensures read { IfOk result (λ n. Consumes (R.remaining reader.old) (R.remaining reader.new) (take n (drop from bytes.new))) }
    ensures end { IfOk result (λ n. n ≡ 0 → 0 < room → IsAtEnd (R.remaining reader.new)) }
    ensures unread { OnErr result (Keeps (R.remaining reader.old) (R.remaining reader.new)) }
{
    reader.read(&mut bytes[from..from + room])
}

impl Intake {
    /// An empty one. The one error is want of memory.
    pub(crate) fn new(alloc: Global) -> Result<Self, AllocError>
        ensures { IfOk result (λ intake. intake ≡ []) }
    {
        let bytes = vec![in alloc; 0u8; ROOM]?;
        Ok(Intake { bytes, held: 0 })
    }

    /// What it holds.
    pub(crate) fn bytes(&self) -> &[u8]
        ensures { result.now ≡ self.now }
    {
        &self.bytes[..self.held]
    }

    /// Whether it has no room left.
    pub(crate) fn is_full(&self) -> bool
        ensures { IsTrue result ↔ (length self.now ≡ 8401) }
    {
        self.held == ROOM
    }

    /// One turn at the reader, for at most so many bytes.
    pub(crate) fn fetch<R: Read>(&mut self, reader: &mut R, limit: u64) -> Fetched
        requires room { length self.old < 8401 }
        requires some { 0 < limit }
        ensures { Fetches result limit self.old self.new (R.remaining reader.old) (R.remaining reader.new) }
    {
        let held = self.held;
        let room = limit.min((ROOM - held) as u64) as usize;
        match read_into(reader, &mut self.bytes, held, room) {
            Ok(0) => Fetched::End,
            Ok(count) => {
                self.held = held + count;
                Fetched::Bytes(count)
            }
            Err(error) if error.kind() == ErrorKind::Interrupted => Fetched::Again,
            Err(_) => Fetched::Fault,
        }
    }

    /// Keeps the last bytes alone, so many of them.
    pub(crate) fn keep_last(&mut self, count: usize)
        requires { count ≤ length self.old }
        ensures { self.new ≡ drop (length self.old - count) self.old }
    {
        let from = self.held - count;
        if from > 0 {
            self.bytes.copy_within(from..self.held, 0);
            self.held = count;
        }
    }
}
