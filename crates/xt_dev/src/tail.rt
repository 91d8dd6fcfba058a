//! The end of a text, held back until what stands before it is safe.

ghost use Rattle.std.specs.Prelude.{◌≡◌, ◌≤◌, ◌+◌, ◌++◌, [], OnOk, drop, length, take};
ghost use Rattle.std.specs.Io.KnownBytes.{Appends};
ghost use Rattle.xt_dev.specs.Tails.{passed};

use std::io::{self, Write};
use std::marker::Model;
use xt_base::sizes::PIECE_BYTES;

/// How many bytes are held back: as many as the end mark of a text has.
const TAIL_BYTES: usize = 16;

/// What was handed on to a writer that it does not have yet: at most 16 bytes. Clauses see these bytes.
#[derive(Drop)]
pub(crate) struct Tail {
    bytes: [u8; TAIL_BYTES],
    count: usize,
}

impl Model for Tail {
    ghost use Rattle.std.specs.Prelude.{List, take, ℕ};

    ghost Value = { List ℕ };

    ghost view = { λ t. take t.count t.bytes };

    ghost use Rattle.std.specs.Prelude.{◌≤◌};

    ghost invariant = { λ t. t.count ≤ 16 };
}

impl Tail {
    /// Nothing is held back.
    pub(crate) fn none() -> Self
        ensures { result ≡ [] }
    {
        Tail {
            bytes: [0; TAIL_BYTES],
            count: 0,
        }
    }

    /// Hands a piece on to a writer. The last 16 of all bytes that were handed on since the last release are held back, or all where
    /// there are fewer.
    pub(crate) fn pass<W: Write>(&mut self, writer: &mut W, piece: &[u8]) -> io::Result<()>
        requires short { length piece.now ≤ PIECE_BYTES }
        ensures written { OnOk result (Appends (W.contents writer.old) (W.contents writer.new) (take (passed (self.old ++ piece.now)) (self.old ++ piece.now))) }
        ensures held { OnOk result (self.new ≡ drop (passed (self.old ++ piece.now)) (self.old ++ piece.now)) }
    {
        let mut room = [0; TAIL_BYTES + PIECE_BYTES];
        let joined = self.joined(piece, &mut room);
        let (passed, held) = joined.split_at(joined.len().saturating_sub(TAIL_BYTES));
        writer.write_all(passed)?;
        self.hold(held);
        Ok(())
    }

    /// Hands on what is held back.
    pub(crate) fn release<W: Write>(&mut self, writer: &mut W) -> io::Result<()>
        ensures written { OnOk result (Appends (W.contents writer.old) (W.contents writer.new) self.old) }
        ensures held { OnOk result (self.new ≡ []) }
    {
        writer.write_all(&self.bytes[..self.count])?;
        self.count = 0;
        Ok(())
    }

    /// What is held back, and a piece behind it.
    fn joined<'a>(&self, piece: &[u8], room: &'a mut [u8]) -> &'a [u8]
        requires short { length piece.now ≤ PIECE_BYTES }
        requires room { length room.old ≡ TAIL_BYTES + PIECE_BYTES }
        ensures { result.now ≡ self.now ++ piece.now }
    {
        let total = self.count + piece.len();
        room[..self.count].copy_from_slice(&self.bytes[..self.count]);
        room[self.count..total].copy_from_slice(piece);
        &room[..total]
    }

    /// Holds these bytes back, in place of those before.
    fn hold(&mut self, held: &[u8])
        requires few { length held.now ≤ 16 }
        ensures { self.new ≡ held.now }
    {
        self.count = held.len();
        self.bytes[..held.len()].copy_from_slice(held);
    }
}
