//! A place in the text of a checkpoint: the text is formed from there on, straight from the items.

ghost use Rattle.std.specs.Prelude.{◌≡◌, ◌+◌, ◌-◌, ◌++◌, ◌<◌, ◌≤◌, ◌==◌, [], All, if◌then◌else◌, length, min, take, IfOk};
ghost use Rattle.xt_ckpt.specs.Fields.{end_word};
ghost use Rattle.xt_ckpt.specs.Grammar.{size_field};
ghost use Rattle.xt_ckpt.specs.Entries.{IsWhole};
ghost use Rattle.xt_ckpt.specs.Pieces.{IsPart, IsPut, LiesIn, end_bytes, field_bytes, from_place, front_bytes, item_or_end, next_part, part_bytes, rank};
ghost use Rattle.xt_ckpt.specs.declared.place.Part.TheVariants as Part;

use crate::costs::{len_from, size_len};
use crate::format::{END, END_BYTES, FIELD_BYTES, SIZE_BYTES, SIZED_END, SIZED_START, START};
use crate::source::ItemSource;
use std::alloc::AllocError;
use xt_base::chunks::Chunks;
use xt_base::names::CkptNo;
use xt_base::sizes::{BUSY_BLOCKS, PIECE_BYTES};

/// What a text says at both of its ends.
#[derive(Clone, Copy, Debug)]
pub struct Ends {
    pub number: CkptNo,
    /// The size of a block in bytes, where the text says it.
    pub size: Option<u32>,
    /// How many items there are.
    pub count: u32,
}

/// A part of a text.
#[derive(Clone, Copy, Debug)]
pub enum Part {
    /// The first word, the number, the count of items, and the size of a block where the text says it.
    Front,
    /// The block, the map and the flag of the item at this index.
    Fields(usize),
    /// The bytes of its chunks.
    Content(usize),
    /// The word behind the items, the count and the number.
    End,
    /// The text is over.
    Nothing,
}

/// A place in a text: all before it is given.
#[derive(Clone, Copy, Debug)]
pub struct Place {
    pub part: Part,
    /// How many bytes of the part are given.
    pub done: usize,
}

impl Ends {
    /// The fields before the items.
    fn front(&self) -> [u8; 20]
        ensures { take (END_BYTES + length (size_field self.now.size)) result ≡ front_bytes self.now }
    {
        let mut bytes = [0; END_BYTES + SIZE_BYTES];
        bytes[4..12].copy_from_slice(&self.number.0.to_be_bytes());
        bytes[12..16].copy_from_slice(&self.count.to_be_bytes());
        match self.size {
            None => bytes[..4].copy_from_slice(&START.to_be_bytes()),
            Some(size) => {
                bytes[..4].copy_from_slice(&SIZED_START.to_be_bytes());
                bytes[16..].copy_from_slice(&size.to_be_bytes());
            }
        }
        bytes
    }

    /// How many bytes they are.
    fn front_len(&self) -> usize
        ensures value { result ≡ END_BYTES + length (size_field self.now.size) }
        ensures range { result ≤ END_BYTES + SIZE_BYTES }
    {
        END_BYTES + size_len(self.size)
    }

    /// The word behind the items.
    fn end_word(&self) -> u32
        ensures { result ≡ end_word self.now.size }
    {
        match self.size {
            None => END,
            Some(_) => SIZED_END,
        }
    }

    /// The fields behind them.
    fn end(&self) -> [u8; 16]
        ensures { result ≡ end_bytes self.now }
    {
        let mut bytes = [0; END_BYTES];
        bytes[..4].copy_from_slice(&self.end_word().to_be_bytes());
        bytes[4..8].copy_from_slice(&self.count.to_be_bytes());
        bytes[8..].copy_from_slice(&self.number.0.to_be_bytes());
        bytes
    }
}

/// 1 where there is no chunk, else 0.
fn cancel_flag(chunks: Chunks) -> u32
    ensures { result ≡ (if length chunks == 0 then 1 else 0) }
{
    if chunks.is_empty() { 1 } else { 0 }
}

/// The block of an item, the map of its chunks, and its flag.
fn fields(block: u64, chunks: Chunks) -> [u8; 16]
    ensures { result ≡ field_bytes block chunks }
{
    let mut bytes = [0; FIELD_BYTES];
    bytes[..8].copy_from_slice(&block.to_be_bytes());
    bytes[8..12].copy_from_slice(&chunks.word().to_be_bytes());
    bytes[12..].copy_from_slice(&cancel_flag(chunks).to_be_bytes());
    bytes
}

/// Puts bytes from `done` on behind what is there, up to a limit: how many of them are put
/// then, or None where all are.
fn put_from(
    out: &mut Vec<u8>,
    limit: usize,
    bytes: &[u8],
    done: usize,
) -> Result<Option<usize>, AllocError>
    requires done { done ≤ length bytes.now }
    requires room { length out.old.items ≤ limit }
    ensures { IfOk result (IsPut bytes.now done limit out.old.items out.new.items) }
{
    let left = &bytes[done..];
    let count = left.len().min(limit - out.len());
    out.extend_from_slice(&left[..count])?;
    Ok(if count < left.len() {
        Some(done + count)
    } else {
        None
    })
}

impl Part {
    /// The first part of the item at an index, or the end where there are no more items.
    fn item_or_end(items: usize, index: usize) -> Part
        ensures { result ≡ item_or_end items index }
    {
        if index < items {
            Part::Fields(index)
        } else {
            Part::End
        }
    }

    /// The part behind this one, in the text of so many items.
    fn next(self, items: usize) -> Part
        requires { IsPart items self }
        ensures { result ≡ next_part items self }
    {
        match self {
            Part::Front => Part::item_or_end(items, 0),
            Part::Fields(index) => Part::Content(index),
            Part::Content(index) => Part::item_or_end(items, index + 1),
            Part::End | Part::Nothing => Part::Nothing,
        }
    }
}

impl Place {
    /// The front of a text.
    pub fn front() -> Place
        ensures { (result.part ≡ Part.Front) × (result.done ≡ 0) }
    {
        Place {
            part: Part::Front,
            done: 0,
        }
    }

    /// How many bytes are still to come.
    fn left<S: ItemSource>(self, ends: &Ends, items: &S) -> usize
        requires lies { LiesIn ends.now (S.entries items.now) self }
        requires few { length (S.entries items.now) ≤ BUSY_BLOCKS }
        requires form { All IsWhole (S.entries items.now) }
        ensures { result ≡ length (from_place ends.now (S.entries items.now) self) }
    {
        match self.part {
            Part::Front => ends.front_len() - self.done + len_from(items, 0) + END_BYTES,
            Part::Fields(index) => len_from(items, index) - self.done + END_BYTES,
            Part::Content(index) => {
                let content = items.content_at(index).len() - self.done;
                content + len_from(items, index + 1) + END_BYTES
            }
            Part::End => END_BYTES - self.done,
            Part::Nothing => 0,
        }
    }

    /// How many bytes are still to come, at most a piece.
    pub fn room<S: ItemSource>(self, ends: &Ends, items: &S) -> usize
        requires lies { LiesIn ends.now (S.entries items.now) self }
        requires few { length (S.entries items.now) ≤ BUSY_BLOCKS }
        requires form { All IsWhole (S.entries items.now) }
        ensures { result ≡ min PIECE_BYTES (length (from_place ends.now (S.entries items.now) self)) }
    {
        self.left(ends, items).min(PIECE_BYTES)
    }

    /// Puts bytes of this part behind what is there, up to a limit: how many of them are
    /// given then, or None where all are.
    fn put<S: ItemSource>(
        self,
        out: &mut Vec<u8>,
        limit: usize,
        ends: &Ends,
        items: &S,
    ) -> Result<Option<usize>, AllocError>
        requires lies { LiesIn ends.now (S.entries items.now) self }
        requires room { length out.old.items ≤ limit }
        ensures { IfOk result (IsPut (part_bytes ends.now (S.entries items.now) self.part) self.done limit out.old.items out.new.items) }
    {
        match self.part {
            Part::Front => {
                let front = ends.front();
                put_from(out, limit, &front[..ends.front_len()], self.done)
            }
            Part::Fields(index) => {
                let fields = fields(items.block_at(index), items.chunks_at(index));
                put_from(out, limit, &fields, self.done)
            }
            Part::Content(index) => put_from(out, limit, items.content_at(index), self.done),
            Part::End => put_from(out, limit, &ends.end(), self.done),
            Part::Nothing => Ok(None),
        }
    }

    /// Puts bytes of this part, and goes on behind them: some bytes further, or one part.
    fn step<S: ItemSource>(
        self,
        out: &mut Vec<u8>,
        limit: usize,
        ends: &Ends,
        items: &S,
    ) -> Result<Place, AllocError>
        requires lies { LiesIn ends.now (S.entries items.now) self }
        requires count { length (S.entries items.now) ≡ ends.now.count }
        requires room { length out.old.items < limit }
        requires more { limit ≤ length out.old.items + length (from_place ends.now (S.entries items.now) self) }
        ensures lies { IfOk result (LiesIn ends.now (S.entries items.now)) }
        ensures bytes { IfOk result (λ place. out.new.items ++ from_place ends.now (S.entries items.now) place ≡ out.old.items ++ from_place ends.now (S.entries items.now) self) }
        ensures limit { IfOk result (λ place. length out.new.items ≤ limit) }
        ensures less { IfOk result (λ place. rank (length (S.entries items.now)) place.part + (limit - length out.new.items) < rank (length (S.entries items.now)) self.part + (limit - length out.old.items)) }
    {
        Ok(match self.put(out, limit, ends, items)? {
            Some(done) => Place {
                part: self.part,
                done,
            },
            None => Place {
                part: self.part.next(items.item_count()),
                done: 0,
            },
        })
    }

    /// Fills a piece with the next bytes of the text, as many as the limit says and there
    /// are, and goes on behind them.
    pub fn fill<S: ItemSource>(
        self,
        piece: &mut Vec<u8>,
        limit: usize,
        ends: &Ends,
        items: &S,
    ) -> Result<Place, AllocError>
        requires lies { LiesIn ends.now (S.entries items.now) self }
        requires count { length (S.entries items.now) ≡ ends.now.count }
        requires empty { piece.old.items ≡ [] }
        requires more { limit ≤ length (from_place ends.now (S.entries items.now) self) }
        ensures lies { IfOk result (LiesIn ends.now (S.entries items.now)) }
        ensures bytes { IfOk result (λ place. piece.new.items ++ from_place ends.now (S.entries items.now) place ≡ from_place ends.now (S.entries items.now) self) }
        ensures length { IfOk result (λ place. length piece.new.items ≡ limit) }
    {
        let mut place = self;
        while piece.len() < limit {
            place = place.step(piece, limit, ends, items)?;
        }
        Ok(place)
    }
}
