//! Chunks that are kept as they were, of a block that is changed in place.

ghost use Rattle.std.specs.Prelude.{ℕ, ◌≡◌, ◌+◌, ◌*◌, ◌/◌, ◌<◌, ◌≤◌, ◌&&◌, false, if◌then◌else◌, length, not};
ghost use Rattle.xt_base.specs.Calls.{overwritten};
ghost use Rattle.xt_base.specs.Chunks.{marks, union};
ghost use Rattle.xt_base.specs.Maps.{has};
ghost use Rattle.xt_base.specs.Text.{chunk};
ghost use Rattle.xt_frames.specs.Kept.{none_kept, restored};

use std::marker::Model;
use std::mem::swap;
use xt_base::chunks::Chunks;
use xt_base::content::Content;
use xt_base::data_ref::DataRef;
use xt_base::sizes::{BLOCK_BYTES, CHUNK_BYTES, CHUNKS};

/// Which chunks of a block are kept, and their bytes, each at its own place of a room that is as long as the block's content. Clauses see both.
#[derive(Debug, Drop)]
pub struct KeptChunks {
    chunks: Chunks,
    bytes: Content,
}

impl Model for KeptChunks {
    ghost use Rattle.xt_frames.specs.Kept.{Kept};

    ghost Value = { Kept };

    ghost view = { λ k. record { chunks = k.chunks; bytes = k.bytes } };
}

impl KeptChunks {
    /// No chunk, in this room.
    pub fn none(room: Content) -> Self
        ensures { result ≡ none_kept room }
    {
        KeptChunks {
            chunks: Chunks::none(),
            bytes: room,
        }
    }

    /// Keeps these chunks as they are in a content, but for those that are kept already. It takes no memory.
    pub fn keep(&mut self, content: &Content, chunks: Chunks)
        requires { length self.old.bytes ≡ length content.now }
        ensures size { length self.new.bytes ≡ length self.old.bytes }
        ensures chunks { self.new.chunks ≡ union self.old.chunks chunks }
        ensures same { restored self.new content.now ≡ restored self.old content.now }
    {
        copy_chunks(&mut self.bytes, content, chunks, self.chunks);
        self.chunks = self.chunks.union(chunks);
    }

    /// Puts all kept chunks back into a content. It takes no memory.
    pub fn put_back(&self, content: &mut Content)
        requires { length self.now.bytes ≡ length content.old }
        ensures size { length content.new ≡ length content.old }
        ensures value { content.new ≡ restored self.now content.old }
    {
        copy_chunks(content, &self.bytes, self.chunks, Chunks::none());
        let _size = content_len(content);
    }

    /// The room, for later chunks of any block.
    pub fn into_room(self) -> Content {
        self.bytes
    }

    /// Keeps the chunks of some bytes of a content, and writes them. It takes no memory.
    pub fn write(&mut self, content: &mut Content, first: u32, bytes: &DataRef<'_>)
        requires alike { length self.old.bytes ≡ length content.old }
        requires within { first + length bytes.now ≤ length content.old }
        requires some { 0 < length bytes.now }
        ensures content { content.new ≡ overwritten first bytes.now content.old }
        ensures size { length self.new.bytes ≡ length content.new }
        ensures chunks { self.new.chunks ≡ union self.old.chunks (marks first (length bytes.now)) }
        ensures same { restored self.new content.new ≡ restored self.old content.old }
    {
        let size = content_len(content);
        if bytes.len() == size && self.chunks.is_empty() {
            self.write_whole(content, bytes);
            return;
        }
        self.keep(content, Chunks::mark(first, bytes.len() as u32));
        content.write_data(first as usize, bytes);
    }

    /// Writes a whole block, where no chunk is kept: the content goes into the room, and the bytes are written over what stood there.
    fn write_whole(&mut self, content: &mut Content, bytes: &DataRef<'_>)
        requires alike { length self.old.bytes ≡ length content.old }
        requires whole { length bytes.now ≡ length content.old }
        ensures content { content.new ≡ bytes.now }
        ensures chunks { self.new.chunks ≡ marks 0 (length bytes.now) }
        ensures bytes { self.new.bytes ≡ content.old }
    {
        swap(&mut self.bytes, content);
        let _size = content_len(content);
        self.chunks = Chunks::mark(0, bytes.len() as u32);
        content.write_data(0, bytes);
    }
}

/// How many bytes a content has: whole chunks, at most 4,096 bytes.
pub(crate) fn content_len(content: &Content) -> usize
    ensures value { result ≡ length content.now }
    ensures chunks { result ≡ CHUNK_BYTES * (result / CHUNK_BYTES) }
    ensures short { result ≤ BLOCK_BYTES }
{
    content.bytes().len()
}

/// Copies the chunks of a set from one content to another as long, but for those of an exempted set.
fn copy_chunks(to: &mut Content, from: &Content, set: Chunks, exempted: Chunks)
    requires { length to.old ≡ length from.now }
    ensures size { length to.new ≡ length to.old }
    ensures chunks { (k : ℕ) → k < CHUNKS → chunk to.new k ≡ (if has set k && not (has exempted k) then chunk from.now k else chunk to.old k) }
{
    let wanted = chunks_without(set, exempted);
    for k in first_chunk(wanted)..chunk_end(wanted) {
        copy_if(to, from, k, wanted.has(k));
    }
}

/// The chunks of a set that another lacks.
fn chunks_without(set: Chunks, other: Chunks) -> Chunks
    ensures { (k : ℕ) → k < CHUNKS → has result k ≡ (has set k && not (has other k)) }
{
    Chunks::of_word(set.word() & !other.word())
}

/// No chunk before this one is in a set.
fn first_chunk(set: Chunks) -> u32
    ensures { (k : ℕ) → k < result → k < CHUNKS → has set k ≡ false }
{
    set.word().trailing_zeros()
}

/// Neither this chunk nor a later one is in a set.
fn chunk_end(set: Chunks) -> u32
    ensures range { result ≤ CHUNKS }
    ensures none { (k : ℕ) → result ≤ k → k < CHUNKS → has set k ≡ false }
{
    CHUNKS - set.word().leading_zeros()
}

/// Copies one chunk from one content to another, where that is wanted and they have it.
fn copy_if(to: &mut Content, from: &Content, k: u32, wanted: bool)
    requires chunk { k < CHUNKS }
    requires alike { length to.old ≡ length from.now }
    ensures size { length to.new ≡ length to.old }
    ensures one { chunk to.new k ≡ (if wanted then chunk from.now k else chunk to.old k) }
    ensures others { (j : ℕ) → j < k → chunk to.new j ≡ chunk to.old j }
    ensures later { (j : ℕ) → k < j → chunk to.new j ≡ chunk to.old j }
{
    let size = content_len(to);
    let first = CHUNK_BYTES * k as usize;
    if wanted && first < size {
        to.write(first, &from.bytes()[first..first + CHUNK_BYTES]);
    }
}
