//! The log vector of a block, and the room that is made for one.

ghost use Rattle.std.specs.Int.{bit_at};
ghost use Rattle.std.specs.Prelude.{ℕ, ◌≡◌, ◌+◌, ◌*◌, ◌≤◌, ◌<◌, ◌++◌, ◌==◌, [], true, IfOk, if◌then◌else◌, length, vec_capacity};
ghost use Rattle.xt_base.specs.Chunks.{places_of};
ghost use Rattle.xt_base.specs.Sized.{IsWithin};
ghost use Rattle.xt_base.specs.Text.{chunk, chunk_bytes};
ghost use Rattle.xt_vectors.specs.Vectors.{no_vector, vector};

use std::alloc::{AllocError, Global};
use std::marker::Model;
use xt_base::chunks::Chunks;
use xt_base::content::Content;
use xt_base::sizes::{BLOCK_BYTES, CHUNK_BYTES, CHUNKS};

/// Chunks of a block, and room for their bytes or the bytes themselves.
#[derive(Debug, Drop)]
struct Parts {
    chunks: Chunks,
    bytes: Vec<u8>,
}

/// Chunks of a block and their bytes, by rising chunk, one after another (`xfs_log_vec`), in a box, so that what has a log vector is
/// small; no box where there is no chunk. Clauses see both.
#[derive(Debug, Drop)]
pub struct LogVector {
    parts: Option<Box<Parts>>,
}

impl Model for LogVector {
    ghost use Rattle.std.specs.Prelude.{◌≡◌, ◌*◌, length};
    ghost use Rattle.xt_base.specs.declared.sizes.TheConstants.{CHUNK_BYTES};
    ghost use Rattle.xt_vectors.specs.Vectors.{Vector, vector_in};

    ghost Value = { Vector };

    ghost view = { λ v. vector_in v.parts };

    ghost invariant = { λ v. length (vector_in v.parts).bytes ≡ CHUNK_BYTES * length (vector_in v.parts).chunks };
}

impl LogVector {
    /// That of no chunk, as a cancelled block has. It takes no memory.
    pub fn none() -> Self
        ensures { result ≡ no_vector }
    {
        LogVector { parts: None }
    }

    /// Its chunks.
    pub fn chunks(&self) -> Chunks
        ensures { result ≡ self.now.chunks }
    {
        match &self.parts {
            Some(parts) => parts.chunks,
            None => Chunks::none(),
        }
    }

    /// The room that it had, if it had some that any block fits in, for a later one. It takes no memory.
    pub fn into_room(self) -> Option<VectorRoom> {
        let LogVector { parts } = self;
        match parts {
            Some(parts) => emptied(parts),
            None => None,
        }
    }

    /// The bytes of its chunks.
    pub fn bytes(&self) -> &[u8]
        ensures value { result.now ≡ self.now.bytes }
        ensures form { length result.now ≡ CHUNK_BYTES * length self.now.chunks }
    {
        match &self.parts {
            Some(parts) => &parts.bytes,
            None => &[],
        }
    }
}

/// Room for a log vector, made before it is known which chunks it has: as many bytes as a block has at most. The log vector of a
/// smaller block gives the rest back. Clauses see nothing of it but that it is there.
#[derive(Debug, Drop)]
pub struct VectorRoom {
    parts: Box<Parts>,
}

impl Model for VectorRoom {
    ghost use Rattle.std.specs.Prelude.{◌≡◌, ◌≤◌, [], vec_capacity, ⊤};
    ghost use Rattle.xt_base.specs.declared.sizes.TheConstants.{BLOCK_BYTES};

    ghost Value = { ⊤ };

    ghost view = { λ r. tt };

    ghost invariant = { λ r. (r.parts.value.bytes.items ≡ []) × (BLOCK_BYTES ≤ vec_capacity r.parts.value.bytes) };
}

impl VectorRoom {
    /// Room for all chunks of a block. The one error is want of memory.
    pub fn new(alloc: Global) -> Result<Self, AllocError> {
        let chunks = Chunks::none();
        let bytes = Vec::with_capacity(alloc, BLOCK_BYTES)?;
        let parts = Box::new(alloc, Parts { chunks, bytes })?;
        Ok(VectorRoom { parts })
    }

    /// A room that nobody needs any more, if there is one, else a new one. The one error is want of memory.
    pub fn or_new(spare: Option<VectorRoom>, alloc: Global) -> Result<Self, AllocError> {
        match spare {
            Some(room) => Ok(room),
            None => VectorRoom::new(alloc),
        }
    }

    /// The log vector of some chunks that a content has, in this room, of which it keeps as much as the content is long. It is never
    /// refused memory.
    pub fn filled(self, content: &Content, chunks: Chunks) -> LogVector
        requires { IsWithin (length content.now) chunks }
        ensures { result ≡ vector content.now chunks }
    {
        let VectorRoom { mut parts } = self;
        push_chunks(&mut parts.bytes, content, chunks);
        give_back(&mut parts.bytes, content_len(content));
        parts.chunks = chunks;
        let parts = Some(parts);
        LogVector { parts }
    }
}

/// How many bytes a content has, at most 4,096.
pub(crate) fn content_len(content: &Content) -> usize
    ensures value { result ≡ length content.now }
    ensures short { result ≤ BLOCK_BYTES }
{
    content.bytes().len()
}

/// Room without bytes, where any block fits in.
fn emptied(mut parts: Box<Parts>) -> Option<VectorRoom> {
    if parts.bytes.capacity() < BLOCK_BYTES {
        return None;
    }
    parts.bytes.clear();
    Some(VectorRoom { parts })
}

/// What a room has beyond the length of a content that is shorter than others is given back: the log vectors of small blocks are
/// small. Where the allocator can't do so, the room stays as it is.
fn give_back(bytes: &mut Vec<u8>, len: usize)
    ensures { bytes.new.items ≡ bytes.old.items }
{
    if len < BLOCK_BYTES {
        bytes.shrink_to(len);
    }
}

/// Appends the bytes of some chunks that a content has, one after another, to none.
fn push_chunks(out: &mut Vec<u8>, content: &Content, chunks: Chunks)
    requires none { out.old.items ≡ [] }
    requires room { BLOCK_BYTES ≤ vec_capacity out.old }
    requires within { IsWithin (length content.now) chunks }
    ensures bytes { out.new.items ≡ chunk_bytes content.now chunks }
    ensures form { length out.new.items ≡ CHUNK_BYTES * length chunks }
    ensures capacity { BLOCK_BYTES ≤ vec_capacity out.new }
{
    let _size = content_len(content);
    let word = chunks.word();
    if word == u32::MAX {
        push_block(out, content);
    } else {
        push_marked(out, content, word);
    }
}

/// Appends all bytes of a content of 32 chunks to none.
fn push_block(out: &mut Vec<u8>, content: &Content)
    requires none { out.old.items ≡ [] }
    requires room { BLOCK_BYTES ≤ vec_capacity out.old }
    requires whole { length content.now ≡ BLOCK_BYTES }
    ensures bytes { out.new.items ≡ content.now }
    ensures form { length out.new.items ≡ BLOCK_BYTES }
    ensures capacity { BLOCK_BYTES ≤ vec_capacity out.new }
{
    out.extend_from_slice(content.bytes()).unwrap();
}

/// Appends the bytes of the chunks that a word has, one after another, to none.
fn push_marked(out: &mut Vec<u8>, content: &Content, word: u32)
    requires none { out.old.items ≡ [] }
    requires room { BLOCK_BYTES ≤ vec_capacity out.old }
    requires within { (k : ℕ) → k < CHUNKS → (bit_at word k == 1) ≡ true → CHUNK_BYTES * k + CHUNK_BYTES ≤ length content.now }
    ensures bytes { out.new.items ≡ chunk_bytes content.now (places_of word) }
    ensures form { length out.new.items ≡ CHUNK_BYTES * length (places_of word) }
    ensures capacity { BLOCK_BYTES ≤ vec_capacity out.new }
{
    let low = word.trailing_zeros();
    let end = CHUNKS - word.leading_zeros();
    for k in low..end {
        push_if_marked(out, content, word, k);
    }
}

/// Whether a word of bits has chunk `k`.
fn is_marked(word: u32, k: u32) -> bool
    requires { k < CHUNKS }
    ensures { result ≡ (bit_at word k == 1) }
{
    word >> k & 1 == 1
}

/// Appends the bytes of chunk `k`, if the word has it.
fn push_if_marked(out: &mut Vec<u8>, content: &Content, word: u32, k: u32)
    requires chunk { k < CHUNKS }
    requires room { length out.old.items + CHUNK_BYTES ≤ vec_capacity out.old }
    requires within { (bit_at word k == 1) ≡ true → CHUNK_BYTES * k + CHUNK_BYTES ≤ length content.now }
    ensures bytes { out.new.items ≡ out.old.items ++ (if bit_at word k == 1 then chunk content.now k else []) }
    ensures count { length out.new.items ≡ length out.old.items + (if bit_at word k == 1 then CHUNK_BYTES else 0) }
    ensures capacity { vec_capacity out.old ≤ vec_capacity out.new }
{
    if is_marked(word, k) {
        push_chunk(out, content, k);
    }
}

/// Appends the bytes of one chunk.
fn push_chunk(out: &mut Vec<u8>, content: &Content, k: u32)
    requires chunk { k < CHUNKS }
    requires room { length out.old.items + CHUNK_BYTES ≤ vec_capacity out.old }
    requires within { CHUNK_BYTES * k + CHUNK_BYTES ≤ length content.now }
    ensures bytes { out.new.items ≡ out.old.items ++ chunk content.now k }
    ensures count { length out.new.items ≡ length out.old.items + CHUNK_BYTES }
    ensures capacity { vec_capacity out.old ≤ vec_capacity out.new }
{
    let first = CHUNK_BYTES * k as usize;
    out.extend_from_slice(&content.bytes()[first..first + CHUNK_BYTES])
        .unwrap();
}
