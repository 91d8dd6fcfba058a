//! The bytes of chunks, put at their places in a content.

ghost use Rattle.std.specs.Int.{bit_at};
ghost use Rattle.std.specs.Prelude.{◌≡◌, ◌+◌, ◌*◌, ◌≤◌, ◌<◌, ◌==◌, drop, if◌then◌else◌, length, take};
ghost use Rattle.xt_base.specs.Calls.{overwritten};
ghost use Rattle.xt_base.specs.Chunks.{places_of};
ghost use Rattle.xt_base.specs.Sized.{IsWithin};
ghost use Rattle.xt_base.specs.Text.{chunk};
ghost use Rattle.xt_recover.specs.Chunks.{merged, with_chunks};

use xt_base::chunks::Chunks;
use xt_base::content::Content;
use xt_base::sizes::{CHUNK_BYTES, CHUNKS};

/// Puts the bytes of the chunks that a word has, which stand one after another, at their places.
pub(crate) fn lay_marked(content: &mut Content, word: u32, bytes: &[u8])
    requires form { length bytes.now ≡ CHUNK_BYTES * length (places_of word) }
    requires within { IsWithin (length content.old) (places_of word) }
    ensures laid { content.new ≡ with_chunks (places_of word) bytes.now content.old }
    ensures len { length content.new ≡ length content.old }
{
    let mut place = 0;
    for k in 0..CHUNKS {
        place = lay_if_marked(content, word, k, bytes, place);
    }
}

/// Puts some chunks of a content at their places in the bytes of a block that has as many.
pub(crate) fn copy_chunks(block: &mut [u8], chunks: Chunks, content: &Content)
    requires whole { length content.now ≡ length block.old }
    ensures { block.new ≡ merged chunks content.now block.old }
{
    copy_marked(block, chunks.word(), content);
}

/// Puts the chunks of a content that a word has at their places in the bytes of a block.
fn copy_marked(block: &mut [u8], word: u32, content: &Content)
    requires whole { length content.now ≡ length block.old }
    ensures { block.new ≡ merged (places_of word) content.now block.old }
{
    for k in 0..CHUNKS {
        copy_if_marked(block, word, k, content);
    }
}

/// Puts chunk `k` of a content at its place in the bytes of a block, if the word has it.
fn copy_if_marked(block: &mut [u8], word: u32, k: u32, content: &Content)
    requires chunk { k < CHUNKS }
    requires whole { length content.now ≡ length block.old }
    ensures { block.new ≡ (if bit_at word k == 1 then overwritten (CHUNK_BYTES * k) (chunk content.now k) block.old else block.old) }
{
    if is_marked(word, k) {
        copy_chunk(block, k, content);
    }
}

/// Puts chunk `k` of a content at its place in the bytes of a block; a small block may lack it, and then there is nothing to put.
fn copy_chunk(block: &mut [u8], k: u32, content: &Content)
    requires chunk { k < CHUNKS }
    requires whole { length content.now ≡ length block.old }
    ensures { block.new ≡ overwritten (CHUNK_BYTES * k) (chunk content.now k) block.old }
{
    let bytes = content.bytes();
    let first = CHUNK_BYTES * k as usize;
    if first + CHUNK_BYTES <= bytes.len() {
        put_bytes(block, first, &bytes[first..first + CHUNK_BYTES]);
    }
}

/// Puts bytes from a place on.
fn put_bytes(block: &mut [u8], first: usize, bytes: &[u8])
    requires { first + length bytes.now ≤ length block.old }
    ensures { block.new ≡ overwritten first bytes.now block.old }
{
    let end = first + bytes.len();
    block[first..end].copy_from_slice(bytes);
}

/// Whether a word of bits has chunk `k`.
fn is_marked(word: u32, k: u32) -> bool
    requires { k < CHUNKS }
    ensures { result ≡ (bit_at word k == 1) }
{
    word >> k & 1 == 1
}

/// Puts the bytes from a place on into chunk `k`, if the word has it, and answers the place behind them.
fn lay_if_marked(content: &mut Content, word: u32, k: u32, bytes: &[u8], place: usize) -> usize
    requires chunk { k < CHUNKS }
    requires within { place + (if bit_at word k == 1 then CHUNK_BYTES else 0) ≤ length bytes.now }
    requires fits { (if bit_at word k == 1 then CHUNK_BYTES * k + CHUNK_BYTES else 0) ≤ length content.old }
    ensures content { content.new ≡ (if bit_at word k == 1 then overwritten (CHUNK_BYTES * k) (take CHUNK_BYTES (drop place bytes.now)) content.old else content.old) }
    ensures place { result ≡ place + (if bit_at word k == 1 then CHUNK_BYTES else 0) }
    ensures len { length content.new ≡ length content.old }
{
    if is_marked(word, k) {
        lay_chunk(content, k, &bytes[place..place + CHUNK_BYTES]);
        place + CHUNK_BYTES
    } else {
        place
    }
}

/// Puts the bytes of one chunk at its place.
fn lay_chunk(content: &mut Content, k: u32, bytes: &[u8])
    requires chunk { k < CHUNKS }
    requires whole { length bytes.now ≡ CHUNK_BYTES }
    requires fits { CHUNK_BYTES * k + CHUNK_BYTES ≤ length content.old }
    ensures laid { content.new ≡ overwritten (CHUNK_BYTES * k) bytes.now content.old }
    ensures len { length content.new ≡ length content.old }
{
    content.write(k as usize * CHUNK_BYTES, bytes);
}
