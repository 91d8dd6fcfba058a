//! How many bytes items take in a text.

ghost use Rattle.std.specs.Prelude.{◌≡◌, ◌+◌, ◌*◌, ◌≤◌, drop, length, sum_by};
ghost use Rattle.xt_ckpt.specs.Entries.{entries_len, entry_len};
ghost use Rattle.xt_ckpt.specs.Grammar.{size_field};

use crate::format::SIZE_BYTES;
use crate::source::ItemSource;
use xt_base::chunks::Chunks;
use xt_base::sizes::{BUSY_BLOCKS, CHUNK_BYTES, CHUNK_COST, CHUNKS, ENDS, ITEM_COST};

/// How many bytes an item of these chunks takes in a text: 16, and 128 for each chunk.
fn item_len(chunks: Chunks) -> usize
    ensures value { result ≡ ITEM_COST + CHUNK_COST * length chunks }
    ensures range { result ≤ ITEM_COST + CHUNK_COST * CHUNKS }
{
    ITEM_COST as usize + CHUNK_BYTES * chunks.count() as usize
}

/// How many bytes the items from a place on take together.
pub fn len_from<S: ItemSource>(items: &S, from: usize) -> usize
    requires few { length (S.entries items.now) ≤ BUSY_BLOCKS }
    requires from { from ≤ length (S.entries items.now) }
    ensures value { result ≡ sum_by entry_len (drop from (S.entries items.now)) }
    ensures range { result ≤ BUSY_BLOCKS * (ITEM_COST + CHUNK_COST * CHUNKS) }
{
    let mut len = 0;
    for index in from..items.item_count() {
        len += item_len(items.chunks_at(index));
    }
    len
}

/// How many bytes the size of a block takes in a text, where the text says it.
pub fn size_len(size: Option<u32>) -> usize
    ensures value { result ≡ length (size_field size) }
    ensures range { result ≤ SIZE_BYTES }
{
    match size {
        None => 0,
        Some(_) => SIZE_BYTES,
    }
}

/// The length of the text of a checkpoint in bytes, which is its cost: 32, and for each
/// item 16 and 128 for each chunk. At most 263,200. A text that says the size of a block has 4 more.
pub fn checkpoint_len<S: ItemSource>(items: &S) -> usize
    requires { length (S.entries items.now) ≤ BUSY_BLOCKS }
    ensures value { result ≡ entries_len (S.entries items.now) }
    ensures range { result ≤ ENDS + BUSY_BLOCKS * (ITEM_COST + CHUNK_COST * CHUNKS) }
{
    ENDS as usize + len_from(items, 0)
}
