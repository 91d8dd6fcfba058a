//! Checkpoints printed: a head, and an item for each block.

ghost use Rattle.std.specs.Prelude.{◌≡◌, ◌≤◌, ◌∷◌, length};
ghost use Rattle.xt_text.specs.Buffer.{put};
ghost use Rattle.xt_text.specs.Items.{head_text, item_text, logged_text, word_text};

use crate::buffer::Text;
use crate::data_text::put_hex;
use crate::fields::{then_bytes, then_number, then_word};
use crate::numbers::put_number;
use crate::words::BLANK;
use xt_base::chunks::Chunks;
use xt_base::names::{Block, CkptNo};
use xt_base::sizes::DATA_BYTES;

/// Puts the number of a checkpoint and the count of its items, and the size of a block where its text says it, with no newline in
/// it or behind.
#[tactic(auto, using(crate::proofs::BufferLemmas::put_put))]
pub fn print_head(number: CkptNo, count: usize, size: Option<u32>, out: &mut Text)
    ensures text { out.new ≡ put out.old (head_text number count size) }
    ensures short { length (head_text number count size) ≤ 63 }
{
    out.push(b'c');
    put_number(out, number.0);
    then_number(out, count as u64);
    if let Some(size) = size {
        then_number(out, size as u64);
    }
}

/// Puts a word as eight hexadecimal digits.
#[tactic(auto, using(crate::proofs::BufferLemmas::put_put, crate::proofs::BufferLemmas::put_none))]
fn put_word(out: &mut Text, word: u32)
    ensures text { out.new ≡ put out.old (word_text word) }
    ensures short { length (word_text word) ≡ 8 }
{
    for byte in &word.to_be_bytes() {
        put_hex(out, *byte);
    }
}

/// What an item logs: the bytes of its chunks, or that it is a cancel.
#[tactic(auto, using(crate::proofs::BufferLemmas::put_put))]
fn then_logged(out: &mut Text, chunks: Chunks, bytes: &[u8])
    ensures text { out.new ≡ put out.old (BLANK ∷ logged_text chunks bytes.now) }
    ensures short { length bytes.now ≤ DATA_BYTES → length (logged_text chunks bytes.now) ≤ 8197 }
{
    if chunks.is_empty() {
        out.put(b" cancel -");
    } else {
        then_word(out, b"data");
        then_bytes(out, bytes);
    }
}

/// Puts an item of a checkpoint, with no newline in it or behind: the block, the word of its chunks as eight digits, and
/// `data` with the bytes of its chunks; or `cancel -`, where it has no chunk.
#[tactic(auto, using(crate::proofs::BufferLemmas::put_put))]
pub fn print_item(block: Block, chunks: Chunks, bytes: &[u8], out: &mut Text)
    requires few { length bytes.now ≤ DATA_BYTES }
    ensures text { out.new ≡ put out.old (item_text block chunks bytes.now) }
    ensures short { length (item_text block chunks bytes.now) ≤ 8300 }
{
    put_number(out, block.0);
    out.push(BLANK);
    put_word(out, chunks.word());
    then_logged(out, chunks, bytes);
}
