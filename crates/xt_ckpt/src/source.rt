//! Items that a text is formed from, wherever they lie.

ghost use Rattle.std.specs.Prelude.{ℕ, ◌≡◌, ◌<◌, List, length};
ghost use Rattle.xt_ckpt.specs.Entries.{block_at, chunks_at, content_at};
ghost use Rattle.xt_ckpt.specs.Grammar.{Entry, entries as entries_of};

use crate::item::Item;
use xt_base::chunks::Chunks;

/// Items in their order, of which a writer asks by their places, so that it needs no copy of their bytes.
pub trait ItemSource {
    ghost entries: { Self → List Entry };

    /// How many there are.
    fn item_count(&self) -> usize
        ensures { result ≡ length (entries self.now) };

    /// The block of the item at a place.
    fn block_at(&self, index: usize) -> u64
        requires { index < length (entries self.now) }
        ensures { result ≡ block_at (entries self.now) index };

    /// Its chunks.
    fn chunks_at(&self, index: usize) -> Chunks
        requires { index < length (entries self.now) }
        ensures { result ≡ chunks_at (entries self.now) index };

    /// The bytes of its chunks, ascending.
    fn content_at(&self, index: usize) -> &[u8]
        requires { index < length (entries self.now) }
        ensures { result.now ≡ content_at (entries self.now) index };
}

impl ItemSource for &[Item] {
    ghost entries = { λ items. entries_of items.now };

    fn item_count(&self) -> usize {
        self.len()
    }

    fn block_at(&self, index: usize) -> u64 {
        let item = &self[index];
        item.block.0
    }

    fn chunks_at(&self, index: usize) -> Chunks {
        self[index].chunks
    }

    fn content_at(&self, index: usize) -> &[u8] {
        &self[index].content
    }
}
