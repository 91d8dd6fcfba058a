//! What a checkpoint says of one block.

ghost use Rattle.std.specs.Prelude.{◌≡◌, ◌↔◌, IsTrue, Some, nat_lt};
ghost use Rattle.xt_ckpt.specs.Grammar.{map_limit};
ghost use Rattle.xt_ckpt.specs.Items.{FitsSize};

use xt_base::chunks::Chunks;
use xt_base::names::Block;
use xt_base::sizes::CHUNK_BYTES;

/// What a checkpoint says of one block: which chunks it logs, and their bytes. An item
/// without chunks is a cancel (`XFS_BLF_CANCEL` of `xfs_log_format.h`): what earlier
/// checkpoints said of the block counts no more.
#[derive(Debug, Drop)]
pub struct Item {
    pub block: Block,
    pub chunks: Chunks,
    /// 128 bytes for each chunk, ascending.
    pub content: Vec<u8>,
}

impl Item {
    /// Whether it logs no chunk that a block of so many bytes lacks.
    pub fn fits(&self, size: u32) -> bool
        ensures { IsTrue result ↔ FitsSize (Some size) self.now }
    {
        is_within(self.chunks.word(), Some(size))
    }
}

/// Whether a map names no chunk that a block lacks, by its size where a text says that.
pub(crate) fn is_within(map: u32, size: Option<u32>) -> bool
    ensures { result ≡ nat_lt map (map_limit size) }
{
    match size {
        None => true,
        Some(size) => match 2u64.checked_pow(size / CHUNK_BYTES as u32) {
            None => true,
            Some(limit) => (map as u64) < limit,
        },
    }
}
