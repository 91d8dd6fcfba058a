//! Sectors of a file: what a block has of them, whatever its size is.

ghost use Rattle.std.specs.Prelude.{◌≡◌, ◌≤◌, ◌<◌, ◌+◌, ◌*◌, ◌/◌, Some, None, IsSome, IfSome, ◌↔◌, true};
ghost use Rattle.xt_base.specs.Form.{is_size};
ghost use Rattle.xt_dev.specs.declared.sectors.TheConstants.{FILE_SECTORS};

use xt_base::names::Block;

/// How many blocks a file can have, since the end of the last is below 2^63: 2^51 - 1.
pub const FILE_BLOCKS: u64 = 0x7_ffff_ffff_ffff;

/// The bytes of a sector, the least that a block may have.
pub(crate) const SECTOR_BYTES: usize = 512;

/// The most sectors of a file: those of `FILE_BLOCKS` blocks of 4,096 bytes.
const FILE_SECTORS: u64 = FILE_BLOCKS * 8;

/// The sectors of a block: the first of them, and how many they are.
#[derive(Clone, Copy)]
pub(crate) struct Sectors {
    pub(crate) first: u64,
    pub(crate) count: usize,
    ghost in_file: { first + count ≤ FILE_SECTORS },
}

impl Sectors {
    /// Those of a block of a size; None where a file can't have it.
    pub(crate) fn of(block: Block, size: usize) -> Option<Self>
        requires size { is_size (Some size) ≡ true }
        ensures there { IsSome result ↔ (block < FILE_BLOCKS) }
        ensures begin { IfSome result (λ sectors. sectors.first * SECTOR_BYTES ≡ block * size) }
        ensures bytes { IfSome result (λ sectors. sectors.count * SECTOR_BYTES ≡ size) }
    {
        if block.0 >= FILE_BLOCKS {
            return None;
        }
        let count = size / SECTOR_BYTES;
        let first = block.0 * count as u64;
        Some(Sectors { first, count })
    }

    /// At which byte of the file the first begins.
    pub(crate) fn begin(self) -> u64
        ensures { result ≡ self.first * SECTOR_BYTES }
    {
        self.first * SECTOR_BYTES as u64
    }
}
