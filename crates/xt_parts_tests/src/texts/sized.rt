//! Worked texts that say the size of a block.

use crate::texts::{Change, Log, OF_176, OF_4144, Outcome, are_cut, bytes_of, item_of};
use bytes::Bytes;
use std::alloc::Global;
use std::test::*;
use xt_base::form::is_block_size;
use xt_base::names::CkptNo;
use xt_ckpt::writing::write_checkpoint2;

/// One chunk of block 7, where a block has 512 bytes, 180 bytes.
pub const OF_180: &str =
    "58435032.00*7.0100000001000002.00*8.0700000002.00*6.0102.00*124.5843453200000001.00*7.01";
/// The whole of block 0, where a block has 4,096 bytes and the text says so, 4,148 bytes.
pub const OF_4148: &str =
    "58435032.00*7.010000000100001000.00*8.ff*4.00*4.aa*4096.5843453200000001.00*7.01";

/// Texts with bytes changed.
pub const SIZED_CHANGES: &[Change] = &[
    // it is to say a size, and the block stands in its place
    (OF_176, 3, 4, 0x03, Outcome::Fault(16)),
    // the word behind the items is that of a text that says a size
    (OF_176, 163, 164, 0x03, Outcome::Fault(160)),
    // a text that says the size: the first word is another
    (OF_180, 0, 4, 0xff, Outcome::Fault(0)),
    // it is to say no size, which stands in the place of the block, and the block in that of the map
    (OF_180, 3, 4, 0x03, Outcome::Fault(28)),
    // another number, which differs from the one at the end; and number 0
    (OF_180, 4, 11, 0x01, Outcome::Fault(172)),
    (OF_180, 11, 12, 0x02, Outcome::Fault(172)),
    (OF_180, 11, 12, 0x01, Outcome::Fault(4)),
    // more than 64 items, and none
    (OF_180, 12, 15, 0x01, Outcome::Fault(12)),
    (OF_180, 15, 16, 0x40, Outcome::Fault(12)),
    (OF_180, 15, 16, 0x01, Outcome::Fault(12)),
    // none of the four sizes
    (OF_180, 16, 20, 0x01, Outcome::Fault(16)),
    (OF_180, 18, 19, 0x02, Outcome::Fault(16)),
    // 1,024, 2,048 and 4,096 bytes
    (OF_180, 18, 19, 0x06, Outcome::Text(180)),
    (OF_180, 18, 19, 0x0a, Outcome::Text(180)),
    (OF_180, 18, 19, 0x12, Outcome::Text(180)),
    // another block
    (OF_180, 20, 28, 0xff, Outcome::Text(180)),
    // a chunk that the block lacks
    (OF_180, 28, 31, 0x01, Outcome::Fault(28)),
    (OF_180, 31, 32, 0x10, Outcome::Fault(28)),
    (OF_180, 31, 32, 0x80, Outcome::Fault(28)),
    // another of its four chunks, and one more, whose bytes are not all there
    (OF_180, 31, 32, 0x06, Outcome::Text(180)),
    (OF_180, 31, 32, 0x0a, Outcome::Text(180)),
    (OF_180, 31, 32, 0x01, Outcome::Unfinished),
    // no chunk, and the flag 0; a chunk, and another flag than 0
    (OF_180, 31, 32, 0x02, Outcome::Fault(32)),
    (OF_180, 32, 36, 0x01, Outcome::Fault(32)),
    (OF_180, 36, 164, 0xff, Outcome::Text(180)),
    // the word behind the items, the count and the number at the end
    (OF_180, 164, 168, 0x01, Outcome::Fault(164)),
    (OF_180, 167, 168, 0x03, Outcome::Fault(164)),
    (OF_180, 168, 172, 0x01, Outcome::Fault(168)),
    (OF_180, 172, 179, 0x01, Outcome::Fault(172)),
    (OF_180, 179, 180, 0xff, Outcome::Fault(172)),
];

/// Logs.
pub const SIZED_LOGS: &[Log] = &[
    // texts of both kinds
    (OF_4144, OF_180, 4144, Outcome::Text(180)),
    (OF_180, OF_176, 180, Outcome::Text(176)),
    // the last chunk of a block of each smaller size, and the first that it lacks
    (
        "",
        "58435032.00*7.010000000100000200.00*7.0700000008",
        0,
        Outcome::Unfinished,
    ),
    (
        "",
        "58435032.00*7.010000000100000200.00*7.0700000010",
        0,
        Outcome::Fault(28),
    ),
    (
        "",
        "58435032.00*7.010000000100000400.00*7.0700000080",
        0,
        Outcome::Unfinished,
    ),
    (
        "",
        "58435032.00*7.010000000100000400.00*7.0700000100",
        0,
        Outcome::Fault(28),
    ),
    (
        "",
        "58435032.00*7.010000000100000800.00*7.0700008000",
        0,
        Outcome::Unfinished,
    ),
    (
        "",
        "58435032.00*7.010000000100000800.00*7.0700010000",
        0,
        Outcome::Fault(28),
    ),
    (
        "",
        "58435032.00*7.010000000100001000.00*7.0780000000",
        0,
        Outcome::Unfinished,
    ),
];

/// The pieces of a checkpoint of block 0 alone, where the text says the size of a block; None where such a block lacks a chunk.
fn sized_pieces(alloc: Global, size: u32, map: u32, byte: u8) -> Result<Option<Vec<Bytes>>, Fail> {
    let item = item_of(alloc, 0, map, byte)?;
    if !is_block_size(size as usize) || !item.fits(size) {
        return Ok(None);
    }
    let items = [item];
    Ok(Some(write_checkpoint2(alloc, CkptNo(1), size, &items)?))
}

#[test]
fn one_sized_item_written(rt: HostRuntime) -> Result<(), Fail> {
    let pieces = sized_pieces(rt.alloc(), 4096, 0xffff_ffff, 0xaa)?.ok_or("pieces")?;
    let text = bytes_of(rt.alloc(), OF_4148)?;
    assert!(rt; pieces.len() == 2 && are_cut(&pieces, &text));
    assert!(rt; sized_pieces(rt.alloc(), 512, 0x10, 0xaa)?.is_none());
    Ok(())
}
