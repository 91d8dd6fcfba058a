//! Worked texts: read back, cut short after each byte, and with a byte changed.
//!
//! A test function is proved too, at a cost that grows with the square of its length. So rows stand
//! in constants, helpers compare, and a test has few assertions.

ghost use Rattle.std.specs.Prelude.{◌≡◌, ◌<◌, ◌≤◌, All, length, IfOk, IfSome};
ghost use Rattle.xt_ckpt.specs.Items.{HasForm};
ghost use Rattle.xt_ckpt.specs.Pieces.{IsOf};

mod many_items;
mod sized;

use bytes::Bytes;
use many_items::{OF_4096, OF_8192};
use sized::{OF_180, OF_4148, SIZED_CHANGES, SIZED_LOGS};
use std::alloc::{AllocError, Global};
use std::test::*;
use xt_base::chunks::Chunks;
use xt_base::names::{Block, CkptNo};
use xt_base::steps::Errno;
use xt_ckpt::item::Item;
use xt_ckpt::piece_writer::PieceWriter;
use xt_ckpt::reading::{Checkpoint, CkptFault, ReadFault, read_checkpoint, read_checkpoint_into};
use xt_ckpt::rooms::Rooms;
use xt_ckpt::writing::write_checkpoint;

/// One chunk of block 7, 176 bytes.
const OF_176: &str =
    "58435031.00*7.0100000001.00*7.0700000002.00*6.0102.00*124.5843453100000001.00*7.01";
/// Two chunks of block 7, 304 bytes.
const OF_304: &str =
    "58435031.00*7.0100000001.00*7.0700000009.00*4.11.00*143.22.00*111.5843453100000001.00*7.01";
/// Three chunks of block 7, 432 bytes.
const OF_432: &str =
    "58435031.00*7.0100000001.00*7.0780000003.00*131.0102.00*254.ff5843453100000001.00*7.01";
/// A cancel of block 7, 48 bytes.
const OF_48: &str = "58435031.00*7.0100000001.00*7.07.00*7.015843453100000001.00*7.01";
/// The whole of block 7, 4,144 bytes.
const OF_4144: &str = "58435031.00*7.0100000001.00*7.07.ff*4.00*4.aa*4096.5843453100000001.00*7.01";

/// What a hexadecimal digit stands for.
fn digit(c: u8) -> Option<u8>
    ensures { IfSome result (λ d. d < 16) }
{
    match c {
        b'0'..=b'9' => Some(c - b'0'),
        b'a'..=b'f' => Some(c - b'a' + 10),
        _ => None,
    }
}

/// Bytes that are spelled in pairs of hexadecimal digits: parts between dots, of which each
/// may be one byte and how often it stands, as `00*7`.
pub fn bytes_of(alloc: Global, spelled: &str) -> Result<Vec<u8>, Fail> {
    let mut bytes = Vec::new(alloc);
    for part in spelled.split('.') {
        let (digits, count) = match part.split_once('*') {
            Some((digits, count)) => (digits, count.parse::<u32>()?),
            None => (part, 1),
        };
        for _ in 0..count {
            push_pairs(&mut bytes, digits)?;
        }
    }
    Ok(bytes)
}

fn push_pairs(bytes: &mut Vec<u8>, digits: &str) -> Result<(), Fail> {
    let mut high = None;
    for c in digits.bytes() {
        let low = digit(c).ok_or("a digit")?;
        high = match high {
            None => Some(low),
            Some(high) => {
                bytes.push(high << 4 | low)?;
                None
            }
        };
    }
    Ok(())
}

/// What reading gave, in a form that is compared whole.
#[derive(Clone, Copy, Debug, PartialEq, Eq)]
enum Outcome {
    /// A text of so many bytes.
    Text(usize),
    Unfinished,
    Fault(usize),
}

fn read_outcome(alloc: Global, input: &[u8]) -> Result<Outcome, Fail> {
    match read_checkpoint(alloc, input) {
        Ok(Some((_, len))) => Ok(Outcome::Text(len)),
        Ok(None) => Ok(Outcome::Unfinished),
        Err(ReadFault::Ckpt(CkptFault { at })) => Ok(Outcome::Fault(at)),
        Err(ReadFault::Memory) => Err("out of memory".into()),
    }
}

fn first_text(alloc: Global, input: &[u8]) -> Result<(Checkpoint, usize), Fail> {
    let found = read_checkpoint(alloc, input)?;
    Ok(found.ok_or("a text")?)
}

/// Texts of one item, their lengths, the size of a block where they say it, and the item's chunks and its bytes.
const OF_ONE: &[(&str, usize, Option<u32>, u32, &str)] = &[
    (OF_176, 176, None, 0x2, "00*2.0102.00*124"),
    (OF_304, 304, None, 0x9, "11.00*143.22.00*111"),
    (OF_432, 432, None, 0x8000_0003, "00*127.0102.00*254.ff"),
    (OF_48, 48, None, 0, ""),
    (OF_4144, 4144, None, 0xffff_ffff, "aa*4096"),
    (OF_180, 180, Some(512), 0x2, "00*2.0102.00*124"),
];

/// Whether a checkpoint is number 1, says this size, and has one item, of block 7, with these chunks and bytes.
fn is_one(checkpoint: &Checkpoint, size: Option<u32>, map: u32, content: &[u8]) -> bool {
    match checkpoint.items.as_slice() {
        [item] => {
            checkpoint.no == CkptNo(1)
                && checkpoint.size == size
                && item.block == Block(7)
                && item.chunks.word() == map
                && item.content.as_slice() == content
        }
        _ => false,
    }
}

/// Whether a text is read as such a checkpoint, both alone and in the room of the one before: a longer one, a shorter one, and none.
fn is_read(
    alloc: Global,
    rooms: &mut Rooms,
    input: &[u8],
    size: Option<u32>,
    map: u32,
    content: &[u8],
) -> Result<Option<usize>, Fail> {
    let (alone, len) = first_text(alloc, input)?;
    let found = read_checkpoint_into(rooms, input)?;
    let (checkpoint, read) = found.ok_or("a text")?;
    let are_so = is_one(&alone, size, map, content) && is_one(&checkpoint, size, map, content);
    rooms.give_back(checkpoint);
    Ok(if are_so && read == len {
        Some(len)
    } else {
        None
    })
}

#[test]
fn texts_of_one_item(rt: HostRuntime) -> Result<(), Fail> {
    let mut rooms = Rooms::new(rt.alloc());
    for (text, len, size, map, content) in OF_ONE {
        let mut input = bytes_of(rt.alloc(), text)?;
        input.push(0x58)?;
        let content = bytes_of(rt.alloc(), content)?;
        let read = is_read(rt.alloc(), &mut rooms, &input, *size, *map, &content)?;
        assert!(rt; read == Some(*len), "{text}");
    }
    Ok(())
}

/// Whether a checkpoint has 30 items, of blocks 0 to 29, of which so many are cancels.
fn are_thirty(checkpoint: &Checkpoint, cancels: usize) -> bool {
    let mut found = 0usize;
    for (at, item) in checkpoint.items.iter().enumerate() {
        if item.block != Block(at as u64) {
            return false;
        }
        found = found.saturating_add(usize::from(item.chunks.is_empty()));
    }
    checkpoint.items.len() == 30 && found == cancels
}

#[test]
fn texts_of_thirty_items(rt: HostRuntime) -> Result<(), Fail> {
    for (text, len, cancels) in [(OF_4096, 4096, 2), (OF_8192, 8192, 0)] {
        let input = bytes_of(rt.alloc(), text)?;
        let (checkpoint, read) = first_text(rt.alloc(), &input)?;
        assert!(rt; read == len && are_thirty(&checkpoint, cancels));
    }
    Ok(())
}

/// Every front of a text is unfinished: each field that is all there obeys its rule.
fn is_unfinished_at_each(alloc: Global, input: &[u8]) -> Result<bool, Fail> {
    for len in 0..input.len() {
        if read_outcome(alloc, &input[..len])? != Outcome::Unfinished {
            return Ok(false);
        }
    }
    Ok(true)
}

#[test]
fn cut_after_each_byte(rt: HostRuntime) -> Result<(), Fail> {
    const TEXTS: &[&str] = &[
        OF_176, OF_304, OF_432, OF_48, OF_4144, OF_4096, OF_8192, OF_180, OF_4148,
    ];
    for text in TEXTS {
        let input = bytes_of(rt.alloc(), text)?;
        let outcome = read_outcome(rt.alloc(), &input)?;
        assert!(rt; outcome == Outcome::Text(input.len()), "{text}");
        assert!(rt; is_unfinished_at_each(rt.alloc(), &input)?, "{text}");
    }
    Ok(())
}

/// A text, the first of its bytes that change and the one behind the last, the bits that
/// change in each of them alone, and what the rules say of it then.
type Change = (&'static str, usize, usize, u8, Outcome);

const CHANGES: &[Change] = &[
    // the first word is another
    (OF_176, 0, 4, 0xff, Outcome::Fault(0)),
    // another number, which differs from the one at the end
    (OF_176, 4, 11, 0x01, Outcome::Fault(168)),
    (OF_176, 11, 12, 0x02, Outcome::Fault(168)),
    // number 0
    (OF_176, 11, 12, 0x01, Outcome::Fault(4)),
    // more than 64 items
    (OF_176, 12, 15, 0x01, Outcome::Fault(12)),
    (OF_176, 15, 16, 0x40, Outcome::Fault(12)),
    // no item
    (OF_176, 15, 16, 0x01, Outcome::Fault(12)),
    // 3 items: the last 16 bytes are a cancel of another block, and a third is to come
    (OF_176, 15, 16, 0x02, Outcome::Unfinished),
    // another block
    (OF_176, 16, 24, 0xff, Outcome::Text(176)),
    // one chunk more, whose bytes are not all there
    (OF_176, 24, 27, 0x01, Outcome::Unfinished),
    (OF_176, 27, 28, 0x01, Outcome::Unfinished),
    // another chunk
    (OF_176, 27, 28, 0x06, Outcome::Text(176)),
    // no chunk, and the flag 0
    (OF_176, 27, 28, 0x02, Outcome::Fault(28)),
    // a chunk, and another flag than 0
    (OF_176, 28, 32, 0x01, Outcome::Fault(28)),
    // other bytes of the chunk
    (OF_176, 32, 160, 0xff, Outcome::Text(176)),
    // the word behind the items is another
    (OF_176, 160, 164, 0x01, Outcome::Fault(160)),
    // another count at the end
    (OF_176, 164, 168, 0x01, Outcome::Fault(164)),
    // another number at the end
    (OF_176, 168, 175, 0x01, Outcome::Fault(168)),
    (OF_176, 175, 176, 0xff, Outcome::Fault(168)),
    // a cancel: its number, count and block
    (OF_48, 0, 4, 0x01, Outcome::Fault(0)),
    (OF_48, 4, 11, 0x80, Outcome::Fault(40)),
    (OF_48, 12, 15, 0x80, Outcome::Fault(12)),
    (OF_48, 16, 24, 0x80, Outcome::Text(48)),
    // a chunk, and the flag 1
    (OF_48, 24, 28, 0x10, Outcome::Fault(28)),
    // no chunk, and another flag than 1
    (OF_48, 28, 32, 0x01, Outcome::Fault(28)),
    (OF_48, 32, 36, 0x20, Outcome::Fault(32)),
    (OF_48, 36, 40, 0x20, Outcome::Fault(36)),
    (OF_48, 40, 48, 0x20, Outcome::Fault(40)),
    // one of two chunks is gone: the bytes of the other stand in the place of the end
    (OF_304, 27, 28, 0x01, Outcome::Fault(160)),
    (OF_304, 27, 28, 0x02, Outcome::Unfinished),
    (OF_304, 28, 32, 0x40, Outcome::Fault(28)),
    (OF_304, 32, 288, 0x40, Outcome::Text(304)),
    (OF_304, 296, 304, 0x40, Outcome::Fault(296)),
    // one of three
    (OF_432, 27, 28, 0x01, Outcome::Fault(288)),
    (OF_432, 32, 416, 0x01, Outcome::Text(432)),
    (OF_432, 416, 420, 0x01, Outcome::Fault(416)),
    // one of 32
    (OF_4144, 24, 28, 0x01, Outcome::Fault(4000)),
    (OF_4144, 28, 32, 0x01, Outcome::Fault(28)),
    (OF_4144, 32, 4128, 0x01, Outcome::Text(4144)),
    (OF_4144, 4136, 4144, 0x01, Outcome::Fault(4136)),
    // 29 of 30 items: the block of the last stands in the place of the end
    (OF_4096, 15, 16, 0x03, Outcome::Fault(4064)),
    // the first block is above the second
    (OF_4096, 16, 23, 0x01, Outcome::Fault(160)),
    (OF_4096, 23, 24, 0x01, Outcome::Fault(160)),
    // the second is above the third
    (OF_8192, 288, 295, 0x01, Outcome::Fault(560)),
    // the second is the first
    (OF_8192, 295, 296, 0x01, Outcome::Fault(288)),
    (OF_8192, 8176, 8180, 0x01, Outcome::Fault(8176)),
];

/// What is read of a text in which one byte is changed by these bits.
fn changed(alloc: Global, input: &mut [u8], at: usize, bits: u8) -> Result<Outcome, Fail> {
    if at >= input.len() {
        return Err("a byte of the text".into());
    }
    input[at] ^= bits;
    let outcome = read_outcome(alloc, input)?;
    input[at] ^= bits;
    Ok(outcome)
}

/// The first byte and the bits of it that change, of which the rules say another thing.
fn first_wrong(alloc: Global, changes: &[Change]) -> Result<Option<(usize, u8)>, Fail> {
    for (text, first, end, bits, wanted) in changes {
        let mut input = bytes_of(alloc, text)?;
        for at in *first..*end {
            if changed(alloc, &mut input, at, *bits)? != *wanted {
                return Ok(Some((at, *bits)));
            }
        }
    }
    Ok(None)
}

#[test]
fn one_byte_changed(rt: HostRuntime) -> Result<(), Fail> {
    for changes in [CHANGES, SIZED_CHANGES] {
        let wrong = first_wrong(rt.alloc(), changes)?;
        assert!(rt; wrong.is_none(), "{wrong:?}");
    }
    Ok(())
}

/// A text, what is behind it, where that begins, and what it is read as.
type Log = (&'static str, &'static str, usize, Outcome);

const LOGS: &[Log] = &[
    ("", "", 0, Outcome::Unfinished),
    (OF_48, "", 48, Outcome::Unfinished),
    (OF_4144, "5843503100", 4144, Outcome::Unfinished),
    (OF_4144, "ffffffff", 4144, Outcome::Fault(0)),
    (OF_176, "", 176, Outcome::Unfinished),
    (OF_176, "ffffff", 176, Outcome::Unfinished),
    // a cancel of block 7, and then block 7 again
    (
        OF_176,
        "58435031.00*7.0200000002.00*7.07.00*7.01.00*7.07",
        176,
        Outcome::Fault(32),
    ),
    // flag 0 where there is no chunk
    (
        "",
        "58435031.00*7.0100000001.00*7.07.00*8",
        0,
        Outcome::Fault(28),
    ),
];

/// Whether a log begins with a text of so many bytes, if any, and what is behind it is read so.
fn is_log(alloc: Global, (text, behind, len, outcome): &Log) -> Result<bool, Fail> {
    let mut log = bytes_of(alloc, text)?;
    log.extend_from_slice(&bytes_of(alloc, behind)?)?;
    let first = read_outcome(alloc, &log)?;
    let rest = log.get(*len..).ok_or("bytes behind a text")?;
    let then = read_outcome(alloc, rest)?;
    Ok((*len == 0 || first == Outcome::Text(*len)) && then == *outcome)
}

/// Logs of several texts: how many are whole, and what is behind them.
#[test]
fn logs(rt: HostRuntime) -> Result<(), Fail> {
    for logs in [LOGS, SIZED_LOGS] {
        for log in logs {
            assert!(rt; is_log(rt.alloc(), log)?, "{log:?}");
        }
    }
    Ok(())
}

/// The item of one block, with all bytes of its chunks the same.
fn item_of(alloc: Global, block: u64, map: u32, byte: u8) -> Result<Item, AllocError>
    ensures block { IfOk result (λ item. item.block ≡ block) }
    ensures form { IfOk result HasForm }
{
    let chunks = Chunks::of_word(map);
    let content = vec![in alloc; byte; 128 * chunks.count() as usize]?;
    Ok(Item {
        block: Block(block),
        chunks,
        content,
    })
}

/// The pieces of a checkpoint of block 7 alone.
fn pieces_of(alloc: Global, map: u32, byte: u8) -> Result<Vec<Bytes>, Fail> {
    let mut items = Vec::new(alloc);
    items.push(item_of(alloc, 7, map, byte)?)?;
    Ok(write_checkpoint(alloc, CkptNo(1), &items)?)
}

/// Chunks of block 7 and the byte that they have all over, the text of that, and how many pieces it has.
const ALONE: &[(u32, u8, &str, usize)] = &[(0xffff_ffff, 0xaa, OF_4144, 2), (0, 0, OF_48, 1)];

#[test]
fn one_item_written(rt: HostRuntime) -> Result<(), Fail> {
    for (map, byte, text, count) in ALONE {
        let pieces = pieces_of(rt.alloc(), *map, *byte)?;
        let text = bytes_of(rt.alloc(), text)?;
        assert!(rt; pieces.len() == *count && are_cut(&pieces, &text), "{map}");
    }
    Ok(())
}

/// An item of one block, with these bytes.
fn item_with(alloc: Global, block: u64, map: u32, spelled: &str) -> Result<Item, Fail>
    ensures { IfOk result HasForm }
{
    let chunks = Chunks::of_word(map);
    let content = bytes_of(alloc, spelled)?;
    if content.len() != 128 * chunks.count() as usize {
        return Err("128 bytes for each chunk".into());
    }
    Ok(Item {
        block: Block(block),
        chunks,
        content,
    })
}

/// Items of blocks one after another: up to `logged` with these chunks and bytes, from there
/// on to `end` cancels.
fn items_with(
    alloc: Global,
    blocks: (u64, u64, u64),
    map: u32,
    spelled: &str,
) -> Result<Vec<Item>, Fail>
    ensures { IfOk result (λ items. All HasForm items.items) }
{
    let (first, logged, end) = blocks;
    let mut items = Vec::new(alloc);
    for block in first..end {
        let item = if block < logged {
            item_with(alloc, block, map, spelled)?
        } else {
            item_with(alloc, block, 0, "")?
        };
        items.push(item)?;
    }
    Ok(items)
}

/// The pieces of checkpoint 1, one by one.
fn one_by_one(alloc: Global, size: Option<u32>, items: &[Item]) -> Result<Vec<Bytes>, Fail>
    requires few { length items.now ≤ 64 }
    requires form { All HasForm items.now }
{
    let mut writer = PieceWriter::new(CkptNo(1), size, items.len() as u32);
    let mut pieces = Vec::new(alloc);
    while let Some(piece) = writer.next(alloc, items)? {
        pieces.push(piece)?;
    }
    Ok(pieces)
}

/// Whether pieces are a text that is cut every 4,096 bytes.
fn are_cut(pieces: &[Bytes], text: &[u8]) -> bool {
    let mut rest = text;
    for piece in pieces {
        match rest.split_at_checked(piece.len()) {
            Some((front, behind)) if front == piece.as_slice() => {
                if front.len() != 4096 && !behind.is_empty() {
                    return false;
                }
                rest = behind;
            }
            _ => return false,
        }
    }
    rest.is_empty()
}

/// The size of a block where it is said, blocks with their chunks and bytes, the text of them, and how many pieces it has.
type Written = (
    Option<u32>,
    (u64, u64, u64),
    u32,
    &'static str,
    &'static str,
    usize,
);

const WRITTEN: &[Written] = &[
    (None, (7, 8, 8), 0xffff_ffff, "aa*4096", OF_4144, 2),
    (None, (7, 8, 8), 0x2, "00*2.0102.00*124", OF_176, 1),
    (None, (0, 28, 30), 0x1, "11*128", OF_4096, 1),
    (None, (0, 30, 30), 0x3, "00*127.2222.00*127", OF_8192, 2),
    (Some(512), (7, 8, 8), 0x2, "00*2.0102.00*124", OF_180, 1),
    (Some(4096), (0, 1, 1), 0xffff_ffff, "aa*4096", OF_4148, 2),
];

/// How many pieces are given of items, where they are the text.
fn count_of_text(
    alloc: Global,
    size: Option<u32>,
    items: &[Item],
    spelled: &str,
) -> Result<usize, Fail>
    requires { All HasForm items.now }
{
    let text = bytes_of(alloc, spelled)?;
    if items.len() > 64 {
        return Err("at most 64 items".into());
    }
    let pieces = one_by_one(alloc, size, items)?;
    if !are_cut(&pieces, &text) {
        return Err("the text, cut every 4,096 bytes".into());
    }
    Ok(pieces.len())
}

#[test]
fn pieces_written(rt: HostRuntime) -> Result<(), Fail> {
    for (size, blocks, map, spelled, text, count) in WRITTEN {
        let items = items_with(rt.alloc(), *blocks, *map, spelled)?;
        assert!(rt;
            count_of_text(rt.alloc(), *size, &items, text)? == *count,
            "{text}"
        );
    }
    Ok(())
}

/// How long the next piece is, asked again where a growth was refused.
fn len_of_next(
    writer: &mut PieceWriter,
    alloc: Global,
    items: &[Item],
) -> Result<Option<usize>, Errno>
    requires same { IsOf items.now writer.old }
    requires few { length items.now ≤ 64 }
    requires form { All HasForm items.now }
    ensures { IsOf items.now writer.new }
{
    let piece = match writer.next(alloc, items) {
        Err(Errno::NoMemory) => writer.next(alloc, items)?,
        answer => answer?,
    };
    Ok(piece.map(|piece| piece.len()))
}

/// Where a growth is refused, the same call again gives the piece. Run it with each allocation
/// failing in turn.
#[test]
fn piece_refused(rt: HostRuntime) -> Result<(), Errno> {
    let Ok(item) = item_of(rt.alloc(), 7, 0xffff_ffff, 0xaa) else {
        return Ok(());
    };
    let items = [item];
    let mut writer = PieceWriter::new(CkptNo(1), None, 1);
    for len in [Some(4096), Some(48), None] {
        assert!(rt; len_of_next(&mut writer, rt.alloc(), &items)? == len);
    }
    Ok(())
}

/// Bytes that are not 0, and their places in a text of 176 bytes.
const PLACES: &[(usize, u8)] = &[
    (0, 0x58),
    (1, 0x43),
    (2, 0x50),
    (3, 0x31),
    (11, 1),
    (15, 1),
    (23, 7),
    (27, 2),
    (34, 1),
    (160, 0x58),
    (161, 0x43),
    (162, 0x45),
    (163, 0x31),
    (167, 1),
    (175, 1),
];

/// Whether a text is read as one of 176 bytes, or for want of memory not at all.
fn is_read_or_refused(alloc: Global, input: &[u8]) -> bool {
    match read_checkpoint(alloc, input) {
        Ok(Some((_, len))) => len == 176,
        Ok(None) => false,
        Err(fault) => fault == ReadFault::Memory,
    }
}

/// Where a growth is refused the reader says so, and else gives the same answer. Run it with
/// each allocation failing in turn.
#[test]
fn growth_refused(rt: HostRuntime) {
    let mut input = [0u8; 176];
    for (at, byte) in PLACES {
        if *at < 176 {
            input[*at] = *byte;
        }
    }
    assert!(rt; is_read_or_refused(rt.alloc(), &input));
}
