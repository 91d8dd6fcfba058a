//! Sealed logs, as another program wrote them, in which the sum is its own: SipHash-1-3, which the hash of bytes of Python 3.11 was compared with.

ghost use Rattle.std.specs.Prelude.{◌<◌};

use crate::texts::bytes_of;
use std::alloc::Global;
use std::test::*;
use xt_ckpt::Rooms;
use xt_seal::{HEADER_BYTES, Header, SEAL_BYTES, Sealed, judge_sealed};

/// The header of each log.
const HEADER: &str =
    "58434c310000020000400000.00*11.030123456789abcdef.f0e1d2c3b4a59687.766f6c2d61.00*11.c35c45c81098c270";

/// Checkpoint 1, one chunk of block 7, 180 bytes; and its seal behind the header.
pub const TEXT_1: &str =
    "58435032.00*7.0100000001000002.00*8.0700000002.00*6.0102.00*124.5843453200000001.00*7.01";

const SEAL_1: &str = "49f5f1aa68e3e4ad";

/// Checkpoint 2, a cancel of block 7, 52 bytes; and its seal behind the first.
pub const TEXT_2: &str = "58435032.00*7.0200000001000002.00*8.07.00*7.015843453200000001.00*7.02";

const SEAL_2: &str = "43b6b6e55157f76f";

/// How many bytes a log has behind the first text, and behind the second.
const ENDS: [usize; 2] = [HEADER_BYTES + 188, HEADER_BYTES + 248];

fn header() -> Header {
    Header {
        block_size: 512,
        log_bytes: 4_194_304,
        generation: 3,
        salt: 0x0123_4567_89ab_cdef,
        link: [0xf0, 0xe1, 0xd2, 0xc3, 0xb4, 0xa5, 0x96, 0x87],
        name: *b"vol-a\0\0\0\0\0\0\0\0\0\0\0",
    }
}

/// The bytes of these parts, one behind another.
fn joined(alloc: Global, parts: &[&str]) -> Result<Vec<u8>, Fail> {
    let mut bytes = Vec::new(alloc);
    for part in parts {
        bytes.extend_from_slice(&bytes_of(alloc, part)?)?;
    }
    Ok(bytes)
}

/// Whether the header begins the input.
fn has_header(input: &[u8]) -> bool {
    match Header::read(input) {
        Some((found, _)) => found == header(),
        None => false,
    }
}

#[test]
fn header_of_another_program(rt: HostRuntime) -> Result<(), Fail> {
    let golden = joined(rt.alloc(), &[HEADER, "ff"])?;
    let (bytes, _) = header().begin();
    assert!(rt; golden.starts_with(&bytes));
    assert!(rt; has_header(&golden));
    Ok(())
}

/// Whether a header with any one byte changed, or cut short, is no header.
fn is_looked_at(header: &mut [u8]) -> bool {
    for at in 0..header.len() {
        let byte = header[at];
        header[at] = byte ^ 0x10;
        if Header::read(header).is_some() || Header::read(&header[..at]).is_some() {
            return false;
        }
        header[at] = byte;
    }
    true
}

#[test]
fn header_with_a_byte_changed(rt: HostRuntime) -> Result<(), Fail> {
    let mut golden = joined(rt.alloc(), &[HEADER])?;
    assert!(rt; is_looked_at(&mut golden) && has_header(&golden));
    Ok(())
}

/// The seals of both texts, which come in pieces of so many bytes.
fn seals_by(alloc: Global, width: usize) -> Result<Vec<u8>, Fail>
    requires { 0 < width }
{
    let (_, mut sealer) = header().begin();
    let mut seals = Vec::new(alloc);
    for text in [TEXT_1, TEXT_2] {
        let text = bytes_of(alloc, text)?;
        for piece in text.chunks(width) {
            sealer.note(piece);
        }
        seals.extend_from_slice(&sealer.seal())?;
    }
    Ok(seals)
}

#[test]
fn seals_of_another_program(rt: HostRuntime) -> Result<(), Fail> {
    let golden = joined(rt.alloc(), &[SEAL_1, SEAL_2])?;
    for width in [1, 7, 4096] {
        let seals = seals_by(rt.alloc(), width)?;
        assert!(rt; seals.as_slice() == golden.as_slice(), "pieces of {width}");
    }
    Ok(())
}

/// How a log is read.
#[derive(Clone, Copy, Debug, PartialEq, Eq)]
struct Outcome {
    /// How many texts have their seals.
    texts: usize,
    /// How many bytes stand behind them.
    rest: usize,
    /// Whether bytes behind those may make another text.
    may_go_on: bool,
}

impl Outcome {
    fn of(texts: usize, rest: &[u8], may_go_on: bool) -> Self {
        Outcome {
            texts,
            rest: rest.len(),
            may_go_on,
        }
    }
}

fn read_log(alloc: Global, log: &[u8]) -> Result<Outcome, Fail> {
    let (_, mut sealer) = Header::read(log).ok_or("a header")?;
    let mut rooms = Rooms::new(alloc);
    let mut left = log.get(HEADER_BYTES..).ok_or("a header")?;
    for texts in 0..log.len() {
        match judge_sealed(&mut rooms, &mut sealer, left)? {
            Sealed::Text(checkpoint, len) => {
                rooms.give_back(checkpoint);
                let seal = left.get(len..).ok_or("a text")?;
                left = seal.get(SEAL_BYTES..).ok_or("a seal")?;
            }
            Sealed::Nothing => return Ok(Outcome::of(texts, left, false)),
            Sealed::More => return Ok(Outcome::of(texts, left, true)),
        }
    }
    Err("a text without bytes".into())
}

/// What stands behind the header, and how the log is read: its texts, the bytes behind them, and whether those may go on.
const LOGS: &[(&[&str], usize, usize, bool)] = &[
    (&[], 0, 0, true),
    (&[TEXT_1, SEAL_1], 1, 0, true),
    (&[TEXT_1, SEAL_1, TEXT_2, SEAL_2], 2, 0, true),
    // the seal is not all there
    (&[TEXT_1, "49f5f1aa"], 0, 184, true),
    (&[TEXT_1, SEAL_1, TEXT_2, "43b6b6e55157f7"], 1, 59, true),
    // a text without its seal, behind another than it was written behind, and once more
    (&[TEXT_1, TEXT_2, SEAL_2], 0, 240, false),
    (&[TEXT_2, SEAL_2], 0, 60, false),
    (&[TEXT_1, SEAL_1, TEXT_1, SEAL_1], 1, 188, false),
    // zeros, and what may begin a text
    (&[TEXT_1, SEAL_1, "00*512"], 1, 512, false),
    (&[TEXT_1, SEAL_1, "584350"], 1, 3, true),
];

#[test]
fn logs_of_another_program(rt: HostRuntime) -> Result<(), Fail> {
    for (behind, texts, rest, may_go_on) in LOGS {
        let mut log = joined(rt.alloc(), &[HEADER])?;
        log.extend_from_slice(&joined(rt.alloc(), behind)?)?;
        let found = read_log(rt.alloc(), &log)?;
        let wanted = Outcome {
            texts: *texts,
            rest: *rest,
            may_go_on: *may_go_on,
        };
        assert!(rt; found == wanted, "{behind:?}");
    }
    Ok(())
}

/// How many texts a log has of which no byte from a place on is as it was.
fn whole_before(at: usize) -> usize {
    ENDS.iter().filter(|end| **end <= at).count()
}

/// The first place at which the log is cut, or of which a byte is changed, and other texts are read than those before it.
fn first_wrong(alloc: Global, log: &mut [u8]) -> Result<Option<usize>, Fail> {
    for at in HEADER_BYTES..log.len() {
        let cut = read_log(alloc, &log[..at])?;
        let byte = log[at];
        log[at] = byte ^ 0x01;
        let changed = read_log(alloc, log)?;
        log[at] = byte;
        let whole = whole_before(at);
        if cut.texts != whole || changed.texts != whole {
            return Ok(Some(at));
        }
    }
    Ok(None)
}

#[test]
fn cut_or_changed_at_each_byte(rt: HostRuntime) -> Result<(), Fail> {
    let mut log = joined(rt.alloc(), &[HEADER, TEXT_1, SEAL_1, TEXT_2, SEAL_2])?;
    let wrong = first_wrong(rt.alloc(), &mut log)?;
    assert!(rt; wrong.is_none(), "{wrong:?}");
    Ok(())
}
