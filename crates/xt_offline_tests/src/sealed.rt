//! Sealed logs in one file and in two, and what is printed of their checkpoints; and the names of volumes in their headers.

use std::alloc::Global;
use std::process::Abort;
use std::test::Fail;
use xt_offline::{Dumped, LOG_BYTES, Source, Which, dump, dump_files};
use xt_seal::Header;
use xt_volumes::header_name;

/// What is printed of `cancel` by its number.
const LINES: &[&str] = &[
    "",
    "c1 1\n7 00000000 cancel -\n",
    "c2 1\n7 00000000 cancel -\n",
    "c3 1\n7 00000000 cancel -\n",
];

/// The log that is printed.
const SOURCE: Source = Source {
    name: "log",
    limit: LOG_BYTES,
};

/// The text of a checkpoint of this number, a cancel of block 7: 48 bytes.
fn cancel(alloc: Global, number: u8) -> Result<Vec<u8>, Fail> {
    let mut text = Vec::from_slice(alloc, b"XCP1\0\0\0\0\0\0\0")?;
    text.push(number)?;
    text.extend_from_slice(b"\0\0\0\x01\0\0\0\0\0\0\0\x07\0\0\0\0\0\0\0\x01XCE1\0\0\0\x01")?;
    text.extend_from_slice(b"\0\0\0\0\0\0\0")?;
    text.push(number)?;
    Ok(text)
}

/// A header of one life.
fn header(generation: u64, link: [u8; 8]) -> Header {
    Header {
        block_size: 4096,
        log_bytes: 65_536,
        generation,
        salt: 7,
        link,
        name: header_name("folder/vol-a"),
    }
}

/// A file with this header, and the texts of these numbers; and its last seal.
fn file_of(alloc: Global, header: Header, numbers: &[u8]) -> Result<(Vec<u8>, [u8; 8]), Fail> {
    let (begun, mut sealer) = header.begin();
    let mut file = Vec::from_slice(alloc, &begun)?;
    let mut last = [0; 8];
    for number in numbers {
        let text = cancel(alloc, *number)?;
        sealer.note(&text);
        last = sealer.seal();
        file.extend_from_slice(&text)?;
        file.extend_from_slice(&last)?;
    }
    Ok((file, last))
}

/// Asserts what is printed of a log in two files, and how that ends.
fn prints<'x>(
    rt: &impl Abort,
    alloc: Global,
    one: &'x [u8],
    other: &'x [u8],
    want: &str,
    status: u8,
    which: Which,
) {
    let (mut first, mut second) = (one, other);
    let mut out = Vec::new(alloc);
    let mut err = Vec::new(alloc);
    let ended = dump_files(alloc, SOURCE, &mut first, &mut second, &mut out, &mut err);
    assert_eq!(rt; out.as_slice(), want.as_bytes());
    assert!(rt; ended == Dumped { status, which } && err.is_empty());
}

#[test]
fn two_files_in_either_order(rt: HostRuntime) -> Result<(), Fail> {
    let alloc = rt.alloc();
    let (older, link) = file_of(alloc, header(1, [0; 8]), &[1, 2])?;
    let (mut newer, _) = file_of(alloc, header(2, link), &[3])?;
    newer.extend_from_slice(b"XCP1\0")?;
    let want = format!(in alloc; "{}{}{}rest 5\n", LINES[1], LINES[2], LINES[3])?;
    prints(&rt, alloc, &older, &newer, &want, 0, Which::Other);
    prints(&rt, alloc, &newer, &older, &want, 0, Which::One);
    Ok(())
}

#[test]
fn one_file_beside_no_text(rt: HostRuntime) -> Result<(), Fail> {
    let alloc = rt.alloc();
    let (file, _) = file_of(alloc, header(1, [0; 8]), &[1])?;
    prints(&rt, alloc, &file, b"", LINES[1], 0, Which::One);
    prints(&rt, alloc, &[88; 64], &file, LINES[1], 0, Which::Other);
    prints(&rt, alloc, &file, &[88; 65], "fault 0\n", 3, Which::One);
    let mut cut = file;
    cut.truncate(63);
    prints(&rt, alloc, &cut, b"", "", 0, Which::One);
    let bare = cancel(alloc, 2)?;
    prints(&rt, alloc, &bare, b"", LINES[2], 0, Which::One);
    Ok(())
}

#[test]
fn files_that_are_at_fault(rt: HostRuntime) -> Result<(), Fail> {
    let alloc = rt.alloc();
    let (older, link) = file_of(alloc, header(1, [0; 8]), &[1])?;
    let (newer, _) = file_of(alloc, header(2, [9; 8]), &[2])?;
    let want = format!(in alloc; "{}fault 120\n", LINES[1])?;
    prints(&rt, alloc, &older, &newer, &want, 3, Which::One);
    let (later, _) = file_of(alloc, header(3, link), &[2])?;
    prints(&rt, alloc, &older, &later, "fault 0\n", 3, Which::One);
    let (mut rotten, _) = file_of(alloc, header(1, [0; 8]), &[1, 2, 3])?;
    if rotten.len() > 130 {
        rotten[130] ^= 1;
    }
    prints(&rt, alloc, b"", &rotten, &want, 3, Which::Other);
    Ok(())
}

#[test]
fn file_given_alone(rt: HostRuntime) -> Result<(), Fail> {
    let alloc = rt.alloc();
    let (file, _) = file_of(alloc, header(4, [5; 8]), &[1, 2])?;
    let mut reader = file.as_slice();
    let (mut out, mut err) = (Vec::new(alloc), Vec::new(alloc));
    let status = dump(alloc, SOURCE, &mut reader, &mut out, &mut err);
    let want = format!(in alloc; "{}{}", LINES[1], LINES[2])?;
    assert_eq!(rt; out.as_slice(), want.as_bytes());
    assert!(rt; status == 0 && err.is_empty());
    Ok(())
}

#[test]
fn names_in_headers(rt: HostRuntime) -> Result<(), Fail> {
    assert!(rt; header_name("a.home") == *b"a.home\0\0\0\0\0\0\0\0\0\0");
    assert!(rt; header_name("/vols/a/a-long-name.home") == *b"a-long-name.home");
    assert!(rt; header_name("..") == [0; 16]);
    // Its sum was made by another program.
    let long = *b"a-longer\x40\x60\x40\xc4\x65\x59\xd3\x79";
    assert!(rt; header_name("a/a-longer-name.home") == long);
    Ok(())
}
