//! Logs, and what is printed of their checkpoints.

use std::alloc::Global;
use std::process::Abort;
use std::test::Fail;
use xt_offline::{LOG_BYTES, Source, dump};

/// `XCP1`, then the number 1 and one item: its block is 7.
const FRONT: &[u8] = b"XCP1\0\0\0\0\0\0\0\x01\0\0\0\x01\0\0\0\0\0\0\0\x07";

/// `XCE1`, then the count and the number again.
const END: &[u8] = b"XCE1\0\0\0\x01\0\0\0\0\0\0\0\x01";

/// The text of checkpoint 1: all of block 7, each byte 0xaa.
fn whole_block(alloc: Global) -> Result<Vec<u8>, Fail> {
    let mut log = Vec::from_slice(alloc, FRONT)?;
    log.extend_from_slice(b"\xff\xff\xff\xff\0\0\0\0")?;
    log.extend_from_slice(&[0xaa; 4096])?;
    log.extend_from_slice(END)?;
    Ok(log)
}

/// The text of checkpoint 1: chunk 1 of block 7.
fn one_chunk(alloc: Global) -> Result<Vec<u8>, Fail> {
    let mut log = Vec::from_slice(alloc, FRONT)?;
    log.extend_from_slice(b"\0\0\0\x02\0\0\0\0\0\0\x01\x02")?;
    log.extend_from_slice(&[0; 124])?;
    log.extend_from_slice(END)?;
    Ok(log)
}

/// Asserts what is printed of a log, and the status.
fn prints(rt: &impl Abort, alloc: Global, log: &[u8], want: &str, status: u8) {
    let mut reader = log;
    let mut out = Vec::new(alloc);
    let mut err = Vec::new(alloc);
    let source = Source {
        name: "log",
        limit: LOG_BYTES,
    };
    let ended = dump(alloc, source, &mut reader, &mut out, &mut err);
    assert_eq!(rt; out.as_slice(), want.as_bytes());
    assert!(rt; ended == status && err.is_empty());
}

#[test]
fn checkpoints_of_a_log(rt: HostRuntime) -> Result<(), Fail> {
    let alloc = rt.alloc();
    prints(&rt, alloc, b"", "", 0);
    let mut log = whole_block(alloc)?;
    prints(&rt, alloc, &log, "c1 1\n7 ffffffff data aa*4096\n", 0);
    log.extend_from_slice(b"XCP1\0")?;
    prints(
        &rt,
        alloc,
        &log,
        "c1 1\n7 ffffffff data aa*4096\nrest 5\n",
        0,
    );
    log.truncate(4144);
    log.extend_from_slice(&[0xff; 4])?;
    prints(
        &rt,
        alloc,
        &log,
        "c1 1\n7 ffffffff data aa*4096\nfault 4144\n",
        3,
    );
    let chunk = one_chunk(alloc)?;
    prints(
        &rt,
        alloc,
        &chunk,
        "c1 1\n7 00000002 data 00000102.00*124\n",
        0,
    );
    Ok(())
}

#[test]
fn cancel_and_two_texts(rt: HostRuntime) -> Result<(), Fail> {
    let alloc = rt.alloc();
    let mut log = Vec::from_slice(alloc, FRONT)?;
    log.extend_from_slice(b"\0\0\0\0\0\0\0\x01")?;
    log.extend_from_slice(END)?;
    let chunk = one_chunk(alloc)?;
    log.extend_from_slice(&chunk)?;
    prints(
        &rt,
        alloc,
        &log,
        "c1 1\n7 00000000 cancel -\nc1 1\n7 00000002 data 00000102.00*124\n",
        0,
    );
    Ok(())
}

#[test]
fn cut_after_each_byte(rt: HostRuntime) -> Result<(), Fail> {
    let alloc = rt.alloc();
    let log = one_chunk(alloc)?;
    for len in 1..log.len() {
        let want = format!(in alloc; "rest {len}\n")?;
        prints(&rt, alloc, &log[..len], &want, 0);
    }
    Ok(())
}
