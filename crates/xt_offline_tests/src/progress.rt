//! What is told of a long input.

use std::alloc::Global;
use std::io::{self, Read};
use std::process::Abort;
use std::test::Fail;
use xt_offline::progress::Watched;

/// Reads a reader of one byte only to its end, and answers how many bytes it gave; other bytes are an error.
fn count_all<R: Read>(alloc: Global, reader: &mut R, byte: u8) -> io::Result<usize> {
    let mut buf = vec![in alloc; 0u8; 262_144]?;
    let mut count = 0usize;
    for _ in 0..u16::MAX {
        let got = reader.read(&mut buf)?;
        if got == 0 {
            return Ok(count);
        }
        if buf[0] != byte || buf[got.min(buf.len()) - 1] != byte {
            return Err(io::Error::from(io::ErrorKind::InvalidData));
        }
        buf[0] = 0;
        count = count.saturating_add(got);
    }
    Err(io::Error::from(io::ErrorKind::TimedOut))
}

/// What is told of the reading of so many bytes, all of which are read.
fn told_of(alloc: Global, count: usize) -> Result<Vec<u8>, Fail> {
    let mut told = Vec::new(alloc);
    let input = io::repeat(7).take(count as u64);
    let read = count_all(alloc, &mut Watched::new(input, Some(&mut told)), 7)?;
    if read != count {
        return Err(Fail::from("another count of bytes"));
    }
    Ok(told)
}

/// Asserts what is told of the reading of so many bytes.
fn tells(rt: &impl Abort, alloc: Global, count: usize, want: &str) -> Result<(), Fail> {
    let told = told_of(alloc, count)?;
    assert_eq!(rt; told.as_slice(), want.as_bytes(), "{count} bytes");
    Ok(())
}

#[test]
fn a_long_input_is_told_of(rt: HostRuntime) -> Result<(), Fail> {
    let alloc = rt.alloc();
    tells(&rt, alloc, 4_194_303, "")?;
    tells(
        &rt,
        alloc,
        5_242_880,
        "xth: 4 MB read\nxth: all 5 MB read\n",
    )
}
