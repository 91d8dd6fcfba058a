//! Logs in two files, as they are gathered, laid over a home device and emptied.

use crate::seals::{TEXT_1, TEXT_2};
use crate::texts::bytes_of;
use std::alloc::Global;
use std::io;
use std::test::*;
use xt_dev::mem_home::MemHome;
use xt_recover::command::{Asked, Emptied, run_files};
use xt_recover::files::{Files, Wanted};
use xt_recover::gather::LogFault;
use xt_recover::gather_files::gather_files;
use xt_seal::Header;
use xt_window::way::Which;

/// A text that says no size: a cancel of block 7.
const UNSIZED: &str = "58435031.00*7.0300000001.00*7.07.00*7.015843453100000001.00*7.03";

/// A header of the life that these tests are of.
fn header(generation: u64, link: [u8; 8]) -> Header {
    Header {
        block_size: 512,
        log_bytes: 4_194_304,
        generation,
        salt: 0x0123_4567_89ab_cdef,
        link,
        name: *b"vol-a\0\0\0\0\0\0\0\0\0\0\0",
    }
}

/// The bytes of a file: its header, texts with their seals, and what stands behind them; and the last seal.
fn file_of(
    alloc: Global,
    header: &Header,
    texts: &[&str],
    tail: &str,
) -> Result<(Vec<u8>, [u8; 8]), Fail> {
    let (begun, mut sealer) = header.begin();
    let mut last = [0; 8];
    last.copy_from_slice(&begun[56..]);
    let mut bytes = Vec::new(alloc);
    bytes.extend_from_slice(&begun)?;
    for text in texts {
        let text = bytes_of(alloc, text)?;
        sealer.note(&text);
        last = sealer.seal();
        bytes.extend_from_slice(&text)?;
        bytes.extend_from_slice(&last)?;
    }
    bytes.extend_from_slice(&bytes_of(alloc, tail)?)?;
    Ok((bytes, last))
}

/// Two files of a life, with these texts, the second of which goes on where the first ends; and what stands behind each.
fn linked(
    alloc: Global,
    older: &[&str],
    junk: &str,
    newer: &[&str],
    tail: &str,
) -> Result<(Vec<u8>, Vec<u8>), Fail> {
    let (first, link) = file_of(alloc, &header(3, [0; 8]), older, junk)?;
    let (second, _) = file_of(alloc, &header(4, link), newer, tail)?;
    Ok((first, second))
}

/// Changes these bits of a byte.
fn flip(bytes: &mut [u8], at: usize, bits: u8) {
    if at < bytes.len() {
        bytes[at] ^= bits;
    }
}

/// How two files are gathered: how many texts, how many bytes behind them, and which file is older.
fn gathered(
    alloc: Global,
    one: &[u8],
    other: &[u8],
    wanted: Option<Wanted>,
) -> Result<(u64, u64, Which), LogFault> {
    let mut files = Files { one, other };
    let found = gather_files(alloc, &mut files, wanted)?;
    let counts = found.gathered.counts;
    Ok((counts.texts, counts.rest, found.older))
}

/// Whether two files are gathered so, in either order: the first one given is the older.
fn is_read(alloc: Global, older: &[u8], newer: &[u8], texts: u64, rest: u64) -> bool {
    gathered(alloc, older, newer, None) == Ok((texts, rest, Which::One))
        && gathered(alloc, newer, older, None) == Ok((texts, rest, Which::Other))
}

#[test]
fn linked_files(rt: HostRuntime) -> Result<(), Fail> {
    let (older, newer) = linked(rt.alloc(), &[TEXT_1], "", &[TEXT_2], "")?;
    assert!(rt; is_read(rt.alloc(), &older, &newer, 2, 0));
    let (older, newer) = linked(rt.alloc(), &[TEXT_1, TEXT_2], "00*70", &[], "ff*512")?;
    assert!(rt; is_read(rt.alloc(), &older, &newer, 2, 512));
    Ok(())
}

#[test]
fn one_file_or_none(rt: HostRuntime) -> Result<(), Fail> {
    let alloc = rt.alloc();
    let (file, _) = file_of(alloc, &header(1, [0; 8]), &[TEXT_1, TEXT_2], "58435032")?;
    for len in [0, 63, 64] {
        assert!(rt;
            is_read(alloc, &[0x58; 64][..len], &file, 2, 4),
            "beside {len}"
        );
        assert!(rt;
            gathered(alloc, &[0; 64][..len], &[0xff; 64], None) == Ok((0, 0, Which::Other))
        );
    }
    assert!(rt; gathered(alloc, &[0; 65], &file, None) == Err(LogFault::Strange));
    assert!(rt; gathered(alloc, &file, &[0; 65], None) == Err(LogFault::Strange));
    assert!(rt; gathered(alloc, &[0; 65], &[], None) == Err(LogFault::Strange));
    Ok(())
}

#[test]
fn bare_logs(rt: HostRuntime) -> Result<(), Fail> {
    let alloc = rt.alloc();
    let bare = bytes_of(alloc, TEXT_1)?;
    assert!(rt; gathered(alloc, &bare, &[], None) == Ok((1, 0, Which::Other)));
    assert!(rt; gathered(alloc, &bare, &[0], None) == Err(LogFault::Strange));
    let mut broken = bytes_of(alloc, TEXT_1)?;
    flip(&mut broken, 15, 64);
    assert!(rt; gathered(alloc, &broken, &[], None) == Err(LogFault::Broken(12)));
    let mut cut = bare;
    cut.truncate(99);
    assert!(rt; gathered(alloc, &cut, &[], None) == Ok((0, 99, Which::Other)));
    Ok(())
}

/// What the tests below find rotten: two files, and where.
fn rots(alloc: Global, one: &[u8], other: &[u8], which: Which, at: u64) -> bool {
    gathered(alloc, one, other, None) == Err(LogFault::Rotten(which, at))
}

#[test]
fn rotten_middles(rt: HostRuntime) -> Result<(), Fail> {
    let alloc = rt.alloc();
    let (_, mut newer) = linked(alloc, &[], "", &[TEXT_1, TEXT_2], "")?;
    for at in 64..244 {
        flip(&mut newer, at, 1);
        assert!(rt; rots(alloc, &[], &newer, Which::Other, 64), "at {at}");
        flip(&mut newer, at, 1);
    }
    // Rot of the seal before the last text leaves no later one to trust.
    flip(&mut newer, 250, 1);
    assert!(rt; gathered(alloc, &newer, &[], None) == Ok((0, 248, Which::Other)));
    Ok(())
}

#[test]
fn longest_torn_end(rt: HostRuntime) -> Result<(), Fail> {
    let alloc = rt.alloc();
    let (mut file, _) = file_of(alloc, &header(1, [0; 8]), &[TEXT_1], "00*263212")?;
    assert!(rt; gathered(alloc, &file, &[], None) == Ok((1, 263_212, Which::Other)));
    file.push(0)?;
    assert!(rt; rots(alloc, &file, &[], Which::One, 252));
    Ok(())
}

#[test]
fn links_that_are_not_met(rt: HostRuntime) -> Result<(), Fail> {
    let alloc = rt.alloc();
    let (mut older, newer) = linked(alloc, &[TEXT_1, TEXT_2], "", &[TEXT_1], "")?;
    older.truncate(311);
    assert!(rt; rots(alloc, &older, &newer, Which::One, 252));
    assert!(rt; rots(alloc, &newer, &older, Which::Other, 252));
    // A text behind the seal that is named.
    let (long, _) = file_of(alloc, &header(3, [0; 8]), &[TEXT_1, TEXT_2], "")?;
    let (_, newer) = linked(alloc, &[TEXT_1], "", &[TEXT_2], "")?;
    assert!(rt; rots(alloc, &long, &newer, Which::One, 312));
    Ok(())
}

#[test]
fn headers_that_are_not_next(rt: HostRuntime) -> Result<(), Fail> {
    let alloc = rt.alloc();
    let (older, link) = file_of(alloc, &header(3, [0; 8]), &[TEXT_1], "")?;
    let next = header(4, link);
    for wrong in [
        Header {
            generation: 5,
            ..next
        },
        Header {
            generation: 3,
            ..next
        },
        Header { salt: 1, ..next },
        Header {
            block_size: 1024,
            ..next
        },
        Header {
            log_bytes: 1,
            ..next
        },
        Header {
            name: [0; 16],
            ..next
        },
    ] {
        let (newer, _) = file_of(alloc, &wrong, &[], "00")?;
        assert!(rt;
            gathered(alloc, &older, &newer, None) == Err(LogFault::Strange),
            "{wrong:?}"
        );
        // With nothing behind it a header is none: an emptied file may have got it back.
        let (alone, _) = file_of(alloc, &wrong, &[], "")?;
        assert!(rt; gathered(alloc, &older, &alone, None) == Ok((1, 0, Which::Other)));
    }
    Ok(())
}

#[test]
fn text_of_another_size(rt: HostRuntime) -> Result<(), Fail> {
    let alloc = rt.alloc();
    let (older, newer) = linked(alloc, &[TEXT_1], "", &[UNSIZED], "")?;
    assert!(rt; rots(alloc, &older, &newer, Which::Other, 64));
    let (file, _) = file_of(alloc, &header(1, [0; 8]), &[TEXT_1, UNSIZED], "")?;
    assert!(rt; rots(alloc, &file, &[], Which::One, 252));
    Ok(())
}

#[test]
fn log_of_another_volume(rt: HostRuntime) -> Result<(), Fail> {
    let alloc = rt.alloc();
    let (older, newer) = linked(alloc, &[TEXT_1], "", &[TEXT_2], "")?;
    let found = header(4, [0; 8]);
    let name = found.name;
    let wanted = Wanted {
        name,
        block_size: None,
        log_bytes: Some(found.log_bytes),
    };
    assert!(rt; gathered(alloc, &older, &newer, Some(wanted)).is_ok());
    for wrong in [
        Wanted {
            name: [0; 16],
            ..wanted
        },
        Wanted {
            block_size: Some(1024),
            ..wanted
        },
        Wanted {
            log_bytes: Some(1),
            ..wanted
        },
    ] {
        let foreign = matches!(
            gathered(alloc, &older, &newer, Some(wrong)),
            Err(LogFault::Foreign(_))
        );
        assert!(rt; foreign, "{wrong:?}");
    }
    Ok(())
}

/// A file that notes whether it was emptied, unless it can't be.
#[derive(Drop)]
struct Noted {
    fails: bool,
    is_emptied: bool,
}

impl Noted {
    fn new(fails: bool) -> Self {
        Noted {
            fails,
            is_emptied: false,
        }
    }
}

impl Emptied for Noted {
    ghost is_emptied = { λ file. file.is_emptied };

    fn empty(&mut self) -> io::Result<()> {
        if self.fails {
            return Err(io::Error::from(io::ErrorKind::Other));
        }
        self.is_emptied = true;
        Ok(())
    }
}

/// What a recovery of two files prints, its status, and which files it empties; the first or the second may refuse that.
fn ran(
    alloc: Global,
    one: &[u8],
    other: &[u8],
    fails: [bool; 2],
    wanted: Option<Wanted>,
) -> Result<(String, u8, [bool; 2]), Fail> {
    let mut readers = Files { one, other };
    let mut home = MemHome::new(alloc);
    let mut logs = Files {
        one: Noted::new(fails[0]),
        other: Noted::new(fails[1]),
    };
    let asked = Asked {
        wanted,
        is_cut: true,
    };
    let (mut out, mut err) = (Vec::new(alloc), Vec::new(alloc));
    let status = run_files(
        alloc,
        &mut readers,
        &mut home,
        &mut logs,
        asked,
        &mut out,
        &mut err,
    );
    out.extend_from_slice(&err)?;
    let emptied = [logs.one.is_emptied, logs.other.is_emptied];
    Ok((String::from_utf8(out)?, status, emptied))
}

#[test]
fn recovered_and_emptied(rt: HostRuntime) -> Result<(), Fail> {
    let alloc = rt.alloc();
    let (older, newer) = linked(alloc, &[TEXT_1], "", &[TEXT_1], "ff*3")?;
    let (told, status, emptied) = ran(alloc, &older, &newer, [false; 2], None)?;
    assert_eq!(rt; told.as_str(), "recovered 2 texts 1 blocks\nrest 3\n");
    assert!(rt; status == 0 && emptied == [true; 2]);
    Ok(())
}

/// The newer file is not emptied where the older one can't be, and the other way round it is.
#[test]
fn older_file_is_emptied_first(rt: HostRuntime) -> Result<(), Fail> {
    let alloc = rt.alloc();
    let (older, newer) = linked(alloc, &[TEXT_1], "", &[TEXT_1], "")?;
    let (_, status, emptied) = ran(alloc, &older, &newer, [true, false], None)?;
    assert!(rt; status == 1 && emptied == [false; 2]);
    let (_, status, emptied) = ran(alloc, &newer, &older, [true, false], None)?;
    assert!(rt; status == 1 && emptied == [false, true]);
    Ok(())
}

#[test]
fn faults_are_told(rt: HostRuntime) -> Result<(), Fail> {
    let alloc = rt.alloc();
    let (mut older, newer) = linked(alloc, &[TEXT_1], "", &[TEXT_1], "")?;
    let wanted = Wanted {
        name: *b"vol-b\0\0\0\0\0\0\0\0\0\0\0",
        block_size: None,
        log_bytes: None,
    };
    let (told, status, emptied) = ran(alloc, &older, &newer, [false; 2], Some(wanted))?;
    assert_eq!(rt;
        told.as_str(),
        "fault: the log of 'vol-a', not of 'vol-b'\n"
    );
    assert!(rt; status == 1 && emptied == [false; 2]);
    older.truncate(251);
    let (told, status, emptied) = ran(alloc, &older, &newer, [false; 2], None)?;
    assert!(rt; told.as_str() == "fault 64\n" && status == 3 && emptied == [false; 2]);
    let (told, status, _) = ran(alloc, &newer, &newer, [false; 2], None)?;
    assert!(rt; told.as_str() == "fault 0\n" && status == 3);
    Ok(())
}
