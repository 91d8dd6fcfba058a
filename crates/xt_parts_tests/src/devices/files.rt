//! Devices over files, of which no clause can say what they have.

use crate::devices::{AB, ALL_TAKEN, CDE, EMPTY, LogCall, SYNC, Told, home_answers, log_answers};
use bytes::Bytes;
use std::path::{Path, PathBuf};
use std::test::Fail;
use std::{env, fs, process};
use xt_base::names::Block;
use xt_dev::offer::offer;
use xt_dev::{FILE_BLOCKS, FileFault, FileHome, FileLog, HomeDevice, LogDevice};

/// A path of this process where nothing is.
pub fn fresh_path(rt: &HostRuntime, name: &str) -> Result<PathBuf, Fail> {
    let name = format!(in rt.alloc(); "xt-dev-{}-{name}", process::id(rt.process()))?;
    let path = env::temp_dir(rt)?.join(rt.alloc(), name.as_str())?;
    let _ = fs::remove_file(rt, path.as_path());
    Ok(path)
}

/// Whether a log is refused, since its file has something in it.
fn is_not_empty(opened: &Result<FileLog, FileFault>) -> bool {
    matches!(opened, Err(FileFault::NotEmpty))
}

/// Whether a file has just these bytes; it is removed.
pub fn had(rt: &HostRuntime, path: Path<'_>, bytes: &[u8]) -> Result<bool, Fail> {
    let read = fs::read(rt, path)?;
    fs::remove_file(rt, path)?;
    Ok(read.as_slice() == bytes)
}

/// Whether a file is so long; it is removed.
fn was_long(rt: &HostRuntime, path: Path<'_>, len: u64) -> Result<bool, Fail> {
    let found = fs::metadata(rt, path)?.len();
    fs::remove_file(rt, path)?;
    Ok(found == len)
}

#[test]
fn log_in_a_file(rt: HostRuntime) -> Result<(), Fail> {
    const CALLS: &[LogCall] = &[(EMPTY, true), (Some(b"f"), true)];
    let path = fresh_path(&rt, "log")?;
    let mut log = FileLog::open(&rt, path.as_path())?;
    let pieces = [Bytes::from_static(b"ab"), Bytes::from_static(b"cde")];
    assert!(rt; offer(&mut log, &pieces) == ALL_TAKEN && log_answers(&mut log, CALLS));
    assert!(rt; is_not_empty(&FileLog::open(&rt, path.as_path())));
    assert!(rt; had(&rt, path.as_path(), b"abcdef")?);
    Ok(())
}

#[test]
fn empty_log_is_opened_again(rt: HostRuntime) -> Result<(), Fail> {
    const CALLS: &[LogCall] = &[(Some(b"x"), true), (SYNC, true)];
    let path = fresh_path(&rt, "empty")?;
    drop(FileLog::open(&rt, path.as_path())?);
    let mut log = FileLog::open(&rt, path.as_path())?;
    assert!(rt; log_answers(&mut log, CALLS) && had(&rt, path.as_path(), b"x")?);
    Ok(())
}

/// Whether a file has just these bytes.
pub fn has(rt: &HostRuntime, path: Path<'_>, bytes: &[u8]) -> Result<bool, Fail> {
    Ok(fs::read(rt, path)?.as_slice() == bytes)
}

#[test]
fn cut_empties_a_log_of_more_than_four_sizes(rt: HostRuntime) -> Result<(), Fail> {
    const BEFORE: &[LogCall] = &[(CDE, true), (CDE, true), (AB, true), (SYNC, true)];
    const ONE_MORE: &[LogCall] = &[(Some(b"x"), true), (SYNC, true)];
    const BEHIND: &[LogCall] = &[(AB, true), (SYNC, true)];
    let path = fresh_path(&rt, "cut")?;
    let mut log = FileLog::open(&rt, path.as_path())?.emptied_by_cuts();
    assert!(rt; log_answers(&mut log, BEFORE));
    log.cut(2);
    assert!(rt; has(&rt, path.as_path(), b"cdecdeab")? && log_answers(&mut log, ONE_MORE));
    log.cut(2);
    assert!(rt; has(&rt, path.as_path(), b"")? && log_answers(&mut log, BEHIND));
    assert!(rt; log.bytes() == 2 && had(&rt, path.as_path(), b"ab")?);
    Ok(())
}

#[test]
fn cut_is_left_undone_where_it_is_not_asked_for(rt: HostRuntime) -> Result<(), Fail> {
    const CALLS: &[LogCall] = &[(CDE, true), (SYNC, true)];
    let path = fresh_path(&rt, "uncut")?;
    let mut log = FileLog::open(&rt, path.as_path())?;
    assert!(rt; log_answers(&mut log, CALLS));
    log.cut(0);
    assert!(rt; had(&rt, path.as_path(), b"cde")?);
    Ok(())
}

#[test]
fn barrier_holds_back_sixteen_bytes(rt: HostRuntime) -> Result<(), Fail> {
    const PIECES: &[LogCall] = &[
        (Some(b"0123456789abcdef"), true),
        (Some(b"gh"), true),
        (Some(b"0123456789abcdefghi"), true),
    ];
    const SYNCED: &[LogCall] = &[(SYNC, true), (AB, true)];
    const AGAIN: &[LogCall] = &[(SYNC, true), (SYNC, true)];
    let path = fresh_path(&rt, "barrier")?;
    let mut log = FileLog::open(&rt, path.as_path())?.with_barrier();
    assert!(rt; log_answers(&mut log, PIECES));
    assert!(rt;
        has(&rt, path.as_path(), b"0123456789abcdefgh012")? && log_answers(&mut log, SYNCED)
    );
    assert!(rt;
        has(
            &rt,
            path.as_path(),
            b"0123456789abcdefgh0123456789abcdefghi"
        )?
    );
    assert!(rt; log_answers(&mut log, AGAIN));
    assert!(rt;
        had(
            &rt,
            path.as_path(),
            b"0123456789abcdefgh0123456789abcdefghiab"
        )?
    );
    Ok(())
}

#[test]
fn home_in_a_file(rt: HostRuntime) -> Result<(), Fail> {
    const CALLS: &[Told] = &[
        Told::Read(3, Some(0)),
        Told::Write(2, Some(7), true),
        Told::Sync(true),
        Told::Read(1, Some(0)),
        Told::Read(2, Some(7)),
        Told::Read(3, Some(0)),
    ];
    const AGAIN: &[Told] = &[Told::Read(2, Some(7))];
    let path = fresh_path(&rt, "home")?;
    let mut home = FileHome::open(&rt, rt.alloc(), path.as_path())?;
    assert!(rt; home_answers(&mut home, CALLS));
    drop(home);
    let mut again = FileHome::open(&rt, rt.alloc(), path.as_path())?;
    assert!(rt; home_answers(&mut again, AGAIN) && was_long(&rt, path.as_path(), 12_288)?);
    Ok(())
}

/// Small block 9 stands in block 1, of 4,096 bytes, where these have their second 512.
#[test]
fn small_blocks_in_a_file(rt: HostRuntime) -> Result<(), Fail> {
    const CALLS: &[Told] = &[
        Told::SmallWrite(9, Some(7), true),
        Told::Sync(true),
        Told::SmallRead(8, Some(0)),
        Told::SmallRead(9, Some(7)),
        Told::SmallRead(10, Some(0)),
        Told::Read(0, Some(0)),
        Told::Read(1, None),
        Told::Write(1, Some(5), true),
        Told::SmallRead(8, Some(5)),
        Told::SmallRead(15, Some(5)),
        Told::SmallRead(16, Some(0)),
    ];
    let path = fresh_path(&rt, "small")?;
    let mut home = FileHome::open(&rt, rt.alloc(), path.as_path())?;
    assert!(rt; home_answers(&mut home, CALLS) && was_long(&rt, path.as_path(), 8_192)?);
    Ok(())
}

/// Whether the first half of a block is all 9, and the other all 0.
fn is_half(content: &[u8; 4096]) -> bool {
    for (place, byte) in content.iter().enumerate() {
        if *byte != if place < 2048 { 9 } else { 0 } {
            return false;
        }
    }
    true
}

#[test]
fn half_a_block_is_read_with_zeros(rt: HostRuntime) -> Result<(), Fail> {
    let path = fresh_path(&rt, "half")?;
    fs::write(&rt, path.as_path(), [9u8; 6144].as_slice())?;
    let mut home = FileHome::open(&rt, rt.alloc(), path.as_path())?;
    let mut content = [0xff; 4096];
    assert!(rt; home.read(Block(1), &mut content).is_ok() && is_half(&content));
    fs::remove_file(&rt, path.as_path())?;
    Ok(())
}

#[test]
fn blocks_that_no_file_has(rt: HostRuntime) -> Result<(), Fail> {
    const CALLS: &[Told] = &[
        Told::Read(FILE_BLOCKS - 1, Some(0)),
        Told::Unread(FILE_BLOCKS),
        Told::Unread(u64::MAX),
        Told::Write(FILE_BLOCKS, Some(7), false),
        Told::Write(FILE_BLOCKS * 2, Some(7), false),
    ];
    let path = fresh_path(&rt, "great")?;
    let mut home = FileHome::open(&rt, rt.alloc(), path.as_path())?;
    assert!(rt; home_answers(&mut home, CALLS) && was_long(&rt, path.as_path(), 0)?);
    Ok(())
}

/// Whether neither device is opened over this path.
fn are_refused(rt: &HostRuntime, path: Path<'_>) -> bool {
    matches!(FileLog::open(rt, path), Err(FileFault::Io(_)))
        && matches!(FileHome::open(rt, rt.alloc(), path), Err(FileFault::Io(_)))
}

#[test]
fn folder_is_refused(rt: HostRuntime) -> Result<(), Fail> {
    let path = fresh_path(&rt, "folder")?;
    let _ = fs::remove_dir(&rt, path.as_path());
    fs::create_dir(&rt, path.as_path())?;
    assert!(rt; are_refused(&rt, path.as_path()));
    fs::remove_dir(&rt, path.as_path())?;
    assert!(rt;
        matches!(
            FileLog::open(&rt, "/xt-dev-none/log"),
            Err(FileFault::Io(_))
        )
    );
    Ok(())
}

/// A file that takes no byte, and reads as zeros.
const FULL: &str = "/dev/full";

#[test]
fn full_file_fails(rt: HostRuntime) -> Result<(), Fail> {
    const LOG: &[LogCall] = &[(AB, false), (AB, false), (SYNC, false)];
    const HOME: &[Told] = &[
        Told::Write(7, Some(7), false),
        Told::Read(7, Some(0)),
        Told::Sync(false),
        Told::Unread(7),
        Told::Read(8, Some(0)),
    ];
    let mut log = FileLog::open(&rt, FULL)?;
    assert!(rt; log_answers(&mut log, LOG));
    let mut home = FileHome::open(&rt, rt.alloc(), FULL)?;
    assert!(rt; home_answers(&mut home, HOME));
    Ok(())
}

/// What was written before a sync that failed is in doubt for blocks of each size that lie there.
#[test]
fn doubts_of_another_size(rt: HostRuntime) -> Result<(), Fail> {
    const HOME: &[Told] = &[
        Told::Write(1, Some(7), false),
        Told::SmallWrite(17, Some(7), false),
        Told::Sync(false),
        Told::SmallRead(7, Some(0)),
        Told::SmallUnread(8),
        Told::SmallUnread(15),
        Told::SmallRead(16, Some(0)),
        Told::SmallUnread(17),
        Told::Unread(2),
        Told::Read(3, Some(0)),
    ];
    let mut home = FileHome::open(&rt, rt.alloc(), FULL)?;
    assert!(rt; home_answers(&mut home, HOME));
    Ok(())
}

/// What was written before syncs that fail is counted by the sectors that there are, however often it is written: blocks 1 and 3 of 4,096 bytes have
/// sectors 8 to 15 and 24 to 31, and of blocks of 512 bytes number 17 is one more, and number 9 lies in block 1.
#[test]
fn doubts_do_not_grow(rt: HostRuntime) -> Result<(), Fail> {
    const HOME: &[Told] = &[
        Told::Write(1, Some(7), false),
        Told::Write(3, Some(7), false),
        Told::Write(1, Some(9), false),
        Told::SmallWrite(17, Some(7), false),
        Told::SmallWrite(9, Some(7), false),
        Told::Sync(false),
    ];
    let mut home = FileHome::open(&rt, rt.alloc(), FULL)?;
    assert!(rt; home.sectors_in_doubt() == 0);
    for _failed in 0..100 {
        assert!(rt; home_answers(&mut home, HOME) && home.sectors_in_doubt() == 17);
    }
    Ok(())
}
