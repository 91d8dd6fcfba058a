//! One mount by hand over devices of which one call fails, each in turn. The script is that of a block that is logged again while its
//! checkpoint is in flight, up to the call that fails.

use crate::drive::{Told, driven, home_lines, log_lines, told_by};
use crate::rows::{FLOWN_AGAIN_IN, FLOWN_AGAIN_OUT};
use std::alloc::{AllocError, Global};
use std::test::Fail;
use xt_base::names::Slot;
use xt_base::steps::Reason;
use xt_dev::fail_at::FailAt;
use xt_dev::mem_home::MemHome;
use xt_dev::mem_log::MemLog;
use xt_mount::mount::Mount;

/// How far the script is taken, and what is told then.
#[derive(Clone, Copy)]
struct Case {
    /// How many lines of the script are taken, and which one behind them.
    lines: usize,
    then: &'static str,
    /// How many of the script's replies are given, and which ones behind them.
    replies: usize,
    told: &'static str,
}

/// The first checkpoint is not written.
const FIRST_FAILS: Case = Case {
    lines: 14,
    then: "0.1 force\n",
    replies: 13,
    told: "0 failed c1\n0 EIO\n",
};

/// The second is not.
const SECOND_FAILS: Case = Case {
    lines: 23,
    then: "0.1 force\n",
    replies: 22,
    told: "0 failed c2\n0 EIO\n",
};

/// The block is not written home.
const FLUSH_FAILS: Case = Case {
    lines: 27,
    then: "0.1 unmount\n",
    replies: 26,
    told: "0 flushed 0\n0 EBUSY\n",
};

/// Which call of the log fails, counted from 0: a piece and a sync of each checkpoint. What is told then, and the active list.
const LOG_CALLS: &[(u32, Case, &[u64])] = &[
    (0, FIRST_FAILS, &[]),
    (1, FIRST_FAILS, &[]),
    (2, SECOND_FAILS, &[7]),
    (3, SECOND_FAILS, &[7]),
];

/// The first lines of a text that are no offers, so many of them, and other lines behind them.
fn first_lines(alloc: Global, text: &str, count: usize, then: &str) -> Result<Vec<u8>, AllocError> {
    let mut lines = Vec::new(alloc);
    let mut left = count;
    for line in text.lines() {
        if left > 0 && told_by(line) == Told::Reply {
            lines.extend_from_slice(line.as_bytes())?;
            lines.push(b'\n')?;
            left -= 1;
        }
    }
    lines.extend_from_slice(then.as_bytes())?;
    Ok(lines)
}

/// The script of a case.
fn script_of(alloc: Global, case: &Case) -> Result<String, Fail> {
    let text = first_lines(alloc, FLOWN_AGAIN_IN, case.lines, case.then)?;
    String::from_utf8(text).map_err(|_| Fail::from("a script of letters"))
}

/// The replies of a case.
fn replies_of(alloc: Global, case: &Case) -> Result<Vec<u8>, AllocError> {
    first_lines(alloc, FLOWN_AGAIN_OUT, case.replies, case.told)
}

/// The first offers of the script to one device, so many of them, where the one at a place is answered by a failure.
fn faulty_offers(
    alloc: Global,
    told: Told,
    count: usize,
    fault: usize,
) -> Result<Vec<u8>, AllocError> {
    let mut lines = Vec::new(alloc);
    let offers = FLOWN_AGAIN_OUT.lines().filter(|line| told_by(line) == told);
    for (place, line) in offers.take(count).enumerate() {
        let offer = line.as_bytes();
        lines.extend_from_slice(&offer[..offer.len().saturating_sub(2)])?;
        let answer = if place == fault { "fail\n" } else { "ok\n" };
        lines.extend_from_slice(answer.as_bytes())?;
    }
    Ok(lines)
}

/// Whether a list, of blocks with the number of a checkpoint each, has just these blocks.
fn are_blocks(list: &[(u64, u64)], blocks: &[u64]) -> bool {
    list.len() == blocks.len()
        && list
            .iter()
            .zip(blocks)
            .all(|(item, block)| item.0 == *block)
}

/// Whether a mount is shut for this reason, or live, and has just these blocks on its active list.
fn is_left(mount: &Mount, shut: Option<Reason>, active: &[u64]) -> Result<bool, Fail> {
    let snapshot = mount.snapshot()?;
    let state = &snapshot;
    let items = &state.items;
    Ok(mount.shut() == shut && are_blocks(&items.ail, active))
}

/// Whether a log that fails the call at a place gives a case's replies and the offers up to it, no other, and leaves a mount that is shut.
fn log_fails(alloc: Global, place: u32, case: &Case, active: &[u64]) -> Result<bool, Fail> {
    let slot = Slot::new(0).ok_or("a slot")?;
    let mut log = FailAt::over_log(alloc, MemLog::new(alloc), u64::from(place) + 1);
    let mut home = MemHome::new(alloc);
    let (mount, replies) = driven(alloc, &script_of(alloc, case)?, &mut log, &mut home)?;
    let offers = log_lines(alloc, slot, log.taken().ok_or("it tells")?)?;
    let wanted = faulty_offers(alloc, Told::Log, place as usize + 1, place as usize)?;
    let is_shut = is_left(&mount, Some(Reason::LogIoError), active)?;
    Ok(is_shut && offers == wanted && replies == replies_of(alloc, case)?)
}

/// Whether a home device that fails the write, which is at place 0, or the sync behind it gets both offers, and the mount stays live with
/// the block on its active list. The read is the call before them.
fn flush_fails(alloc: Global, place: u32) -> Result<bool, Fail> {
    let slot = Slot::new(0).ok_or("a slot")?;
    let mut log = MemLog::new(alloc);
    let mut home = FailAt::over_home(alloc, MemHome::new(alloc), u64::from(place) + 2);
    let script = script_of(alloc, &FLUSH_FAILS)?;
    let (mount, replies) = driven(alloc, &script, &mut log, &mut home)?;
    let offers = home_lines(alloc, slot, home.taken().ok_or("it tells")?)?;
    let wanted = faulty_offers(alloc, Told::Home, 2, place as usize)?;
    let is_live = is_left(&mount, None, &[7])?;
    Ok(is_live && offers == wanted && replies == replies_of(alloc, &FLUSH_FAILS)?)
}

/// The lines of a text, with another one before the one at a place; offers are left out.
fn with_line(alloc: Global, text: &str, place: usize, other: &str) -> Result<String, Fail> {
    let mut lines = String::new(alloc);
    let replies = text.lines().filter(|line| told_by(line) == Told::Reply);
    for (at, line) in replies.enumerate() {
        if at == place {
            lines.push_str(other)?;
        }
        lines.push_str(line)?;
        lines.push('\n')?;
    }
    Ok(lines)
}

/// Whether a read that fails is answered EIO, and, asked again, is as if it had not; at the end nothing is left to write.
fn read_fails(alloc: Global) -> Result<bool, Fail> {
    let slot = Slot::new(0).ok_or("a slot")?;
    let mut log = MemLog::new(alloc);
    let mut home = FailAt::over_home(alloc, MemHome::new(alloc), 1);
    let script = with_line(alloc, FLOWN_AGAIN_IN, 3, "0.1 read t1 7\n")?;
    let wanted = with_line(alloc, FLOWN_AGAIN_OUT, 2, "0 EIO\n")?;
    let (mount, replies) = driven(alloc, &script, &mut log, &mut home)?;
    let offers = home_lines(alloc, slot, home.taken().ok_or("it tells")?)?;
    let is_offered = offers == faulty_offers(alloc, Told::Home, 2, 2)?;
    let is_live = is_left(&mount, None, &[])?;
    Ok(is_offered && is_live && replies.as_slice() == wanted.as_bytes())
}

/// Each piece and each sync of the two checkpoints in turn.
#[test]
fn a_log_that_fails_one_call_shuts_the_mount(rt: HostRuntime) -> Result<(), Fail> {
    for (place, case, active) in LOG_CALLS {
        assert!(rt; log_fails(rt.alloc(), *place, case, active)?);
    }
    Ok(())
}

/// The read, the write and the sync in turn.
#[test]
fn a_home_device_that_fails_one_call_leaves_the_mount_live(rt: HostRuntime) -> Result<(), Fail> {
    assert!(rt; read_fails(rt.alloc())?);
    assert!(rt; flush_fails(rt.alloc(), 0)?);
    assert!(rt; flush_fails(rt.alloc(), 1)?);
    Ok(())
}
