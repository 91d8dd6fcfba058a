//! One mount driven by hand over devices in memory: what it offers them, and what a run tells of the same script.

use crate::drive::{
    Told, drive, home_lines, lines_of, log_lines, steps_of, told_home_lines, told_log_lines,
};
use crate::rows::{
    FAILED_WRITE_IN, FAILED_WRITE_OUT, FLOWN_AGAIN_IN, FLOWN_AGAIN_OUT, INVALIDATED_IN,
    INVALIDATED_OUT, SMALL_HOME_IN, SMALL_HOME_OUT, STAT_IN, STAT_OUT,
};
use std::alloc::Global;
use std::test::Fail;
use xt_base::names::{Block, Slot};
use xt_base::outcomes::Outcomes;
use xt_base::steps::LogOffer;
use xt_core::HostCore;
use xt_dev::call::HomeCall;
use xt_dev::fail_at::FailAt;
use xt_dev::home::HomeDevice;
use xt_dev::mem_home::MemHome;
use xt_dev::mem_log::MemLog;

/// Whether the replies of a mount and the offers that its devices tell are the lines of an output.
fn are_lines(
    alloc: Global,
    replies: &[u8],
    log: Option<&[LogOffer]>,
    home: Option<&[HomeCall]>,
    want: &str,
) -> Result<bool, Fail> {
    let slot = Slot::new(0).ok_or("a slot")?;
    let (log, home) = (log.ok_or("it tells")?, home.ok_or("it tells")?);
    let is_log = log_lines(alloc, slot, log)? == lines_of(alloc, want, Told::Log)?;
    let is_home = home_lines(alloc, slot, home)? == lines_of(alloc, want, Told::Home)?;
    Ok(is_log && is_home && replies == lines_of(alloc, want, Told::Reply)?.as_slice())
}

/// Whether a call read a block, all of whose bytes, so many, are one.
fn is_read(call: &HomeCall, wanted: Block, byte: u8, size: usize) -> bool {
    match call {
        HomeCall::Read {
            block,
            content: Some(content),
        } => {
            let bytes = content.bytes();
            *block == wanted && bytes.len() == size && bytes.iter().all(|b| *b == byte)
        }
        _ => false,
    }
}

/// Whether the second of two calls of a device, the first of which filled a block with a byte, read this block.
fn is_read_back(calls: Option<&[HomeCall]>, wanted: Block, byte: u8) -> bool {
    match calls {
        Some([_, call]) => is_read(call, wanted, byte, 4096),
        _ => false,
    }
}

#[test]
fn devices_are_offered_no_block_that_was_given_up(rt: HostRuntime) -> Result<(), Fail> {
    let alloc = rt.alloc();
    let (mut log, mut home) = (MemLog::new(alloc), MemHome::new(alloc));
    assert!(rt; home.write(Block(7), &[0x55; 4096]).is_ok());
    let replies = drive(alloc, INVALIDATED_IN, &mut log, &mut home)?;
    assert!(rt; is_read_back(home.taken(), Block(7), 0x55));
    let calls = home.taken().and_then(|calls| calls.get(1..));
    assert!(rt; are_lines(alloc, &replies, log.taken(), calls, INVALIDATED_OUT)?);
    Ok(())
}

#[test]
fn devices_are_offered_each_block_once_its_checkpoints_landed(rt: HostRuntime) -> Result<(), Fail> {
    let alloc = rt.alloc();
    let (mut log, mut home) = (MemLog::new(alloc), MemHome::new(alloc));
    let replies = drive(alloc, FLOWN_AGAIN_IN, &mut log, &mut home)?;
    assert!(rt; are_lines(alloc, &replies, log.taken(), home.taken(), FLOWN_AGAIN_OUT)?);
    Ok(())
}

#[test]
fn devices_of_small_blocks_are_asked_for_so_many_bytes(rt: HostRuntime) -> Result<(), Fail> {
    let alloc = rt.alloc();
    let (mut log, mut home) = (MemLog::new(alloc), MemHome::new(alloc));
    let replies = drive(alloc, SMALL_HOME_IN, &mut log, &mut home)?;
    let read = home.taken().and_then(|calls| calls.first());
    assert!(rt; read.is_some_and(|call| is_read(call, Block(7), 0, 512)));
    assert!(rt; are_lines(alloc, &replies, log.taken(), home.taken(), SMALL_HOME_OUT)?);
    Ok(())
}

#[test]
fn a_mount_tells_of_itself(rt: HostRuntime) -> Result<(), Fail> {
    let alloc = rt.alloc();
    let (mut log, mut home) = (MemLog::new(alloc), MemHome::new(alloc));
    let replies = drive(alloc, STAT_IN, &mut log, &mut home)?;
    assert!(rt; are_lines(alloc, &replies, log.taken(), home.taken(), STAT_OUT)?);
    Ok(())
}

/// Whether what a run tells that slot 0 offered is the lines of an output, and slot 1 offered nothing.
fn are_told(alloc: Global, told: &Outcomes, want: &str) -> Result<bool, Fail> {
    let slot = Slot::new(0).ok_or("a slot")?;
    let other = Slot::new(1).ok_or("a slot")?;
    let is_log = told_log_lines(alloc, slot, told)? == lines_of(alloc, want, Told::Log)?;
    let is_home = told_home_lines(alloc, slot, told)? == lines_of(alloc, want, Told::Home)?;
    Ok(is_log && is_home && told.log_offers(alloc, other)?.is_empty())
}

#[test]
fn a_run_lists_what_a_slot_offered_to_each_device(rt: HostRuntime) -> Result<(), Fail> {
    let alloc = rt.alloc();
    let steps = steps_of(alloc, FLOWN_AGAIN_IN)?;
    let Ok(told) = HostCore::run(alloc, &steps) else {
        return Err(Fail::from("an orderly run"));
    };
    assert!(rt; are_told(alloc, &told, FLOWN_AGAIN_OUT)?);
    Ok(())
}

/// The read is the first call of the home device, and the write of the first flush the second.
#[test]
fn a_device_that_fails_a_write_is_offered_it_again(rt: HostRuntime) -> Result<(), Fail> {
    let alloc = rt.alloc();
    let mut log = MemLog::new(alloc);
    let mut home = FailAt::over_home(alloc, MemHome::new(alloc), 2);
    let replies = drive(alloc, FAILED_WRITE_IN, &mut log, &mut home)?;
    assert!(rt; are_lines(alloc, &replies, log.taken(), home.taken(), FAILED_WRITE_OUT)?);
    Ok(())
}
