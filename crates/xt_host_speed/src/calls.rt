//! What one call costs while other transactions are open and blocks are busy.

ghost use Rattle.std.specs.Prelude.{◌≡◌};
ghost use Rattle.std.specs.Arc.{arc_value};

use crate::client::{Change, Client, block_of, commit, refused, transact, write_out};
use crate::workplace::Workplace;
use anyhow::Result;
use std::alloc::Global;
use std::sync::Wait;
use std::time::{Clock, Duration, Instant};
use xt_base::content::Data;
use xt_base::names::TransNo;
use xt_base::steps::{Errno, Reply, Request};
use xt_cell::house::House;
use xt_cell::mount_ref::MountRef;
use xt_cell::seat::HostSeat;
use xt_host::desk::Desk;
use xt_host::host::Host;
use xt_host::tokens::Trans;

/// The log bytes of the leg whose calls are measured: one block that is written whole.
const UNIT: u32 = 4_144;

/// After how many turns a seat forgets its receipts.
const TURNS: u32 = 64;

/// A call that is measured.
#[derive(Clone, Copy)]
pub enum Call {
    /// A block is locked and given back.
    Lock,
    /// A chunk of a locked block is changed.
    Log,
}

/// What a host has while a call of one of its mounts is measured.
#[derive(Clone, Copy)]
pub struct Crowd {
    /// How many transactions of that mount are open, 1 to 32.
    pub open: u8,
    /// How many of its blocks are busy, 1 to 64.
    pub busy: u8,
    /// How many slots are mounted, 1 to 16.
    pub mounts: u8,
}

/// A call that is measured in a crowd.
#[derive(Clone, Copy)]
pub struct Trial {
    pub call: Call,
    pub crowd: Crowd,
}

/// Makes blocks busy, each by a transaction that is not written out.
fn make_busy<H: House, D: Desk<H, R>, R: Wait>(
    rt: &R,
    host: &Host<H, D>,
    seat: &mut HostSeat<H>,
    at: &MountRef,
    change: &Change,
    count: u8,
) -> Result<(), Errno>
    requires board { seat.old.board.board ≡ host.now.board }
    ensures board { seat.new.board.board ≡ seat.old.board.board }
{
    let content = change.content().map_err(|_| Errno::NoMemory)?;
    for turn in 0..count {
        transact(rt, host, seat, at, change, &content, u32::from(turn))?;
    }
    Ok(())
}

/// Opens transactions beside the one that is measured: their numbers.
fn open_others<H: House, D: Desk<H, R>, R: Wait>(
    rt: &R,
    alloc: Global,
    host: &Host<H, D>,
    seat: &mut HostSeat<H>,
    at: &MountRef,
    open: u8,
) -> Result<Vec<TransNo>, Errno>
    requires board { seat.old.board.board ≡ host.now.board }
    ensures board { seat.new.board.board ≡ seat.old.board.board }
{
    let mut numbers = Vec::new(alloc);
    for _ in 1..open {
        let request = Request::Alloc {
            unit: UNIT,
            count: 1,
            perm: false,
        };
        let Reply::Trans(number) = host.call(rt, seat, *at, request) else {
            return Err(Errno::Again);
        };
        if numbers.push(number).is_err() {
            return Err(Errno::NoMemory);
        }
    }
    Ok(numbers)
}

/// Cancels these transactions.
fn cancel_others<H: House, D: Desk<H, R>, R: Wait>(
    rt: &R,
    host: &Host<H, D>,
    seat: &mut HostSeat<H>,
    at: &MountRef,
    numbers: &[TransNo],
) -> Result<(), Errno>
    requires board { seat.old.board.board ≡ host.now.board }
    ensures board { seat.new.board.board ≡ seat.old.board.board }
{
    for number in numbers {
        let request = Request::Cancel { trans: *number };
        if host.call(rt, seat, *at, request) != Reply::Okay {
            return Err(Errno::Invalid);
        }
    }
    Ok(())
}

/// Locks and gives back the busy blocks by turns.
fn lock_by_turns<H: House, D: Desk<H, R>, R: Wait>(
    rt: &R,
    host: &Host<H, D>,
    seat: &mut HostSeat<H>,
    trans: &mut Trans,
    busy: u8,
    count: u32,
) -> Result<(), Errno>
    requires board { seat.old.board.board ≡ host.now.board }
    ensures board { seat.new.board.board ≡ seat.old.board.board }
{
    let mut turn = 0;
    for number in 0..count {
        let block = block_of(turn, 0);
        host.get(rt, seat, trans, block)?;
        host.relse(rt, seat, trans, block)?;
        turn = if turn + 1 < u32::from(busy) {
            turn + 1
        } else {
            0
        };
        if number % TURNS == 0 {
            seat.forget();
        }
    }
    Ok(())
}

/// Changes the chunks of one block by turns.
fn log_by_turns<H: House, D: Desk<H, R>, R: Wait>(
    rt: &R,
    alloc: Global,
    host: &Host<H, D>,
    seat: &mut HostSeat<H>,
    trans: &mut Trans,
    count: u32,
) -> Result<(), Errno>
    requires board { seat.old.board.board ≡ host.now.board }
    ensures board { seat.new.board.board ≡ seat.old.board.board }
{
    let change = Change::small(alloc);
    let content = change.content().map_err(|_| Errno::NoMemory)?;
    let block = block_of(0, 0);
    host.get(rt, seat, trans, block)?;
    for turn in 0..count {
        let bytes = content.share().map_err(|_| Errno::NoMemory)?;
        host.log(rt, seat, trans, block, change.first(turn), bytes)?;
        if turn % TURNS == 0 {
            seat.forget();
        }
    }
    Ok(())
}

/// How long so many calls of a trial take in a transaction.
fn time_in<H: House, D: Desk<H, R>, R: Wait + Clock>(
    rt: &R,
    alloc: Global,
    host: &Host<H, D>,
    seat: &mut HostSeat<H>,
    trans: &mut Trans,
    trial: &Trial,
    count: u32,
) -> Result<Duration>
    requires board { seat.old.board.board ≡ host.now.board }
    ensures board { seat.new.board.board ≡ seat.old.board.board }
{
    let start = Instant::now(rt)?;
    match trial.call {
        Call::Lock => lock_by_turns(rt, host, seat, trans, trial.crowd.busy, count).map_err(
            refused,
        )?,
        Call::Log => log_by_turns(rt, alloc, host, seat, trans, count).map_err(refused)?,
    }
    Ok(start.elapsed(rt)?)
}

/// How long so many calls take beside what a trial has on the mount.
pub fn time_calls<H: House, D: Workplace<H, R>, R: Wait + Clock>(
    rt: &R,
    alloc: Global,
    host: &Host<H, D>,
    client: &mut Client<H>,
    at: &MountRef,
    trial: &Trial,
    count: u32,
) -> Result<Duration>
    requires queue { client.old.pass.queue ≡ arc_value host.now.queue }
    requires board { client.old.seat.board.board ≡ host.now.board }
    ensures queue { client.new.pass.queue ≡ client.old.pass.queue }
    ensures board { client.new.seat.board.board ≡ client.old.seat.board.board }
{
    let seat = &mut client.seat;
    let change = Change::small(alloc);
    make_busy(rt, host, seat, at, &change, trial.crowd.busy).map_err(refused)?;
    let others = open_others(rt, alloc, host, seat, at, trial.crowd.open).map_err(refused)?;
    let opened = host.begin_trans(rt, seat, *at, UNIT, 1, false);
    let mut trans = opened.map_err(refused)?;
    let took = time_in(rt, alloc, host, seat, &mut trans, trial, count);
    commit(rt, host, seat, trans).map_err(refused)?;
    cancel_others(rt, host, seat, at, &others).map_err(refused)?;
    write_out(rt, host, client, at).map_err(refused)?;
    took
}
