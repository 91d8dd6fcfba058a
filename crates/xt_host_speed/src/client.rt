//! What a caller does with one mount: whole transactions, and having them written.

ghost use Rattle.std.specs.Prelude.{◌≡◌};
ghost use Rattle.std.specs.Arc.{arc_value};

use crate::workplace::Workplace;
use anyhow::Error;
use std::alloc::{AllocError, Global};
use std::sync::Wait;
use std::thread;
use xt_base::content::Data;
use xt_base::names::Block;
use xt_base::steps::Errno;
use xt_cell::house::House;
use xt_cell::mount_ref::MountRef;
use xt_cell::seat::HostSeat;
use xt_host::desk::Desk;
use xt_host::host::Host;
use xt_host::outcomes::CommitFault;
use xt_host::tokens::{HeldBuf, HeldList, Trans};
use xt_queue::jobs::WorkPass;

/// How many blocks the transactions change by turns.
const BLOCKS: u64 = 64;

/// After how many transactions of a mount the log is forced, and the blocks are written home.
pub const BATCH: u32 = 64;

/// What each transaction changes.
#[derive(Clone, Copy)]
pub struct Change {
    alloc: Global,
    /// How many blocks.
    blocks: u8,
    /// How many bytes of each.
    bytes: usize,
    /// The log bytes that the leg needs.
    unit: u32,
}

impl Change {
    /// 128 bytes of one block.
    pub fn small(alloc: Global) -> Self {
        Change {
            alloc,
            blocks: 1,
            bytes: 128,
            unit: 176,
        }
    }

    /// Eight whole blocks.
    pub fn whole(alloc: Global) -> Self {
        Change {
            alloc,
            blocks: 8,
            bytes: 4_096,
            unit: 32_928,
        }
    }

    /// What blocks are changed to. A caller makes it once, as one who has it in a buffer of its own, and its changes share it. The one error
    /// is want of memory.
    pub fn content(&self) -> Result<Data, AllocError> {
        let bytes = vec![in self.alloc; 0x5a_u8; self.bytes]?;
        Data::of_vec(self.alloc, bytes)?.ok_or(AllocError)
    }

    /// The first byte of a block that a turn changes: by turns that of each chunk, where a chunk is changed.
    pub fn first(&self, turn: u32) -> u32 {
        if self.bytes > 128 { 0 } else { turn % 32 * 128 }
    }
}

/// The error of a call that was refused.
pub fn refused(errno: Errno) -> Error {
    Error::msg(errno.name())
}

/// One thread that calls a host, and is its worker too.
#[derive(Drop)]
pub struct Client<H: House> {
    pub seat: HostSeat<H>,
    pub pass: WorkPass,
}

/// The block that a step of a turn changes; no two of 64 turns have the same first one.
pub fn block_of(turn: u32, step: u8) -> Block {
    Block((u64::from(turn) * 7 + u64::from(step)) % BLOCKS)
}

/// Gives a held buffer up, again and again while that is refused.
fn release<H: House, D: Desk<H, R>, R: Wait>(
    rt: &R,
    host: &Host<H, D>,
    seat: &mut HostSeat<H>,
    held: HeldBuf,
)
    requires board { seat.old.board.board ≡ host.now.board }
    ensures board { seat.new.board.board ≡ seat.old.board.board }
{
    let mut held = held;
    for _ in rt.forever() {
        match host.release_held(rt, seat, held) {
            Ok(()) => return,
            Err((back, _errno)) => held = back,
        }
        thread::yield_now();
    }
    unreachable!()
}

/// Gives all buffers of a list up.
fn release_all<H: House, D: Desk<H, R>, R: Wait>(
    rt: &R,
    host: &Host<H, D>,
    seat: &mut HostSeat<H>,
    held: HeldList,
)
    requires board { seat.old.board.board ≡ host.now.board }
    ensures board { seat.new.board.board ≡ seat.old.board.board }
{
    let mut left = held;
    for _ in rt.forever() {
        let Some((buffer, rest)) = left.next() else {
            return;
        };
        release(rt, host, seat, buffer);
        left = rest;
    }
    unreachable!()
}

/// Ends a transaction without what it did, again and again while that is refused.
pub fn give_up<H: House, D: Desk<H, R>, R: Wait>(
    rt: &R,
    host: &Host<H, D>,
    seat: &mut HostSeat<H>,
    trans: Trans,
)
    requires board { seat.old.board.board ≡ host.now.board }
    ensures board { seat.new.board.board ≡ seat.old.board.board }
{
    let mut trans = trans;
    for _ in rt.forever() {
        match host.cancel(rt, seat, trans) {
            Ok(held) => {
                release_all(rt, host, seat, held);
                return;
            }
            Err((back, _errno)) => trans = back,
        }
        thread::yield_now();
    }
    unreachable!()
}

/// Commits a transaction; where that is refused it is given up.
pub fn commit<H: House, D: Desk<H, R>, R: Wait>(
    rt: &R,
    host: &Host<H, D>,
    seat: &mut HostSeat<H>,
    trans: Trans,
) -> Result<(), Errno>
    requires board { seat.old.board.board ≡ host.now.board }
    ensures board { seat.new.board.board ≡ seat.old.board.board }
{
    match host.commit(rt, seat, trans) {
        Ok((_number, held)) => {
            release_all(rt, host, seat, held);
            Ok(())
        }
        Err(CommitFault::Aborted(held)) => {
            release_all(rt, host, seat, held);
            Err(Errno::Io)
        }
        Err(CommitFault::Back(trans, errno)) => {
            give_up(rt, host, seat, trans);
            Err(errno)
        }
    }
}

/// Locks the blocks of a turn in a transaction, and changes them to this.
fn fill<H: House, D: Desk<H, R>, R: Wait>(
    rt: &R,
    host: &Host<H, D>,
    seat: &mut HostSeat<H>,
    trans: &mut Trans,
    change: &Change,
    content: &Data,
    turn: u32,
) -> Result<(), Errno>
    requires board { seat.old.board.board ≡ host.now.board }
    ensures board { seat.new.board.board ≡ seat.old.board.board }
{
    for step in 0..change.blocks {
        let block = block_of(turn, step);
        host.read(rt, seat, trans, block)?;
        let bytes = content.share().map_err(|_| Errno::NoMemory)?;
        host.log(rt, seat, trans, block, change.first(turn), bytes)?;
    }
    Ok(())
}

/// Changes a mount in a transaction of its own.
pub fn transact<H: House, D: Desk<H, R>, R: Wait>(
    rt: &R,
    host: &Host<H, D>,
    seat: &mut HostSeat<H>,
    at: &MountRef,
    change: &Change,
    content: &Data,
    turn: u32,
) -> Result<(), Errno>
    requires board { seat.old.board.board ≡ host.now.board }
    ensures board { seat.new.board.board ≡ seat.old.board.board }
{
    let mut trans = host.begin_trans(rt, seat, *at, change.unit, 1, false)?;
    if let Err(errno) = fill(rt, host, seat, &mut trans, change, content, turn) {
        give_up(rt, host, seat, trans);
        return Err(errno);
    }
    commit(rt, host, seat, trans)
}

/// Has all that was committed written to the log and home, by this thread as the worker, and forgets the receipts.
pub fn write_out<H: House, D: Workplace<H, R>, R: Wait>(
    rt: &R,
    host: &Host<H, D>,
    client: &mut Client<H>,
    at: &MountRef,
) -> Result<(), Errno>
    requires queue { client.old.pass.queue ≡ arc_value host.now.queue }
    requires board { client.old.seat.board.board ≡ host.now.board }
    ensures queue { client.new.pass.queue ≡ client.old.pass.queue }
    ensures board { client.new.seat.board.board ≡ client.old.seat.board.board }
{
    host.force(rt, &mut client.seat, *at)?;
    host.push(rt, &mut client.seat, *at)?;
    D::work(rt, host, &mut client.pass, &mut client.seat);
    client.seat.forget();
    Ok(())
}

/// So many transactions of one mount, written out after each batch, and where there is no log space for another.
pub fn transact_all<H: House, D: Workplace<H, R>, R: Wait>(
    rt: &R,
    host: &Host<H, D>,
    client: &mut Client<H>,
    at: &MountRef,
    change: &Change,
    count: u32,
) -> Result<(), Errno>
    requires queue { client.old.pass.queue ≡ arc_value host.now.queue }
    requires board { client.old.seat.board.board ≡ host.now.board }
    ensures queue { client.new.pass.queue ≡ client.old.pass.queue }
    ensures board { client.new.seat.board.board ≡ client.old.seat.board.board }
{
    let content = change.content().map_err(|_| Errno::NoMemory)?;
    for turn in 0..count {
        let told = transact(rt, host, &mut client.seat, at, change, &content, turn);
        if told == Err(Errno::Again) {
            write_out(rt, host, client, at)?;
            transact(rt, host, &mut client.seat, at, change, &content, turn)?;
        } else {
            told?;
        }
        if turn % BATCH == BATCH - 1 {
            write_out(rt, host, client, at)?;
        }
    }
    write_out(rt, host, client, at)
}
