//! What a caller does with one mount, by tokens. It is over any desk, `Host<H, D>`, so that its proofs list no sixteen slots; `Host<H>` is
//! one.
//!
//! `Trans`, `HeldBuf` and `HeldList` are tokens: none can be copied or dropped, so each is spent on every path, or the program does not
//! compile. A call that is handed one gives it back where it is refused. So no `?` stands where one is held.

ghost use Rattle.std.specs.Prelude.{◌≡◌};

use std::alloc::Global;
use std::sync::Wait;
use std::thread;
use xt_base::content::Data;
use xt_base::names::{Block, CkptNo};
use xt_base::steps::{Errno, Reason};
use xt_cell::house::House;
use xt_cell::mount_ref::MountRef;
use xt_cell::seat::HostSeat;
use xt_host::{CommitFault, Desk, Forced, HeldBuf, HeldList, Host, Trans};

/// The block that is changed.
pub const BLOCK: Block = Block(7);

/// Log bytes enough for a leg that changes one block.
const UNIT: u32 = 5_000;

/// What was seen of the volumes of slots 0 and 1.
#[derive(Clone, Copy)]
pub struct Seen {
    /// How far a force of slot 0 had come once the worker was there.
    pub after: Forced,
    /// Why each was shut, if it was.
    pub shut: (Option<Reason>, Option<Reason>),
    /// What the changed block begins with.
    pub byte: u8,
}

/// Releases a buffer, again and again while that is refused, as for want of memory.
fn release<H: House, D: Desk<H, R>, R: Wait>(
    rt: &R,
    host: &Host<H, D>,
    seat: &mut HostSeat<H>,
    held: HeldBuf,
)
    requires board { seat.old.board.board ≡ host.now.board }
    ensures board { seat.new.board.board ≡ seat.old.board.board }
{
    let mut held = held;
    for _ in rt.forever() {
        match host.release_held(rt, seat, held) {
            Ok(()) => return,
            Err((back, _errno)) => held = back,
        }
        thread::yield_now();
    }
    unreachable!()
}

/// Releases the buffers that a leg left held. Here no leg leaves any, since `hold` marks none; the list is a token all the same.
fn release_all<H: House, D: Desk<H, R>, R: Wait>(
    rt: &R,
    host: &Host<H, D>,
    seat: &mut HostSeat<H>,
    held: HeldList,
)
    requires board { seat.old.board.board ≡ host.now.board }
    ensures board { seat.new.board.board ≡ seat.old.board.board }
{
    let mut left = held;
    for _ in rt.forever() {
        let Some((buffer, rest)) = left.next() else {
            return;
        };
        release(rt, host, seat, buffer);
        left = rest;
    }
    unreachable!()
}

/// Ends a transaction without what it did, again and again while that is refused. Where it changed something, this shuts its mount.
fn cancel<H: House, D: Desk<H, R>, R: Wait>(
    rt: &R,
    host: &Host<H, D>,
    seat: &mut HostSeat<H>,
    trans: Trans,
)
    requires board { seat.old.board.board ≡ host.now.board }
    ensures board { seat.new.board.board ≡ seat.old.board.board }
{
    let mut trans = trans;
    for _ in rt.forever() {
        match host.cancel(rt, seat, trans) {
            Ok(held) => {
                release_all(rt, host, seat, held);
                return;
            }
            Err((back, _errno)) => trans = back,
        }
        thread::yield_now();
    }
    unreachable!()
}

/// Commits a transaction: the number of the checkpoint that will have it. Where that is refused the transaction is given up.
fn commit<H: House, D: Desk<H, R>, R: Wait>(
    rt: &R,
    host: &Host<H, D>,
    seat: &mut HostSeat<H>,
    trans: Trans,
) -> Result<CkptNo, Errno>
    requires board { seat.old.board.board ≡ host.now.board }
    ensures board { seat.new.board.board ≡ seat.old.board.board }
{
    match host.commit(rt, seat, trans) {
        Ok((number, held)) => {
            release_all(rt, host, seat, held);
            Ok(number)
        }
        Err(CommitFault::Aborted(held)) => {
            release_all(rt, host, seat, held);
            Err(Errno::Io)
        }
        Err(CommitFault::Back(trans, errno)) => {
            cancel(rt, host, seat, trans);
            Err(errno)
        }
    }
}

/// A transaction that locked the block, unread, and wrote it whole.
fn open_changed<H: House, D: Desk<H, R>, R: Wait>(
    rt: &R,
    alloc: Global,
    host: &Host<H, D>,
    seat: &mut HostSeat<H>,
    at: MountRef,
    byte: u8,
) -> Result<Trans, Errno>
    requires board { seat.old.board.board ≡ host.now.board }
    ensures board { seat.new.board.board ≡ seat.old.board.board }
{
    let Ok(Some(bytes)) = Data::of_repeated(alloc, byte, 4_096) else {
        return Err(Errno::NoMemory);
    };
    let mut trans = host.begin_trans(rt, seat, at, UNIT, 1, false)?;
    let mut told = host.get(rt, seat, &mut trans, BLOCK);
    if told.is_ok() {
        told = host.log(rt, seat, &mut trans, BLOCK, 0, bytes);
    }
    match told {
        Ok(()) => Ok(trans),
        Err(errno) => {
            cancel(rt, host, seat, trans);
            Err(errno)
        }
    }
}

/// The first byte of the block, read in a transaction of its own. That changes nothing, so its cancel shuts nothing.
fn first_byte<H: House, D: Desk<H, R>, R: Wait>(
    rt: &R,
    host: &Host<H, D>,
    seat: &mut HostSeat<H>,
    at: MountRef,
) -> Result<u8, Errno>
    requires board { seat.old.board.board ≡ host.now.board }
    ensures board { seat.new.board.board ≡ seat.old.board.board }
{
    let mut trans = host.begin_trans(rt, seat, at, UNIT, 1, false)?;
    let told = host.read(rt, seat, &mut trans, BLOCK);
    let content = host.view(rt, seat, &mut trans, BLOCK);
    cancel(rt, host, seat, trans);
    told?;
    content?.bytes().first().copied().ok_or(Errno::Invalid)
}

/// Changes the block, and asks that this be on the log: the number of its checkpoint, and how far that has come.
pub fn change<H: House, D: Desk<H, R>, R: Wait>(
    rt: &R,
    alloc: Global,
    host: &Host<H, D>,
    seat: &mut HostSeat<H>,
    at: &MountRef,
) -> Result<(CkptNo, Forced), Errno>
    requires board { seat.old.board.board ≡ host.now.board }
    ensures board { seat.new.board.board ≡ seat.old.board.board }
{
    let trans = open_changed(rt, alloc, host, seat, *at, 0xaa)?;
    let number = commit(rt, host, seat, trans)?;
    Ok((number, host.force(rt, seat, *at)?))
}

/// Cancels a change of the other volume, which shuts that one alone. Then it looks at both, and asks that the first one's block be written home.
pub fn shut_other<H: House, D: Desk<H, R>, R: Wait>(
    rt: &R,
    alloc: Global,
    host: &Host<H, D>,
    seat: &mut HostSeat<H>,
    at: &MountRef,
    other: &MountRef,
) -> Result<Seen, Errno>
    requires board { seat.old.board.board ≡ host.now.board }
    ensures board { seat.new.board.board ≡ seat.old.board.board }
{
    let after = host.force(rt, seat, *at)?;
    let trans = open_changed(rt, alloc, host, seat, *other, 0xbb)?;
    cancel(rt, host, seat, trans);
    let (_life, shut) = host.seen_shut(seat, at.slot);
    let (_life, other_shut) = host.seen_shut(seat, other.slot);
    let byte = first_byte(rt, host, seat, *at)?;
    host.push(rt, seat, *at)?;
    Ok(Seen {
        after,
        shut: (shut, other_shut),
        byte,
    })
}
