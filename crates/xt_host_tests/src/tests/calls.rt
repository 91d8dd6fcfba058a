//! Transactions by tokens, as a program would write them.

ghost use Rattle.std.specs.Prelude.{◌≡◌};

use std::alloc::Global;
use std::process::Abort;
use std::sync::Wait;
use xt_base::content::Data;
use xt_base::names::{Block, CkptNo};
use xt_base::steps::Errno;
use xt_cell::house::House;
use xt_cell::mount_ref::MountRef;
use xt_cell::seat::HostSeat;
use xt_host::desk::Desk;
use xt_host::host::Host;
use xt_host::outcomes::{CommitFault, RollFault};
use xt_host::tokens::{HeldList, Trans};

/// Takes a list apart of which it is known that nothing was held.
fn none_held<R: Abort>(rt: &R, held: HeldList) {
    if let Some((_buffer, _rest)) = held.next() {
        panic!(rt; "a buffer was held");
    }
}

/// Ends a transaction without what it did.
pub fn give_up<H: House, D: Desk<H, R>, R: Abort + Wait>(
    rt: &R,
    host: &Host<H, D>,
    seat: &mut HostSeat<H>,
    trans: Trans,
)
    requires board { seat.old.board.board ≡ host.now.board }
    ensures board { seat.new.board.board ≡ seat.old.board.board }
{
    match host.cancel(rt, seat, trans) {
        Ok(held) => none_held(rt, held),
        Err((_trans, _errno)) => panic!(rt; "a transaction that can't be cancelled"),
    }
}

/// Commits a transaction that holds nothing, and ends it without what it did where that is refused: the number of the checkpoint that
/// will have it.
pub fn finish<H: House, D: Desk<H, R>, R: Abort + Wait>(
    rt: &R,
    host: &Host<H, D>,
    seat: &mut HostSeat<H>,
    trans: Trans,
) -> Result<CkptNo, Errno>
    requires board { seat.old.board.board ≡ host.now.board }
    ensures board { seat.new.board.board ≡ seat.old.board.board }
{
    match host.commit(rt, seat, trans) {
        Ok((number, held)) => {
            none_held(rt, held);
            Ok(number)
        }
        Err(CommitFault::Aborted(held)) => {
            none_held(rt, held);
            Err(Errno::Io)
        }
        Err(CommitFault::Back(trans, errno)) => {
            give_up(rt, host, seat, trans);
            Err(errno)
        }
    }
}

/// Commits a transaction of which nothing was refused, and ends one without what it did where something was.
pub fn settle<H: House, D: Desk<H, R>, R: Abort + Wait>(
    rt: &R,
    host: &Host<H, D>,
    seat: &mut HostSeat<H>,
    trans: Trans,
    told: Result<(), Errno>,
) -> Result<CkptNo, Errno>
    requires board { seat.old.board.board ≡ host.now.board }
    ensures board { seat.new.board.board ≡ seat.old.board.board }
{
    if let Err(errno) = told {
        give_up(rt, host, seat, trans);
        return Err(errno);
    }
    finish(rt, host, seat, trans)
}

/// Rolls a transaction that holds nothing, once there is log space for another leg, and gives that leg up: the number of the checkpoint
/// that will have the leg before it.
pub fn roll_off<H: House, D: Desk<H, R>, R: Abort + Wait>(
    rt: &R,
    host: &Host<H, D>,
    seat: &mut HostSeat<H>,
    trans: Trans,
) -> Result<CkptNo, Errno>
    requires board { seat.old.board.board ≡ host.now.board }
    ensures board { seat.new.board.board ≡ seat.old.board.board }
{
    match host.roll_wait(rt, seat, trans) {
        Ok((number, held, trans)) => {
            none_held(rt, held);
            give_up(rt, host, seat, trans);
            Ok(number)
        }
        Err(RollFault::Aborted(trans, held)) => {
            none_held(rt, held);
            give_up(rt, host, seat, trans);
            Err(Errno::Io)
        }
        Err(RollFault::Back(trans, errno)) => {
            give_up(rt, host, seat, trans);
            Err(errno)
        }
    }
}

/// Locks a block in a transaction, unread, and writes it whole.
fn fill<H: House, D: Desk<H, R>, R: Wait>(
    rt: &R,
    alloc: Global,
    host: &Host<H, D>,
    seat: &mut HostSeat<H>,
    trans: &mut Trans,
) -> Result<(), Errno>
    requires board { seat.old.board.board ≡ host.now.board }
    ensures board { seat.new.board.board ≡ seat.old.board.board }
{
    let Ok(Some(bytes)) = Data::of_repeated(alloc, 0xaa, 4_096) else {
        return Err(Errno::NoMemory);
    };
    host.get(rt, seat, trans, Block(7))?;
    host.log(rt, seat, trans, Block(7), 0, bytes)
}

/// Changes a block in a transaction of its own: the number of the checkpoint that will have it.
pub fn change<H: House, D: Desk<H, R>, R: Abort + Wait>(
    rt: &R,
    alloc: Global,
    host: &Host<H, D>,
    seat: &mut HostSeat<H>,
    at: MountRef,
) -> Result<CkptNo, Errno>
    requires board { seat.old.board.board ≡ host.now.board }
    ensures board { seat.new.board.board ≡ seat.old.board.board }
{
    let mut trans = host.begin_trans(rt, seat, at, 5_000, 1, false)?;
    let told = fill(rt, alloc, host, seat, &mut trans);
    settle(rt, host, seat, trans, told)
}
