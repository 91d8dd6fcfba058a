//! One volume, whose worker has a thread of its own.

ghost use Rattle.std.specs.Prelude.{◌≡◌, ◌-◌, ◌^◌, IfOk};
ghost use Rattle.std.specs.Arc.{arc_value};
ghost use Rattle.xt_cell.specs.Ledgers.{AreCut, AreNamed};

use crate::tests::calls::change;
use crate::tests::door::Door;
use crate::tests::place::{Devices, Place, Workplace, end, in_memory, stand};
use std::alloc::Global;
use std::marker::Brand;
use std::process::Abort;
use std::rt::HostRuntime;
use std::sync::Wait;
use std::thread::{Threads, join};
use xt_base::steps::Errno;
use xt_cell::house::House;
use xt_cell::mount_ref::MountRef;
use xt_cell::reserve::Blanks;
use xt_cell::seat::HostSeat;
use xt_dev::mem_home::MemHome;
use xt_host::desk::{Desk, Slots};
use xt_host::fault::CloseFault;
use xt_host::host::{BOOK_ENTRIES, Host};
use xt_host::outcomes::Forced;
use xt_queue::jobs::WorkPass;

/// When the caller has the last name posted.
#[derive(Clone, Copy)]
enum Last {
    /// While the worker looks for names.
    Awaited,
    /// Between a look of the worker that finds none, and its question whether to go on.
    Unseen,
}

/// Works until a door is shut and no name waits.
pub fn work_for<H: House, D: Workplace<H, R>, R: Abort + Wait>(
    rt: &R,
    host: &Host<H, D>,
    pass: WorkPass,
    seat: HostSeat<H>,
    door: &Door,
) -> HostSeat<H>
    requires queue { pass.queue ≡ arc_value host.now.queue }
    requires board { seat.board.board ≡ host.now.board }
{
    let mut pass = pass;
    let mut seat = seat;
    D::work(rt, host, &mut pass, &mut seat, door);
    seat
}

/// Forces the log of a mount, and waits until all is written.
pub fn force_out<H: House, D: Desk<H, R>, R: Wait>(
    rt: &R,
    host: &Host<H, D>,
    seat: &mut HostSeat<H>,
    at: &MountRef,
) -> Result<(), Errno>
    requires board { seat.old.board.board ≡ host.now.board }
    ensures board { seat.new.board.board ≡ seat.old.board.board }
{
    if let Forced::Wait(number) = host.force(rt, seat, *at)? {
        host.force_wait(rt, seat, *at, number)?;
    }
    Ok(())
}

/// Changes a mount, has the log written, and asks that the block be.
fn write_out<H: House, D: Desk<H, R>, R: Abort + Wait>(
    rt: &R,
    alloc: Global,
    host: &Host<H, D>,
    seat: &mut HostSeat<H>,
    at: &MountRef,
) -> Result<(), Errno>
    requires board { seat.old.board.board ≡ host.now.board }
    ensures board { seat.new.board.board ≡ host.now.board }
{
    change(rt, alloc, host, seat, *at)?;
    force_out(rt, host, seat, at)?;
    host.push(rt, seat, *at)
}

/// Changes a mount while the worker waits at the door, having found no name, and asks that the log be written.
fn write_unseen<H: House, D: Desk<H, R>, R: Abort + Wait>(
    rt: &R,
    alloc: Global,
    host: &Host<H, D>,
    seat: &mut HostSeat<H>,
    at: &MountRef,
    door: &Door,
) -> Result<(), Errno>
    requires board { seat.old.board.board ≡ host.now.board }
    ensures board { seat.new.board.board ≡ host.now.board }
{
    if !door.is_asked_in_time() {
        return Err(Errno::Again);
    }
    change(rt, alloc, host, seat, *at)?;
    host.force(rt, seat, *at)?;
    Ok(())
}

/// Changes a mount, asks for its log and its block, or for its log alone, and then shuts the door.
fn change_out<H: House, D: Desk<H, R>, R: Abort + Wait>(
    rt: &R,
    alloc: Global,
    host: &Host<H, D>,
    seat: HostSeat<H>,
    at: &MountRef,
    door: &Door,
    last: Last,
) -> (HostSeat<H>, Result<(), Errno>)
    requires board { seat.board.board ≡ host.now.board }
    ensures board { result.0.board.board ≡ host.now.board }
{
    let mut seat = seat;
    let told = match last {
        Last::Awaited => write_out(rt, alloc, host, &mut seat, at),
        Last::Unseen => write_unseen(rt, alloc, host, &mut seat, at, door),
    };
    door.shut();
    (seat, told)
}

/// The seats of the caller and the worker, and what the caller was told.
type Both<H> = (HostSeat<H>, HostSeat<H>, Result<(), Errno>);

/// A caller beside a worker that has a thread of its own.
fn by_two<H: House + Send + Sync, D: Workplace<H, R> + Sync, R: Abort + Threads + Wait + Sync>(
    rt: &R,
    alloc: Global,
    host: &Host<H, D>,
    pass: WorkPass,
    seats: (HostSeat<H>, HostSeat<H>),
    at: &MountRef,
    last: Last,
) -> Both<H>
    requires queue { pass.queue ≡ arc_value host.now.queue }
    requires first { seats.0.board.board ≡ host.now.board }
    requires second { seats.1.board.board ≡ host.now.board }
    ensures board { result.0.board.board ≡ host.now.board }
{
    let (first, second) = seats;
    let open = match last {
        Last::Awaited => Door::open(),
        Last::Unseen => Door::lingering(),
    };
    let door = &open;
    let (worked, called) = join(
        rt,
        move || -> HostSeat<H>
            requires { (pass.queue ≡ arc_value host.now.queue) × (second.board.board ≡ host.now.board) }
        { work_for(rt, host, pass, second, door) },
        move || -> (HostSeat<H>, Result<(), Errno>)
            requires { first.board.board ≡ host.now.board }
            ensures { result.0.board.board ≡ host.entry.now.board }
        { change_out(rt, alloc, host, first, at, door, last) },
    );
    (called.0, worked, called.1)
}

/// What the caller was told, how far a force has come when the worker has gone, and what the end of the host found.
type Told = (Result<(), Errno>, Forced, Result<(), CloseFault>);

/// A change that a worker in a thread of its own writes, an unmount where the block was asked for too, and the end of the host.
fn write_beside<H: House + Send + Sync, D: Place<H, R> + Sync, R: Abort + Threads + Wait + Sync>(
    rt: &R,
    alloc: Global,
    blanks: Blanks,
    devices: D::Devices,
    last: Last,
) -> Result<Told, Errno>
    requires names { AreNamed H.names blanks }
    requires parts { AreCut H.all blanks }
    requires all { H.all ≡ 2 ^ 64 - 1 }
{
    let (host, mut seat, pass, at) = stand::<H, D, R>(rt, alloc, blanks, BOOK_ENTRIES, devices)?;
    let other = host.seat(rt, &mut seat)?;
    let (mut seat, other, told) = by_two(rt, alloc, &host, pass, (seat, other), &at, last);
    let forced = host.force(rt, &mut seat, at)?;
    if let Last::Awaited = last {
        D::unmount(rt, &host, &mut seat, at)?;
    }
    let closed = end(alloc, host, vec![in alloc; seat, other].ok())?;
    Ok((told, forced, closed))
}

/// The same on sixteen slots.
fn write_on_slots<H: House + Send + Sync, R: Abort + Threads + Wait + Sync>(
    rt: &R,
    alloc: Global,
    blanks: Blanks,
    devices: Devices,
    last: Last,
) -> Result<Told, Errno>
    requires names { AreNamed H.names blanks }
    requires parts { AreCut H.all blanks }
    requires all { H.all ≡ 2 ^ 64 - 1 }
{
    write_beside::<H, Slots<H>, R>(rt, alloc, blanks, devices, last)
}

/// The same over new ledgers.
fn writes_beside<R: Abort + Threads + Wait + Sync>(
    rt: &R,
    alloc: Global,
    blanks: Blanks,
    last: Last,
) -> Result<Told, Errno>
    requires parts { AreCut (2 ^ 64 - 1) blanks }
{
    let (home, log) = in_memory(alloc, Ok(MemHome::new(alloc)))?;
    write_on_slots::<Brand, R>(rt, alloc, blanks, (home, log), last)
}

#[test]
fn a_worker_of_its_own(rt: HostRuntime) {
    assert_eq!(rt;
        writes_beside(&rt, rt.alloc(), Blanks::new(), Last::Awaited),
        Ok((Ok(()), Forced::Done, Ok(())))
    );
}

/// A name that is posted behind a worker's last look, before the door is shut, is done all the same.
#[test]
fn a_name_before_the_door_is_shut_is_done(rt: HostRuntime) {
    assert_eq!(rt;
        writes_beside(&rt, rt.alloc(), Blanks::new(), Last::Unseen),
        Ok((Ok(()), Forced::Done, Ok(())))
    );
}
