//! Two threads that go on at once: devices that wait at a gate until the other thread has come as far as it must.

ghost use Rattle.std.specs.Prelude.{◌≡◌, ◌-◌, ◌^◌, IfOk};
ghost use Rattle.std.specs.Arc.{arc_value};
ghost use Rattle.xt_cell.specs.Ledgers.{AreCut, AreNamed};

use crate::tests::calls::{change, give_up};
use crate::tests::door::Door;
use crate::tests::place::{Devices, Place, Workplace, in_memory};
use crate::tests::threads::work_for;
use std::alloc::{AllocError, Global};
use std::marker::Brand;
use std::process::Abort;
use std::rt::HostRuntime;
use std::sync::{Arc, Wait};
use std::thread::{Threads, join};
use xt_base::names::{Block, CkptNo, Slot};
use xt_base::steps::Errno;
use xt_cell::house::House;
use xt_cell::mount_ref::MountRef;
use xt_cell::reserve::Blanks;
use xt_cell::seat::HostSeat;
use xt_dev::gates::{Flag, GateHome, GateLog, Meeting};
use xt_dev::mem_home::MemHome;
use xt_dev::mem_log::MemLog;
use xt_host::comparing::compare_all;
use xt_host::desk::{Desk, Slots};
use xt_host::fault::CloseFault;
use xt_host::host::{BOOK_ENTRIES, Host};
use xt_host::outcomes::Forced;
use xt_queue::jobs::WorkPass;

/// How often a gate looks for its flag.
const TURNS: u64 = 1_000_000_000;

/// Two flags.
#[derive(Drop)]
struct Flags {
    first: Arc<Flag, Global>,
    second: Arc<Flag, Global>,
}

impl Flags {
    /// None is raised.
    fn new(alloc: Global) -> Result<Self, AllocError> {
        Ok(Flags {
            first: Arc::new(alloc, Flag::new())?,
            second: Arc::new(alloc, Flag::new())?,
        })
    }

    /// A meeting that raises the first and waits for the second.
    fn first_waits(&self) -> Result<Meeting, AllocError> {
        Ok(Meeting {
            reached: Arc::try_clone(&self.first)?,
            awaited: Arc::try_clone(&self.second)?,
            turns: TURNS,
        })
    }

    /// A meeting that raises the second and waits for the first.
    fn second_waits(&self) -> Result<Meeting, AllocError> {
        Ok(Meeting {
            reached: Arc::try_clone(&self.second)?,
            awaited: Arc::try_clone(&self.first)?,
            turns: TURNS,
        })
    }
}

/// Mounts the first two slots.
fn mount_two<H: House, D: Place<H, R>, R: Abort + Wait>(
    rt: &R,
    host: &Host<H, D>,
    seat: &mut HostSeat<H>,
    volumes: (D::Devices, D::Devices),
) -> Result<(MountRef, MountRef), Errno>
    requires board { seat.old.board.board ≡ host.now.board }
    ensures board { seat.new.board.board ≡ seat.old.board.board }
{
    let (Some(zero), Some(one)) = (Slot::new(0), Slot::new(1)) else {
        return Err(Errno::Invalid);
    };
    let zero = D::mount(rt, host, seat, zero, volumes.0)?;
    let one = D::mount(rt, host, seat, one, volumes.1)?;
    Ok((zero, one))
}

/// A seat, and what its thread was told.
type Reader<H> = (HostSeat<H>, Result<(), Errno>);

/// A seat, whether its thread saw the other one at the gate, and what it was told.
type Caller<H> = (HostSeat<H>, bool, Result<Forced, Errno>);

/// Reads a block in a transaction of its own.
fn read<H: House, D: Desk<H, R>, R: Abort + Wait>(
    rt: &R,
    host: &Host<H, D>,
    seat: &mut HostSeat<H>,
    at: MountRef,
) -> Result<(), Errno>
    requires board { seat.old.board.board ≡ host.now.board }
    ensures board { seat.new.board.board ≡ seat.old.board.board }
{
    let mut trans = host.begin_trans(rt, seat, at, 176, 1, false)?;
    let told = host.read(rt, seat, &mut trans, Block(7));
    give_up(rt, host, seat, trans);
    told
}

/// The thread whose read waits at the gate.
fn reader<H: House, D: Desk<H, R>, R: Abort + Wait>(
    rt: &R,
    host: &Host<H, D>,
    seat: HostSeat<H>,
    at: MountRef,
) -> Reader<H>
    requires board { seat.board.board ≡ host.now.board }
{
    let mut seat = seat;
    let told = read(rt, host, &mut seat, at);
    (seat, told)
}

/// The thread that calls another mount once the read is at the gate, and opens that when it was answered.
fn caller<H: House, D: Desk<H, R>, R: Wait>(
    rt: &R,
    host: &Host<H, D>,
    seat: HostSeat<H>,
    at: MountRef,
    reached: &Flag,
    answered: &Flag,
) -> Caller<H>
    requires board { seat.board.board ≡ host.now.board }
{
    let mut seat = seat;
    let is_reached = reached.is_seen_within(TURNS);
    let told = host.force(rt, &mut seat, at);
    answered.raise();
    (seat, is_reached, told)
}

/// Both threads.
fn read_beside<H: House + Send + Sync, D: Desk<H, R> + Sync, R: Abort + Threads + Wait + Sync>(
    rt: &R,
    host: &Host<H, D>,
    seats: (HostSeat<H>, HostSeat<H>),
    mounts: (MountRef, MountRef),
    reached: &Flag,
    answered: &Flag,
) -> (Reader<H>, Caller<H>)
    requires first { seats.0.board.board ≡ host.now.board }
    requires second { seats.1.board.board ≡ host.now.board }
{
    let (first, second) = seats;
    join(
        rt,
        move || -> Reader<H>
            requires { first.board.board ≡ host.now.board }
        { reader(rt, host, first, mounts.0) },
        move || -> Caller<H>
            requires { second.board.board ≡ host.now.board }
        { caller(rt, host, second, mounts.1, reached, answered) },
    )
}

/// What the read was told, whether the other thread saw it at the gate, what that one was told, and what the end of the host found.
type Met = (
    Result<(), Errno>,
    bool,
    Result<Forced, Errno>,
    Result<(), CloseFault>,
);

/// A read of one mount that waits until a call of another mount was answered.
fn meet_two_mounts<H: House + Send + Sync, D: Place<H, R> + Sync, R: Abort + Threads + Wait + Sync>(
    rt: &R,
    alloc: Global,
    blanks: Blanks,
    volumes: (D::Devices, D::Devices),
    flags: &Flags,
) -> Result<Met, Errno>
    requires names { AreNamed H.names blanks }
    requires parts { AreCut H.all blanks }
    requires all { H.all ≡ 2 ^ 64 - 1 }
{
    let (host, mut first, _passes) = Host::<H, D>::new(alloc, blanks, 1, BOOK_ENTRIES)?;
    let second = host.seat(rt, &mut first)?;
    let mounts = mount_two(rt, &host, &mut first, volumes)?;
    let ((first, read), (second, is_reached, called)) = read_beside(
        rt,
        &host,
        (first, second),
        mounts,
        &flags.first,
        &flags.second,
    );
    let closed = compare_all(&host.into_books(), &[first, second]);
    Ok((read, is_reached, called, closed))
}

/// Two workers that work until no name waits: their seats.
fn work_beside<H: House + Send + Sync, D: Workplace<H, R> + Sync, R: Abort + Threads + Wait + Sync>(
    rt: &R,
    host: &Host<H, D>,
    passes: (WorkPass, WorkPass),
    seats: (HostSeat<H>, HostSeat<H>),
) -> (HostSeat<H>, HostSeat<H>)
    requires queues { (passes.0.queue ≡ arc_value host.now.queue) × (passes.1.queue ≡ arc_value host.now.queue) }
    requires first { seats.0.board.board ≡ host.now.board }
    requires second { seats.1.board.board ≡ host.now.board }
{
    let (first, second) = seats;
    let (pass, other) = passes;
    let shut = Door::closed();
    let door = &shut;
    join(
        rt,
        move || -> HostSeat<H>
            requires { (pass.queue ≡ arc_value host.now.queue) × (first.board.board ≡ host.now.board) }
        { work_for(rt, host, pass, first, door) },
        move || -> HostSeat<H>
            requires { (other.queue ≡ arc_value host.now.queue) × (second.board.board ≡ host.now.board) }
        { work_for(rt, host, other, second, door) },
    )
}

/// Changes a mount, and asks that it be logged: the checkpoint that is to have it.
fn changed<H: House, D: Desk<H, R>, R: Abort + Wait>(
    rt: &R,
    alloc: Global,
    host: &Host<H, D>,
    seat: &mut HostSeat<H>,
    at: &MountRef,
) -> Result<Forced, Errno>
    requires board { seat.old.board.board ≡ host.now.board }
    ensures board { seat.new.board.board ≡ seat.old.board.board }
{
    change(rt, alloc, host, seat, *at)?;
    host.force(rt, seat, *at)
}

/// How far two mounts are forced before their workers and after them, and what the end of the host found.
type Logged = ([Result<Forced, Errno>; 4], Result<(), CloseFault>);

/// Two checkpoints, each of which waits until the other is being written too.
fn meet_two_logs<H: House + Send + Sync, D: Place<H, R> + Sync, R: Abort + Threads + Wait + Sync>(
    rt: &R,
    alloc: Global,
    blanks: Blanks,
    volumes: (D::Devices, D::Devices),
) -> Result<Logged, Errno>
    requires names { AreNamed H.names blanks }
    requires parts { AreCut H.all blanks }
    requires all { H.all ≡ 2 ^ 64 - 1 }
{
    let (host, mut own, mut passes) = Host::<H, D>::new(alloc, blanks, 2, BOOK_ENTRIES)?;
    let (Some(second), Some(first)) = (passes.pop(), passes.pop()) else {
        return Err(Errno::Invalid);
    };
    let seats = (host.seat(rt, &mut own)?, host.seat(rt, &mut own)?);
    let (zero, one) = mount_two(rt, &host, &mut own, volumes)?;
    let before = changed(rt, alloc, &host, &mut own, &zero);
    let before_too = changed(rt, alloc, &host, &mut own, &one);
    let (seat, seat_too) = work_beside(rt, &host, (first, second), seats);
    let after = host.force(rt, &mut own, zero);
    let after_too = host.force(rt, &mut own, one);
    let closed = compare_all(&host.into_books(), &[own, seat, seat_too]);
    Ok(([before, before_too, after, after_too], closed))
}

/// The first on sixteen slots.
fn mounts_on_slots<H: House + Send + Sync, R: Abort + Threads + Wait + Sync>(
    rt: &R,
    alloc: Global,
    blanks: Blanks,
    volumes: (Devices, Devices),
    flags: &Flags,
) -> Result<Met, Errno>
    requires names { AreNamed H.names blanks }
    requires parts { AreCut H.all blanks }
    requires all { H.all ≡ 2 ^ 64 - 1 }
{
    meet_two_mounts::<H, Slots<H>, R>(rt, alloc, blanks, volumes, flags)
}

/// The first over new ledgers.
fn meets_two_mounts<R: Abort + Threads + Wait + Sync>(
    rt: &R,
    alloc: Global,
    blanks: Blanks,
) -> Result<Met, Errno>
    requires parts { AreCut (2 ^ 64 - 1) blanks }
{
    let flags = Flags::new(alloc).map_err(|_| Errno::NoMemory)?;
    let meeting = flags.first_waits().map_err(|_| Errno::NoMemory)?;
    let gated = GateHome::new(alloc, MemHome::new(alloc), meeting);
    let (Ok(gated), Ok(log)) = (Box::new(alloc, gated), Box::new(alloc, MemLog::new(alloc))) else {
        return Err(Errno::NoMemory);
    };
    let (home, other) = in_memory(alloc, Ok(MemHome::new(alloc)))?;
    let volumes: (Devices, Devices) = ((gated, log), (home, other));
    mounts_on_slots::<Brand, R>(rt, alloc, blanks, volumes, &flags)
}

/// A volume in memory, whose log device waits at a gate.
fn gated_log(
    alloc: Global,
    meeting: Result<Meeting, AllocError>,
) -> Result<(Box<MemHome>, Box<GateLog<MemLog>>), AllocError> {
    let home = Box::new(alloc, MemHome::new(alloc))?;
    let log = GateLog::new(alloc, MemLog::new(alloc), meeting?);
    Ok((home, Box::new(alloc, log)?))
}

/// The second on sixteen slots.
fn logs_on_slots<H: House + Send + Sync, R: Abort + Threads + Wait + Sync>(
    rt: &R,
    alloc: Global,
    blanks: Blanks,
    volumes: (Devices, Devices),
) -> Result<Logged, Errno>
    requires names { AreNamed H.names blanks }
    requires parts { AreCut H.all blanks }
    requires all { H.all ≡ 2 ^ 64 - 1 }
{
    meet_two_logs::<H, Slots<H>, R>(rt, alloc, blanks, volumes)
}

/// The second over new ledgers.
fn meets_two_logs<R: Abort + Threads + Wait + Sync>(
    rt: &R,
    alloc: Global,
    blanks: Blanks,
) -> Result<Logged, Errno>
    requires parts { AreCut (2 ^ 64 - 1) blanks }
{
    let flags = Flags::new(alloc).map_err(|_| Errno::NoMemory)?;
    let (Ok((home, log)), Ok((other, log_too))) = (
        gated_log(alloc, flags.first_waits()),
        gated_log(alloc, flags.second_waits()),
    ) else {
        return Err(Errno::NoMemory);
    };
    let volumes: (Devices, Devices) = ((home, log), (other, log_too));
    logs_on_slots::<Brand, R>(rt, alloc, blanks, volumes)
}

/// A call of one mount is answered while another mount's home device is being read.
#[test]
fn gate_two_mounts(rt: HostRuntime) {
    let told = meets_two_mounts(&rt, rt.alloc(), Blanks::new());
    let wanted = (Ok(()), true, Ok(Forced::Done), Ok(()));
    assert_eq!(rt; told, Ok(wanted));
}

/// Two workers write two logs at once: each log is written while the other is, and both checkpoints land.
#[test]
fn gate_two_logs(rt: HostRuntime) {
    let told = meets_two_logs(&rt, rt.alloc(), Blanks::new());
    let wanted = (
        [
            Ok(Forced::Wait(CkptNo(1))),
            Ok(Forced::Wait(CkptNo(1))),
            Ok(Forced::Done),
            Ok(Forced::Done),
        ],
        Ok(()),
    );
    assert_eq!(rt; told, Ok(wanted));
}
