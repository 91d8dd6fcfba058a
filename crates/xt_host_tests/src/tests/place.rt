//! What the tests do to a host beside its calls. All else is written over a desk, and names no slot.

ghost use Rattle.std.specs.Prelude.{◌≡◌, ◌-◌, ◌^◌, IfOk};
ghost use Rattle.std.specs.Arc.{arc_value};
ghost use Rattle.xt_cell.specs.Ledgers.{AreCut, AreNamed};

use crate::tests::door::Door;
use std::alloc::{AllocError, Global};
use std::process::Abort;
use std::sync::Wait;
use xt_base::names::Slot;
use xt_base::steps::Errno;
use xt_cell::house::House;
use xt_cell::mount_ref::MountRef;
use xt_cell::reserve::Blanks;
use xt_cell::seat::HostSeat;
use xt_dev::home::HomeDevice;
use xt_dev::log::LogDevice;
use xt_dev::mem_home::MemHome;
use xt_dev::mem_log::MemLog;
use xt_host::desk::{Desk, FromBlanks, IntoBooks, Slots};
use xt_host::fault::CloseFault;
use xt_host::host::Host;
use xt_queue::jobs::WorkPass;

/// A desk at whose host names are done.
pub trait Workplace<H: House, R: Abort + Wait>: Desk<H, R> {
    /// Works until a door is shut and no name waits. No job comes back.
    fn work(rt: &R, host: &Host<H, Self>, pass: &mut WorkPass, seat: &mut HostSeat<H>, door: &Door)
    where
        Self: Sized,
        requires queue { pass.old.queue ≡ arc_value host.now.queue }
        requires board { seat.old.board.board ≡ host.now.board }
        ensures queue { pass.new.queue ≡ pass.old.queue }
        ensures board { seat.new.board.board ≡ seat.old.board.board };
}

/// A desk whose host is made, mounted, unmounted and ended.
pub trait Place<H: House, R: Abort + Wait>: Workplace<H, R> + FromBlanks<H> + IntoBooks + Drop {
    /// The two devices of a mount.
    type Devices: Drop;

    /// Mounts a slot over devices, which are let go where that is refused.
    fn mount(
        rt: &R,
        host: &Host<H, Self>,
        seat: &mut HostSeat<H>,
        slot: Slot,
        devices: Self::Devices,
    ) -> Result<MountRef, Errno>
    where
        Self: Sized,
        requires board { seat.old.board.board ≡ host.now.board }
        ensures board { seat.new.board.board ≡ seat.old.board.board };

    /// The same with blocks of a size.
    fn mount_sized(
        rt: &R,
        host: &Host<H, Self>,
        seat: &mut HostSeat<H>,
        slot: Slot,
        size: u32,
        devices: Self::Devices,
    ) -> Result<MountRef, Errno>
    where
        Self: Sized,
        requires board { seat.old.board.board ≡ host.now.board }
        ensures board { seat.new.board.board ≡ seat.old.board.board };

    /// Unmounts a mount, and lets its devices go.
    fn unmount(
        rt: &R,
        host: &Host<H, Self>,
        seat: &mut HostSeat<H>,
        at: MountRef,
    ) -> Result<(), Errno>
    where
        Self: Sized,
        requires board { seat.old.board.board ≡ host.now.board }
        ensures board { seat.new.board.board ≡ seat.old.board.board };
}

/// The two devices of a mount of the sixteen slots.
pub type Devices = (Box<dyn HomeDevice + Send>, Box<dyn LogDevice + Send>);

impl<H: House, R: Abort + Wait> Workplace<H, R> for Slots<H> {
    fn work(
        rt: &R,
        host: &Host<H, Slots<H>>,
        pass: &mut WorkPass,
        seat: &mut HostSeat<H>,
        door: &Door,
    ) {
        if let Some(_stranger) = host.work(rt, pass, seat, door) {
            panic!(rt; "a job came back");
        }
    }
}

impl<H: House, R: Abort + Wait> Place<H, R> for Slots<H> {
    type Devices = Devices;

    fn mount(
        rt: &R,
        host: &Host<H, Slots<H>>,
        seat: &mut HostSeat<H>,
        slot: Slot,
        devices: Devices,
    ) -> Result<MountRef, Errno> {
        let (home, log) = devices;
        let mounted = host.mount(rt, seat, slot, 65_536, 1_024, home, log);
        mounted.map_err(|back| back.errno)
    }

    fn mount_sized(
        rt: &R,
        host: &Host<H, Slots<H>>,
        seat: &mut HostSeat<H>,
        slot: Slot,
        size: u32,
        devices: Devices,
    ) -> Result<MountRef, Errno> {
        let (home, log) = devices;
        let mounted = host.mount_sized(rt, seat, slot, 65_536, 1_024, size, home, log);
        mounted.map_err(|back| back.errno)
    }

    fn unmount(
        rt: &R,
        host: &Host<H, Slots<H>>,
        seat: &mut HostSeat<H>,
        at: MountRef,
    ) -> Result<(), Errno> {
        let _devices = host.unmount(rt, seat, at)?;
        Ok(())
    }
}

/// Works until no name waits.
pub fn work_off<H: House, D: Workplace<H, R>, R: Abort + Wait>(
    rt: &R,
    host: &Host<H, D>,
    pass: &mut WorkPass,
    seat: &mut HostSeat<H>,
)
    requires queue { pass.old.queue ≡ arc_value host.now.queue }
    requires board { seat.old.board.board ≡ host.now.board }
    ensures queue { pass.new.queue ≡ pass.old.queue }
    ensures board { seat.new.board.board ≡ seat.old.board.board }
{
    let door = Door::closed();
    D::work(rt, host, pass, seat, &door);
}

/// A host with one volume: its first seat, the pass of its one worker, and the mount, of slot 0.
pub type Stand<H, D> = (Host<H, D>, HostSeat<H>, WorkPass, MountRef);

/// Such a host, whose books have this limit.
pub fn stand<H: House, D: Place<H, R>, R: Abort + Wait>(
    rt: &R,
    alloc: Global,
    blanks: Blanks,
    book_limit: u64,
    devices: D::Devices,
) -> Result<Stand<H, D>, Errno>
    requires names { AreNamed H.names blanks }
    requires parts { AreCut H.all blanks }
    requires all { H.all ≡ 2 ^ 64 - 1 }
    ensures board { IfOk result (λ made. made.1.board.board ≡ made.0.board) }
    ensures queue { IfOk result (λ made. made.2.queue ≡ arc_value made.0.queue) }
{
    let (host, mut seat, mut passes) = Host::<H, D>::new(alloc, blanks, 1, book_limit)?;
    let pass = passes.pop().ok_or(Errno::Invalid)?;
    let slot = Slot::new(0).ok_or(Errno::Invalid)?;
    let at = D::mount(rt, &host, &mut seat, slot, devices)?;
    Ok((host, seat, pass, at))
}

/// A home device, and a log device in memory.
pub fn in_memory(
    alloc: Global,
    home: Result<MemHome, AllocError>,
) -> Result<(Box<MemHome>, Box<MemLog>), Errno> {
    let Ok(home) = home else {
        return Err(Errno::NoMemory);
    };
    let (Ok(home), Ok(log)) = (Box::new(alloc, home), Box::new(alloc, MemLog::new(alloc))) else {
        return Err(Errno::NoMemory);
    };
    Ok((home, log))
}

/// What the end of a host with these seats finds wrong, where there was memory for them.
pub fn end<H: House, D: IntoBooks + Drop>(
    alloc: Global,
    host: Host<H, D>,
    seats: Option<Vec<HostSeat<H>>>,
) -> Result<Result<(), CloseFault>, Errno> {
    let Some(seats) = seats else {
        return Err(Errno::NoMemory);
    };
    Ok(host.close(seats, Vec::new(alloc)))
}
