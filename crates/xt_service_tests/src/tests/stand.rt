//! A host with two volumes in memory, over a desk whose slots are mounted: a function that names the sixteen slots costs the proof several
//! times as much.

ghost use Rattle.std.specs.Prelude.{◌≡◌, ◌-◌, ◌^◌, IfOk, take};
ghost use Rattle.std.specs.Arc.{arc_value};
ghost use Rattle.xt_base.specs.declared.sizes.TheConstants.{WORKERS};
ghost use Rattle.xt_cell.specs.Ledgers.{AreCut, AreNamed};
ghost use Rattle.xt_queue.specs.Passes.{fresh_works};

use std::alloc::Global;
use std::sync::Wait;
use xt_base::names::Slot;
use xt_base::steps::Errno;
use xt_cell::house::House;
use xt_cell::reserve::Blanks;
use xt_cell::seat::HostSeat;
use xt_dev::home::HomeDevice;
use xt_dev::log::LogDevice;
use xt_dev::mem_home::MemHome;
use xt_dev::mem_log::MemLog;
use xt_host::desk::{FromBlanks, IntoBooks, Slots};
use xt_host::host::Host;
use xt_queue::jobs::WorkPass;
use xt_service::workplace::Workplace;

/// A desk whose host is made, mounted and ended.
pub trait Stand<H: House, R: Wait>: Workplace<H, R> + FromBlanks<H> + IntoBooks + Drop {
    /// The two devices of a mount.
    type Devices: Drop;

    /// Mounts a slot over devices, which are let go where that is refused.
    fn mount(
        rt: &R,
        host: &Host<H, Self>,
        seat: &mut HostSeat<H>,
        slot: Slot,
        devices: Self::Devices,
    ) -> Result<(), Errno>
    where
        Self: Sized,
        requires board { seat.old.board.board ≡ host.now.board }
        ensures board { seat.new.board.board ≡ seat.old.board.board };
}

/// The two devices of a mount of the sixteen slots.
pub type Devices = (Box<dyn HomeDevice + Send>, Box<dyn LogDevice + Send>);

impl<H: House, R: Wait> Stand<H, R> for Slots<H> {
    type Devices = Devices;

    fn mount(
        rt: &R,
        host: &Host<H, Slots<H>>,
        seat: &mut HostSeat<H>,
        slot: Slot,
        devices: Devices,
    ) -> Result<(), Errno> {
        let (home, log) = devices;
        match host.mount(rt, seat, slot, 65_536, 1_024, home, log) {
            Ok(_) => Ok(()),
            Err(back) => Err(back.errno),
        }
    }
}

/// Devices in memory to which nothing was written.
pub fn in_memory(alloc: Global) -> Result<Devices, Errno> {
    let (Ok(home), Ok(log)) = (
        Box::new(alloc, MemHome::new(alloc)),
        Box::new(alloc, MemLog::new(alloc)),
    ) else {
        return Err(Errno::NoMemory);
    };
    Ok((home, log))
}

/// Slots 0 and 1.
pub fn two_slots() -> Result<(Slot, Slot), Errno> {
    match (Slot::new(0), Slot::new(1)) {
        (Some(first), Some(second)) => Ok((first, second)),
        _ => Err(Errno::Invalid),
    }
}

/// A host with two slots mounted over devices, its first seat, and the pass of its one worker.
pub fn mounted<H: House, D: Stand<H, R>, R: Wait>(
    rt: &R,
    alloc: Global,
    blanks: Blanks,
    slots: (Slot, Slot),
    devices: (D::Devices, D::Devices),
) -> Result<(Host<H, D>, HostSeat<H>, Vec<WorkPass>), Errno>
    requires names { AreNamed H.names blanks }
    requires parts { AreCut H.all blanks }
    requires all { H.all ≡ 2 ^ 64 - 1 }
    ensures board { IfOk result (λ made. made.1.board.board ≡ made.0.board) }
    ensures passes { IfOk result (λ made. made.2.items ≡ take 1 (fresh_works (arc_value made.0.queue) WORKERS)) }
{
    let (host, mut own, passes) = Host::<H, D>::new(alloc, blanks, 1, 1_048_576)?;
    D::mount(rt, &host, &mut own, slots.0, devices.0)?;
    D::mount(rt, &host, &mut own, slots.1, devices.1)?;
    Ok((host, own, passes))
}
