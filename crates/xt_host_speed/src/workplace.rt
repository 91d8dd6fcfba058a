//! What a measurement asks of its host beside its calls: that slots be mounted, names be done, and mounts be unmounted.

ghost use Rattle.std.specs.Prelude.{◌≡◌};
ghost use Rattle.std.specs.Arc.{arc_value};

use crate::null::{HOME_BLOCKS, LOG_BYTES};
use std::sync::Wait;
use std::thread;
use xt_base::names::{JobName, Slot};
use xt_base::steps::Errno;
use xt_cell::house::House;
use xt_cell::job::DoneJob;
use xt_cell::mount_ref::MountRef;
use xt_cell::seat::HostSeat;
use xt_dev::home::HomeDevice;
use xt_dev::log::LogDevice;
use xt_host::desk::{Desk, Slots};
use xt_host::gate::Gate;
use xt_host::host::Host;
use xt_queue::jobs::WorkPass;

/// A desk at whose host names are done and mounts are unmounted. What is measured is written over it, and names no slot.
pub trait Workplace<H: House, R: Wait>: Desk<H, R> {
    /// Does each name that waits to its end, until none waits.
    fn work(rt: &R, host: &Host<H, Self>, pass: &mut WorkPass, seat: &mut HostSeat<H>)
    where
        Self: Sized,
        requires queue { pass.old.queue ≡ arc_value host.now.queue }
        requires board { seat.old.board.board ≡ host.now.board }
        ensures queue { pass.new.queue ≡ pass.old.queue }
        ensures board { seat.new.board.board ≡ seat.old.board.board };

    /// Unmounts a mount, and lets its devices go.
    fn unmount(
        rt: &R,
        host: &Host<H, Self>,
        seat: &mut HostSeat<H>,
        at: MountRef,
    ) -> Result<(), Errno>
    where
        Self: Sized,
        requires board { seat.old.board.board ≡ host.now.board }
        ensures board { seat.new.board.board ≡ seat.old.board.board };
}

/// A workplace whose slots are mounted over devices of some kind.
pub trait Mounting<H: House, R: Wait>: Workplace<H, R> {
    /// The devices of one mount.
    type Devices: Drop;

    /// Mounts a slot over its devices, and lets them go where it is refused.
    fn mount(
        rt: &R,
        host: &Host<H, Self>,
        seat: &mut HostSeat<H>,
        slot: Slot,
        devices: Self::Devices,
    ) -> Result<MountRef, Errno>
    where
        Self: Sized,
        requires board { seat.old.board.board ≡ host.now.board }
        ensures board { seat.new.board.board ≡ seat.old.board.board };
}

/// The devices of a slot of a host that runs.
#[derive(Drop)]
pub struct Devices {
    pub home: Box<dyn HomeDevice + Send>,
    pub log: Box<dyn LogDevice + Send>,
}

/// Lets a worker go once no name waits.
struct UntilIdle;

impl Gate for UntilIdle {
    fn before(&self, _name: &JobName) {}

    fn go_on(&self) -> bool {
        false
    }
}

/// Ends a job that came back, again and again until it is taken. No run has one.
fn give_back<H: House, R: Wait>(rt: &R, host: &Host<H>, seat: &mut HostSeat<H>, done: DoneJob)
    requires board { seat.old.board.board ≡ host.now.board }
    ensures board { seat.new.board.board ≡ seat.old.board.board }
{
    let mut done = done;
    for _ in rt.forever() {
        match host.end(rt, seat, done) {
            Ok(_reply) => return,
            Err((back, _fault)) => done = back,
        }
        thread::yield_now();
    }
    unreachable!()
}

impl<H: House, R: Wait> Workplace<H, R> for Slots<H> {
    fn work(rt: &R, host: &Host<H, Slots<H>>, pass: &mut WorkPass, seat: &mut HostSeat<H>) {
        let stranger = host.work(rt, pass, seat, &UntilIdle);
        if let Some(done) = stranger {
            give_back(rt, host, seat, done);
        }
    }

    fn unmount(
        rt: &R,
        host: &Host<H, Slots<H>>,
        seat: &mut HostSeat<H>,
        at: MountRef,
    ) -> Result<(), Errno> {
        match host.unmount(rt, seat, at) {
            Ok(_devices) => Ok(()),
            Err(errno) => Err(errno),
        }
    }
}

impl<H: House, R: Wait> Mounting<H, R> for Slots<H> {
    type Devices = Devices;

    fn mount(
        rt: &R,
        host: &Host<H, Slots<H>>,
        seat: &mut HostSeat<H>,
        slot: Slot,
        devices: Devices,
    ) -> Result<MountRef, Errno> {
        let Devices { home, log } = devices;
        match host.mount(rt, seat, slot, LOG_BYTES, HOME_BLOCKS, home, log) {
            Ok(at) => Ok(at),
            Err(back) => Err(back.errno),
        }
    }
}
