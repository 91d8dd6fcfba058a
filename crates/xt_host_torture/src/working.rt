//! What a trial asks of its host beside calls: that slots are mounted and unmounted, and the work of one worker.

ghost use Rattle.std.specs.Prelude.{◌≡◌};
ghost use Rattle.std.specs.Arc.{arc_value};

use std::sync::Wait;
use std::thread;
use xt_base::names::{JobName, Slot};
use xt_base::steps::Errno;
use xt_cell::house::House;
use xt_cell::job::DoneJob;
use xt_cell::mount_ref::MountRef;
use xt_cell::mounting::MountRefused;
use xt_cell::seat::HostSeat;
use xt_dev::home::HomeDevice;
use xt_dev::log::LogDevice;
use xt_host::desk::{Desk, Slots};
use xt_host::gate::Gate;
use xt_host::host::Host;
use xt_queue::jobs::WorkPass;

/// What is mounted: a slot, with so many bytes of log and so many blocks, of a size where one is said.
#[derive(Clone, Copy)]
pub struct Volume {
    pub slot: Slot,
    pub log_bytes: u32,
    pub blocks: u64,
    pub size: Option<u32>,
}

/// A desk at whose host slots are mounted, and names are done. A trial is written over it, and names no slot.
pub trait Workplace<H: House, R: Wait>: Desk<H, R> {
    /// The two devices of a mount.
    type Devices: Drop;

    /// Mounts a slot over devices. Where it is refused they come back, with the reason.
    fn mount(
        rt: &R,
        host: &Host<H, Self>,
        seat: &mut HostSeat<H>,
        volume: &Volume,
        devices: Self::Devices,
    ) -> Result<(), (Self::Devices, Errno)>
    where
        Self: Sized,
        requires board { seat.old.board.board ≡ host.now.board }
        ensures board { seat.new.board.board ≡ seat.old.board.board };

    /// Unmounts a mount: its devices, where it is not refused.
    fn unmount(
        rt: &R,
        host: &Host<H, Self>,
        seat: &mut HostSeat<H>,
        at: MountRef,
    ) -> Option<Self::Devices>
    where
        Self: Sized,
        requires board { seat.old.board.board ≡ host.now.board }
        ensures board { seat.new.board.board ≡ seat.old.board.board };

    /// Works until no name waits: whether each job ended at its slot, and none came back.
    fn work(rt: &R, host: &Host<H, Self>, pass: &mut WorkPass, seat: &mut HostSeat<H>) -> bool
    where
        Self: Sized,
        requires queue { pass.old.queue ≡ arc_value host.now.queue }
        requires board { seat.old.board.board ≡ host.now.board }
        ensures queue { pass.new.queue ≡ pass.old.queue }
        ensures board { seat.new.board.board ≡ seat.old.board.board };
}

/// The two devices of a mount, boxed.
pub type BoxedDevices = (Box<dyn HomeDevice + Send>, Box<dyn LogDevice + Send>);

/// Lets a worker go once no name waits.
struct UntilIdle;

impl Gate for UntilIdle {
    fn before(&self, _name: &JobName) {}

    fn go_on(&self) -> bool {
        false
    }
}

/// Ends a job that came back, again and again until it is taken.
fn end<H: House, R: Wait>(rt: &R, host: &Host<H>, seat: &mut HostSeat<H>, done: DoneJob)
    requires board { seat.old.board.board ≡ host.now.board }
    ensures board { seat.new.board.board ≡ seat.old.board.board }
{
    let mut done = done;
    for _ in rt.forever() {
        match host.end(rt, seat, done) {
            Ok(_reply) => return,
            Err((back, _fault)) => done = back,
        }
        thread::yield_now();
    }
    unreachable!()
}

/// Mounts a slot over devices, with blocks of a size where one is said.
fn mounted<H: House, R: Wait>(
    rt: &R,
    host: &Host<H>,
    seat: &mut HostSeat<H>,
    volume: &Volume,
    devices: BoxedDevices,
) -> Result<MountRef, MountRefused>
    requires board { seat.old.board.board ≡ host.now.board }
    ensures board { seat.new.board.board ≡ seat.old.board.board }
{
    let (home, log) = devices;
    let Volume {
        slot,
        log_bytes,
        blocks,
        size,
    } = *volume;
    match size {
        None => host.mount(rt, seat, slot, log_bytes, blocks, home, log),
        Some(size) => host.mount_sized(rt, seat, slot, log_bytes, blocks, size, home, log),
    }
}

impl<H: House, R: Wait> Workplace<H, R> for Slots<H> {
    type Devices = BoxedDevices;

    fn mount(
        rt: &R,
        host: &Host<H, Slots<H>>,
        seat: &mut HostSeat<H>,
        volume: &Volume,
        devices: BoxedDevices,
    ) -> Result<(), (BoxedDevices, Errno)> {
        match mounted(rt, host, seat, volume, devices) {
            Ok(_at) => Ok(()),
            Err(back) => Err(((back.home, back.log), back.errno)),
        }
    }

    fn unmount(
        rt: &R,
        host: &Host<H, Slots<H>>,
        seat: &mut HostSeat<H>,
        at: MountRef,
    ) -> Option<BoxedDevices> {
        host.unmount(rt, seat, at).ok()
    }

    fn work(rt: &R, host: &Host<H, Slots<H>>, pass: &mut WorkPass, seat: &mut HostSeat<H>) -> bool {
        match host.work(rt, pass, seat, &UntilIdle) {
            Some(done) => {
                end(rt, host, seat, done);
                false
            }
            None => true,
        }
    }
}
