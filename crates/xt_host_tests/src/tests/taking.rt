//! What a force posts is taken.

ghost use Rattle.std.specs.Prelude.{◌≡◌, ◌-◌, ◌^◌};
ghost use Rattle.std.specs.Arc.{arc_value};
ghost use Rattle.xt_cell.specs.Ledgers.{AreCut, AreNamed};

use crate::tests::calls::change;
use crate::tests::place::{Devices, Place, in_memory, stand};
use std::alloc::Global;
use std::marker::Brand;
use std::process::Abort;
use std::rt::HostRuntime;
use std::sync::Wait;
use xt_base::names::{JobKind, JobName, Life, Slot};
use xt_base::steps::Errno;
use xt_cell::house::House;
use xt_cell::mount_ref::MountRef;
use xt_cell::reserve::Blanks;
use xt_cell::seat::HostSeat;
use xt_dev::mem_home::MemHome;
use xt_host::desk::{Desk, Slots};
use xt_host::host::{BOOK_ENTRIES, Host};
use xt_queue::jobs::WorkPass;

/// What a worker takes before a force, and twice after it.
type Taken = (Option<JobName>, Option<JobName>, Option<JobName>);

/// Changes a mount and forces its log: what a worker takes before and after.
fn take_around<H: House, D: Desk<H, R>, R: Abort + Wait>(
    rt: &R,
    alloc: Global,
    host: &Host<H, D>,
    seat: &mut HostSeat<H>,
    pass: &mut WorkPass,
    at: &MountRef,
) -> Result<Taken, Errno>
    requires queue { pass.old.queue ≡ arc_value host.now.queue }
    requires board { seat.old.board.board ≡ host.now.board }
{
    change(rt, alloc, host, seat, *at)?;
    let before = host.take(rt, pass);
    let _forced = host.force(rt, seat, *at)?;
    let after = host.take(rt, pass);
    Ok((before, after, host.take(rt, pass)))
}

/// The same on a host with one worker and one volume.
fn take_one<H: House, D: Place<H, R>, R: Abort + Wait>(
    rt: &R,
    alloc: Global,
    blanks: Blanks,
    devices: D::Devices,
) -> Result<Taken, Errno>
    requires names { AreNamed H.names blanks }
    requires parts { AreCut H.all blanks }
    requires all { H.all ≡ 2 ^ 64 - 1 }
{
    let (host, mut seat, mut pass, at) = stand::<H, D, R>(
        rt,
        alloc,
        blanks,
        BOOK_ENTRIES,
        devices,
    )?;
    take_around(rt, alloc, &host, &mut seat, &mut pass, &at)
}

/// The same on sixteen slots.
fn take_on_slots<H: House, R: Abort + Wait>(
    rt: &R,
    alloc: Global,
    blanks: Blanks,
    devices: Devices,
) -> Result<Taken, Errno>
    requires names { AreNamed H.names blanks }
    requires parts { AreCut H.all blanks }
    requires all { H.all ≡ 2 ^ 64 - 1 }
{
    take_one::<H, Slots<H>, R>(rt, alloc, blanks, devices)
}

/// The same over new ledgers.
fn takes<R: Abort + Wait>(rt: &R, alloc: Global, blanks: Blanks) -> Result<Taken, Errno>
    requires parts { AreCut (2 ^ 64 - 1) blanks }
{
    let (home, log) = in_memory(alloc, Ok(MemHome::new(alloc)))?;
    take_on_slots::<Brand, R>(rt, alloc, blanks, (home, log))
}

/// A commit posts nothing; a force posts the name of the checkpoint, once.
#[test]
fn a_posted_name_is_taken(rt: HostRuntime) {
    let name = JobName {
        slot: Slot::new(0).expect(&rt, "a slot"),
        life: Life(1),
        kind: JobKind::Ckpt,
        serial: 1,
    };
    assert_eq!(rt;
        takes(&rt, rt.alloc(), Blanks::new()),
        Ok((None, Some(name), None))
    );
}
