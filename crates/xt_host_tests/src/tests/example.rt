//! A whole run by tokens, as a program would write it: one volume, one worker, one change.

ghost use Rattle.std.specs.Prelude.{◌≡◌, ◌-◌, ◌^◌};
ghost use Rattle.std.specs.Arc.{arc_value};
ghost use Rattle.xt_cell.specs.Ledgers.{AreCut, AreNamed};

use crate::tests::calls::change;
use crate::tests::place::{Devices, Place, Workplace, end, in_memory, stand, work_off};
use std::alloc::Global;
use std::marker::Brand;
use std::process::Abort;
use std::rt::HostRuntime;
use std::sync::Wait;
use xt_base::names::CkptNo;
use xt_base::steps::Errno;
use xt_cell::house::House;
use xt_cell::mount_ref::MountRef;
use xt_cell::reserve::Blanks;
use xt_cell::seat::HostSeat;
use xt_dev::mem_home::MemHome;
use xt_host::desk::Slots;
use xt_host::fault::CloseFault;
use xt_host::host::Host;
use xt_host::outcomes::Forced;
use xt_queue::jobs::WorkPass;

/// Has a worker write a checkpoint, and then the block home: how far a force had come before and after the first.
fn write_out<H: House, D: Workplace<H, R>, R: Abort + Wait>(
    rt: &R,
    host: &Host<H, D>,
    seat: &mut HostSeat<H>,
    pass: &mut WorkPass,
    at: &MountRef,
) -> Result<(Forced, Forced), Errno>
    requires queue { pass.old.queue ≡ arc_value host.now.queue }
    requires board { seat.old.board.board ≡ host.now.board }
    ensures queue { pass.new.queue ≡ pass.old.queue }
    ensures board { seat.new.board.board ≡ seat.old.board.board }
{
    let before = host.force(rt, seat, *at)?;
    work_off(rt, host, pass, seat);
    let after = host.force(rt, seat, *at)?;
    host.push(rt, seat, *at)?;
    work_off(rt, host, pass, seat);
    Ok((before, after))
}

/// What a run tells: the number of the commit, how far the two forces had come, and what the end of the host found.
type Told = (CkptNo, (Forced, Forced), Result<(), CloseFault>);

/// Mounts a volume, changes it, has it written, unmounts it, and ends the host, whose books have this limit.
fn run<H: House, D: Place<H, R>, R: Abort + Wait>(
    rt: &R,
    alloc: Global,
    blanks: Blanks,
    book_limit: u64,
    devices: D::Devices,
) -> Result<Told, Errno>
    requires names { AreNamed H.names blanks }
    requires parts { AreCut H.all blanks }
    requires all { H.all ≡ 2 ^ 64 - 1 }
{
    let (host, mut seat, mut pass, at) = stand::<H, D, R>(rt, alloc, blanks, book_limit, devices)?;
    let number = change(rt, alloc, &host, &mut seat, at)?;
    let forced = write_out(rt, &host, &mut seat, &mut pass, &at)?;
    D::unmount(rt, &host, &mut seat, at)?;
    let closed = end(alloc, host, vec![in alloc; seat].ok())?;
    Ok((number, forced, closed))
}

/// The same on sixteen slots.
fn run_on_slots<H: House, R: Abort + Wait>(
    rt: &R,
    alloc: Global,
    blanks: Blanks,
    book_limit: u64,
    devices: Devices,
) -> Result<Told, Errno>
    requires names { AreNamed H.names blanks }
    requires parts { AreCut H.all blanks }
    requires all { H.all ≡ 2 ^ 64 - 1 }
{
    run::<H, Slots<H>, R>(rt, alloc, blanks, book_limit, devices)
}

/// The same over new ledgers.
fn runs<R: Abort + Wait>(
    rt: &R,
    alloc: Global,
    blanks: Blanks,
    book_limit: u64,
) -> Result<Told, Errno>
    requires parts { AreCut (2 ^ 64 - 1) blanks }
{
    let (home, log) = in_memory(alloc, Ok(MemHome::new(alloc)))?;
    run_on_slots::<Brand, R>(rt, alloc, blanks, book_limit, (home, log))
}

/// One block of one transaction goes into the first checkpoint, of two pieces, which a force waits for until the worker wrote it; and
/// the host ends with nothing wrong.
const AS_WANTED: Result<Told, Errno> = Ok((
    CkptNo(1),
    (Forced::Wait(CkptNo(1)), Forced::Done),
    Ok(()),
));

/// The book has all its entries to the end.
#[test]
fn a_change_is_written(rt: HostRuntime) {
    let told = runs(&rt, rt.alloc(), Blanks::new(), 1_048_576);
    assert_eq!(rt; told, AS_WANTED);
}

/// The book is folded at each event: the receipts are older than its base, but for the last.
#[test]
fn each_event_folds(rt: HostRuntime) {
    let told = runs(&rt, rt.alloc(), Blanks::new(), 1);
    assert_eq!(rt; told, AS_WANTED);
}

/// The book is folded at each second event, or after a post.
#[test]
fn two_entries_are_folded(rt: HostRuntime) {
    let told = runs(&rt, rt.alloc(), Blanks::new(), 2);
    assert_eq!(rt; told, AS_WANTED);
}
