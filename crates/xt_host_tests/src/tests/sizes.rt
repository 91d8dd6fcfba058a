//! Volumes of small blocks beside one another, called with no worker.

ghost use Rattle.std.specs.Prelude.{◌≡◌, ◌-◌, ◌^◌};
ghost use Rattle.xt_cell.specs.Ledgers.{AreCut, AreNamed};

use crate::tests::lines::{Line, first_wrong, home_of};
use crate::tests::place::{Devices, Place, end, in_memory};
use std::alloc::Global;
use std::marker::Brand;
use std::process::Abort;
use std::rt::HostRuntime;
use std::sync::Wait;
use xt_base::names::Slot;
use xt_base::steps::Errno;
use xt_cell::house::House;
use xt_cell::mount_ref::MountRef;
use xt_cell::reserve::Blanks;
use xt_cell::seat::HostSeat;
use xt_host::desk::Slots;
use xt_host::fault::CloseFault;
use xt_host::host::Host;

/// Blocks of 512 bytes in slot 0, and of 2,048 in slot 1: what a block has, what is past it, and what the whole of it costs.
const LINES: &[Line] = &[
    ("0.1 alloc 564 1 plain", "t1"),
    ("0.1 get t1 7", "ok"),
    ("0.1 log t1 7 0 aa*511", "EINVAL"),
    ("0.1 log t1 7 0 aa*512", "ok"),
    ("0.1 log t1 7 512 bb", "EINVAL"),
    ("0.1 view t1 7", "data aa*512"),
    ("0.1 commit t1", "c1"),
    ("1.1 alloc 2099 1 plain", "t1"),
    ("1.1 get t1 7", "ok"),
    ("1.1 log t1 7 0 aa*2048", "ENOSPC"),
    ("1.1 view t1 7", "data 00*2048"),
    ("1.1 cancel t1", "ok"),
    ("1.1 alloc 180 1 plain", "t2"),
    ("1.1 read t2 9", "ok"),
    ("1.1 log t2 9 2047 bb", "ok"),
    ("1.1 view t2 9", "data 00*2047.bb"),
];

/// Why a volume of blocks of 600 bytes is not mounted, the first line that is told something else, and what the end of the host found wrong.
type Played = (Option<Errno>, Option<usize>, Result<(), CloseFault>);

/// Mounts a slot with blocks of a size.
fn mount<H: House, D: Place<H, R>, R: Abort + Wait>(
    rt: &R,
    host: &Host<H, D>,
    seat: &mut HostSeat<H>,
    slot: u8,
    size: u32,
    devices: D::Devices,
) -> Result<MountRef, Errno>
    requires board { seat.old.board.board ≡ host.now.board }
    ensures board { seat.new.board.board ≡ seat.old.board.board }
{
    match Slot::new(slot) {
        Some(slot) => D::mount_sized(rt, host, seat, slot, size, devices),
        None => Err(Errno::NoDevice),
    }
}

/// Three volumes of different sizes in one host, and all lines by one seat.
fn played<H: House, D: Place<H, R>, R: Abort + Wait>(
    rt: &R,
    alloc: Global,
    blanks: Blanks,
    first: D::Devices,
    second: D::Devices,
    third: D::Devices,
) -> Result<Played, Errno>
    requires names { AreNamed H.names blanks }
    requires parts { AreCut H.all blanks }
    requires all { H.all ≡ 2 ^ 64 - 1 }
{
    let (host, mut seat, _passes) = Host::<H, D>::new(alloc, blanks, 1, 1)?;
    let _small = mount(rt, &host, &mut seat, 0, 512, first)?;
    let _greater = mount(rt, &host, &mut seat, 1, 2_048, second)?;
    let refused = mount(rt, &host, &mut seat, 2, 600, third).err();
    let wrong = first_wrong(rt, alloc, &host, &mut seat, LINES);
    let closed = end(alloc, host, vec![in alloc; seat].ok())?;
    Ok((refused, wrong, closed))
}

/// The same on sixteen slots.
fn played_on_slots<H: House, R: Abort + Wait>(
    rt: &R,
    alloc: Global,
    blanks: Blanks,
    first: Devices,
    second: Devices,
    third: Devices,
) -> Result<Played, Errno>
    requires names { AreNamed H.names blanks }
    requires parts { AreCut H.all blanks }
    requires all { H.all ≡ 2 ^ 64 - 1 }
{
    played::<H, Slots<H>, R>(rt, alloc, blanks, first, second, third)
}

/// The same over new ledgers.
fn plays<R: Abort + Wait>(rt: &R, alloc: Global, blanks: Blanks) -> Result<Played, Errno>
    requires parts { AreCut (2 ^ 64 - 1) blanks }
{
    let (home, log) = in_memory(alloc, home_of(alloc, &[]))?;
    let (other_home, other_log) = in_memory(alloc, home_of(alloc, &[]))?;
    let (third_home, third_log) = in_memory(alloc, home_of(alloc, &[]))?;
    played_on_slots::<Brand, R>(
        rt,
        alloc,
        blanks,
        (home, log),
        (other_home, other_log),
        (third_home, third_log),
    )
}

#[test]
fn small_blocks_stand_beside_great_ones(rt: HostRuntime) {
    assert_eq!(rt;
        plays(&rt, rt.alloc(), Blanks::new()),
        Ok((Some(Errno::Invalid), None, Ok(())))
    );
}
