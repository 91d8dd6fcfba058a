//! A host that serves for long: the books of its slots stay short.

ghost use Rattle.std.specs.Prelude.{◌≡◌, ◌-◌, ◌^◌};
ghost use Rattle.xt_cell.specs.Ledgers.{AreCut, AreNamed};

use crate::tests::place::{Devices, Place, in_memory, stand};
use std::alloc::Global;
use std::marker::Brand;
use std::process::Abort;
use std::rt::HostRuntime;
use std::sync::Wait;
use xt_base::steps::Errno;
use xt_cell::house::House;
use xt_cell::mount_ref::MountRef;
use xt_cell::reserve::Blanks;
use xt_cell::seat::HostSeat;
use xt_dev::mem_home::MemHome;
use xt_host::desk::{Desk, Slots};
use xt_host::host::Host;

/// From how many entries on a book is folded.
const BOOK_LIMIT: u64 = 64;

/// How often it is frozen and thawed.
const CALLS: u32 = 1_000;

/// Of the book of slot 0: how many entries were folded, and how many it has.
type Length = (u64, usize);

/// Freezes a mount and thaws it again, so often, and forgets the receipts.
fn call_often<H: House, D: Desk<H, R>, R: Wait>(
    rt: &R,
    host: &Host<H, D>,
    seat: &mut HostSeat<H>,
    at: &MountRef,
) -> Result<(), Errno>
    requires board { seat.old.board.board ≡ host.now.board }
    ensures board { seat.new.board.board ≡ seat.old.board.board }
{
    for _ in 0..CALLS {
        host.freeze(rt, seat, *at)?;
        seat.forget();
        host.thaw(rt, seat, *at)?;
    }
    Ok(())
}

/// How long the book of a slot is after so many calls.
fn book_after<H: House, D: Place<H, R>, R: Abort + Wait>(
    rt: &R,
    alloc: Global,
    blanks: Blanks,
    devices: D::Devices,
) -> Result<Length, Errno>
    requires names { AreNamed H.names blanks }
    requires parts { AreCut H.all blanks }
    requires all { H.all ≡ 2 ^ 64 - 1 }
{
    let (host, mut seat, _pass, at) = stand::<H, D, R>(rt, alloc, blanks, BOOK_LIMIT, devices)?;
    call_often(rt, &host, &mut seat, &at)?;
    let books = host.into_books();
    Ok((books[0].folded(), books[0].entries().len()))
}

/// The same on sixteen slots.
fn book_on_slots<H: House, R: Abort + Wait>(
    rt: &R,
    alloc: Global,
    blanks: Blanks,
    devices: Devices,
) -> Result<Length, Errno>
    requires names { AreNamed H.names blanks }
    requires parts { AreCut H.all blanks }
    requires all { H.all ≡ 2 ^ 64 - 1 }
{
    book_after::<H, Slots<H>, R>(rt, alloc, blanks, devices)
}

/// The same over new ledgers.
fn books_after<R: Abort + Wait>(rt: &R, alloc: Global, blanks: Blanks) -> Result<Length, Errno>
    requires parts { AreCut (2 ^ 64 - 1) blanks }
{
    let (home, log) = in_memory(alloc, Ok(MemHome::new(alloc)))?;
    book_on_slots::<Brand, R>(rt, alloc, blanks, (home, log))
}

/// Of 2,001 events 31 times 64 were folded, and 17 are left.
#[test]
fn a_book_stays_short(rt: HostRuntime) {
    assert_eq!(rt;
        books_after(&rt, rt.alloc(), Blanks::new()),
        Ok((1_984, 17))
    );
}
