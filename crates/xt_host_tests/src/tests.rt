//! Hosts of two seats, from their making to their end.

ghost use Rattle.std.specs.Prelude.{◌≡◌, ◌-◌, ◌^◌};
ghost use Rattle.xt_cell.specs.Ledgers.{AreCut, AreNamed};

mod booked;
mod calls;
mod door;
mod example;
mod folding;
mod gates;
mod lines;
mod place;
mod replay;
mod rows;
mod sizes;
mod taking;
mod tape;
mod threads;
mod volumes;
mod waiting;

use crate::tests::place::Place;
use std::alloc::Global;
use std::marker::Brand;
use std::process::Abort;
use std::rt::HostRuntime;
use std::sync::Wait;
use xt_base::names::{Life, Slot};
use xt_base::steps::{Errno, Reply, Request};
use xt_cell::house::House;
use xt_cell::mount_ref::MountRef;
use xt_cell::reserve::Blanks;
use xt_cell::seat::HostSeat;
use xt_host::desk::{Desk, Slots};
use xt_host::fault::CloseFault;
use xt_host::host::Host;

/// Whether a call of a slot that nothing is mounted in is told so.
fn is_empty<H: House, D: Desk<H, R>, R: Wait>(
    rt: &R,
    host: &Host<H, D>,
    seat: &mut HostSeat<H>,
    slot: Slot,
) -> bool
    requires board { seat.old.board.board ≡ host.now.board }
    ensures board { seat.new.board.board ≡ seat.old.board.board }
{
    let at = MountRef {
        slot,
        life: Life(1),
    };
    host.call(rt, seat, at, Request::Force) == Reply::Refused(Errno::NoDevice)
}

/// Two seats call one slot each, and the host is closed with both of them, or with the first alone; None where a call is told
/// something else.
fn closed<H: House, D: Place<H, R>, R: Abort + Wait>(
    rt: &R,
    alloc: Global,
    blanks: Blanks,
    slots: (Slot, Slot),
    is_away: bool,
) -> Result<Option<Result<(), CloseFault>>, Errno>
    requires names { AreNamed H.names blanks }
    requires parts { AreCut H.all blanks }
    requires all { H.all ≡ 2 ^ 64 - 1 }
{
    let mut seats = Vec::new(alloc);
    let Ok(()) = seats.reserve(2) else {
        return Err(Errno::NoMemory);
    };
    let (host, mut first, passes) = Host::<H, D>::new(alloc, blanks, 1, 1)?;
    let mut second = host.seat(rt, &mut first)?;
    let told = is_empty(rt, &host, &mut first, slots.0)
        && is_empty(rt, &host, &mut second, slots.1);
    seats.push_reserved(first);
    if !is_away {
        seats.push_reserved(second);
    }
    let answer = host.close(seats, passes);
    Ok(if told { Some(answer) } else { None })
}

/// The same on sixteen slots, in slots 3 and 15.
fn closed_on_slots<H: House, R: Abort + Wait>(
    rt: &R,
    alloc: Global,
    blanks: Blanks,
    is_away: bool,
) -> Result<Option<Result<(), CloseFault>>, Errno>
    requires names { AreNamed H.names blanks }
    requires parts { AreCut H.all blanks }
    requires all { H.all ≡ 2 ^ 64 - 1 }
{
    let (Some(first), Some(second)) = (Slot::new(3), Slot::new(15)) else {
        return Err(Errno::Invalid);
    };
    closed::<H, Slots<H>, R>(rt, alloc, blanks, (first, second), is_away)
}

/// The same over new ledgers.
fn closes<R: Abort + Wait>(
    rt: &R,
    alloc: Global,
    blanks: Blanks,
    is_away: bool,
) -> Result<Option<Result<(), CloseFault>>, Errno>
    requires parts { AreCut (2 ^ 64 - 1) blanks }
{
    closed_on_slots::<Brand, R>(rt, alloc, blanks, is_away)
}

/// With both seats there is nothing wrong.
#[test]
fn both_seats_come_back(rt: HostRuntime) {
    assert_eq!(rt;
        closes(&rt, rt.alloc(), Blanks::new(), false),
        Ok(Some(Ok(())))
    );
}

/// Without the second, an event of slot 15 was counted by no seat.
#[test]
fn a_seat_is_missing(rt: HostRuntime) {
    let slot = Slot::new(15).expect(&rt, "a slot");
    let wanted = Err(CloseFault::Books(slot));
    assert_eq!(rt;
        closes(&rt, rt.alloc(), Blanks::new(), true),
        Ok(Some(wanted))
    );
}
