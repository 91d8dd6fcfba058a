//! Sessions over a running host in memory.

ghost use Rattle.std.specs.Prelude.{◌≡◌, ◌-◌, ◌^◌};
ghost use Rattle.xt_cell.specs.Ledgers.{AreCut, AreNamed};

use crate::tests::stand::{Stand, in_memory, mounted, two_slots};
use crate::tests::{Narrow, Pieces};
use std::alloc::{AllocError, Global};
use std::io::{ErrorKind, Read, Write};
use std::marker::Brand;
use std::process::Abort;
use std::rt::HostRuntime;
use std::sync::Wait;
use xt_base::names::{Life, TransNo};
use xt_base::steps::{Errno, Reason, Reply};
use xt_cell::house::House;
use xt_cell::reserve::Blanks;
use xt_cell::seat::HostSeat;
use xt_host::desk::{Desk, Slots};
use xt_host::fault::CloseFault;
use xt_host::host::Host;
use xt_service::calls::Calls;
use xt_service::host_calls::HostCalls;
use xt_service::host_session::host_session;
use xt_service::session_end::SessionEnd;
use xt_text::line::Line;
use xt_text::parse::parse_line;

/// What two sessions, one after another, leave of a host.
#[derive(Debug, Drop, PartialEq)]
struct Left {
    ends: (SessionEnd, SessionEnd),
    /// How many receipts the seats of the two still have.
    receipts: (usize, usize),
    /// How many events of slot 0 the first counted.
    count: u64,
    /// What the host's own seat sees of slot 0.
    seen: (Life, Option<Reason>),
    closed: Result<(), CloseFault>,
}

/// Serves two sessions, one after another, over a host with slots 0 and 1 mounted, and ends the host.
fn serve<H: House, D: Stand<H, T>, T: Wait, R: Read, W: Write>(
    rt: &T,
    alloc: Global,
    blanks: Blanks,
    devices: (D::Devices, D::Devices),
    readers: (&mut R, &mut R),
    writers: (&mut W, &mut W),
) -> Result<Left, Errno>
    requires names { AreNamed H.names blanks }
    requires parts { AreCut H.all blanks }
    requires all { H.all ≡ 2 ^ 64 - 1 }
{
    let mut seats = Vec::new(alloc);
    let Ok(()) = seats.reserve(3) else {
        return Err(Errno::NoMemory);
    };
    let (slot, other) = two_slots()?;
    let (host, mut own, passes) = mounted::<H, D, T>(rt, alloc, blanks, (slot, other), devices)?;
    let first = host.seat(rt, &mut own)?;
    let second = host.seat(rt, &mut own)?;
    let (first, first_end) = host_session(rt, alloc, &host, first, readers.0, writers.0);
    let seen = host.seen_shut(&mut own, slot);
    let (second, second_end) = host_session(rt, alloc, &host, second, readers.1, writers.1);
    let receipts = (first.receipts().len(), second.receipts().len());
    let count = first.count(slot);
    seats.push_reserved(own);
    seats.push_reserved(first);
    seats.push_reserved(second);
    Ok(Left {
        ends: (first_end, second_end),
        receipts,
        count,
        seen,
        closed: host.close(seats, passes),
    })
}

/// The same over sixteen slots, and devices in memory.
fn serve_in_slots<H: House, T: Wait, R: Read, W: Write>(
    rt: &T,
    alloc: Global,
    blanks: Blanks,
    readers: (&mut R, &mut R),
    writers: (&mut W, &mut W),
) -> Result<Left, Errno>
    requires names { AreNamed H.names blanks }
    requires parts { AreCut H.all blanks }
    requires all { H.all ≡ 2 ^ 64 - 1 }
{
    let devices = (in_memory(alloc)?, in_memory(alloc)?);
    serve::<H, Slots<H>, T, R, W>(rt, alloc, blanks, devices, readers, writers)
}

/// The same over new ledgers.
fn serves<T: Wait, R: Read, W: Write>(
    rt: &T,
    alloc: Global,
    blanks: Blanks,
    readers: (&mut R, &mut R),
    writers: (&mut W, &mut W),
) -> Result<Left, Errno>
    requires parts { AreCut (2 ^ 64 - 1) blanks }
{
    serve_in_slots::<Brand, T, R, W>(rt, alloc, blanks, readers, writers)
}

/// Asserts what two sessions over memory write, one after another, and what they leave.
fn answers<'x, R: Abort + Wait>(
    rt: &R,
    alloc: Global,
    inputs: (&'x [u8], &'x [u8]),
    outputs: (&[u8], &[u8]),
    left: Left,
) {
    let mut first = Pieces::of(inputs.0, 7);
    let mut second = Pieces::of(inputs.1, 7);
    let (mut wrote, mut wrote_then) = (Vec::new(alloc), Vec::new(alloc));
    let result = serves(
        rt,
        alloc,
        Blanks::new(),
        (&mut first, &mut second),
        (&mut wrote, &mut wrote_then),
    );
    assert_eq!(rt; result, Ok(left));
    assert_eq!(rt; wrote.as_slice(), outputs.0);
    assert_eq!(rt; wrote_then.as_slice(), outputs.1);
}

/// What two sessions leave that end at the end of their input.
fn well(receipts: (usize, usize), count: u64, reason: Option<Reason>) -> Left {
    Left {
        ends: (SessionEnd::End, SessionEnd::End),
        receipts,
        count,
        seen: (Life(1), reason),
        closed: Ok(()),
    }
}

/// A transaction that is left changed shuts its mount, and no other.
#[test]
fn a_change_that_is_left_shuts_its_mount_alone(rt: HostRuntime) {
    answers(
        &rt,
        rt.alloc(),
        (
            b"0.1 alloc 176 1 plain\n0.1 read t1 7\n0.1 log t1 7 0 11\n",
            b"peek 0\n0.1 force\n1.1 alloc 176 1 plain\n1.1 commit t1\n",
        ),
        (b"t1\nok\nok\n", b"seen 1 CORRUPT_INCORE\nEIO\nt1\nc0\n"),
        well((1, 1), 4, Some(Reason::CorruptIncore)),
    );
}

/// Names that the session does not hold are EINVAL, also of mounts that are not there; a mount that is not there is ENODEV.
#[test]
fn a_name_that_is_not_held_is_refused(rt: HostRuntime) {
    answers(
        &rt,
        rt.alloc(),
        (
            b"0.1 commit t1\n5.1 commit t1\n0.2 drop 9\n5.1 force\n0.2 force\n",
            b"0.1 alloc 1 1 plain\n0.1 get t2 9\n0.2 get t1 9\n1.1 get t1 9\n",
        ),
        (
            b"EINVAL\nEINVAL\nEINVAL\nENODEV\nESTALE\n",
            b"t1\nEINVAL\nEINVAL\nEINVAL\n",
        ),
        well((1, 1), 1, None),
    );
}

/// What the first session still holds is free for the second.
#[test]
fn what_is_held_is_given_back(rt: HostRuntime) {
    answers(
        &rt,
        rt.alloc(),
        (
            b"0.1 alloc 1 1 plain\n0.1 get t1 9\n0.1 hold t1 9\n0.1 get t1 5\n0.1 hold t1 5\n0.1 commit t1\n0.1 commit t1\n0.1 drop 9\n0.1 drop 9\n",
            b"0.1 alloc 1 1 plain\n0.1 get t2 5\n0.1 get t2 9\n0.1 join t2 5\n",
        ),
        (
            b"t1\nok\nok\nok\nok\nc0 held 5 9\nEINVAL\nok\nEINVAL\n",
            b"t2\nok\nok\nEINVAL\n",
        ),
        well((1, 1), 8, None),
    );
}

/// Where the writer fails the session ends too, and what it holds is given back: here a change, which shuts the mount.
#[test]
fn a_session_that_is_cut_off_gives_back(rt: HostRuntime) {
    let alloc = rt.alloc();
    let input = b"0.1 alloc 176 1 plain\n0.1 read t1 7\n0.1 log t1 7 0 11\n0.1 commit t1\n";
    let mut first = Pieces::of(input, 4_096);
    let mut second = Pieces::of(b"0.1 force\n", 4_096);
    let mut narrow = Narrow {
        taken: Vec::new(alloc),
        size: 4_096,
        room: 7,
        error: Some(ErrorKind::Other),
    };
    let mut wide = Narrow {
        taken: Vec::new(alloc),
        size: 4_096,
        room: 4_096,
        error: None,
    };
    let result = serves(
        &rt,
        alloc,
        Blanks::new(),
        (&mut first, &mut second),
        (&mut narrow, &mut wide),
    );
    let left = Left {
        ends: (SessionEnd::WriteFault, SessionEnd::End),
        receipts: (1, 1),
        count: 4,
        seen: (Life(1), Some(Reason::CorruptIncore)),
        closed: Ok(()),
    };
    assert_eq!(rt; result, Ok(left));
    assert_eq!(rt; narrow.taken.as_slice(), b"t1\nok\no".as_slice());
    assert_eq!(rt; wide.taken.as_slice(), b"EIO\n".as_slice());
}

/// However many lines a session has, its seat has the last receipt alone, and counted all.
#[test]
fn a_long_session_keeps_one_receipt(rt: HostRuntime) -> Result<(), AllocError> {
    let alloc = rt.alloc();
    let input = b"0.1 force\n".repeat(alloc, 3_000)?;
    let wants = b"done\n".repeat(alloc, 3_000)?;
    let inputs = (input.as_slice(), b"0.1 push\n".as_slice());
    let outputs = (wants.as_slice(), b"ok\n".as_slice());
    answers(&rt, alloc, inputs, outputs, well((1, 1), 3_000, None));
    Ok(())
}

/// What a session answers to a line that sessions read; None to any other.
fn told<C: Calls>(alloc: Global, calls: &mut C, line: &[u8]) -> Option<Reply> {
    let line = Line(parse_line(alloc, line).ok()?);
    if line.in_session() {
        Some(calls.call(line))
    } else {
        None
    }
}

/// What lines of two sessions at once are answered: the second names the transaction of the first, which goes on. Their seats, once both
/// have ended.
fn cross<H: House, D: Desk<H, T>, T: Wait>(
    rt: &T,
    alloc: Global,
    host: &Host<H, D>,
    seats: (HostSeat<H>, HostSeat<H>),
) -> ([Option<Reply>; 4], HostSeat<H>, HostSeat<H>)
    requires boards { (seats.0.board.board ≡ host.now.board) × (seats.1.board.board ≡ host.now.board) }
{
    let mut first = HostCalls::new(rt, alloc, host, seats.0);
    let mut second = HostCalls::new(rt, alloc, host, seats.1);
    let replies = [
        told(alloc, &mut first, b"0.1 alloc 1 1 plain"),
        told(alloc, &mut second, b"0.1 cancel t1"),
        told(alloc, &mut second, b"0.1 get t1 9"),
        told(alloc, &mut first, b"0.1 get t1 9"),
    ];
    first.end();
    second.end();
    (replies, first.into_seat(), second.into_seat())
}

/// What the two sessions are answered, how many events of slot 0 the second counted, and what the end of the host found.
type Crossed = ([Option<Reply>; 4], u64, Result<(), CloseFault>);

/// The same over a host with slots 0 and 1 mounted, which it ends.
fn cross_over<H: House, D: Stand<H, T>, T: Wait>(
    rt: &T,
    alloc: Global,
    blanks: Blanks,
    devices: (D::Devices, D::Devices),
) -> Result<Crossed, Errno>
    requires names { AreNamed H.names blanks }
    requires parts { AreCut H.all blanks }
    requires all { H.all ≡ 2 ^ 64 - 1 }
{
    let mut seats = Vec::new(alloc);
    let Ok(()) = seats.reserve(3) else {
        return Err(Errno::NoMemory);
    };
    let (slot, other) = two_slots()?;
    let (host, mut own, passes) = mounted::<H, D, T>(rt, alloc, blanks, (slot, other), devices)?;
    let first = host.seat(rt, &mut own)?;
    let second = host.seat(rt, &mut own)?;
    let (replies, first, second) = cross(rt, alloc, &host, (first, second));
    let count = second.count(slot);
    seats.push_reserved(own);
    seats.push_reserved(first);
    seats.push_reserved(second);
    Ok((replies, count, host.close(seats, passes)))
}

/// The same over sixteen slots, and devices in memory.
fn cross_in_slots<H: House, T: Wait>(
    rt: &T,
    alloc: Global,
    blanks: Blanks,
) -> Result<Crossed, Errno>
    requires names { AreNamed H.names blanks }
    requires parts { AreCut H.all blanks }
    requires all { H.all ≡ 2 ^ 64 - 1 }
{
    let devices = (in_memory(alloc)?, in_memory(alloc)?);
    cross_over::<H, Slots<H>, T>(rt, alloc, blanks, devices)
}

/// The same over new ledgers.
fn crosses<T: Wait>(rt: &T, alloc: Global, blanks: Blanks) -> Result<Crossed, Errno>
    requires parts { AreCut (2 ^ 64 - 1) blanks }
{
    cross_in_slots::<Brand, T>(rt, alloc, blanks)
}

/// A session can't touch another's transaction, and none of its lines on it reaches the host.
#[test]
fn another_sessions_transaction_is_strange(rt: HostRuntime) {
    let strange = || Some(Reply::Refused(Errno::Invalid));
    let replies = [
        Some(Reply::Trans(TransNo(1))),
        strange(),
        strange(),
        Some(Reply::Okay),
    ];
    assert_eq!(rt;
        crosses(&rt, rt.alloc(), Blanks::new()),
        Ok((replies, 0, Ok(())))
    );
}
