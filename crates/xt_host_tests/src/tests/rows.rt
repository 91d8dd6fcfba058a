//! Worked scripts of one slot, called with no worker.

ghost use Rattle.std.specs.Prelude.{◌≡◌, ◌-◌, ◌^◌};
ghost use Rattle.xt_cell.specs.Ledgers.{AreCut, AreNamed};

use crate::tests::lines::{Line, Script, first_wrong, home_of};
use crate::tests::place::{Devices, Place, end, in_memory, stand};
use std::alloc::Global;
use std::marker::Brand;
use std::process::Abort;
use std::rt::HostRuntime;
use std::sync::Wait;
use xt_base::names::Life;
use xt_base::steps::Errno;
use xt_cell::house::House;
use xt_cell::reserve::Blanks;
use xt_host::desk::Slots;
use xt_host::fault::CloseFault;

/// The life that the slot has, the first line that is told something else, and what the end of the host found wrong.
type Played = (Life, Option<usize>, Result<(), CloseFault>);

/// All lines of a script by one seat, and the end of the host with that seat.
fn played<H: House, D: Place<H, R>, R: Abort + Wait>(
    rt: &R,
    alloc: Global,
    blanks: Blanks,
    lines: &[Line],
    devices: D::Devices,
) -> Result<Played, Errno>
    requires names { AreNamed H.names blanks }
    requires parts { AreCut H.all blanks }
    requires all { H.all ≡ 2 ^ 64 - 1 }
{
    let (host, mut seat, _pass, at) = stand::<H, D, R>(rt, alloc, blanks, 1, devices)?;
    let wrong = first_wrong(rt, alloc, &host, &mut seat, lines);
    let closed = end(alloc, host, vec![in alloc; seat].ok())?;
    Ok((at.life, wrong, closed))
}

/// The same on sixteen slots.
fn played_on_slots<H: House, R: Abort + Wait>(
    rt: &R,
    alloc: Global,
    blanks: Blanks,
    lines: &[Line],
    devices: Devices,
) -> Result<Played, Errno>
    requires names { AreNamed H.names blanks }
    requires parts { AreCut H.all blanks }
    requires all { H.all ≡ 2 ^ 64 - 1 }
{
    played::<H, Slots<H>, R>(rt, alloc, blanks, lines, devices)
}

/// The same over new ledgers.
fn plays<R: Abort + Wait>(
    rt: &R,
    alloc: Global,
    blanks: Blanks,
    script: Script,
) -> Result<Played, Errno>
    requires parts { AreCut (2 ^ 64 - 1) blanks }
{
    let (home, log) = in_memory(alloc, home_of(alloc, script.blocks))?;
    played_on_slots::<Brand, R>(rt, alloc, blanks, script.lines, (home, log))
}

/// All lines are told what they should be, and the host ends with nothing wrong.
const AS_WANTED: Result<Played, Errno> = Ok((Life(1), None, Ok(())));

/// Two transactions at one block.
const LOCKED_ELSEWHERE: Script = Script {
    blocks: &[],
    lines: &[
        ("0.1 alloc 176 1 plain", "t1"),
        ("0.1 alloc 176 1 plain", "t2"),
        ("0.1 read t1 9 = 00*4096", "ok"),
        ("0.1 log t1 9 0 11", "ok"),
        ("0.1 relse t1 9", "kept"),
        ("0.1 get t2 9", "EAGAIN"),
        ("0.1 commit t1", "c1"),
        ("0.1 get t2 9", "ok"),
        ("0.1 view t2 9", "data 11.00*4095"),
    ],
};

/// A held block goes from one transaction to the next.
const HELD: Script = Script {
    blocks: &[(5, 0x33)],
    lines: &[
        ("0.1 alloc 176 1 plain", "t1"),
        ("0.1 read t1 5 = 33*4096", "ok"),
        ("0.1 hold t1 5", "ok"),
        ("0.1 commit t1", "c0 held 5"),
        ("0.1 alloc 176 1 plain", "t2"),
        ("0.1 get t2 5", "EAGAIN"),
        ("0.1 join t2 5", "ok"),
        ("0.1 cancel t2", "ok"),
        ("0.1 alloc 176 1 plain", "t3"),
        ("0.1 get t3 5", "ok"),
        ("0.1 view t3 5", "data 33*4096"),
    ],
};

/// Two legs of a permanent transaction. At the end another one is cancelled dirty, which shuts the mount, and the seat sees it.
const ROLLED: Script = Script {
    blocks: &[],
    lines: &[
        ("peek 0", "seen 1 live"),
        ("0.1 alloc 176 1 plain", "t1"),
        ("0.1 read t1 7 = 00*4096", "ok"),
        ("0.1 log t1 7 0 11", "ok"),
        ("0.1 log t1 7 128 22", "ENOSPC"),
        ("0.1 view t1 7", "data 11.00*4095"),
        ("0.1 roll t1", "EINVAL"),
        ("0.1 alloc 176 2 perm", "t2"),
        ("0.1 read t2 8 = 00*4096", "ok"),
        ("0.1 log t2 8 0 11", "ok"),
        ("0.1 roll t2", "c1"),
        ("0.1 alloc 65008 1 plain", "t3"),
        ("0.1 get t2 8", "ok"),
        ("0.1 log t2 8 128 22", "ok"),
        ("0.1 roll t2", "EAGAIN"),
        ("0.1 view t2 8", "data 11.00*127.22.00*3967"),
        ("0.1 cancel t3", "ok"),
        ("0.1 roll t2", "c1"),
        ("0.1 cancel t1", "ok"),
        ("peek 0", "seen 1 CORRUPT_INCORE"),
        ("0.1 force", "EIO"),
    ],
};

#[test]
fn a_block_is_locked_elsewhere(rt: HostRuntime) {
    assert_eq!(rt;
        plays(&rt, rt.alloc(), Blanks::new(), LOCKED_ELSEWHERE),
        AS_WANTED
    );
}

#[test]
fn a_held_block_is_joined(rt: HostRuntime) {
    assert_eq!(rt; plays(&rt, rt.alloc(), Blanks::new(), HELD), AS_WANTED);
}

#[test]
fn a_dirty_cancel_is_seen(rt: HostRuntime) {
    assert_eq!(rt; plays(&rt, rt.alloc(), Blanks::new(), ROLLED), AS_WANTED);
}
