//! A program with a host in it, to begin one's own from: two volumes in memory, and one thread, which calls and works.
//!
//! A host begins with `Blanks` and a `House`. The events of each slot are counted in a ledger. What stands behind a lock is known by its type
//! alone, so the names of the sixteen ledgers stand in the type: `H: House` is those names, and takes no bytes. `Blanks` are sixteen ledgers
//! that have no names yet: `named` gives them some, once, and what it calls is generic in `H`.
#![tactic(auto)]

ghost use Rattle.std.specs.Prelude.{◌≡◌, ◌-◌, ◌^◌};
ghost use Rattle.std.specs.Arc.{arc_value};
ghost use Rattle.xt_cell.specs.Ledgers.{AreCut, AreNamed};

mod calls;

use crate::calls::{BLOCK, Seen, change, shut_other};
use std::alloc::{AllocError, Global};
use std::marker::Brand;
use std::sync::Wait;
use std::{io, thread};
use xt_base::names::{CkptNo, JobName, Slot};
use xt_base::steps::Errno;
use xt_cell::house::House;
use xt_cell::mount_ref::MountRef;
use xt_cell::reserve::Blanks;
use xt_cell::seat::HostSeat;
use xt_dev::home::HomeDevice;
use xt_dev::log::LogDevice;
use xt_dev::mem_home::MemHome;
use xt_dev::mem_log::MemLog;
use xt_host::{BOOK_ENTRIES, CloseFault, Forced, Gate, Host};
use xt_queue::jobs::WorkPass;

/// Lets the worker go once no name waits. A thread that only works is told true here until it is to end.
struct UntilIdle;

impl Gate for UntilIdle {
    fn before(&self, _name: &JobName) {}

    fn go_on(&self) -> bool {
        false
    }
}

/// Does the jobs that wait, each to its end. A job that comes back is a token too: it has the log device of its mount, and is ended again.
fn work<H: House, R: Wait>(rt: &R, host: &Host<H>, seat: &mut HostSeat<H>, pass: &mut WorkPass)
    requires queue { pass.old.queue ≡ arc_value host.now.queue }
    requires board { seat.old.board.board ≡ host.now.board }
    ensures queue { pass.new.queue ≡ pass.old.queue }
    ensures board { seat.new.board.board ≡ seat.old.board.board }
{
    let mut left = host.work(rt, pass, seat, &UntilIdle);
    for _ in rt.forever() {
        let Some(done) = left else {
            return;
        };
        left = match host.end(rt, seat, done) {
            Ok(_reply) => None,
            Err((back, _fault)) => Some(back),
        };
        thread::yield_now();
    }
    unreachable!()
}

/// The two devices of a mount.
type Devices = (Box<dyn HomeDevice + Send>, Box<dyn LogDevice + Send>);

/// Mounts a slot over its devices: a log of 65,536 bytes, and 1,024 blocks.
fn mount<H: House, R: Wait>(
    rt: &R,
    host: &Host<H>,
    seat: &mut HostSeat<H>,
    index: u8,
    devices: Devices,
) -> Result<MountRef, Errno>
    requires board { seat.old.board.board ≡ host.now.board }
    ensures board { seat.new.board.board ≡ seat.old.board.board }
{
    let Some(slot) = Slot::new(index) else {
        return Err(Errno::Invalid);
    };
    let (home, log) = devices;
    match host.mount(rt, seat, slot, 65_536, 1_024, home, log) {
        Ok(at) => Ok(at),
        Err(back) => Err(back.errno),
    }
}

/// What a change was told, and what was seen once the worker was there.
type Told = ((CkptNo, Forced), Seen);

/// Mounts two volumes, changes one, shuts the other, and unmounts both. What calls mounts is elsewhere, over any desk: each call here is dear to prove.
fn visit<H: House, R: Wait>(
    rt: &R,
    alloc: Global,
    host: &Host<H>,
    seat: &mut HostSeat<H>,
    pass: &mut WorkPass,
    one: Devices,
    other: Devices,
) -> Result<Told, Errno>
    requires queue { pass.old.queue ≡ arc_value host.now.queue }
    requires board { seat.old.board.board ≡ host.now.board }
{
    let one = mount(rt, host, seat, 0, one)?;
    let other = mount(rt, host, seat, 1, other)?;
    let changed = change(rt, alloc, host, seat, &one)?;
    work(rt, host, seat, pass);
    let seen = shut_other(rt, alloc, host, seat, &one, &other)?;
    work(rt, host, seat, pass);
    let _devices = host.unmount(rt, seat, one)?;
    let _devices = host.unmount(rt, seat, other)?;
    Ok((changed, seen))
}

/// What was told, and whether the books of the slots agree with what the seat counted and kept.
type Ended = (Result<Told, Errno>, Result<(), CloseFault>);

/// A host of one worker from its making to its end. Nothing that holds it is left early, since its end is dear to prove. The devices are boxed
/// here: a function that is lent a host, which has boxed ones, can't make more.
fn run<H: House, R: Wait>(rt: &R, alloc: Global, blanks: Blanks) -> Result<Ended, Errno>
    requires names { AreNamed H.names blanks }
    requires parts { AreCut H.all blanks }
    requires all { H.all ≡ 2 ^ 64 - 1 }
{
    let Ok(mut seats) = Vec::with_capacity(alloc, 1) else {
        return Err(Errno::NoMemory);
    };
    let (host, mut seat, mut passes) = Host::<H>::new(alloc, blanks, 1, BOOK_ENTRIES)?;
    let told = match (passes.pop(), in_memory(alloc), in_memory(alloc)) {
        (Some(mut pass), Ok((home, log)), Ok((other_home, other_log))) => visit(
            rt,
            alloc,
            &host,
            &mut seat,
            &mut pass,
            (home, log),
            (other_home, other_log),
        ),
        _ => Err(Errno::NoMemory),
    };
    seats.push_reserved(seat);
    Ok((told, host.close(seats, passes)))
}

/// Devices in memory.
fn in_memory(alloc: Global) -> Result<(Box<MemHome>, Box<MemLog>), AllocError> {
    let home = Box::new(alloc, MemHome::new(alloc))?;
    let log = Box::new(alloc, MemLog::new(alloc))?;
    Ok((home, log))
}

/// The same over new ledgers, whose names are picked in `proofs/named/Invariants.antt`, for the house of this call.
fn named<R: Wait>(rt: &R, alloc: Global, blanks: Blanks) -> Result<Ended, Errno>
    requires parts { AreCut (2 ^ 64 - 1) blanks }
{
    run::<Brand, R>(rt, alloc, blanks)
}

fn main(rt: HostRuntime) -> io::Result<()> {
    let (told, closed) = match named(&rt, rt.alloc(), Blanks::new()) {
        Ok((Ok(told), closed)) => (told, closed),
        Ok((Err(errno), _)) | Err(errno) => return Err(io::Error::other(errno.name())),
    };
    let ((number, before), seen) = told;
    let Seen { after, shut, byte } = seen;
    println!(rt;
        "slot 0: block {} changed, in checkpoint {}",
        BLOCK.0, number.0
    )?;
    println!(rt; "slot 0: a force is told {before:?}, and after the worker's job {after:?}")?;
    println!(rt; "slot 1: the same change cancelled; shut: {:?}", shut.1)?;
    println!(rt;
        "slot 0: shut: {:?}; block {} begins with {byte:#x}",
        shut.0, BLOCK.0
    )?;
    println!(rt; "the end of the host: {closed:?}")
}
