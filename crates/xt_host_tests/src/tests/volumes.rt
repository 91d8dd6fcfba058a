//! Four volumes by four threads, each a caller of its own volume and a worker of all; the log device of one of them fails.

ghost use Rattle.std.specs.Prelude.{◌≡◌, ◌-◌, ◌^◌, All, IfOk};
ghost use Rattle.std.specs.Arc.{arc_value};
ghost use Rattle.xt_cell.specs.Ledgers.{AreCut, AreNamed};

use crate::tests::calls::settle;
use crate::tests::place::{Devices, Place, Workplace, work_off};
use crate::tests::replay::{Replayed, replay};
use crate::tests::tape::{Tape, TapedHome, TapedLog};
use std::alloc::{AllocError, Global};
use std::marker::Brand;
use std::process::Abort;
use std::rt::HostRuntime;
use std::sync::{Arc, Wait};
use std::thread::{Threads, join};
use xt_base::content::Data;
use xt_base::names::{Block, Slot};
use xt_base::steps::{Errno, LogOffer};
use xt_cell::account::Account;
use xt_cell::house::House;
use xt_cell::mount_ref::MountRef;
use xt_cell::reserve::Blanks;
use xt_cell::seat::HostSeat;
use xt_dev::fail_at::FailAt;
use xt_dev::mem_home::MemHome;
use xt_host::comparing::compare_all;
use xt_host::desk::{Desk, Slots};
use xt_host::fault::CloseFault;
use xt_host::host::{BOOK_ENTRIES, Host};
use xt_host::outcomes::Forced;
use xt_queue::jobs::WorkPass;

/// How many volumes, and as many threads.
const VOLUMES: usize = 4;

/// The volume whose log device fails, and in which of its calls.
const BROKEN: usize = 2;

const BROKEN_CALL: u64 = 5;

/// How many transactions each volume gets.
const ROUNDS: u8 = 40;

/// After how many the blocks are written home.
const HOME_ROUNDS: u8 = 8;

/// A caller of one volume, who is a worker too.
#[derive(Drop)]
struct Tenant<H: House> {
    seat: HostSeat<H>,
    pass: WorkPass,
    at: MountRef,
}

/// A tenant, and what it was told.
type Lived<H> = (Tenant<H>, Result<(), Errno>);

/// Two of them, and all four.
type Pair<H> = (Tenant<H>, Tenant<H>);

type LivedPair<H> = (Lived<H>, Lived<H>);

/// Changes some bytes of a block in a transaction.
fn rewrite<H: House, D: Desk<H, R>, R: Abort + Wait>(
    rt: &R,
    alloc: Global,
    host: &Host<H, D>,
    seat: &mut HostSeat<H>,
    at: &MountRef,
    round: u8,
) -> Result<(), Errno>
    requires board { seat.old.board.board ≡ host.now.board }
    ensures board { seat.new.board.board ≡ seat.old.board.board }
{
    let Ok(Some(bytes)) = Data::of_repeated(alloc, round, 40) else {
        return Err(Errno::NoMemory);
    };
    let block = Block(u64::from(round % 8));
    let mut trans = host.begin_trans(rt, seat, *at, 5_000, 1, false)?;
    let mut told = host.read(rt, seat, &mut trans, block);
    if told.is_ok() {
        told = host.log(rt, seat, &mut trans, block, u32::from(round) * 16, bytes);
    }
    settle(rt, host, seat, trans, told)?;
    Ok(())
}

/// Works until no name waits.
fn help<H: House, D: Workplace<H, R>, R: Abort + Wait>(
    rt: &R,
    host: &Host<H, D>,
    tenant: &mut Tenant<H>,
)
    requires queue { tenant.old.pass.queue ≡ arc_value host.now.queue }
    requires board { tenant.old.seat.board.board ≡ host.now.board }
    ensures queue { tenant.new.pass.queue ≡ tenant.old.pass.queue }
    ensures board { tenant.new.seat.board.board ≡ tenant.old.seat.board.board }
{
    work_off(rt, host, &mut tenant.pass, &mut tenant.seat);
}

/// Forces the log, works until no name waits, and then waits until all is written: what is not, another thread has taken.
fn force_out<H: House, D: Workplace<H, R>, R: Abort + Wait>(
    rt: &R,
    host: &Host<H, D>,
    tenant: &mut Tenant<H>,
) -> Result<(), Errno>
    requires queue { tenant.old.pass.queue ≡ arc_value host.now.queue }
    requires board { tenant.old.seat.board.board ≡ host.now.board }
    ensures queue { tenant.new.pass.queue ≡ tenant.old.pass.queue }
    ensures board { tenant.new.seat.board.board ≡ tenant.old.seat.board.board }
{
    if let Forced::Wait(number) = host.force(rt, &mut tenant.seat, tenant.at)? {
        help(rt, host, tenant);
        host.force_wait(rt, &mut tenant.seat, tenant.at, number)?;
    }
    Ok(())
}

/// One change, written to the log; by turns the blocks are written home.
fn live_once<H: House, D: Workplace<H, R>, R: Abort + Wait>(
    rt: &R,
    alloc: Global,
    host: &Host<H, D>,
    tenant: &mut Tenant<H>,
    round: u8,
) -> Result<(), Errno>
    requires queue { tenant.old.pass.queue ≡ arc_value host.now.queue }
    requires board { tenant.old.seat.board.board ≡ host.now.board }
    ensures queue { tenant.new.pass.queue ≡ tenant.old.pass.queue }
    ensures board { tenant.new.seat.board.board ≡ tenant.old.seat.board.board }
{
    let at = tenant.at;
    rewrite(rt, alloc, host, &mut tenant.seat, &at, round)?;
    force_out(rt, host, tenant)?;
    if round % HOME_ROUNDS == HOME_ROUNDS - 1 {
        host.push(rt, &mut tenant.seat, tenant.at)?;
        help(rt, host, tenant);
    }
    Ok(())
}

/// All changes of one tenant, up to the first that is refused.
fn live<H: House, D: Workplace<H, R>, R: Abort + Wait>(
    rt: &R,
    alloc: Global,
    host: &Host<H, D>,
    tenant: Tenant<H>,
) -> Lived<H>
    requires queue { tenant.pass.queue ≡ arc_value host.now.queue }
    requires board { tenant.seat.board.board ≡ host.now.board }
    ensures queue { result.0.pass.queue ≡ arc_value host.now.queue }
    ensures board { result.0.seat.board.board ≡ host.now.board }
{
    let mut tenant = tenant;
    for round in 0..ROUNDS {
        if let Err(errno) = live_once(rt, alloc, host, &mut tenant, round) {
            return (tenant, Err(errno));
        }
    }
    (tenant, Ok(()))
}

/// Two tenants, in two threads.
fn by_two<H: House + Send + Sync, D: Workplace<H, R> + Sync, R: Abort + Threads + Wait + Sync>(
    rt: &R,
    alloc: Global,
    host: &Host<H, D>,
    pair: Pair<H>,
) -> LivedPair<H>
    requires queue { (pair.0.pass.queue ≡ arc_value host.now.queue) × (pair.1.pass.queue ≡ arc_value host.now.queue) }
    requires board { (pair.0.seat.board.board ≡ host.now.board) × (pair.1.seat.board.board ≡ host.now.board) }
{
    let (first, second) = pair;
    let (one, other) = join(
        rt,
        move || -> Lived<H>
            requires { (first.pass.queue ≡ arc_value host.now.queue) × (first.seat.board.board ≡ host.now.board) }
        { live(rt, alloc, host, first) },
        move || -> Lived<H>
            requires { (second.pass.queue ≡ arc_value host.now.queue) × (second.seat.board.board ≡ host.now.board) }
        { live(rt, alloc, host, second) },
    );
    (one, other)
}

/// Four tenants, in four threads.
fn by_four<H: House + Send + Sync, D: Workplace<H, R> + Sync, R: Abort + Threads + Wait + Sync>(
    rt: &R,
    alloc: Global,
    host: &Host<H, D>,
    pairs: (Pair<H>, Pair<H>),
) -> (LivedPair<H>, LivedPair<H>)
    requires queues { (pairs.0.0.pass.queue ≡ arc_value host.now.queue) × (pairs.0.1.pass.queue ≡ arc_value host.now.queue) × (pairs.1.0.pass.queue ≡ arc_value host.now.queue) × (pairs.1.1.pass.queue ≡ arc_value host.now.queue) }
    requires boards { (pairs.0.0.seat.board.board ≡ host.now.board) × (pairs.0.1.seat.board.board ≡ host.now.board) × (pairs.1.0.seat.board.board ≡ host.now.board) × (pairs.1.1.seat.board.board ≡ host.now.board) }
{
    let (first, second) = pairs;
    let (one, other) = join(
        rt,
        move || -> LivedPair<H>
            requires { (first.0.pass.queue ≡ arc_value host.now.queue) × (first.1.pass.queue ≡ arc_value host.now.queue) × (first.0.seat.board.board ≡ host.now.board) × (first.1.seat.board.board ≡ host.now.board) }
        { by_two(rt, alloc, host, first) },
        move || -> LivedPair<H>
            requires { (second.0.pass.queue ≡ arc_value host.now.queue) × (second.1.pass.queue ≡ arc_value host.now.queue) × (second.0.seat.board.board ≡ host.now.board) × (second.1.seat.board.board ≡ host.now.board) }
        { by_two(rt, alloc, host, second) },
    );
    (one, other)
}

/// The tapes of a volume: what its log device was offered, and what its home device.
#[derive(Drop)]
struct Tapes {
    log: Arc<Tape, Global>,
    home: Arc<Tape, Global>,
}

/// Blank ones for each volume.
fn blank_tapes(alloc: Global) -> Result<Vec<Tapes>, AllocError> {
    let mut tapes = Vec::new(alloc);
    for _ in 0..VOLUMES {
        tapes.push(Tapes {
            log: Arc::new(alloc, Tape::new(alloc)?)?,
            home: Arc::new(alloc, Tape::new(alloc)?)?,
        })?;
    }
    Ok(tapes)
}

/// The slot of a volume.
fn slot_of(index: usize) -> Option<Slot> {
    Slot::new(u8::try_from(index).ok()?)
}

/// The log device of a volume, which fails once, in the broken volume early and elsewhere in a call that never comes.
type OneLog = FailAt<TapedLog, LogOffer>;

/// The devices of a volume.
fn taped(
    alloc: Global,
    index: usize,
    tapes: &Tapes,
) -> Result<(Box<TapedHome>, Box<OneLog>), AllocError> {
    let home = TapedHome {
        home: MemHome::new(alloc),
        tape: Arc::try_clone(&tapes.home)?,
    };
    let log = TapedLog {
        tape: Arc::try_clone(&tapes.log)?,
    };
    let at = if index == BROKEN {
        BROKEN_CALL
    } else {
        u64::MAX
    };
    let log = FailAt::over_log(alloc, log, at);
    Ok((Box::new(alloc, home)?, Box::new(alloc, log)?))
}

/// Mounts each volume in the slot of its place.
fn mount_all<H: House, D: Place<H, R>, R: Abort + Wait>(
    rt: &R,
    alloc: Global,
    host: &Host<H, D>,
    seat: &mut HostSeat<H>,
    volumes: Vec<D::Devices>,
) -> Result<Vec<MountRef>, Errno>
    requires board { seat.old.board.board ≡ host.now.board }
    ensures board { seat.new.board.board ≡ seat.old.board.board }
{
    let mut mounts = Vec::new(alloc);
    for devices in volumes {
        let slot = slot_of(mounts.len()).ok_or(Errno::Invalid)?;
        let at = D::mount(rt, host, seat, slot, devices)?;
        mounts.push(at).map_err(|_| Errno::NoMemory)?;
    }
    Ok(mounts)
}

/// The last mount and the last worker, with a seat.
fn seated<H: House, D>(
    host: &Host<H, D>,
    seat: HostSeat<H>,
    passes: &mut Vec<WorkPass>,
    mounts: &mut Vec<MountRef>,
) -> Result<Tenant<H>, Errno>
    requires queues { All (λ pass. pass.queue ≡ arc_value host.now.queue) passes.old.items }
    ensures queues { All (λ pass. pass.queue ≡ arc_value host.now.queue) passes.new.items }
    ensures queue { IfOk result (λ tenant. tenant.pass.queue ≡ arc_value host.now.queue) }
    ensures seat { IfOk result (λ tenant. tenant.seat ≡ seat) }
{
    let _ = host;
    let pass = passes.pop().ok_or(Errno::Invalid)?;
    let at = mounts.pop().ok_or(Errno::Invalid)?;
    Ok(Tenant { seat, pass, at })
}

/// The four tenants of four mounts.
fn tenants<H: House, D, R: Wait>(
    rt: &R,
    host: &Host<H, D>,
    seat: HostSeat<H>,
    passes: Vec<WorkPass>,
    mounts: Vec<MountRef>,
) -> Result<(Pair<H>, Pair<H>), Errno>
    requires board { seat.board.board ≡ host.now.board }
    requires passes { All (λ pass. pass.queue ≡ arc_value host.now.queue) passes.items }
    ensures queues { IfOk result (λ pairs. (pairs.0.0.pass.queue ≡ arc_value host.now.queue) × (pairs.0.1.pass.queue ≡ arc_value host.now.queue) × (pairs.1.0.pass.queue ≡ arc_value host.now.queue) × (pairs.1.1.pass.queue ≡ arc_value host.now.queue)) }
    ensures boards { IfOk result (λ pairs. (pairs.0.0.seat.board.board ≡ host.now.board) × (pairs.0.1.seat.board.board ≡ host.now.board) × (pairs.1.0.seat.board.board ≡ host.now.board) × (pairs.1.1.seat.board.board ≡ host.now.board)) }
{
    let (mut seat, mut passes, mut mounts) = (seat, passes, mounts);
    let fourth = seated(host, host.seat(rt, &mut seat)?, &mut passes, &mut mounts)?;
    let third = seated(host, host.seat(rt, &mut seat)?, &mut passes, &mut mounts)?;
    let second = seated(host, host.seat(rt, &mut seat)?, &mut passes, &mut mounts)?;
    let first = seated(host, seat, &mut passes, &mut mounts)?;
    Ok(((first, second), (third, fourth)))
}

/// What a volume's caller was told, and what the host core makes of its book.
type Told = (Result<(), Errno>, Option<Replayed>);

/// Each book run again.
fn replays(
    alloc: Global,
    books: &[Account],
    tapes: &[Tapes],
    told: [Result<(), Errno>; VOLUMES],
) -> Result<Vec<Told>, AllocError> {
    let mut all = Vec::new(alloc);
    for (index, told) in told.into_iter().enumerate() {
        let (Some(slot), Some(book), Some(tapes)) = (
            slot_of(index),
            books.get(index),
            tapes.get(index),
        ) else {
            return Ok(all);
        };
        let replayed = replay(alloc, slot, book.entries(), (&tapes.log, &tapes.home))?;
        all.push((told, replayed))?;
    }
    Ok(all)
}

/// What the end of the host finds, and what is told of each volume.
type Ended = (Result<(), CloseFault>, Vec<Told>);

/// A host of four volumes, from its making to its end.
fn run<H: House + Send + Sync, D: Place<H, R> + Sync, R: Abort + Threads + Wait + Sync>(
    rt: &R,
    alloc: Global,
    blanks: Blanks,
    volumes: Vec<D::Devices>,
    tapes: &[Tapes],
) -> Result<Ended, Errno>
    requires names { AreNamed H.names blanks }
    requires parts { AreCut H.all blanks }
    requires all { H.all ≡ 2 ^ 64 - 1 }
{
    let (host, mut seat, passes) = Host::<H, D>::new(alloc, blanks, VOLUMES, BOOK_ENTRIES)?;
    let mounts = mount_all(rt, alloc, &host, &mut seat, volumes)?;
    let pairs = tenants(rt, &host, seat, passes, mounts)?;
    let (((one, first), (two, second)), ((three, third), (four, fourth))) = by_four(
        rt, alloc, &host, pairs,
    );
    let told = [first, second, third, fourth];
    let seats = [one.seat, two.seat, three.seat, four.seat];
    let books = host.into_books();
    let closed = compare_all(&books, &seats);
    let all = replays(alloc, &books, tapes, told).map_err(|_| Errno::NoMemory)?;
    Ok((closed, all))
}

/// The same on sixteen slots.
fn run_on_slots<H: House + Send + Sync, R: Abort + Threads + Wait + Sync>(
    rt: &R,
    alloc: Global,
    blanks: Blanks,
    volumes: Vec<Devices>,
    tapes: &[Tapes],
) -> Result<Ended, Errno>
    requires names { AreNamed H.names blanks }
    requires parts { AreCut H.all blanks }
    requires all { H.all ≡ 2 ^ 64 - 1 }
{
    run::<H, Slots<H>, R>(rt, alloc, blanks, volumes, tapes)
}

/// The same over new ledgers.
fn runs<R: Abort + Threads + Wait + Sync>(
    rt: &R,
    alloc: Global,
    blanks: Blanks,
) -> Result<Ended, Errno>
    requires parts { AreCut (2 ^ 64 - 1) blanks }
{
    let tapes = blank_tapes(alloc).map_err(|_| Errno::NoMemory)?;
    let mut volumes: Vec<Devices> = Vec::new(alloc);
    for (index, tapes) in tapes.iter().enumerate() {
        let Ok((home, log)) = taped(alloc, index, tapes) else {
            return Err(Errno::NoMemory);
        };
        volumes.push((home, log)).map_err(|_| Errno::NoMemory)?;
    }
    run_on_slots::<Brand, R>(rt, alloc, blanks, volumes, &tapes)
}

/// The broken volume's caller is told EIO, and its book still gives its replies; of the other three, no caller is told anything but
/// ok, and the host core, run on their books, gives their replies and offers their devices just what those were offered.
#[test]
fn four_mounts_four_threads(rt: HostRuntime) {
    let (closed, all) = runs(&rt, rt.alloc(), Blanks::new()).expect(&rt, "memory");
    assert_eq!(rt; closed, Ok(()));
    assert_eq!(rt; all.len(), VOLUMES);
    for (index, (told, replayed)) in all.into_iter().enumerate() {
        let replayed = replayed.expect(&rt, "an orderly book");
        assert!(rt; replayed.replies);
        if index == BROKEN {
            assert_eq!(rt; told, Err(Errno::Io));
        } else {
            assert_eq!(rt; told, Ok(()));
            assert!(rt; replayed.log && replayed.home);
        }
    }
}
