//! Calls that wait for what another thread does.

ghost use Rattle.std.specs.Prelude.{◌≡◌, ◌-◌, ◌^◌, IfOk};
ghost use Rattle.std.specs.Arc.{arc_value};
ghost use Rattle.xt_cell.specs.Ledgers.{AreCut, AreNamed};

use crate::tests::booked::{Booked, UNBOOKED, booked_for};
use crate::tests::calls::{change, finish, give_up, roll_off};
use crate::tests::door::Door;
use crate::tests::place::{Devices, Place, Workplace, stand, work_off};
use std::alloc::Global;
use std::marker::Brand;
use std::process::Abort;
use std::rt::HostRuntime;
use std::sync::Wait;
use std::thread;
use std::thread::{Threads, join};
use xt_base::content::Data;
use xt_base::names::{Block, CkptNo, Slot};
use xt_base::steps::Errno;
use xt_cell::house::House;
use xt_cell::mount_ref::MountRef;
use xt_cell::reserve::Blanks;
use xt_cell::seat::HostSeat;
use xt_dev::call::HomeCall;
use xt_dev::fail_at::FailAt;
use xt_dev::mem_home::MemHome;
use xt_dev::mem_log::MemLog;
use xt_host::comparing::compare_all;
use xt_host::desk::{Desk, IntoBooks, Slots};
use xt_host::fault::CloseFault;
use xt_host::host::{BOOK_ENTRIES, Host};
use xt_host::tokens::Trans;
use xt_queue::jobs::WorkPass;

/// How often a thread looks at most whether another one has called, and how often where none is to.
const LOOKS: u32 = 10_000;

const FEW_LOOKS: u32 = 3;

/// How often it lets others run between two looks: once more each time, up to this.
const YIELDS: u32 = 1_000;

/// No checkpoint has this number: a force of it is refused, and changes nothing.
const NO_CKPT: CkptNo = CkptNo(0);

/// How a wait for what another thread's transaction has comes to its end.
#[derive(Clone, Copy)]
enum End {
    /// The transaction is committed.
    Commit,
    /// The mount is shut.
    Shutdown,
}

/// Whose force comes first: the job of the checkpoint is posted, and booked, for that one.
#[derive(Clone, Copy)]
enum First {
    /// The thread that waits, which is the only one that forces.
    Waiter,
    /// The other one, which then looks for a while before the thread that waits may call.
    Other,
}

/// What one thread waits for, and another one does.
#[derive(Clone, Copy)]
enum Scene {
    /// A block that a transaction of the other one has, until that is committed.
    Lock,
    /// The content of such a block, until it ends so.
    Content(End),
    /// The content of such a block, which the home device fails to read when it is free.
    FailedRead,
    /// Log space for another leg, which a transaction of the other one has, until it ends so.
    Leg(End),
    /// A transaction of a mount that is frozen, until the other one thaws it.
    Thaw,
    /// The first checkpoint, which so was forced first, until the other one has written it.
    Force(First),
}

/// What the other one's transaction has.
#[derive(Clone, Copy)]
struct Stake {
    /// Log bytes of its one leg.
    unit: u32,
    block: Block,
    /// How many calls the thread that waits has made when it has tried.
    calls: u64,
}

/// The block that is waited for: that thread opens a transaction and tries for it.
const A_BLOCK: Stake = Stake {
    unit: 176,
    block: Block(7),
    calls: 2,
};

/// All log space but for one leg of 304 bytes: that thread opens a transaction, reads a block, changes it, and tries to roll.
const LOG_SPACE: Stake = Stake {
    unit: 65_232,
    block: Block(9),
    calls: 4,
};

/// Lets others run for a while, longer the more looks there were.
fn rest(looks: u32) {
    for _ in 0..looks.min(YIELDS) {
        thread::yield_now();
    }
}

/// Opens a transaction, waits for a block that another one has, or for its content, and gives up what it has: what it was told.
fn wait_for_lock<H: House, D: Desk<H, R>, R: Abort + Wait>(
    rt: &R,
    host: &Host<H, D>,
    seat: &mut HostSeat<H>,
    at: &MountRef,
    reads: bool,
) -> Result<(), Errno>
    requires board { seat.old.board.board ≡ host.now.board }
    ensures board { seat.new.board.board ≡ seat.old.board.board }
{
    let mut trans = host.begin_trans(rt, seat, *at, 176, 1, false)?;
    let told = if reads {
        host.read_wait(rt, seat, &mut trans, Block(7))
    } else {
        host.get_wait(rt, seat, &mut trans, Block(7))
    };
    give_up(rt, host, seat, trans);
    told
}

/// Locks a block that is free in a transaction, with its content, and writes its first byte.
fn mark<H: House, D: Desk<H, R>, R: Wait>(
    rt: &R,
    alloc: Global,
    host: &Host<H, D>,
    seat: &mut HostSeat<H>,
    trans: &mut Trans,
) -> Result<(), Errno>
    requires board { seat.old.board.board ≡ host.now.board }
    ensures board { seat.new.board.board ≡ seat.old.board.board }
{
    let Ok(Some(byte)) = Data::of_repeated(alloc, 0x11, 1) else {
        return Err(Errno::NoMemory);
    };
    host.read_wait(rt, seat, trans, Block(7))?;
    host.log(rt, seat, trans, Block(7), 0, byte)
}

/// Opens a transaction of one leg, changes a block, waits for log space for another leg, and gives up what it has: what it was told.
fn wait_for_leg<H: House, D: Desk<H, R>, R: Abort + Wait>(
    rt: &R,
    alloc: Global,
    host: &Host<H, D>,
    seat: &mut HostSeat<H>,
    at: &MountRef,
) -> Result<(), Errno>
    requires board { seat.old.board.board ≡ host.now.board }
    ensures board { seat.new.board.board ≡ seat.old.board.board }
{
    let mut trans = host.begin_trans(rt, seat, *at, 304, 1, true)?;
    if let Err(errno) = mark(rt, alloc, host, seat, &mut trans) {
        give_up(rt, host, seat, trans);
        return Err(errno);
    }
    let _number = roll_off(rt, host, seat, trans)?;
    Ok(())
}

/// Waits in a scene: what it was told.
fn waits<H: House, D: Desk<H, R>, R: Abort + Wait>(
    rt: &R,
    alloc: Global,
    host: &Host<H, D>,
    seat: &mut HostSeat<H>,
    at: &MountRef,
    scene: Scene,
) -> Result<(), Errno>
    requires board { seat.old.board.board ≡ host.now.board }
    ensures board { seat.new.board.board ≡ seat.old.board.board }
{
    match scene {
        Scene::Lock => wait_for_lock(rt, host, seat, at, false),
        Scene::Content(_) | Scene::FailedRead => wait_for_lock(rt, host, seat, at, true),
        Scene::Leg(_) => wait_for_leg(rt, alloc, host, seat, at),
        Scene::Thaw => {
            let trans = host.begin_trans_wait(rt, seat, *at, 176, 1, false)?;
            give_up(rt, host, seat, trans);
            Ok(())
        }
        Scene::Force(_) => host.force_wait(rt, seat, *at, CkptNo(1)),
    }
}

/// Calls a mount again and again, so many times at most, until so many events of other seats stand between its own: whether they came. A
/// call of it makes no job owed, so that none of its own posts stands between them too.
fn sees_others<H: House, D: Desk<H, R>, R: Wait>(
    rt: &R,
    host: &Host<H, D>,
    seat: &mut HostSeat<H>,
    at: &MountRef,
    wanted: u64,
    looks: u32,
) -> Result<bool, Errno>
    requires board { seat.old.board.board ≡ host.now.board }
    ensures board { seat.new.board.board ≡ seat.old.board.board }
{
    let mut own: u64 = 0;
    let mut first = None;
    for look in 0..looks {
        match host.force_to(rt, seat, *at, NO_CKPT) {
            Err(Errno::Invalid) => {}
            told => {
                told?;
                return Ok(false);
            }
        }
        let number = seat.receipts().last().map_or(0, |receipt| receipt.number);
        let start = *first.get_or_insert(number);
        if number.saturating_sub(start).saturating_sub(own) >= wanted {
            return Ok(true);
        }
        own = own.saturating_add(1);
        rest(look.saturating_add(1));
    }
    Ok(false)
}

/// Looks for other seats while none calls, forces, and looks again: whether it took an event of its own for one of theirs.
fn sees_itself<H: House, D: Desk<H, R>, R: Wait>(
    rt: &R,
    host: &Host<H, D>,
    seat: &mut HostSeat<H>,
    at: &MountRef,
) -> Result<bool, Errno>
    requires board { seat.old.board.board ≡ host.now.board }
    ensures board { seat.new.board.board ≡ seat.old.board.board }
{
    let before = sees_others(rt, host, seat, at, 1, FEW_LOOKS)?;
    host.force(rt, seat, *at)?;
    let after = sees_others(rt, host, seat, at, 1, FEW_LOOKS)?;
    Ok(before || after)
}

/// Changes a mount, forces it where that is to come first, and opens the door: whether it then saw another seat call, and none before.
fn force_beside<H: House, D: Desk<H, R>, R: Abort + Wait>(
    rt: &R,
    alloc: Global,
    host: &Host<H, D>,
    seat: &mut HostSeat<H>,
    at: &MountRef,
    door: &Door,
    first: First,
) -> Result<bool, Errno>
    requires board { seat.old.board.board ≡ host.now.board }
    ensures board { seat.new.board.board ≡ seat.old.board.board }
{
    change(rt, alloc, host, seat, *at)?;
    let early = match first {
        First::Waiter => false,
        First::Other => sees_itself(rt, host, seat, at)?,
    };
    door.shut();
    let seen = sees_others(rt, host, seat, at, 1, LOOKS)?;
    Ok(seen && !early)
}

/// Takes log space and a block, opens the door, and lets go what another seat waits for once that has tried: whether it did. A commit on
/// a mount that is shut ends a transaction that changed nothing.
fn let_go<H: House, D: Desk<H, R>, R: Abort + Wait>(
    rt: &R,
    host: &Host<H, D>,
    seat: &mut HostSeat<H>,
    at: &MountRef,
    door: &Door,
    stake: Stake,
    end: End,
) -> Result<bool, Errno>
    requires board { seat.old.board.board ≡ host.now.board }
    ensures board { seat.new.board.board ≡ seat.old.board.board }
{
    let mut trans = host.begin_trans(rt, seat, *at, stake.unit, 1, false)?;
    let told = host.get(rt, seat, &mut trans, stake.block);
    door.shut();
    let seen = sees_others(rt, host, seat, at, stake.calls, LOOKS);
    let shut = match end {
        End::Commit => Ok(()),
        End::Shutdown => host.shutdown(rt, seat, *at),
    };
    finish(rt, host, seat, trans)?;
    told?;
    shut?;
    seen
}

/// Does what another thread waits for, once that has tried: whether it did.
fn does<H: House, D: Desk<H, R>, R: Abort + Wait>(
    rt: &R,
    alloc: Global,
    host: &Host<H, D>,
    seat: &mut HostSeat<H>,
    at: &MountRef,
    door: &Door,
    scene: Scene,
) -> Result<bool, Errno>
    requires board { seat.old.board.board ≡ host.now.board }
    ensures board { seat.new.board.board ≡ seat.old.board.board }
{
    match scene {
        Scene::Lock | Scene::FailedRead => {
            let_go(rt, host, seat, at, door, A_BLOCK, End::Commit)
        }
        Scene::Content(end) => let_go(rt, host, seat, at, door, A_BLOCK, end),
        Scene::Leg(end) => let_go(rt, host, seat, at, door, LOG_SPACE, end),
        Scene::Thaw => {
            host.freeze(rt, seat, *at)?;
            door.shut();
            let seen = sees_others(rt, host, seat, at, 1, LOOKS);
            host.thaw(rt, seat, *at)?;
            seen
        }
        Scene::Force(first) => force_beside(rt, alloc, host, seat, at, door, first),
    }
}

/// The seat of the thread that waits, and what it was told.
type Waited<H> = (HostSeat<H>, Result<(), Errno>);

/// The seat of the other one, and whether it saw that thread try.
type Did<H> = (HostSeat<H>, Result<bool, Errno>);

/// A thread that waits, once the door is shut.
fn wait_behind<H: House, D: Desk<H, R>, R: Abort + Wait>(
    rt: &R,
    alloc: Global,
    host: &Host<H, D>,
    seat: HostSeat<H>,
    at: MountRef,
    door: &Door,
    scene: Scene,
) -> Waited<H>
    requires board { seat.board.board ≡ host.now.board }
{
    let mut seat = seat;
    for _ in rt.forever() {
        if door.is_shut() {
            let told = waits(rt, alloc, host, &mut seat, &at, scene);
            return (seat, told);
        }
        thread::yield_now();
    }
    unreachable!()
}

/// A thread that does something, and works then until no name waits.
fn do_beside<H: House, D: Workplace<H, R>, R: Abort + Wait>(
    rt: &R,
    alloc: Global,
    host: &Host<H, D>,
    pass: WorkPass,
    seat: HostSeat<H>,
    at: &MountRef,
    door: &Door,
    scene: Scene,
) -> Did<H>
    requires queue { pass.queue ≡ arc_value host.now.queue }
    requires board { seat.board.board ≡ host.now.board }
{
    let mut pass = pass;
    let mut seat = seat;
    let seen = does(rt, alloc, host, &mut seat, at, door, scene);
    door.shut();
    work_off(rt, host, &mut pass, &mut seat);
    (seat, seen)
}

/// Both threads.
fn by_two<H: House + Send + Sync, D: Workplace<H, R> + Sync, R: Abort + Threads + Wait + Sync>(
    rt: &R,
    alloc: Global,
    host: &Host<H, D>,
    pass: WorkPass,
    seats: (HostSeat<H>, HostSeat<H>),
    at: &MountRef,
    scene: Scene,
) -> (Waited<H>, Did<H>)
    requires queue { pass.queue ≡ arc_value host.now.queue }
    requires first { seats.0.board.board ≡ host.now.board }
    requires second { seats.1.board.board ≡ host.now.board }
{
    let (first, second) = seats;
    let open = Door::open();
    let door = &open;
    let place = *at;
    join(
        rt,
        move || -> Waited<H>
            requires { second.board.board ≡ host.now.board }
        { wait_behind(rt, alloc, host, second, place, door, scene) },
        move || -> Did<H>
            requires { (pass.queue ≡ arc_value host.now.queue) × (first.board.board ≡ host.now.board) }
        { do_beside(rt, alloc, host, pass, first, at, door, scene) },
    )
}

/// What becomes of a scene.
#[derive(Clone, Copy, Debug, PartialEq, Eq)]
struct Told {
    /// What the thread that waits was told at last.
    waited: Result<(), Errno>,
    /// Whether the other one saw it call.
    seen: Result<bool, Errno>,
    /// How many calls it made that were not told to try again.
    settled: u64,
    /// Whether it made others, and its seat counted and kept each.
    counted: bool,
    /// How many jobs were posted for it.
    posts: u64,
    /// What the end of the host found.
    closed: Result<(), CloseFault>,
}

/// What a host ends with, after both threads.
fn ended<H: House, D: IntoBooks>(
    host: Host<H, D>,
    slot: Slot,
    waited: Waited<H>,
    did: Did<H>,
) -> Told {
    let (seat, told) = waited;
    let (other, seen) = did;
    let books = host.into_books();
    let Booked {
        calls,
        tries,
        posts,
    } = match books.get(slot.index()) {
        Some(book) => booked_for(book, seat.caller()),
        None => UNBOOKED,
    };
    let kept = seat.receipts().len() as u64;
    let counted = tries > 0 && seat.count(slot) == calls && kept == calls;
    let seats = [seat, other];
    Told {
        waited: told,
        seen,
        settled: calls.saturating_sub(tries),
        counted,
        posts,
        closed: compare_all(&books, &seats),
    }
}

/// A scene in a new host.
fn play<H: House + Send + Sync, D: Place<H, R> + Sync, R: Abort + Threads + Wait + Sync>(
    rt: &R,
    alloc: Global,
    blanks: Blanks,
    scene: Scene,
    devices: D::Devices,
) -> Result<Told, Errno>
    requires names { AreNamed H.names blanks }
    requires parts { AreCut H.all blanks }
    requires all { H.all ≡ 2 ^ 64 - 1 }
{
    let (host, mut first, pass, at) = stand::<H, D, R>(rt, alloc, blanks, BOOK_ENTRIES, devices)?;
    let second = host.seat(rt, &mut first)?;
    let (waited, did) = by_two(rt, alloc, &host, pass, (first, second), &at, scene);
    Ok(ended(host, at.slot, waited, did))
}

/// The same on sixteen slots.
fn play_on_slots<H: House + Send + Sync, R: Abort + Threads + Wait + Sync>(
    rt: &R,
    alloc: Global,
    blanks: Blanks,
    scene: Scene,
    devices: Devices,
) -> Result<Told, Errno>
    requires names { AreNamed H.names blanks }
    requires parts { AreCut H.all blanks }
    requires all { H.all ≡ 2 ^ 64 - 1 }
{
    play::<H, Slots<H>, R>(rt, alloc, blanks, scene, devices)
}

/// A home device in memory, which fails the read of a scene that is about that, and a log device.
fn devices_of(
    alloc: Global,
    scene: Scene,
) -> Result<(Box<FailAt<MemHome, HomeCall>>, Box<MemLog>), Errno> {
    let at = match scene {
        Scene::FailedRead => 1,
        _ => u64::MAX,
    };
    let home = FailAt::over_home(alloc, MemHome::new(alloc), at);
    let (Ok(home), Ok(log)) = (Box::new(alloc, home), Box::new(alloc, MemLog::new(alloc))) else {
        return Err(Errno::NoMemory);
    };
    Ok((home, log))
}

/// The same over new ledgers.
fn plays<R: Abort + Threads + Wait + Sync>(
    rt: &R,
    alloc: Global,
    blanks: Blanks,
    scene: Scene,
) -> Result<Told, Errno>
    requires parts { AreCut (2 ^ 64 - 1) blanks }
{
    let (home, log) = devices_of(alloc, scene)?;
    play_on_slots::<Brand, R>(rt, alloc, blanks, scene, (home, log))
}

/// What is to become of a scene, in which the thread that waits is told so at last, so many calls are not told to try again, and so many jobs
/// are posted for it.
fn wanted(waited: Result<(), Errno>, settled: u64, posts: u64) -> Result<Told, Errno> {
    Ok(Told {
        waited,
        seen: Ok(true),
        settled,
        counted: true,
        posts,
        closed: Ok(()),
    })
}

/// A lock that another thread's commit frees: beside the tries there are the alloc, the last get, and the cancel.
#[test]
fn a_commit_frees_a_lock(rt: HostRuntime) {
    assert_eq!(rt;
        plays(&rt, rt.alloc(), Blanks::new(), Scene::Lock),
        wanted(Ok(()), 3, 0)
    );
}

/// The content of a block, which another thread's commit frees: beside the tries there are the alloc, the last read, and the cancel.
#[test]
fn a_commit_frees_a_content(rt: HostRuntime) {
    assert_eq!(rt;
        plays(&rt, rt.alloc(), Blanks::new(), Scene::Content(End::Commit)),
        wanted(Ok(()), 3, 0)
    );
}

/// The last read is EIO where the other thread shuts the mount, and where the home device fails.
#[test]
fn a_wait_for_a_content_fails(rt: HostRuntime) {
    for scene in [Scene::Content(End::Shutdown), Scene::FailedRead] {
        assert_eq!(rt;
            plays(&rt, rt.alloc(), Blanks::new(), scene),
            wanted(Err(Errno::Io), 3, 0)
        );
    }
}

/// A roll whose leg was the last one, while another thread has the log space: beside the tries there are the alloc, the read, the log, the
/// last roll, and the cancel. The roll is EIO where that thread shuts the mount. The first try asks for a flush, which is posted.
#[test]
fn a_roll_waits_for_log_space(rt: HostRuntime) {
    for (end, told) in [(End::Commit, Ok(())), (End::Shutdown, Err(Errno::Io))] {
        assert_eq!(rt;
            plays(&rt, rt.alloc(), Blanks::new(), Scene::Leg(end)),
            wanted(told, 5, 1)
        );
    }
}

/// A frozen mount that another thread thaws: beside the tries there are the last alloc, and the cancel.
#[test]
fn a_thaw_opens_a_mount(rt: HostRuntime) {
    assert_eq!(rt;
        plays(&rt, rt.alloc(), Blanks::new(), Scene::Thaw),
        wanted(Ok(()), 2, 0)
    );
}

/// A checkpoint that the other thread forces, and then writes: beside the tries there is the last force. That thread looks for calls before
/// there are any, and sees none.
#[test]
fn a_worker_ends_a_force(rt: HostRuntime) {
    assert_eq!(rt;
        plays(&rt, rt.alloc(), Blanks::new(), Scene::Force(First::Other)),
        wanted(Ok(()), 1, 0)
    );
}

/// The same where no other thread forces it: the first try asks for the checkpoint, which is posted.
#[test]
fn a_worker_ends_a_first_force(rt: HostRuntime) {
    assert_eq!(rt;
        plays(&rt, rt.alloc(), Blanks::new(), Scene::Force(First::Waiter)),
        wanted(Ok(()), 1, 1)
    );
}
