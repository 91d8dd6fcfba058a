//! Four threads at one host, and what the books of its slots tell when it ends.

ghost use Rattle.std.specs.Prelude.{◌≡◌, ◌<◌, ◌-◌, ◌^◌, All, IfOk};
ghost use Rattle.std.specs.Arc.{arc_value};
ghost use Rattle.xt_cell.specs.Ledgers.{AreCut, AreNamed};

use crate::guest::{Guest, Lived, live, volume_in};
use crate::replay::{Tally, gives_replies};
use crate::working::Workplace;
use anyhow::{Context, Error, Result};
use std::alloc::{AllocError, Global};
use std::marker::Brand;
use std::sync::Wait;
use std::thread::{Threads, join};
use xt_base::names::Slot;
use xt_base::sizes::SLOTS;
use xt_base::steps::{Errno, LogOffer};
use xt_cell::account::Account;
use xt_cell::house::House;
use xt_cell::reserve::Blanks;
use xt_cell::seat::HostSeat;
use xt_dev::call::HomeCall;
use xt_dev::fail_at::FailAt;
use xt_dev::mem_home::MemHome;
use xt_dev::mem_log::MemLog;
use xt_host::comparing::compare_all;
use xt_host::host::{BOOK_ENTRIES, Host};
use xt_queue::jobs::WorkPass;
use xt_trials::dice::Dice;

/// How many threads, each of them a caller and a worker.
const CREW: usize = 4;

/// In which of its calls a device fails at the latest, the second time and the first.
const HOME_CALLS: [u32; 2] = [400, 100];

const LOG_CALLS: [u32; 2] = [120, 40];

/// A home device in memory that fails in two of its calls, and such a log device.
type FaultyHome = FailAt<FailAt<MemHome, HomeCall>, HomeCall>;

type FaultyLog = FailAt<FailAt<MemLog, LogOffer>, LogOffer>;

/// The number of a call.
fn call_number(dice: &mut Dice, latest: u32) -> u64
    requires { 0 < latest }
    ensures { 0 < result }
{
    u64::from(dice.below(latest)) + 1
}

/// A home device that fails in two of its calls.
fn faulty_home(alloc: Global, dice: &mut Dice) -> FaultyHome {
    let home = FailAt::over_home(alloc, MemHome::new(alloc), call_number(dice, HOME_CALLS[0]));
    FailAt::over_home(alloc, home, call_number(dice, HOME_CALLS[1]))
}

/// A log device that fails in two of its calls.
fn faulty_log(alloc: Global, dice: &mut Dice) -> FaultyLog {
    let log = FailAt::over_log(alloc, MemLog::new(alloc), call_number(dice, LOG_CALLS[0]));
    FailAt::over_log(alloc, log, call_number(dice, LOG_CALLS[1]))
}

/// What a host is tried with: the seed of its threads, and how many things each thread does.
#[derive(Clone, Copy)]
pub struct Plan {
    pub seed: u64,
    pub turns: u32,
}

/// What was found of hosts.
#[derive(Clone, Copy, Default)]
pub struct Ended {
    pub tally: Tally,
    pub hosts: u64,
    /// Books that the host core does not give the replies of.
    pub different: u64,
    /// Hosts whose books and seats do not agree, or one of whose jobs came back.
    pub unclean: u64,
}

/// Two threads, and what they found.
type Pair<H> = (Guest<H>, Guest<H>);

type LivedPair<H> = (Lived<H>, Lived<H>);

/// Two guests, in two threads.
fn by_two<H: House + Send + Sync, R: Threads + Wait + Sync>(
    rt: &R,
    alloc: Global,
    host: &Host<H>,
    pair: Pair<H>,
    turns: u32,
) -> LivedPair<H>
    requires queue { (pair.0.pass.queue ≡ arc_value host.now.queue) × (pair.1.pass.queue ≡ arc_value host.now.queue) }
    requires board { (pair.0.seat.board.board ≡ host.now.board) × (pair.1.seat.board.board ≡ host.now.board) }
{
    let (first, second) = pair;
    let (one, other) = join(
        rt,
        move || -> Lived<H>
            requires { (first.pass.queue ≡ arc_value host.now.queue) × (first.seat.board.board ≡ host.now.board) }
        { live(rt, alloc, host, first, turns) },
        move || -> Lived<H>
            requires { (second.pass.queue ≡ arc_value host.now.queue) × (second.seat.board.board ≡ host.now.board) }
        { live(rt, alloc, host, second, turns) },
    );
    (one, other)
}

/// Four guests, in four threads.
fn by_four<H: House + Send + Sync, R: Threads + Wait + Sync>(
    rt: &R,
    alloc: Global,
    host: &Host<H>,
    pairs: (Pair<H>, Pair<H>),
    turns: u32,
) -> (LivedPair<H>, LivedPair<H>)
    requires queues { (pairs.0.0.pass.queue ≡ arc_value host.now.queue) × (pairs.0.1.pass.queue ≡ arc_value host.now.queue) × (pairs.1.0.pass.queue ≡ arc_value host.now.queue) × (pairs.1.1.pass.queue ≡ arc_value host.now.queue) }
    requires boards { (pairs.0.0.seat.board.board ≡ host.now.board) × (pairs.0.1.seat.board.board ≡ host.now.board) × (pairs.1.0.seat.board.board ≡ host.now.board) × (pairs.1.1.seat.board.board ≡ host.now.board) }
{
    let (first, second) = pairs;
    let (one, other) = join(
        rt,
        move || -> LivedPair<H>
            requires { (first.0.pass.queue ≡ arc_value host.now.queue) × (first.1.pass.queue ≡ arc_value host.now.queue) × (first.0.seat.board.board ≡ host.now.board) × (first.1.seat.board.board ≡ host.now.board) }
        { by_two(rt, alloc, host, first, turns) },
        move || -> LivedPair<H>
            requires { (second.0.pass.queue ≡ arc_value host.now.queue) × (second.1.pass.queue ≡ arc_value host.now.queue) × (second.0.seat.board.board ≡ host.now.board) × (second.1.seat.board.board ≡ host.now.board) }
        { by_two(rt, alloc, host, second, turns) },
    );
    (one, other)
}

/// The last worker with a seat, and a seed.
fn seated<H: House, D>(
    host: &Host<H, D>,
    seat: HostSeat<H>,
    passes: &mut Vec<WorkPass>,
    seed: u64,
) -> Result<Guest<H>, Errno>
    requires queues { All (λ pass. pass.queue ≡ arc_value host.now.queue) passes.old.items }
    ensures queues { All (λ pass. pass.queue ≡ arc_value host.now.queue) passes.new.items }
    ensures queue { IfOk result (λ guest. guest.pass.queue ≡ arc_value host.now.queue) }
    ensures seat { IfOk result (λ guest. guest.seat ≡ seat) }
{
    let _ = host;
    let pass = passes.pop().ok_or(Errno::Invalid)?;
    Ok(Guest { seat, pass, seed })
}

/// The four guests of a host.
fn crew_of<H: House, D, R: Wait>(
    rt: &R,
    host: &Host<H, D>,
    seat: HostSeat<H>,
    passes: Vec<WorkPass>,
    seed: u64,
) -> Result<(Pair<H>, Pair<H>), Errno>
    requires board { seat.board.board ≡ host.now.board }
    requires passes { All (λ pass. pass.queue ≡ arc_value host.now.queue) passes.items }
    ensures queues { IfOk result (λ pairs. (pairs.0.0.pass.queue ≡ arc_value host.now.queue) × (pairs.0.1.pass.queue ≡ arc_value host.now.queue) × (pairs.1.0.pass.queue ≡ arc_value host.now.queue) × (pairs.1.1.pass.queue ≡ arc_value host.now.queue)) }
    ensures boards { IfOk result (λ pairs. (pairs.0.0.seat.board.board ≡ host.now.board) × (pairs.0.1.seat.board.board ≡ host.now.board) × (pairs.1.0.seat.board.board ≡ host.now.board) × (pairs.1.1.seat.board.board ≡ host.now.board)) }
{
    let (mut seat, mut passes) = (seat, passes);
    let seed = seed.wrapping_mul(CREW as u64);
    let other = host.seat(rt, &mut seat)?;
    let fourth = seated(host, other, &mut passes, seed.wrapping_add(3))?;
    let other = host.seat(rt, &mut seat)?;
    let third = seated(host, other, &mut passes, seed.wrapping_add(2))?;
    let other = host.seat(rt, &mut seat)?;
    let second = seated(host, other, &mut passes, seed.wrapping_add(1))?;
    let first = seated(host, seat, &mut passes, seed)?;
    Ok(((first, second), (third, fourth)))
}

impl Ended {
    /// Adds what the books of a host tell.
    fn add_books(&mut self, alloc: Global, books: &[Account]) -> Result<(), AllocError> {
        self.hosts = self.hosts.saturating_add(1);
        for book in books {
            self.tally.add_book(book.entries());
            if !gives_replies(alloc, book.entries())? {
                self.different = self.different.saturating_add(1);
            }
        }
        Ok(())
    }
}

/// The error of a call that was refused.
fn refused(errno: Errno) -> Error {
    Error::msg(errno.name())
}

/// Mounts a slot over devices.
fn mount<H: House, D: Workplace<H, R>, R: Wait>(
    rt: &R,
    host: &Host<H, D>,
    seat: &mut HostSeat<H>,
    index: u8,
    devices: D::Devices,
) -> Result<()>
    requires board { seat.old.board.board ≡ host.now.board }
    ensures board { seat.new.board.board ≡ seat.old.board.board }
{
    let slot = Slot::new(index).context("a slot")?;
    let mounted = D::mount(rt, host, seat, &volume_in(slot), devices);
    mounted.map_err(|(_devices, errno)| refused(errno))
}

/// A host from its making to its end: four threads call its sixteen slots, and its books are run again.
fn run<H: House + Send + Sync, R: Threads + Wait + Sync>(
    rt: &R,
    alloc: Global,
    blanks: Blanks,
    plan: Plan,
    ended: &mut Ended,
) -> Result<()>
    requires names { AreNamed H.names blanks }
    requires parts { AreCut H.all blanks }
    requires all { H.all ≡ 2 ^ 64 - 1 }
{
    let (host, mut seat, passes) = match Host::<H>::new(alloc, blanks, CREW, BOOK_ENTRIES) {
        Ok(made) => made,
        Err(errno) => return Err(refused(errno)),
    };
    let mut dice = Dice::new(plan.seed);
    for index in 0..SLOTS as u8 {
        let home = Box::new(alloc, faulty_home(alloc, &mut dice))?;
        let log = Box::new(alloc, faulty_log(alloc, &mut dice))?;
        mount(rt, &host, &mut seat, index, (home, log))?;
    }
    let crew = crew_of(rt, &host, seat, passes, plan.seed).map_err(refused)?;
    let (((one, first), (two, second)), ((three, third), (four, fourth))) = by_four(
        rt, alloc, &host, crew, plan.turns,
    );
    let is_well = first? && second? && third? && fourth?;
    let books = host.into_books();
    let closed = compare_all(&books, &[one, two, three, four]);
    if !is_well || closed.is_err() {
        ended.unclean = ended.unclean.saturating_add(1);
    }
    ended.add_books(alloc, &books).context("memory for a book")
}

/// Adds what is found of one host, over new ledgers.
pub fn try_host<R: Threads + Wait + Sync>(
    rt: &R,
    alloc: Global,
    blanks: Blanks,
    plan: Plan,
    ended: &mut Ended,
) -> Result<()>
    requires parts { AreCut (2 ^ 64 - 1) blanks }
{
    run::<Brand, R>(rt, alloc, blanks, plan, ended)
}
