//! A host from its making to its end, with a measurement between.

ghost use Rattle.std.specs.Prelude.{◌≡◌, ◌-◌, ◌^◌, All, IfOk};
ghost use Rattle.std.specs.Arc.{arc_value};
ghost use Rattle.xt_cell.specs.Ledgers.{AreCut, AreNamed};

use crate::calls::{Trial, time_calls};
use crate::client::{Change, Client, refused, transact_all};
use crate::crew::{CREW, Orders, time_crew};
use crate::null::{NullHome, NullLog};
use crate::workplace::{Devices, Mounting, Workplace};
use anyhow::{Context, Result};
use std::alloc::Global;
use std::marker::Brand;
use std::sync::Wait;
use std::thread::Threads;
use std::time::{Clock, Duration, Instant};
use xt_base::names::Slot;
use xt_cell::house::House;
use xt_cell::mount_ref::MountRef;
use xt_cell::reserve::Blanks;
use xt_cell::seat::HostSeat;
use xt_host::desk::{FromBlanks, IntoBooks, Slots};
use xt_host::host::Host;
use xt_queue::jobs::WorkPass;

/// What is measured.
#[derive(Clone, Copy)]
pub enum Task {
    /// Transactions that change this, on one mount after the other, with the work that writes them.
    Transact(Change),
    /// Such transactions by four threads, each the caller of four of sixteen mounts.
    Share(Change),
    /// Calls in one transaction of the first mount.
    Call(Trial),
}

/// What is measured, how often it is done, on a host of how many mounts, and from how many entries on its books are folded.
#[derive(Clone, Copy)]
pub struct Plan {
    pub task: Task,
    pub count: u32,
    pub mounts: u8,
    pub book_limit: u64,
}

impl Plan {
    /// How many workers the host has.
    fn workers(&self) -> usize {
        match self.task {
            Task::Share(_) => usize::from(CREW),
            _ => 1,
        }
    }
}

/// So many transactions of each mount, one mount after the other.
fn transact_on_all<H: House, D: Workplace<H, R>, R: Wait>(
    rt: &R,
    host: &Host<H, D>,
    client: &mut Client<H>,
    mounts: &[MountRef],
    change: &Change,
    count: u32,
) -> Result<()>
    requires queue { client.old.pass.queue ≡ arc_value host.now.queue }
    requires board { client.old.seat.board.board ≡ host.now.board }
    ensures queue { client.new.pass.queue ≡ client.old.pass.queue }
    ensures board { client.new.seat.board.board ≡ client.old.seat.board.board }
{
    for at in mounts {
        transact_all(rt, host, client, at, change, count).map_err(refused)?;
    }
    Ok(())
}

/// How long so many transactions of each mount take, one mount after the other.
fn time_all<H: House, D: Workplace<H, R>, R: Wait + Clock>(
    rt: &R,
    host: &Host<H, D>,
    client: &mut Client<H>,
    mounts: &[MountRef],
    change: &Change,
    count: u32,
) -> Result<Duration>
    requires queue { client.old.pass.queue ≡ arc_value host.now.queue }
    requires board { client.old.seat.board.board ≡ host.now.board }
    ensures board { client.new.seat.board.board ≡ client.old.seat.board.board }
{
    let start = Instant::now(rt)?;
    transact_on_all(rt, host, client, mounts, change, count)?;
    Ok(start.elapsed(rt)?)
}

/// The caller who has all workers' passes, where there is one worker.
fn only_client<H: House, D>(
    host: &Host<H, D>,
    seat: HostSeat<H>,
    passes: Vec<WorkPass>,
) -> Result<Client<H>>
    requires queues { All (λ pass. pass.queue ≡ arc_value host.now.queue) passes.items }
    ensures queue { IfOk result (λ client. client.pass.queue ≡ arc_value host.now.queue) }
    ensures seat { IfOk result (λ client. client.seat ≡ seat) }
{
    let _ = host;
    let mut passes = passes;
    let pass = passes.pop().context("a worker")?;
    Ok(Client { seat, pass })
}

/// Unmounts these mounts.
pub fn unmount_all<H: House, D: Workplace<H, R>, R: Wait>(
    rt: &R,
    host: &Host<H, D>,
    client: &mut Client<H>,
    mounts: &[MountRef],
) -> Result<()>
    requires board { client.old.seat.board.board ≡ host.now.board }
{
    for at in mounts {
        D::unmount(rt, host, &mut client.seat, *at).map_err(refused)?;
    }
    Ok(())
}

/// Unmounts these mounts: the one seat of their host.
fn only_seat<H: House, D: Workplace<H, R>, R: Wait>(
    rt: &R,
    alloc: Global,
    host: &Host<H, D>,
    client: Client<H>,
    mounts: &[MountRef],
) -> Result<Vec<HostSeat<H>>>
    requires board { client.seat.board.board ≡ host.now.board }
{
    let mut client = client;
    unmount_all(rt, host, &mut client, mounts)?;
    let mut seats = Vec::with_capacity(alloc, 1)?;
    seats.push_reserved(client.seat);
    Ok(seats)
}

/// How long a plan takes on these mounts, and all seats of the host. The mounts are unmounted then.
fn time_plan<H: House + Send + Sync, D: Workplace<H, R> + Sync, R: Threads + Wait + Clock + Sync>(
    rt: &R,
    alloc: Global,
    host: &Host<H, D>,
    seat: HostSeat<H>,
    passes: Vec<WorkPass>,
    mounts: &[MountRef],
    plan: &Plan,
) -> Result<(Duration, Vec<HostSeat<H>>)>
    requires board { seat.board.board ≡ host.now.board }
    requires queues { All (λ pass. pass.queue ≡ arc_value host.now.queue) passes.items }
{
    let first = mounts.first().context("a mount")?;
    match plan.task {
        Task::Transact(change) => {
            let mut client = only_client(host, seat, passes)?;
            let took = time_all(rt, host, &mut client, mounts, &change, plan.count)?;
            Ok((took, only_seat(rt, alloc, host, client, mounts)?))
        }
        Task::Call(trial) => {
            let mut client = only_client(host, seat, passes)?;
            let took = time_calls(rt, alloc, host, &mut client, first, &trial, plan.count)?;
            Ok((took, only_seat(rt, alloc, host, client, mounts)?))
        }
        Task::Share(change) => {
            let orders = Orders {
                life: first.life,
                change,
                count: plan.count,
            };
            time_crew(rt, alloc, host, seat, passes, mounts, orders)
        }
    }
}

/// Mounts slots over their devices.
fn mount_all<H: House, D: Mounting<H, R>, R: Wait>(
    rt: &R,
    alloc: Global,
    host: &Host<H, D>,
    seat: &mut HostSeat<H>,
    stock: Vec<(Slot, D::Devices)>,
) -> Result<Vec<MountRef>>
    requires board { seat.old.board.board ≡ host.now.board }
    ensures board { seat.new.board.board ≡ seat.old.board.board }
{
    let mut mounts = Vec::new(alloc);
    for (slot, devices) in stock {
        let at = D::mount(rt, host, seat, slot, devices).map_err(refused)?;
        mounts.push(at)?;
    }
    Ok(mounts)
}

/// Makes a host, mounts slots over devices, measures, unmounts them, and ends the host: how long the plan took.
fn run<
    H: House + Send + Sync,
    D: Mounting<H, R> + FromBlanks<H> + IntoBooks + Drop + Sync,
    R: Threads + Wait + Clock + Sync,
>(
    rt: &R,
    alloc: Global,
    blanks: Blanks,
    plan: &Plan,
    stock: Vec<(Slot, D::Devices)>,
) -> Result<Duration>
    requires names { AreNamed H.names blanks }
    requires parts { AreCut H.all blanks }
    requires all { H.all ≡ 2 ^ 64 - 1 }
{
    let made = Host::<H, D>::new(alloc, blanks, plan.workers(), plan.book_limit);
    let (host, mut seat, passes) = match made {
        Ok(made) => made,
        Err(errno) => return Err(refused(errno)),
    };
    let mounts = mount_all(rt, alloc, &host, &mut seat, stock)?;
    let (took, seats) = time_plan(rt, alloc, &host, seat, passes, &mounts, plan)?;
    host.close(seats, Vec::new(alloc))?;
    Ok(took)
}

/// The same on sixteen slots.
fn run_on_slots<H: House + Send + Sync, R: Threads + Wait + Clock + Sync>(
    rt: &R,
    alloc: Global,
    blanks: Blanks,
    plan: &Plan,
    stock: Vec<(Slot, Devices)>,
) -> Result<Duration>
    requires names { AreNamed H.names blanks }
    requires parts { AreCut H.all blanks }
    requires all { H.all ≡ 2 ^ 64 - 1 }
{
    run::<H, Slots<H>, R>(rt, alloc, blanks, plan, stock)
}

/// How long a plan takes over devices that keep nothing, and over new ledgers. The devices are boxed here, where no type of a parameter
/// has a boxed one.
pub fn time<R: Threads + Wait + Clock + Sync>(
    rt: &R,
    alloc: Global,
    blanks: Blanks,
    plan: &Plan,
) -> Result<Duration>
    requires parts { AreCut (2 ^ 64 - 1) blanks }
{
    let mut stock = Vec::new(alloc);
    for index in 0..plan.mounts {
        let slot = Slot::new(index).context("a slot")?;
        let home = Box::new(alloc, NullHome)?;
        let log = Box::new(alloc, NullLog)?;
        stock.push((slot, Devices { home, log }))?;
    }
    run_on_slots::<Brand, R>(rt, alloc, blanks, plan, stock)
}
