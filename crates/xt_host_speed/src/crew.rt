//! Sixteen mounts by four threads, each the caller of four mounts and a worker of all.

ghost use Rattle.std.specs.Prelude.{◌≡◌, All, IfOk};
ghost use Rattle.std.specs.Arc.{arc_value};

use crate::client::{Change, Client, refused, transact_all, write_out};
use crate::rig::unmount_all;
use crate::workplace::Workplace;
use anyhow::Result;
use std::alloc::Global;
use std::sync::Wait;
use std::thread::{Threads, join};
use std::time::{Clock, Duration, Instant};
use xt_base::names::{Life, Slot};
use xt_base::steps::Errno;
use xt_cell::house::House;
use xt_cell::mount_ref::MountRef;
use xt_cell::seat::HostSeat;
use xt_host::host::Host;
use xt_queue::jobs::WorkPass;

/// How many threads.
pub const CREW: u8 = 4;

/// How many mounts each thread calls.
const SHARE: u8 = 4;

/// A caller, with the number of its first mount, and what it does: so many transactions of each of its mounts.
#[derive(Drop)]
struct Hand<H: House> {
    client: Client<H>,
    first: u8,
    orders: Orders,
}

/// What each thread changes in a transaction, how many transactions of each mount there are, and the life of the mounts.
#[derive(Clone, Copy)]
pub struct Orders {
    pub life: Life,
    pub change: Change,
    pub count: u32,
}

/// What a caller leaves, and what it was told.
type Told<H> = (Client<H>, Result<(), Errno>);

/// Two of them, and all four.
type Pair<H> = (Hand<H>, Hand<H>);

type ToldPair<H> = (Told<H>, Told<H>);

/// All transactions of one thread, one mount after the other, up to the first that is refused.
fn serve_share<H: House, D: Workplace<H, R>, R: Wait>(
    rt: &R,
    host: &Host<H, D>,
    hand: Hand<H>,
) -> Told<H>
    requires queue { hand.client.pass.queue ≡ arc_value host.now.queue }
    requires board { hand.client.seat.board.board ≡ host.now.board }
    ensures queue { result.0.pass.queue ≡ arc_value host.now.queue }
    ensures board { result.0.seat.board.board ≡ host.now.board }
{
    let Hand {
        mut client,
        first,
        orders,
    } = hand;
    let Orders {
        life,
        change,
        count,
    } = orders;
    for number in first..first.saturating_add(SHARE) {
        let Some(slot) = Slot::new(number) else {
            return (client, Err(Errno::NoDevice));
        };
        let at = MountRef { slot, life };
        if let Err(errno) = transact_all(rt, host, &mut client, &at, &change, count) {
            return (client, Err(errno));
        }
    }
    (client, Ok(()))
}

/// Two callers, in two threads.
fn by_two<H: House + Send + Sync, D: Workplace<H, R> + Sync, R: Threads + Wait + Sync>(
    rt: &R,
    host: &Host<H, D>,
    pair: Pair<H>,
) -> ToldPair<H>
    requires queue { (pair.0.client.pass.queue ≡ arc_value host.now.queue) × (pair.1.client.pass.queue ≡ arc_value host.now.queue) }
    requires board { (pair.0.client.seat.board.board ≡ host.now.board) × (pair.1.client.seat.board.board ≡ host.now.board) }
    ensures queue { result.0.0.pass.queue ≡ arc_value host.now.queue }
    ensures board { result.0.0.seat.board.board ≡ host.now.board }
{
    let (first, second) = pair;
    let (one, other) = join(
        rt,
        move || -> Told<H>
            requires { (first.client.pass.queue ≡ arc_value host.now.queue) × (first.client.seat.board.board ≡ host.now.board) }
            ensures { (result.0.pass.queue ≡ arc_value host.entry.now.queue) × (result.0.seat.board.board ≡ host.entry.now.board) }
        { serve_share(rt, host, first) },
        move || -> Told<H>
            requires { (second.client.pass.queue ≡ arc_value host.now.queue) × (second.client.seat.board.board ≡ host.now.board) }
        { serve_share(rt, host, second) },
    );
    (one, other)
}

/// Four callers, in four threads.
fn by_four<H: House + Send + Sync, D: Workplace<H, R> + Sync, R: Threads + Wait + Sync>(
    rt: &R,
    host: &Host<H, D>,
    pairs: (Pair<H>, Pair<H>),
) -> (ToldPair<H>, ToldPair<H>)
    requires queues { (pairs.0.0.client.pass.queue ≡ arc_value host.now.queue) × (pairs.0.1.client.pass.queue ≡ arc_value host.now.queue) × (pairs.1.0.client.pass.queue ≡ arc_value host.now.queue) × (pairs.1.1.client.pass.queue ≡ arc_value host.now.queue) }
    requires boards { (pairs.0.0.client.seat.board.board ≡ host.now.board) × (pairs.0.1.client.seat.board.board ≡ host.now.board) × (pairs.1.0.client.seat.board.board ≡ host.now.board) × (pairs.1.1.client.seat.board.board ≡ host.now.board) }
    ensures queue { result.0.0.0.pass.queue ≡ arc_value host.now.queue }
    ensures board { result.0.0.0.seat.board.board ≡ host.now.board }
{
    let (first, second) = pairs;
    let (one, other) = join(
        rt,
        move || -> ToldPair<H>
            requires { (first.0.client.pass.queue ≡ arc_value host.now.queue) × (first.1.client.pass.queue ≡ arc_value host.now.queue) × (first.0.client.seat.board.board ≡ host.now.board) × (first.1.client.seat.board.board ≡ host.now.board) }
            ensures { (result.0.0.pass.queue ≡ arc_value host.entry.now.queue) × (result.0.0.seat.board.board ≡ host.entry.now.board) }
        { by_two(rt, host, first) },
        move || -> ToldPair<H>
            requires { (second.0.client.pass.queue ≡ arc_value host.now.queue) × (second.1.client.pass.queue ≡ arc_value host.now.queue) × (second.0.client.seat.board.board ≡ host.now.board) × (second.1.client.seat.board.board ≡ host.now.board) }
        { by_two(rt, host, second) },
    );
    (one, other)
}

/// The last worker with a seat, the caller of the mounts from one number on.
fn seated<H: House, D>(
    host: &Host<H, D>,
    seat: HostSeat<H>,
    passes: &mut Vec<WorkPass>,
    first: u8,
    orders: Orders,
) -> Result<Hand<H>, Errno>
    requires queues { All (λ pass. pass.queue ≡ arc_value host.now.queue) passes.old.items }
    ensures queues { All (λ pass. pass.queue ≡ arc_value host.now.queue) passes.new.items }
    ensures queue { IfOk result (λ hand. hand.client.pass.queue ≡ arc_value host.now.queue) }
    ensures seat { IfOk result (λ hand. hand.client.seat ≡ seat) }
{
    let _ = host;
    let pass = passes.pop().ok_or(Errno::Invalid)?;
    let client = Client { seat, pass };
    Ok(Hand {
        client,
        first,
        orders,
    })
}

/// The four callers of a host.
fn make_crew<H: House, D, R: Wait>(
    rt: &R,
    host: &Host<H, D>,
    seat: HostSeat<H>,
    passes: Vec<WorkPass>,
    orders: Orders,
) -> Result<(Pair<H>, Pair<H>), Errno>
    requires board { seat.board.board ≡ host.now.board }
    requires passes { All (λ pass. pass.queue ≡ arc_value host.now.queue) passes.items }
    ensures queues { IfOk result (λ pairs. (pairs.0.0.client.pass.queue ≡ arc_value host.now.queue) × (pairs.0.1.client.pass.queue ≡ arc_value host.now.queue) × (pairs.1.0.client.pass.queue ≡ arc_value host.now.queue) × (pairs.1.1.client.pass.queue ≡ arc_value host.now.queue)) }
    ensures boards { IfOk result (λ pairs. (pairs.0.0.client.seat.board.board ≡ host.now.board) × (pairs.0.1.client.seat.board.board ≡ host.now.board) × (pairs.1.0.client.seat.board.board ≡ host.now.board) × (pairs.1.1.client.seat.board.board ≡ host.now.board)) }
{
    let (mut seat, mut passes) = (seat, passes);
    let fourth = seated(
        host,
        host.seat(rt, &mut seat)?,
        &mut passes,
        3 * SHARE,
        orders,
    )?;
    let third = seated(
        host,
        host.seat(rt, &mut seat)?,
        &mut passes,
        2 * SHARE,
        orders,
    )?;
    let second = seated(host, host.seat(rt, &mut seat)?, &mut passes, SHARE, orders)?;
    let first = seated(host, seat, &mut passes, 0, orders)?;
    Ok(((first, second), (third, fourth)))
}

/// Has all mounts written out by one thread: what another took last may not have been done when its caller looked.
fn write_out_all<H: House, D: Workplace<H, R>, R: Wait>(
    rt: &R,
    host: &Host<H, D>,
    client: &mut Client<H>,
    mounts: &[MountRef],
) -> Result<(), Errno>
    requires queue { client.old.pass.queue ≡ arc_value host.now.queue }
    requires board { client.old.seat.board.board ≡ host.now.board }
    ensures board { client.new.seat.board.board ≡ client.old.seat.board.board }
{
    for at in mounts {
        write_out(rt, host, client, at)?;
    }
    Ok(())
}

/// The client of the first caller, the seats of the others, and the first refusal that one of them was told, if there is one.
type Gathered<H> = (Client<H>, Seats<H>, Result<(), Errno>);

/// The seats of the three other callers.
type Seats<H> = (HostSeat<H>, HostSeat<H>, HostSeat<H>);

/// What four callers leave, together.
fn gathered<H: House>(left: (ToldPair<H>, ToldPair<H>)) -> Gathered<H>
    ensures { result.0 ≡ left.0.0.0 }
{
    let (((one, first), (two, second)), ((three, third), (four, fourth))) = left;
    let told = first.and(second).and(third).and(fourth);
    (one, (two.seat, three.seat, four.seat), told)
}

/// How long the orders of four callers take, until all is written out.
fn time_orders<H: House + Send + Sync, D: Workplace<H, R> + Sync, R: Threads + Wait + Clock + Sync>(
    rt: &R,
    host: &Host<H, D>,
    crew: (Pair<H>, Pair<H>),
    mounts: &[MountRef],
) -> Result<(Duration, Client<H>, Seats<H>)>
    requires queues { (crew.0.0.client.pass.queue ≡ arc_value host.now.queue) × (crew.0.1.client.pass.queue ≡ arc_value host.now.queue) × (crew.1.0.client.pass.queue ≡ arc_value host.now.queue) × (crew.1.1.client.pass.queue ≡ arc_value host.now.queue) }
    requires boards { (crew.0.0.client.seat.board.board ≡ host.now.board) × (crew.0.1.client.seat.board.board ≡ host.now.board) × (crew.1.0.client.seat.board.board ≡ host.now.board) × (crew.1.1.client.seat.board.board ≡ host.now.board) }
    ensures board { IfOk result (λ timed. timed.1.seat.board.board ≡ host.now.board) }
{
    let start = Instant::now(rt)?;
    let (mut one, others, told) = gathered(by_four(rt, host, crew));
    told.map_err(refused)?;
    write_out_all(rt, host, &mut one, mounts).map_err(refused)?;
    Ok((start.elapsed(rt)?, one, others))
}

/// How long so many transactions of each of sixteen mounts take by four threads, and their seats. The mounts are unmounted then.
pub fn time_crew<
    H: House + Send + Sync,
    D: Workplace<H, R> + Sync,
    R: Threads + Wait + Clock + Sync,
>(
    rt: &R,
    alloc: Global,
    host: &Host<H, D>,
    seat: HostSeat<H>,
    passes: Vec<WorkPass>,
    mounts: &[MountRef],
    orders: Orders,
) -> Result<(Duration, Vec<HostSeat<H>>)>
    requires board { seat.board.board ≡ host.now.board }
    requires passes { All (λ pass. pass.queue ≡ arc_value host.now.queue) passes.items }
{
    let mut seats = Vec::with_capacity(alloc, usize::from(CREW))?;
    let crew = make_crew(rt, host, seat, passes, orders).map_err(refused)?;
    let (took, mut one, others) = time_orders(rt, host, crew, mounts)?;
    unmount_all(rt, host, &mut one, mounts)?;
    let (two, three, four) = others;
    seats.push_reserved(one.seat);
    seats.push_reserved(two);
    seats.push_reserved(three);
    seats.push_reserved(four);
    Ok((took, seats))
}
