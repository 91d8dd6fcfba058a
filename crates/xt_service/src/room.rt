//! Room for what a service gives back at its end, which is made at its start, so that none of it is lost for want of memory.

ghost use Rattle.std.specs.Prelude.{◌≡◌, ◌≤◌, ◌+◌, All, IfOk, vec_capacity, vec_len};
ghost use Rattle.std.specs.Arc.{arc_value};
ghost use Rattle.xt_service.specs.declared.ended.TheConstants.{PLACES};

use crate::bench::Bench;
use crate::ended::PLACES;
use std::alloc::{AllocError, Global};
use xt_cell::house::House;
use xt_cell::seat::HostSeat;
use xt_host::host::Host;
use xt_queue::jobs::WorkPass;

/// Lists with room for the seats and passes of a service, and for the benches of its workers.
#[derive(Drop)]
pub struct Room<H: House> {
    pub seats: Vec<HostSeat<H>>,
    pub passes: Vec<WorkPass>,
    pub benches: Vec<Bench<H>>,
}

impl<H: House> Room<H> {
    /// Room for a service of so many workers: a seat for each place, for each worker, and for the service itself. The one error is want of
    /// memory.
    pub fn new(alloc: Global, workers: usize) -> Result<Self, AllocError>
        ensures none { IfOk result (λ room. (vec_len room.seats ≡ 0) × (vec_len room.passes ≡ 0) × (vec_len room.benches ≡ 0)) }
        ensures seats { IfOk result (λ room. PLACES + workers + 1 ≤ vec_capacity room.seats) }
        ensures passes { IfOk result (λ room. workers ≤ vec_capacity room.passes) }
        ensures benches { IfOk result (λ room. workers ≤ vec_capacity room.benches) }
    {
        let Some(seats) = workers.checked_add(PLACES + 1) else {
            return Err(AllocError);
        };
        Ok(Room {
            seats: Vec::with_capacity(alloc, seats)?,
            passes: Vec::with_capacity(alloc, workers)?,
            benches: Vec::with_capacity(alloc, workers)?,
        })
    }
}

/// Puts seats of a host among others, in room that was made before.
pub fn put_seats<H: House, D>(
    host: &Host<H, D>,
    seats: &mut Vec<HostSeat<H>>,
    more: Vec<HostSeat<H>>,
)
    requires room { vec_len seats.old + vec_len more ≤ vec_capacity seats.old }
    requires boards { All (λ seat. seat.board.board ≡ host.now.board) seats.old.items }
    requires more_boards { All (λ seat. seat.board.board ≡ host.now.board) more.items }
    requires unsplit { All (λ seat. seat.board.splits ≡ 0) seats.old.items }
    requires more_unsplit { All (λ seat. seat.board.splits ≡ 0) more.items }
    ensures len { vec_len seats.new ≡ vec_len seats.old + vec_len more }
    ensures capacity { vec_capacity seats.old ≤ vec_capacity seats.new }
    ensures boards { All (λ seat. seat.board.board ≡ host.now.board) seats.new.items }
    ensures unsplit { All (λ seat. seat.board.splits ≡ 0) seats.new.items }
{
    let _ = host;
    let mut more = more;
    match seats.append(&mut more) {
        Ok(()) => {}
        Err(_refused) => unreachable!(),
    }
}

/// Puts the seats and passes of benches of a host among others, in room that was made before.
pub fn put_benches<H: House, D>(
    host: &Host<H, D>,
    seats: &mut Vec<HostSeat<H>>,
    passes: &mut Vec<WorkPass>,
    benches: Vec<Bench<H>>,
)
    requires seats_room { vec_len seats.old + vec_len benches ≤ vec_capacity seats.old }
    requires passes_room { vec_len passes.old + vec_len benches ≤ vec_capacity passes.old }
    requires boards { All (λ seat. seat.board.board ≡ host.now.board) seats.old.items }
    requires queues { All (λ pass. pass.queue ≡ arc_value host.now.queue) passes.old.items }
    requires benches { All (λ bench. (bench.seat.board.board ≡ host.now.board) × (bench.pass.queue ≡ arc_value host.now.queue)) benches.items }
    requires unsplit { All (λ seat. seat.board.splits ≡ 0) seats.old.items }
    requires benches_unsplit { All (λ bench. bench.seat.board.splits ≡ 0) benches.items }
    ensures seats { vec_len seats.new ≡ vec_len seats.old + vec_len benches }
    ensures passes { vec_len passes.new ≡ vec_len passes.old + vec_len benches }
    ensures boards { All (λ seat. seat.board.board ≡ host.now.board) seats.new.items }
    ensures queues { All (λ pass. pass.queue ≡ arc_value host.now.queue) passes.new.items }
    ensures unsplit { All (λ seat. seat.board.splits ≡ 0) seats.new.items }
    ensures capacity { vec_capacity seats.old ≤ vec_capacity seats.new }
{
    let _ = host;
    for bench in benches {
        let Bench { seat, pass } = bench;
        seats.push_reserved(seat);
        passes.push_reserved(pass);
    }
}
