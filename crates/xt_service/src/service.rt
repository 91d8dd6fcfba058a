//! The life of a service over a host whose volumes are mounted: its workers, the sessions, and the end.

ghost use Rattle.std.specs.Prelude.{◌≡◌, ◌≤◌, ◌+◌, ◌++◌, ◌⊎◌, All, List, IfErr, IfOk, OnOk, vec_capacity, vec_len};
ghost use Rattle.std.specs.Arc.{arc_value};
ghost use Rattle.slab.specs.Slab.{slab_len};
ghost use Rattle.std.specs.List.{Contains};
ghost use Rattle.xt_base.specs.declared.names.JobName.{JobName as AName};
ghost use Rattle.xt_base.specs.declared.steps.Errno.TheVariants.{NoMemory, NoSpace};
ghost use Rattle.xt_cell.specs.HostSeats.{HostSeatView as AHostSeat};
ghost use Rattle.xt_service.specs.Seats.{HasWorked, HasWrittenOut, IsSplitOff, IsUsed, Unmounts};
ghost use Rattle.xt_service.specs.declared.ended.TheConstants.{PLACES};

use crate::accept::accept_sessions;
use crate::bench::Bench;
use crate::door::Door;
use crate::ended::{Ended, PLACES};
use crate::room::{Room, put_benches, put_seats};
use crate::stream::Listener;
use crate::table::Table;
use crate::tidings::Tidings;
use crate::workplace::Workplace;
use std::alloc::{AllocError, Global};
use std::snapshot::Snapshot;
use std::sync::{Arc, Wait};
use std::thread;
use std::thread::{Promise, PromisedHandle, Threads};
use std::time::Clock;
use xt_base::sizes::SLOTS;
use xt_base::steps::Errno;
use xt_cell::house::House;
use xt_cell::mount_ref::MountRef;
use xt_cell::seat::HostSeat;
use xt_host::host::Host;
use xt_queue::jobs::WorkPass;

/// How often all mounts are written out at the end of a service.
const ROUNDS: u32 = 4;

/// What a worker's thread promises: that it did only the work of names that it took, by the seat of the bench that it was given, and gives
/// that bench back, which is of the same host still.
#[derive(Drop)]
pub struct OnlyWork<H: House>(pub Snapshot<Bench<H>>);

impl<H: House> Promise<Bench<H>> for OnlyWork<H> {
    ghost kept_by = { λ promise bench. HasWorked promise.0.value.pass.worker bench.pass.taken promise.0.value.seat bench.seat × (bench.pass.queue ≡ promise.0.value.pass.queue) };
}

/// A worker in a thread of its own, which gives its bench back at its end.
type Worker<H> = PromisedHandle<Bench<H>, OnlyWork<H>>;

/// A service of a host: a seat of its own, its sessions, its workers, and room for all that it gives back at its end.
#[derive(Drop)]
pub struct Service<H: House> {
    own: HostSeat<H>,
    table: Table<H>,
    crew: Crew<H>,
    room: Room<H>,
    ghost tied: { table.like.value.board.board ≡ own.board.board },
    ghost none: { (vec_len room.seats ≡ 0) × (vec_len room.passes ≡ 0) × (vec_len room.benches ≡ 0) },
    ghost seats_room: { PLACES + vec_len crew.workers + 1 ≤ vec_capacity room.seats },
    ghost passes_room: { vec_len crew.workers ≤ vec_capacity room.passes },
    ghost benches_room: { vec_len crew.workers ≤ vec_capacity room.benches },
}

/// The workers of a service, each in a thread of its own by a seat off which none was split, and the door at which they stop.
#[derive(Drop)]
struct Crew<H: House> {
    workers: Vec<Worker<H>>,
    door: Arc<Door, Global>,
    ghost unsplit: { All (λ worker. worker.promise.0.value.seat.board.splits ≡ 0) workers.items },
}

/// What the end of a service leaves.
#[derive(Drop)]
pub struct ServiceEnd<H: House> {
    /// Why each slot is still mounted, of those that are.
    pub kept: [Option<Errno>; SLOTS],
    /// The seats and passes that the service had, for the end of the host.
    pub seats: Vec<HostSeat<H>>,
    pub passes: Vec<WorkPass>,
}

/// Fills a table with places, by seats that are drawn for them: ENOSPC where the numbers of callers end.
#[tactic(auto, using(crate::proofs::SplitLemmas::split_none, crate::proofs::SplitLemmas::split_more, crate::proofs::SplitLemmas::split_same))]
fn add_places<H: House, D, R: Wait>(
    rt: &R,
    host: &Host<H, D>,
    own: &mut HostSeat<H>,
    table: &mut Table<H>,
) -> Result<(), Errno>
    requires board { own.old.board.board ≡ host.now.board }
    requires like { table.old.like.value.board.board ≡ host.now.board }
    requires empty { slab_len table.old.sessions + vec_len table.old.free ≡ 0 }
    ensures own { IsSplitOff own.old own.new }
    ensures splits { OnOk result (own.new.board.splits ≡ own.old.board.splits + PLACES) }
    ensures space { IfErr result (λ errno. errno ≡ NoSpace) }
    ensures like { table.new.like ≡ table.old.like }
    ensures places { OnOk result (slab_len table.new.sessions + vec_len table.new.free ≡ PLACES) }
{
    for _ in 0..PLACES {
        let seat = host.seat(rt, own)?;
        table.add(seat);
    }
    Ok(())
}

/// A full table of a host: ENOMEM where memory is refused, ENOSPC where the numbers of callers end.
#[tactic(auto, using(crate::proofs::SplitLemmas::split_none))]
fn full_table<H: House, D, R: Wait>(
    rt: &R,
    alloc: Global,
    host: &Host<H, D>,
    own: &mut HostSeat<H>,
) -> Result<Table<H>, Errno>
    requires board { own.old.board.board ≡ host.now.board }
    ensures own { IsSplitOff own.old own.new }
    ensures splits { OnOk result (own.new.board.splits ≡ own.old.board.splits + PLACES) }
    ensures refused { IfErr result (λ errno. (errno ≡ NoMemory) ⊎ (errno ≡ NoSpace)) }
    ensures like { IfOk result (λ table. table.like.value.board.board ≡ host.now.board) }
    ensures places { IfOk result (λ table. slab_len table.sessions + vec_len table.free ≡ PLACES) }
{
    let Ok(ended) = Arc::new(alloc, Ended::new()) else {
        return Err(Errno::NoMemory);
    };
    let Ok(mut table) = Table::new(alloc, ended, own) else {
        return Err(Errno::NoMemory);
    };
    add_places(rt, host, own, &mut table)?;
    Ok(table)
}

/// Works at a bench until a door is shut.
fn work_at<H: House, D: Workplace<H, R> + Drop, R: Wait + Copy>(
    rt: R,
    host: Arc<Host<H, D>, Global>,
    bench: Bench<H>,
    door: Arc<Door, Global>,
) -> Bench<H>
    requires board { bench.seat.board.board ≡ (arc_value host).board }
    requires queue { bench.pass.queue ≡ arc_value (arc_value host).queue }
    ensures board { result.seat.board.board ≡ (arc_value host).board }
    ensures queue { result.pass.queue ≡ arc_value (arc_value host).queue }
    ensures worked { HasWorked bench.pass.worker result.pass.taken bench.seat result.seat }
{
    let mut bench = bench;
    bench.work_until(&rt, &host, &door);
    bench
}

/// A worker at a bench of a host, in a thread of its own. The one error is want of memory, or of a thread.
fn hire<
    H: House + Send + Sync + 'static,
    D: Workplace<H, R> + Drop + Send + Sync + 'static,
    R: Threads + Wait + Copy + Send + 'static,
>(
    rt: R,
    host: &Arc<Host<H, D>, Global>,
    bench: Bench<H>,
    door: &Arc<Door, Global>,
) -> Result<Worker<H>, AllocError>
    requires board { bench.seat.board.board ≡ (arc_value host.now).board }
    requires queue { bench.pass.queue ≡ arc_value (arc_value host.now).queue }
    ensures bench { IfOk result (λ worker. worker.promise.0.value ≡ bench) }
    ensures board { IfOk result (λ worker. worker.promise.0.value.seat.board.board ≡ (arc_value host.now).board) }
    ensures queue { IfOk result (λ worker. worker.promise.0.value.pass.queue ≡ arc_value (arc_value host.now).queue) }
{
    let theirs = Arc::try_clone(host)?;
    let shut = Arc::try_clone(door)?;
    let promise = OnlyWork(Snapshot::of(&bench));
    let work = move || -> Bench<H>
        requires { (bench.seat.board.board ≡ (arc_value theirs).board) × (bench.pass.queue ≡ arc_value (arc_value theirs).queue) }
        ensures { HasWorked bench.pass.worker result.pass.taken bench.seat result.seat × (result.pass.queue ≡ bench.pass.queue) }
    { work_at(rt, theirs, bench, shut) };
    Ok(thread::spawn_with(&rt, promise, work)?)
}

impl<H: House> Crew<H> {
    /// No workers yet. The one error is want of memory.
    fn new(alloc: Global) -> Result<Self, AllocError>
        ensures { IfOk result (λ crew. vec_len crew.workers ≡ 0) }
    {
        let door = Arc::new(alloc, Door::new())?;
        Ok(Crew {
            workers: Vec::new(alloc),
            door,
        })
    }

    /// Has the workers stop, and waits until all have: their benches, in room that was made before.
    fn dismiss<D, R: Threads>(self, rt: &R, host: &Host<H, D>, room: Vec<Bench<H>>) -> Vec<Bench<H>>
        requires none { vec_len room ≡ 0 }
        requires room { vec_len self.workers ≤ vec_capacity room }
        requires workers { All (λ worker. (worker.promise.0.value.seat.board.board ≡ host.now.board) × (worker.promise.0.value.pass.queue ≡ arc_value host.now.queue)) self.workers.items }
        ensures count { vec_len result ≡ vec_len self.workers }
        ensures benches { All (λ bench. (bench.seat.board.board ≡ host.now.board) × (bench.pass.queue ≡ arc_value host.now.queue)) result.items }
        ensures unsplit { All (λ bench. bench.seat.board.splits ≡ 0) result.items }
    {
        let Crew { workers, door } = self;
        door.shut();
        host.wake_workers();
        let mut benches = room;
        for worker in workers {
            benches.push_reserved(worker.join(rt));
        }
        benches
    }
}

impl<H: House + Send + Sync + 'static> Crew<H> {
    /// A worker for each pass: ENOMEM where memory or a thread is refused, ENOSPC where the numbers of callers end.
    #[tactic(auto, using(crate::proofs::SplitLemmas::split_none, crate::proofs::SplitLemmas::split_same))]
    fn add_all<
        D: Workplace<H, R> + Drop + Send + Sync + 'static,
        R: Threads + Wait + Copy + Send + 'static,
    >(
        &mut self,
        rt: R,
        host: &Arc<Host<H, D>, Global>,
        own: &mut HostSeat<H>,
        passes: Vec<WorkPass>,
    ) -> Result<(), Errno>
        requires board { own.old.board.board ≡ (arc_value host.now).board }
        requires queues { All (λ pass. pass.queue ≡ arc_value (arc_value host.now).queue) passes.items }
        requires workers { All (λ worker. (worker.promise.0.value.seat.board.board ≡ (arc_value host.now).board) × (worker.promise.0.value.pass.queue ≡ arc_value (arc_value host.now).queue)) self.old.workers.items }
        ensures own { IsSplitOff own.old own.new }
        ensures splits { OnOk result (own.new.board.splits ≡ own.old.board.splits + vec_len passes) }
        ensures refused { IfErr result (λ errno. (errno ≡ NoMemory) ⊎ (errno ≡ NoSpace)) }
        ensures count { OnOk result (vec_len self.new.workers ≡ vec_len self.old.workers + vec_len passes) }
        ensures most { vec_len self.new.workers ≤ vec_len self.old.workers + vec_len passes }
        ensures workers { All (λ worker. (worker.promise.0.value.seat.board.board ≡ (arc_value host.now).board) × (worker.promise.0.value.pass.queue ≡ arc_value (arc_value host.now).queue)) self.new.workers.items }
    {
        for pass in passes {
            let seat = host.seat(&rt, own)?;
            if self.workers.reserve(1).is_err() {
                return Err(Errno::NoMemory);
            }
            match hire(rt, host, Bench { seat, pass }, &self.door) {
                Ok(worker) => self.workers.push_reserved(worker),
                Err(_refused) => return Err(Errno::NoMemory),
            }
        }
        Ok(())
    }
}

impl<H: House + Send + Sync + 'static> Service<H> {
    /// A service over a host: a worker in a thread of its own for each pass, and no session yet. ENOMEM where memory or a thread is
    /// refused, ENOSPC where the numbers of callers end; then the workers that there are have stopped.
    #[tactic(auto, using(crate::proofs::SplitLemmas::split_both))]
    pub fn start<R: Threads + Wait + Copy + Send + 'static>(
        rt: R,
        alloc: Global,
        host: &Arc<Host<H>, Global>,
        seat: HostSeat<H>,
        passes: Vec<WorkPass>,
    ) -> Result<Self, Errno>
        requires board { seat.board.board ≡ (arc_value host.now).board }
        requires queues { All (λ pass. pass.queue ≡ arc_value (arc_value host.now).queue) passes.items }
        ensures refused { IfErr result (λ errno. (errno ≡ NoMemory) ⊎ (errno ≡ NoSpace)) }
        ensures own { IfOk result (λ service. IsSplitOff seat service.own) }
        ensures splits { IfOk result (λ service. service.own.board.splits ≡ seat.board.splits + PLACES + vec_len passes) }
        ensures count { IfOk result (λ service. vec_len service.crew.workers ≡ vec_len passes) }
        ensures places { IfOk result (λ service. slab_len service.table.sessions + vec_len service.table.free ≡ PLACES) }
        ensures workers { IfOk result (λ service. All (λ worker. (worker.promise.0.value.seat.board.board ≡ (arc_value host.now).board) × (worker.promise.0.value.pass.queue ≡ arc_value (arc_value host.now).queue)) service.crew.workers.items) }
    {
        let mut own = seat;
        let Ok(mut crew) = Crew::new(alloc) else {
            return Err(Errno::NoMemory);
        };
        let Ok(room) = Room::new(alloc, passes.len()) else {
            return Err(Errno::NoMemory);
        };
        let table = full_table(&rt, alloc, host, &mut own)?;
        if let Err(errno) = crew.add_all(rt, host, &mut own, passes) {
            let _benches = crew.dismiss(&rt, host, room.benches);
            return Err(errno);
        }
        Ok(Service {
            own,
            table,
            crew,
            room,
        })
    }

    /// Serves so many sessions over the streams of a listener, of TCP or of a path, at most sixteen at a time, and returns when the last has ended. Once the door
    /// is shut no more are served, and each ends where its client is silent; a listener that waits for a client finds that out only then,
    /// so where the door may be shut it is to be one that does not block. A stream that can't be accepted is noted as a tiding, and tried again;
    /// a client whose session can't have a thread is noted too, and sent away.
    pub fn serve<R: Threads + Wait + Clock + Copy + Send + 'static>(
        &mut self,
        rt: R,
        alloc: Global,
        host: &Arc<Host<H>, Global>,
        listener: Listener<'_>,
        count: u64,
        tidings: &Tidings,
        door: &Arc<Door, Global>,
    )
        requires board { self.old.own.board.board ≡ (arc_value host.now).board }
        ensures own { self.new.own ≡ self.old.own }
        ensures crew { self.new.crew ≡ self.old.crew }
        ensures running { slab_len self.new.table.sessions ≡ 0 }
        ensures places { slab_len self.new.table.sessions + vec_len self.new.table.free ≡ slab_len self.old.table.sessions + vec_len self.old.table.free }
    {
        accept_sessions(
            rt,
            alloc,
            host,
            listener,
            &mut self.table,
            count,
            tidings,
            door,
        );
        self.table.wait_for_all(&rt);
    }
}

/// Has each mount written out once.
fn write_out_each<H: House, D: Workplace<H, R>, R: Wait>(
    rt: &R,
    host: &Host<H, D>,
    bench: &mut Bench<H>,
    mounts: &[MountRef],
)
    requires board { bench.old.seat.board.board ≡ host.now.board }
    requires queue { bench.old.pass.queue ≡ arc_value host.now.queue }
    ensures board { bench.new.seat.board.board ≡ host.now.board }
    ensures queue { bench.new.pass.queue ≡ arc_value host.now.queue }
    ensures worker { bench.new.pass.worker ≡ bench.old.pass.worker }
    ensures taken { (names : List AName) × (bench.new.pass.taken ≡ bench.old.pass.taken ++ names) }
    ensures written { HasWrittenOut mounts.now bench.old.pass.worker bench.new.pass.taken bench.old.seat bench.new.seat }
    ensures used { IsUsed bench.old.seat bench.new.seat }
{
    for at in mounts {
        bench.write_out(rt, host, at);
    }
}

/// Has all mounts written out, again and again: what one force and one push leave is written by a later one.
fn write_out_all<H: House, D: Workplace<H, R>, R: Wait>(
    rt: &R,
    host: &Host<H, D>,
    bench: &mut Bench<H>,
    mounts: &[MountRef],
)
    requires board { bench.old.seat.board.board ≡ host.now.board }
    requires queue { bench.old.pass.queue ≡ arc_value host.now.queue }
    ensures board { bench.new.seat.board.board ≡ host.now.board }
    ensures queue { bench.new.pass.queue ≡ arc_value host.now.queue }
    ensures worker { bench.new.pass.worker ≡ bench.old.pass.worker }
    ensures taken { (names : List AName) × (bench.new.pass.taken ≡ bench.old.pass.taken ++ names) }
    ensures written { HasWrittenOut mounts.now bench.old.pass.worker bench.new.pass.taken bench.old.seat bench.new.seat }
    ensures used { IsUsed bench.old.seat bench.new.seat }
{
    for _ in 0..ROUNDS {
        write_out_each(rt, host, bench, mounts);
    }
}

/// Has all mounts written out by one of some benches, if there is one: the benches.
fn write_out_by<H: House, D: Workplace<H, R>, R: Wait>(
    rt: &R,
    host: &Host<H, D>,
    benches: Vec<Bench<H>>,
    mounts: &[MountRef],
) -> Vec<Bench<H>>
    requires benches { All (λ bench. (bench.seat.board.board ≡ host.now.board) × (bench.pass.queue ≡ arc_value host.now.queue)) benches.items }
    requires unsplit { All (λ bench. bench.seat.board.splits ≡ 0) benches.items }
    ensures count { vec_len result ≡ vec_len benches }
    ensures benches { All (λ bench. (bench.seat.board.board ≡ host.now.board) × (bench.pass.queue ≡ arc_value host.now.queue)) result.items }
    ensures unsplit { All (λ bench. bench.seat.board.splits ≡ 0) result.items }
{
    let mut benches = benches;
    if let Some(mut bench) = benches.pop() {
        write_out_all(rt, host, &mut bench, mounts);
        benches.push_reserved(bench);
    }
    benches
}

/// Unmounts all mounts: why each slot is still mounted, of those that are.
fn unmount_each<H: House, D: Workplace<H, R>, R: Wait>(
    rt: &R,
    host: &Host<H, D>,
    seat: &mut HostSeat<H>,
    mounts: &[MountRef],
) -> [Option<Errno>; SLOTS]
    requires board { seat.old.board.board ≡ host.now.board }
    ensures unmounts { Unmounts seat.old mounts.now seat.new result }
    ensures used { IsUsed seat.old seat.new }
    ensures board { seat.new.board.board ≡ host.now.board }
{
    let mut kept = [None; SLOTS];
    for at in mounts {
        kept[at.slot.index()] = D::unmount(rt, host, seat, *at);
    }
    kept
}

impl<H: House> Service<H> {
    /// Ends a service: its workers stop, what its mounts have committed is written to the logs and home, and the mounts are unmounted. The
    /// mounts are ascending by slot. All seats and passes come back, with which the host is then to be closed.
    pub fn end<D: Workplace<H, R>, R: Threads + Wait>(
        self,
        rt: &R,
        host: &Host<H, D>,
        mounts: &[MountRef],
    ) -> ServiceEnd<H>
        requires board { self.own.board.board ≡ host.now.board }
        requires workers { All (λ worker. (worker.promise.0.value.seat.board.board ≡ host.now.board) × (worker.promise.0.value.pass.queue ≡ arc_value host.now.queue)) self.crew.workers.items }
        ensures seats { vec_len result.seats ≡ slab_len self.table.sessions + vec_len self.table.free + vec_len self.crew.workers + 1 }
        ensures passes { vec_len result.passes ≡ vec_len self.crew.workers }
        ensures boards { All (λ seat. seat.board.board ≡ host.now.board) result.seats.items }
        ensures queues { All (λ pass. pass.queue ≡ arc_value host.now.queue) result.passes.items }
        ensures splits { All (λ seat. (seat.board.splits ≡ 0) ⊎ IsUsed self.own seat) result.seats.items }
        ensures kept { (own : AHostSeat) × Contains result.seats.items own × Unmounts self.own mounts.now own result.kept }
    {
        let Service {
            mut own,
            mut table,
            crew,
            room,
        } = self;
        let Room {
            mut seats,
            mut passes,
            benches,
        } = room;
        table.wait_for_all(rt);
        let benches = crew.dismiss(rt, host, benches);
        let benches = write_out_by(rt, host, benches, mounts);
        let kept = unmount_each(rt, host, &mut own, mounts);
        put_seats(host, &mut seats, table.into_seats());
        put_benches(host, &mut seats, &mut passes, benches);
        seats.push_reserved(own);
        ServiceEnd {
            kept,
            seats,
            passes,
        }
    }
}
