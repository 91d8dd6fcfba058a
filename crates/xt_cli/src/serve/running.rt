//! A service over the files of volumes, from its mounts to its end.

ghost use Rattle.std.specs.Prelude.{◌≡◌, ◌<◌, ◌-◌, ◌^◌, ℕ, All, IfOk, None, Some, slice_index_or, true};
ghost use Rattle.std.specs.Arc.{arc_value};
ghost use Rattle.xt_base.specs.declared.sizes.TheConstants.{SLOTS};
ghost use Rattle.xt_base.specs.declared.steps.Reply.TheVariants.{Life as LifeReply};
ghost use Rattle.xt_base.specs.declared.steps.Step.{Step as AStep};
ghost use Rattle.xt_cell.specs.Ledgers.{AreCut, AreNamed};
ghost use Rattle.xt_cli.specs.Ends.{is_device_fault};
ghost use Rattle.xt_cli.specs.Logs.{loses_only_beyond};
ghost use Rattle.xt_receipts.specs.Calls.{Receives};

use crate::serve::ending::{Ended, print_shut, status, with_shut};
use crate::serve::fault::ServeFault;
use crate::serve::files::{Geometry, Opened};
use crate::serve::listening::Listening;
use std::alloc::Global;
use std::io::{self, Eprint, Print, Stdin};
use std::marker::Brand;
use std::sync::{Arc, Wait};
use std::thread;
use std::thread::Threads;
use std::time::Clock;
use xt_base::names::Slot;
use xt_base::sizes::SLOTS;
use xt_base::steps::{Errno, Reason};
use xt_cell::house::House;
use xt_cell::mount_ref::MountRef;
use xt_cell::reserve::Blanks;
use xt_cell::seat::HostSeat;
use xt_dev::home::HomeDevice;
use xt_dev::log::LogDevice;
use xt_host::host::Host;
use xt_queue::jobs::WorkPass;
use xt_service::door::Door;
use xt_service::service::{Service, ServiceEnd};
use xt_service::tidings::Tidings;

/// After how many entries the book of a slot is folded: few enough that the data which they keep are some megabytes, and so many that
/// a fold, which copies the mount, is cheap for each.
const BOOK_LIMIT: u64 = 1_024;

/// A service that is to run: what it listens with, and where, as that is told; how many workers it has, how many sessions it serves, for how many seconds a
/// client may be silent, if not for ever, and standard input where its end ends the service; then the listener is one that does not block.
#[derive(Drop)]
pub struct Orders {
    pub listening: Listening,
    pub place: String,
    pub workers: usize,
    pub sessions: u64,
    pub patience: Option<u32>,
    pub input: Option<Stdin>,
}

/// Reads standard input to its end, or to a fault of it, and shuts a door then.
fn shut_at_end(input: Stdin, door: Arc<Door, Global>) {
    let mut input = input;
    let _ = io::copy(&mut input, &mut io::sink());
    door.shut();
}

/// An open door, for clients that may be silent for so many seconds, or for ever.
fn door_of(patience: Option<u32>) -> Door {
    match patience {
        Some(seconds) => Door::with_patience(seconds),
        None => Door::new(),
    }
}

/// Has a door shut where standard input ends. The thread that waits for that is left behind where the service ends before.
fn watch_input<R: Threads>(
    rt: &R,
    input: Stdin,
    door: &Arc<Door, Global>,
) -> Result<(), ServeFault> {
    let theirs = Arc::try_clone(door)?;
    match thread::spawn(rt, move || shut_at_end(input, theirs)) {
        Ok(_thread) => Ok(()),
        Err(_refused) => Err(ServeFault::Start(Errno::NoMemory)),
    }
}

/// Has the tidings of a service told on standard error, by a thread of its own. Where standard error is held up at the end of the service that
/// thread is left behind.
fn tell_tidings<R: Threads + Wait + Eprint + Copy + Send + 'static>(
    rt: R,
    tidings: &Arc<Tidings, Global>,
) -> Result<(), ServeFault> {
    let theirs = Arc::try_clone(tidings)?;
    match thread::spawn(&rt, move || theirs.tell(&rt)) {
        Ok(_thread) => Ok(()),
        Err(_refused) => Err(ServeFault::Start(Errno::NoMemory)),
    }
}

/// Mounts a volume over its devices, with texts that say the size of a block.
fn mount<H: House, R: Wait>(
    rt: &R,
    host: &Host<H>,
    seat: &mut HostSeat<H>,
    volume: Geometry,
    home: Box<dyn HomeDevice + Send>,
    log: Box<dyn LogDevice + Send>,
) -> Result<MountRef, ServeFault>
    requires board { seat.old.board.board ≡ host.now.board }
    // What the device loses, the mount needs no more.
    requires log { loses_only_beyond volume.log_bytes (log_loses log) ≡ true }
    ensures mounted { IfOk result (λ at. (at.slot ≡ volume.slot) × Receives volume.slot (AStep.Mount volume.slot volume.log_bytes volume.blocks (Some volume.size)) (LifeReply at.life) seat.old seat.new) }
    ensures board { seat.new.board.board ≡ seat.old.board.board }
{
    let Geometry {
        slot,
        log_bytes,
        blocks,
        size,
    } = volume;
    match host.mount_sized(rt, seat, slot, log_bytes, blocks, size, home, log) {
        Ok(at) => Ok(at),
        Err(back) => Err(ServeFault::Slot(slot, back.errno)),
    }
}

/// Prints why a slot is mounted still.
fn print_kept<R: Eprint>(rt: &R, slot: Slot, errno: Errno) {
    let fault = match errno {
        Errno::Busy => ServeFault::Busy(slot),
        _ => ServeFault::Slot(slot, errno),
    };
    let _ = eprintln!(rt; "{fault}");
}

/// Prints of each slot that is mounted still why it is: whether there is none.
fn print_all_kept<R: Eprint>(rt: &R, kept: &[Option<Errno>; SLOTS]) -> bool {
    let mut is_none = true;
    for index in 0..16 {
        if let (Some(slot), Some(errno)) = (Slot::new(index), kept[usize::from(index)]) {
            print_kept(rt, slot, errno);
            is_none = false;
        }
    }
    is_none
}

/// Prints a fault, if there is one: whether there is none.
fn report<R: Eprint>(rt: &R, outcome: Result<(), ServeFault>) -> bool {
    match outcome {
        Ok(()) => true,
        Err(fault) => {
            let _ = eprintln!(rt; "{fault}");
            false
        }
    }
}

/// Says that a service listens, serves its sessions, ends it, and has all told that was to be told meanwhile: what it leaves, why slots were shut, of those that were, and why not all
/// sessions were served, if they were not.
fn serve_sessions<
    H: House + Send + Sync + 'static,
    R: Threads + Wait + Clock + Print + Eprint + Copy + Send + 'static,
>(
    rt: R,
    alloc: Global,
    host: &Arc<Host<H>, Global>,
    service: Service<H>,
    orders: &Orders,
    mounts: &[MountRef],
    tidings: &Tidings,
    door: &Arc<Door, Global>,
) -> (
    ServiceEnd<H>,
    [Option<Reason>; SLOTS],
    Result<(), ServeFault>,
)
    requires board { service.own.board.board ≡ (arc_value host.now).board }
    requires workers { All (λ worker. (worker.promise.0.value.seat.board.board ≡ (arc_value host.now).board) × (worker.promise.0.value.pass.queue ≡ arc_value (arc_value host.now).queue)) service.crew.workers.items }
{
    let mut service = service;
    let served = println!(rt; "listening {}", orders.place);
    if served.is_ok() {
        service.serve(
            rt,
            alloc,
            host,
            orders.listening.clients(),
            orders.sessions,
            tidings,
            door,
        );
    }
    let end = service.end(&rt, host, mounts);
    tidings.end(&rt);
    let (end, shut) = with_shut(host, end, mounts);
    (end, shut, served.map_err(ServeFault::Io))
}

/// Tells what was not as it should be at the end of a service, and which slots were shut.
fn tell_end<R: Eprint>(
    rt: &R,
    served: Result<(), ServeFault>,
    kept: [Option<Errno>; SLOTS],
    is_closed: bool,
    shut: [Option<Reason>; SLOTS],
) -> Ended
    ensures shut { result.shut ≡ shut }
    ensures fault { (slot : ℕ) → slot < SLOTS → is_device_fault (slice_index_or shut slot None) ≡ true → result.status ≡ 1 }
{
    let closed = if is_closed {
        Ok(())
    } else {
        Err(ServeFault::Close)
    };
    let all_were_served = report(rt, served);
    print_shut(rt, &shut);
    let none_is_mounted = print_all_kept(rt, &kept);
    let is_closed = report(rt, closed);
    Ended {
        status: status(all_were_served && none_is_mounted && is_closed, &shut),
        is_closed,
        kept,
        shut,
    }
}

/// Serves the mounts of a host, says that it listens, serves its sessions, and ends it with them. Here the host ends.
fn serve_mounts<
    H: House + Send + Sync + 'static,
    R: Threads + Wait + Clock + Print + Eprint + Copy + Send + 'static,
>(
    rt: R,
    alloc: Global,
    host: Host<H>,
    seat: HostSeat<H>,
    passes: Vec<WorkPass>,
    mounts: &[MountRef],
    orders: &Orders,
) -> Result<Ended, ServeFault>
    requires board { seat.board.board ≡ host.board }
    requires queues { All (λ pass. pass.queue ≡ arc_value host.queue) passes.items }
{
    let door = Arc::new(alloc, door_of(orders.patience))?;
    if let Some(input) = orders.input {
        watch_input(&rt, input, &door)?;
    }
    let tidings = Arc::new(alloc, Tidings::new())?;
    tell_tidings(rt, &tidings)?;
    let host = Arc::new(alloc, host)?;
    let service = match Service::start(rt, alloc, &host, seat, passes) {
        Ok(service) => service,
        Err(errno) => return Err(ServeFault::Start(errno)),
    };
    let (end, shut, served) = serve_sessions(
        rt, alloc, &host, service, orders, mounts, &tidings, &door,
    );
    let ServiceEnd {
        kept,
        seats,
        passes,
    } = end;
    let is_closed = match Arc::into_inner(host) {
        Some(host) => host.close(seats, passes).is_ok(),
        None => false,
    };
    Ok(tell_end(&rt, served, kept, is_closed, shut))
}

/// Makes a host over the files of volumes, mounts them, and serves the mounts. The devices are boxed here, where no type of a parameter has a boxed one.
fn run<
    H: House + Send + Sync + 'static,
    R: Threads + Wait + Clock + Print + Eprint + Copy + Send + 'static,
>(
    rt: R,
    alloc: Global,
    blanks: Blanks,
    orders: &Orders,
    volumes: Vec<Opened>,
) -> Result<Ended, ServeFault>
    requires names { AreNamed H.names blanks }
    requires parts { AreCut H.all blanks }
    requires all { H.all ≡ 2 ^ 64 - 1 }
{
    let (host, mut seat, passes) = match Host::<H>::new(alloc, blanks, orders.workers, BOOK_LIMIT) {
        Ok(made) => made,
        Err(errno) => return Err(ServeFault::Start(errno)),
    };
    let mut mounts = Vec::new(alloc);
    for opened in volumes {
        let Opened {
            geometry,
            home,
            log,
        } = opened;
        let home = Box::new(alloc, home)?;
        let log = Box::new(alloc, log)?;
        let at = mount(&rt, &host, &mut seat, geometry, home, log)?;
        mounts.push(at)?;
    }
    serve_mounts(rt, alloc, host, seat, passes, &mounts, orders)
}

/// Serves volumes over new ledgers, to the end of the last session, or of standard input where that ends the service.
pub fn serve<R: Threads + Wait + Clock + Print + Eprint + Copy + Send + 'static>(
    rt: R,
    alloc: Global,
    blanks: Blanks,
    orders: &Orders,
    volumes: Vec<Opened>,
) -> Result<Ended, ServeFault>
    requires parts { AreCut (2 ^ 64 - 1) blanks }
{
    run::<Brand, R>(rt, alloc, blanks, orders, volumes)
}
