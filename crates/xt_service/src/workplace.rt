//! What a service asks of its host beside the calls of its sessions: that names be done, and that mounts be unmounted.

ghost use Rattle.std.specs.Prelude.{◌≡◌, ◌∷◌, [], false, true};
ghost use Rattle.xt_base.specs.Jobs.{is_ckpt};
ghost use Rattle.xt_base.specs.declared.steps.Request.TheVariants as ARequest;
ghost use Rattle.xt_host.specs.Tokens.{Served};
ghost use Rattle.xt_host.specs.Work.{Worked};
ghost use Rattle.xt_queue.specs.Boards.{Rises};
ghost use Rattle.xt_service.specs.Seats.{unmount_reply};

use std::sync::Wait;
use xt_base::names::{JobKind, JobName, Worker};
use xt_base::steps::Errno;
use xt_cell::house::House;
use xt_cell::job::DoneJob;
use xt_cell::mount_ref::MountRef;
use xt_cell::seat::HostSeat;
use xt_host::desk::{Desk, Slots};
use xt_host::host::Host;
use xt_host::pause::Pause;

/// A desk at whose host names are done and mounts are unmounted. What works for a host, and what ends a service, is written over it, and
/// names no slot.
pub trait Workplace<H: House, R: Wait>: Desk<H, R> {
    /// Does a name that was taken, to its end: false where there was no memory to begin with, and then it is to be done still.
    fn finish(
        rt: &R,
        host: &Host<H, Self>,
        seat: &mut HostSeat<H>,
        worker: Worker,
        name: &JobName,
    ) -> bool
    where
        Self: Sized,
        requires board { seat.old.board.board ≡ host.now.board }
        ensures board { seat.new.board.board ≡ seat.old.board.board }
        ensures rises { Rises seat.old.board.seen seat.new.board.seen }
        ensures worked { Worked worker (name.now ∷ []) seat.old seat.new };

    /// Unmounts a mount, and lets its devices go: why it is mounted still, if it is.
    fn unmount(rt: &R, host: &Host<H, Self>, seat: &mut HostSeat<H>, at: MountRef) -> Option<Errno>
    where
        Self: Sized,
        requires board { seat.old.board.board ≡ host.now.board }
        ensures told { Served at ARequest.Unmount (unmount_reply result) seat.old seat.new }
        ensures board { seat.new.board ≡ seat.old.board };
}

/// Ends a job that was run, again and again until it is taken, with pauses between: an end may want memory, and no run has a job of
/// another flight.
fn end_job<H: House, R: Wait>(rt: &R, host: &Host<H>, seat: &mut HostSeat<H>, done: DoneJob)
    requires board { seat.old.board.board ≡ host.now.board }
    ensures board { seat.new.board.board ≡ seat.old.board.board }
    ensures rises { Rises seat.old.board.seen seat.new.board.seen }
    ensures worked { Worked done.worker (done.name ∷ []) seat.old seat.new }
{
    let mut done = done;
    let mut pause = Pause::new();
    for _ in rt.forever() {
        match host.end(rt, seat, done) {
            Ok(_reply) => return,
            Err((back, _fault)) => done = back,
        }
        pause.wait(rt);
    }
    unreachable!()
}

/// Does a checkpoint: false where there was no memory to begin it.
#[tactic(auto, using(crate::proofs::JobLemmas::left, crate::proofs::JobLemmas::began, crate::proofs::JobLemmas::ended))]
fn checkpoint<H: House, R: Wait>(
    rt: &R,
    host: &Host<H>,
    seat: &mut HostSeat<H>,
    worker: Worker,
    name: &JobName,
) -> bool
    requires board { seat.old.board.board ≡ host.now.board }
    requires kind { is_ckpt name.now.kind ≡ true }
    ensures board { seat.new.board.board ≡ seat.old.board.board }
    ensures rises { Rises seat.old.board.seen seat.new.board.seen }
    ensures worked { Worked worker (name.now ∷ []) seat.old seat.new }
{
    let Some((reply, job)) = host.begin(rt, seat, worker, name) else {
        return true;
    };
    let Some(job) = job else {
        return !reply.is_no_memory();
    };
    end_job(rt, host, seat, job.run());
    true
}

/// Does a flush: false where there was no memory for it.
#[tactic(auto, using(crate::proofs::JobLemmas::left, crate::proofs::JobLemmas::flushed))]
fn flush<H: House, R: Wait>(
    rt: &R,
    host: &Host<H>,
    seat: &mut HostSeat<H>,
    worker: Worker,
    name: &JobName,
) -> bool
    requires board { seat.old.board.board ≡ host.now.board }
    requires kind { is_ckpt name.now.kind ≡ false }
    ensures board { seat.new.board.board ≡ seat.old.board.board }
    ensures rises { Rises seat.old.board.seen seat.new.board.seen }
    ensures worked { Worked worker (name.now ∷ []) seat.old seat.new }
{
    match host.flush(rt, seat, worker, name) {
        Some(reply) => !reply.is_no_memory(),
        None => true,
    }
}

impl<H: House, R: Wait> Workplace<H, R> for Slots<H> {
    fn finish(
        rt: &R,
        host: &Host<H, Slots<H>>,
        seat: &mut HostSeat<H>,
        worker: Worker,
        name: &JobName,
    ) -> bool {
        match name.kind {
            JobKind::Ckpt => checkpoint(rt, host, seat, worker, name),
            JobKind::Flush => flush(rt, host, seat, worker, name),
        }
    }

    fn unmount(
        rt: &R,
        host: &Host<H, Slots<H>>,
        seat: &mut HostSeat<H>,
        at: MountRef,
    ) -> Option<Errno> {
        match host.unmount(rt, seat, at) {
            Ok(_devices) => None,
            Err(errno) => Some(errno),
        }
    }
}
