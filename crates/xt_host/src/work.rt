//! The work of one worker: it takes names and does them, each to its end.

ghost use Rattle.std.specs.Prelude.{◌≡◌, ◌++◌, ◌∷◌, [], IfSome, List, OnOk, None, false, true};
ghost use Rattle.std.specs.Arc.{arc_value};
ghost use Rattle.std.specs.List.{Contains};
ghost use Rattle.xt_base.specs.Isolation.{is_no_memory};
ghost use Rattle.xt_base.specs.Jobs.{is_ckpt};
ghost use Rattle.xt_base.specs.declared.names.JobName.{JobName as AName};
ghost use Rattle.xt_host.specs.Work.{Worked};
ghost use Rattle.xt_queue.specs.Boards.{Rises};

use crate::gate::Gate;
use crate::host::Host;
use crate::pause::Pause;
use std::sync::Wait;
use std::thread;
use xt_base::names::{JobKind, JobName, Worker};
use xt_base::steps::{Errno, Reply};
use xt_cell::house::House;
use xt_cell::job::{CkptJob, DoneJob};
use xt_cell::running::EndFault;
use xt_cell::seat::HostSeat;
use xt_queue::jobs::WorkPass;
use xt_slots::desk::Slots;

impl<H: House> Host<H, Slots<H>> {
    /// Takes names and does each of them to its end, until the gate does not go on, which it is asked each time no name waits. A
    /// checkpoint is begun and ended under its slot's lock, and run under none. A name that no longer waits in its slot is left. Where
    /// memory is refused the same is tried again, after a pause. None, unless the end of a job finds another flight, or none: then that job comes back.
    pub fn work<R: Wait, G: Gate>(
        &self,
        rt: &R,
        pass: &mut WorkPass,
        seat: &mut HostSeat<H>,
        gate: &G,
    ) -> Option<DoneJob>
        requires queue { pass.old.queue ≡ arc_value self.now.queue }
        requires board { seat.old.board.board ≡ self.now.board }
        ensures queue { pass.new.queue ≡ pass.old.queue }
        ensures worker { pass.new.worker ≡ pass.old.worker }
        ensures taken { (names : List AName) × (pass.new.taken ≡ pass.old.taken ++ names) }
        ensures board { seat.new.board.board ≡ seat.old.board.board }
        ensures rises { Rises seat.old.board.seen seat.new.board.seen }
        ensures worked { Worked pass.new.worker pass.new.taken seat.old seat.new }
        ensures back { IfSome result (λ done. (done.worker ≡ pass.new.worker) × Contains pass.new.taken done.name) }
    {
        for _ in rt.forever() {
            let Some(name) = self.take(rt, pass) else {
                if !gate.go_on() {
                    return None;
                }
                thread::yield_now();
                continue;
            };
            gate.before(&name);
            if let Some(stranger) = self.work_on(rt, seat, pass.worker(), &name) {
                return Some(stranger);
            }
        }
        unreachable!()
    }

    /// Does one name that was taken to its end, by its kind, as `work` does each: for a worker that has something of its own to do after
    /// each job. None, unless the end of a checkpoint finds another flight, or none: then that job comes back.
    pub fn work_on<R: Wait>(
        &self,
        rt: &R,
        seat: &mut HostSeat<H>,
        worker: Worker,
        name: &JobName,
    ) -> Option<DoneJob>
        requires board { seat.old.board.board ≡ self.now.board }
        ensures board { seat.new.board.board ≡ seat.old.board.board }
        ensures rises { Rises seat.old.board.seen seat.new.board.seen }
        ensures worked { Worked worker (name.now ∷ []) seat.old seat.new }
        ensures back { IfSome result (λ done. (done.worker ≡ worker) × (done.name ≡ name.now)) }
    {
        match name.kind {
            JobKind::Ckpt => {
                let job = self.begun(rt, seat, worker, name)?;
                self.ended(rt, seat, job.run())
            }
            JobKind::Flush => {
                self.flushed(rt, seat, worker, name);
                None
            }
        }
    }

    /// Begins a checkpoint, again and again while memory is refused, with pauses between: the job, or None where there is nothing to write.
    fn begun<R: Wait>(
        &self,
        rt: &R,
        seat: &mut HostSeat<H>,
        worker: Worker,
        name: &JobName,
    ) -> Option<CkptJob>
        requires board { seat.old.board.board ≡ self.now.board }
        requires kind { is_ckpt name.now.kind ≡ true }
        ensures board { seat.new.board ≡ seat.old.board }
        ensures worked { Worked worker (name.now ∷ []) seat.old seat.new }
        ensures named { IfSome result (λ job. (job.worker ≡ worker) × (job.name ≡ name.now)) }
    {
        let mut pause = Pause::new();
        for _ in rt.forever() {
            let (reply, job) = self.begin(rt, seat, worker, name)?;
            if let Some(job) = job {
                return Some(job);
            }
            if !reply.is_no_memory() {
                return None;
            }
            pause.wait(rt);
        }
        unreachable!()
    }

    /// Ends a checkpoint, again and again while there is no memory for it, with pauses between: the job comes back where it is no slot's
    /// flight.
    fn ended<R: Wait>(&self, rt: &R, seat: &mut HostSeat<H>, mut done: DoneJob) -> Option<DoneJob>
        requires board { seat.old.board.board ≡ self.now.board }
        ensures board { seat.new.board.board ≡ seat.old.board.board }
        ensures rises { Rises seat.old.board.seen seat.new.board.seen }
        ensures worked { Worked done.worker (done.name ∷ []) seat.old seat.new }
        ensures back { IfSome result (λ back. back ≡ done) }
    {
        let mut pause = Pause::new();
        for _ in rt.forever() {
            match self.end(rt, seat, done) {
                Ok(_) => return None,
                Err((back, EndFault::Stranger)) => return Some(back),
                Err((back, EndFault::Memory)) => done = back,
            }
            pause.wait(rt);
        }
        unreachable!()
    }

    /// Runs a flush, again and again while memory is refused, with pauses between.
    fn flushed<R: Wait>(&self, rt: &R, seat: &mut HostSeat<H>, worker: Worker, name: &JobName)
        requires board { seat.old.board.board ≡ self.now.board }
        requires kind { is_ckpt name.now.kind ≡ false }
        ensures board { seat.new.board.board ≡ seat.old.board.board }
        ensures rises { Rises seat.old.board.seen seat.new.board.seen }
        ensures worked { Worked worker (name.now ∷ []) seat.old seat.new }
    {
        let mut pause = Pause::new();
        for _ in rt.forever() {
            let Some(reply) = self.flush(rt, seat, worker, name) else {
                return;
            };
            if !reply.is_no_memory() {
                return;
            }
            pause.wait(rt);
        }
        unreachable!()
    }
}
