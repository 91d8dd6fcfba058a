//! The calls of a host, each to one locked slot.

ghost use Rattle.std.specs.Prelude.{◌≡◌, ◌<◌, ◌++◌, ◌∷◌, [], IfErr, IfOk, IfSome, MatchOption, None, OnErr, OnOk, Some, false, slice_index, true};
ghost use Rattle.std.specs.Arc.{arc_value};
ghost use Rattle.xt_base.specs.declared.sizes.TheConstants.{SLOTS};
ghost use Rattle.xt_base.specs.Calls.{is_unmount};
ghost use Rattle.xt_base.specs.Isolation.{is_no_memory};
ghost use Rattle.xt_base.specs.Jobs.{is_ckpt};
ghost use Rattle.xt_base.specs.Replies.{is_read, may_get};
ghost use Rattle.xt_base.specs.declared.steps.Answer.{Answer as AnAnswer};
ghost use Rattle.xt_base.specs.declared.steps.Answer.TheVariants as Answered;
ghost use Rattle.xt_base.specs.declared.steps.HomeAnswers.{HomeAnswers as AnAnswerHome};
ghost use Rattle.xt_base.specs.declared.steps.Reply.TheVariants.{Life as LifeReply, Okay, Refused};
ghost use Rattle.xt_base.specs.declared.steps.Request.TheVariants as ARequest;
ghost use Rattle.xt_base.specs.declared.steps.Step.{Step as AStep};
ghost use Rattle.xt_cell.specs.HostSeats.{IsSameSeat, Shows};
ghost use Rattle.xt_receipts.specs.Calls.{Receives};
ghost use Rattle.xt_queue.specs.Boards.{Rises};
ghost use Rattle.xt_queue.specs.Passes.{of_work};
ghost use Rattle.xt_queue.specs.Queues.{Takes};
ghost use Rattle.xt_queue.specs.Words.{word_of};

use crate::host::Host;
use crossbeam_utils::sync::Key;
use std::sync::Wait;
use xt_base::names::{JobName, Slot, Worker};
use xt_base::steps::{Errno, Reply, Request};
use xt_cell::house::House;
use xt_cell::job::{CkptJob, DoneJob};
use xt_cell::mount_ref::MountRef;
use xt_cell::mounting::MountRefused;
use xt_cell::running::EndFault;
use xt_cell::seat::HostSeat;
use xt_dev::home::HomeDevice;
use xt_dev::log::LogDevice;
use xt_queue::jobs::WorkPass;
use xt_slots::commands::{Command, Outcome};
use xt_slots::desk::{Desk, Slots};

impl<H: House, D> Host<H, D> {
    /// Serves a request to a mount, by whatever thread: one event of its slot, and nothing of another's. ENOMEM where memory is refused:
    /// then nothing was booked, and the same request may be tried again. An unmount is no such request.
    pub fn call<R: Wait>(
        &self,
        rt: &R,
        seat: &mut HostSeat<H>,
        at: MountRef,
        request: Request,
    ) -> Reply
    where
        D: Desk<H, R>,
        requires board { seat.old.board.board ≡ self.now.board }
        requires kind { is_unmount request ≡ false }
        ensures refused { is_no_memory result ≡ true → IsSameSeat seat.old seat.new }
        ensures received { is_no_memory result ≡ false → (answer : AnAnswer) × Receives at.slot (AStep.Call at.slot at.life request answer) result seat.old seat.new }
        ensures unasked { is_no_memory result ≡ false → is_read request ≡ false → Receives at.slot (AStep.Call at.slot at.life request Answered.None) result seat.old seat.new }
        ensures kind { may_get request result ≡ true }
        ensures shut { request ≡ ARequest.Shutdown → result ≡ Okay → word_of at.life None < slice_index seat.new.board.seen at.slot }
        ensures board { seat.new.board.board ≡ seat.old.board.board }
        ensures rises { Rises seat.old.board.seen seat.new.board.seen }
    {
        self.slots.ask(rt, seat, &self.board, at, request, false)
    }

    /// Takes the name at the front of the queue; None only where no name waits. What the name is of is to be done: a checkpoint by
    /// `begin`, `CkptJob::run` and `end`, a flush by `flush`, each by one worker.
    pub fn take<R: Wait>(&self, rt: &R, pass: &mut WorkPass) -> Option<JobName>
        requires queue { pass.old.queue ≡ arc_value self.now.queue }
        ensures queue { pass.new.queue ≡ pass.old.queue }
        ensures worker { pass.new.worker ≡ pass.old.worker }
        ensures taken { MatchOption result (pass.new.taken ≡ pass.old.taken) (λ name. pass.new.taken ≡ pass.old.taken ++ name ∷ []) }
        ensures slot { IfSome result (λ name. name.slot < SLOTS) }
        ensures rule { IfSome result (λ name. Takes (of_work pass.old) name (of_work pass.new)) }
    {
        self.queue.take(rt, pass)
    }

    /// Announces the rest of a worker, which then takes what names wait, and waits on the key: until a name is posted, or workers are
    /// woken, after the announcement. To drop the key is to rest not.
    pub fn prepare_rest(&self) -> Key<'_> {
        self.queue.prepare_rest()
    }

    /// Ends the rest of all workers, as where they are to stop.
    pub fn wake_workers(&self) {
        self.queue.wake_all();
    }
}

impl<H: House> Host<H, Slots<H>> {
    /// Mounts a slot anew over these devices, with blocks of 4,096 bytes and texts that do not say so, and shows the new life on the board.
    /// Where it is refused both devices come back: `Busy` where the slot is in use, `Invalid` for a log or a home device of a wrong size,
    /// `NoSpace` where lives are at their end; ENOMEM, and then nothing was booked.
    pub fn mount<R: Wait>(
        &self,
        rt: &R,
        seat: &mut HostSeat<H>,
        slot: Slot,
        log_bytes: u32,
        blocks: u64,
        home: Box<dyn HomeDevice + Send>,
        log: Box<dyn LogDevice + Send>,
    ) -> Result<MountRef, MountRefused>
        requires board { seat.old.board.board ≡ self.now.board }
        ensures refused { IfErr result (λ back. is_no_memory (Refused back.errno) ≡ true → IsSameSeat seat.old seat.new) }
        ensures mounted { IfOk result (λ at. (at.slot ≡ slot) × Receives slot (AStep.Mount slot log_bytes blocks None) (LifeReply at.life) seat.old seat.new) }
        ensures received { IfErr result (λ back. is_no_memory (Refused back.errno) ≡ false → Receives slot (AStep.Mount slot log_bytes blocks None) (Refused back.errno) seat.old seat.new) }
        ensures back { IfErr result (λ back. (back.home ≡ home) × (back.log ≡ log)) }
        ensures shown { IfOk result (λ at. Shows slot (word_of at.life None) seat.old.board seat.new.board) }
        ensures unshown { OnErr result (seat.new.board ≡ seat.old.board) }
        ensures board { seat.new.board.board ≡ seat.old.board.board }
    {
        self.mount_as(rt, seat, slot, log_bytes, blocks, None, home, log)
    }

    /// The same with blocks of `size` bytes, and texts that say so; `Invalid` also where a block may not have so many.
    pub fn mount_sized<R: Wait>(
        &self,
        rt: &R,
        seat: &mut HostSeat<H>,
        slot: Slot,
        log_bytes: u32,
        blocks: u64,
        size: u32,
        home: Box<dyn HomeDevice + Send>,
        log: Box<dyn LogDevice + Send>,
    ) -> Result<MountRef, MountRefused>
        requires board { seat.old.board.board ≡ self.now.board }
        ensures refused { IfErr result (λ back. is_no_memory (Refused back.errno) ≡ true → IsSameSeat seat.old seat.new) }
        ensures mounted { IfOk result (λ at. (at.slot ≡ slot) × Receives slot (AStep.Mount slot log_bytes blocks (Some size)) (LifeReply at.life) seat.old seat.new) }
        ensures received { IfErr result (λ back. is_no_memory (Refused back.errno) ≡ false → Receives slot (AStep.Mount slot log_bytes blocks (Some size)) (Refused back.errno) seat.old seat.new) }
        ensures back { IfErr result (λ back. (back.home ≡ home) × (back.log ≡ log)) }
        ensures shown { IfOk result (λ at. Shows slot (word_of at.life None) seat.old.board seat.new.board) }
        ensures unshown { OnErr result (seat.new.board ≡ seat.old.board) }
        ensures board { seat.new.board.board ≡ seat.old.board.board }
    {
        self.mount_as(rt, seat, slot, log_bytes, blocks, Some(size), home, log)
    }

    /// Mounts a slot anew over these devices, with blocks of a size where one is named.
    fn mount_as<R: Wait>(
        &self,
        rt: &R,
        seat: &mut HostSeat<H>,
        slot: Slot,
        log_bytes: u32,
        blocks: u64,
        size: Option<u32>,
        home: Box<dyn HomeDevice + Send>,
        log: Box<dyn LogDevice + Send>,
    ) -> Result<MountRef, MountRefused>
        requires board { seat.old.board.board ≡ self.now.board }
        ensures refused { IfErr result (λ back. is_no_memory (Refused back.errno) ≡ true → IsSameSeat seat.old seat.new) }
        ensures mounted { IfOk result (λ at. (at.slot ≡ slot) × Receives slot (AStep.Mount slot log_bytes blocks size) (LifeReply at.life) seat.old seat.new) }
        ensures received { IfErr result (λ back. is_no_memory (Refused back.errno) ≡ false → Receives slot (AStep.Mount slot log_bytes blocks size) (Refused back.errno) seat.old seat.new) }
        ensures back { IfErr result (λ back. (back.home ≡ home) × (back.log ≡ log)) }
        ensures shown { IfOk result (λ at. Shows slot (word_of at.life None) seat.old.board seat.new.board) }
        ensures unshown { OnErr result (seat.new.board ≡ seat.old.board) }
        ensures board { seat.new.board.board ≡ seat.old.board.board }
    {
        match self.slots.serve(
            rt,
            seat,
            &self.board,
            Command::Mount {
                slot,
                log_bytes,
                blocks,
                size,
                home,
                log,
            },
        ) {
            Outcome::Mounted(result) => result,
            _ => unreachable!(),
        }
    }

    /// Unmounts a mount: both devices come back. `NoDevice` where the slot is empty, `Stale` where it has another life, `Busy` where the
    /// mount is in use or has changes to write; ENOMEM where memory is refused, and then nothing was booked.
    pub fn unmount<R: Wait>(
        &self,
        rt: &R,
        seat: &mut HostSeat<H>,
        at: MountRef,
    ) -> Result<(Box<dyn HomeDevice + Send>, Box<dyn LogDevice + Send>), Errno>
        requires board { seat.old.board.board ≡ self.now.board }
        ensures refused { IfErr result (λ errno. is_no_memory (Refused errno) ≡ true → IsSameSeat seat.old seat.new) }
        ensures unmounted { OnOk result (Receives at.slot (AStep.Call at.slot at.life ARequest.Unmount Answered.None) Okay seat.old seat.new) }
        ensures received { IfErr result (λ errno. is_no_memory (Refused errno) ≡ false → Receives at.slot (AStep.Call at.slot at.life ARequest.Unmount Answered.None) (Refused errno) seat.old seat.new) }
        ensures board { seat.new.board ≡ seat.old.board }
    {
        match self
            .slots
            .serve(rt, seat, &self.board, Command::Unmount { at })
        {
            Outcome::Unmounted(result) => result,
            _ => unreachable!(),
        }
    }

    /// Begins a checkpoint for a worker, where its name waits in its slot; None where it does not. With the reply comes the job, which has
    /// the pieces and the log device of the mount, where there is something to write. ENOMEM where memory is refused: then the job waits.
    pub fn begin<R: Wait>(
        &self,
        rt: &R,
        seat: &mut HostSeat<H>,
        worker: Worker,
        name: &JobName,
    ) -> Option<(Reply, Option<CkptJob>)>
        requires board { seat.old.board.board ≡ self.now.board }
        requires kind { is_ckpt name.now.kind ≡ true }
        ensures left { result ≡ None → IsSameSeat seat.old seat.new }
        ensures refused { IfSome result (λ began. is_no_memory began.0 ≡ true → IsSameSeat seat.old seat.new) }
        ensures received { IfSome result (λ began. is_no_memory began.0 ≡ false → Receives name.now.slot (AStep.Begin worker name.now) began.0 seat.old seat.new) }
        ensures named { IfSome result (λ began. IfSome began.1 (λ job. (job.worker ≡ worker) × (job.name ≡ name.now))) }
        ensures board { seat.new.board ≡ seat.old.board }
    {
        match self.slots.serve(
            rt,
            seat,
            &self.board,
            Command::Begin {
                worker,
                name: *name,
            },
        ) {
            Outcome::Begun(result) => result,
            _ => unreachable!(),
        }
    }

    /// Ends a checkpoint that was run: its answers are booked, and its log device is back. A job that is no slot's flight comes back, and so
    /// does one for which there is no memory.
    pub fn end<R: Wait>(
        &self,
        rt: &R,
        seat: &mut HostSeat<H>,
        done: DoneJob,
    ) -> Result<Reply, (DoneJob, EndFault)>
        requires board { seat.old.board.board ≡ self.now.board }
        ensures back { IfErr result (λ back. (back.0 ≡ done) × IsSameSeat seat.old seat.new) }
        ensures received { IfOk result (λ reply. Receives done.name.slot (AStep.End done.worker done.name done.answers) reply seat.old seat.new) }
        ensures board { seat.new.board.board ≡ seat.old.board.board }
        ensures rises { Rises seat.old.board.seen seat.new.board.seen }
    {
        match self
            .slots
            .serve(rt, seat, &self.board, Command::End { done })
        {
            Outcome::Ended(result) => result,
            _ => unreachable!(),
        }
    }

    /// Runs a flush, where its name waits in its slot; None where it does not. ENOMEM where memory is refused: then the job waits.
    pub fn flush<R: Wait>(
        &self,
        rt: &R,
        seat: &mut HostSeat<H>,
        worker: Worker,
        name: &JobName,
    ) -> Option<Reply>
        requires board { seat.old.board.board ≡ self.now.board }
        requires kind { is_ckpt name.now.kind ≡ false }
        ensures left { result ≡ None → IsSameSeat seat.old seat.new }
        ensures refused { IfSome result (λ reply. is_no_memory reply ≡ true → IsSameSeat seat.old seat.new) }
        ensures received { IfSome result (λ reply. is_no_memory reply ≡ false → (answers : AnAnswerHome) × Receives name.now.slot (AStep.Flush worker name.now answers) reply seat.old seat.new) }
        ensures board { seat.new.board.board ≡ seat.old.board.board }
        ensures rises { Rises seat.old.board.seen seat.new.board.seen }
    {
        match self.slots.serve(
            rt,
            seat,
            &self.board,
            Command::Flush {
                worker,
                name: *name,
            },
        ) {
            Outcome::Flushed(result) => result,
            _ => unreachable!(),
        }
    }
}
