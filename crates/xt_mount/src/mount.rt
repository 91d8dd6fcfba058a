//! One mount: each call and each job is one step of the machine of one mount.

ghost use Rattle.std.specs.Prelude.{◌≡◌, ◌≤◌, ◌+◌, ◌⊎◌, [], All, None, Some, Ok, false, true, length, is_some, option_copied, IfOk, IfErr, IfSome, if◌then◌else◌};
ghost use Rattle.xt_base.specs.Alone.{IsCallUnlessMemory, has_begun, may_want_memory};
ghost use Rattle.xt_base.specs.Calls.{alone_with, asks, first_of, gives};
ghost use Rattle.xt_base.specs.Form.{form_of, is_size};
ghost use Rattle.xt_base.specs.Jobs.{begin as begin_step, end as end_step, fits_pieces, fits_plan, flight_pieces, flush as flush_step, flush_plan, is_begun, is_ckpt, is_waiting, posted as posted_state};
ghost use Rattle.xt_base.specs.Maps.{at, is_in};
ghost use Rattle.xt_base.specs.Order.{has_size, is_there};
ghost use Rattle.xt_base.specs.Stat.{stat_of};
ghost use Rattle.xt_base.specs.State.{mount_of};
ghost use Rattle.xt_base.specs.declared.steps.Answer.TheVariants as Answered;
ghost use Rattle.xt_base.specs.declared.steps.Errno.TheVariants.{NoMemory};
ghost use Rattle.xt_base.specs.declared.steps.Request.TheVariants.{Alloc, Commit, Log, Read};
ghost use Rattle.xt_frames.specs.Shares.{no_contents};
ghost use Rattle.xt_mount.specs.Accounts.{IsUnchanged};
ghost use Rattle.xt_mount.specs.Come.{new_refusals, owed_name, read_block, spent_log as spent_log_of};
ghost use Rattle.xt_mount.specs.Machines.{IsSameMount};
ghost use Rattle.xt_mount.specs.Stages.{stage_of};

use crate::machine::Machine;
use crate::state::State;
use bytes::Bytes;
use std::alloc::Global;
use std::marker::Model;
use xt_base::data_ref::DataRef;
use xt_base::form::Form;
use xt_base::names::{Block, JobKind, JobName, Life, TransNo};
use xt_base::sizes::{LEAST_LOG, MOST_BLOCKS, MOST_LOG, PIECE_BYTES, TEXT_PIECES};
use xt_base::stat::Stat;
use xt_base::steps::{Answer, Errno, HomeAnswers, LogAnswers, Reason, Reply, Request};
use xt_frames::share::FrameShare;
use xt_items::plan::FlushPlan;

/// How far an outstanding job has come.
#[derive(Clone, Copy, Debug, PartialEq, Eq)]
pub enum Stage {
    /// Posted, and not begun.
    Waiting,
    /// A checkpoint that is in flight.
    Begun,
}

/// One life of a slot. Clauses see the state of the slot; in every state the log space in use is within the
/// log, at most 64 blocks are busy, contents and marks are those of blocks of the mount's size, and the pieces in flight are such
/// as a log device takes.
#[derive(Debug, Drop)]
pub struct Mount {
    machine: Machine,
}

impl Model for Mount {
    ghost use Rattle.xt_base.specs.Jobs.{flight_pieces};
    ghost use Rattle.xt_base.specs.State.{State};
    ghost use Rattle.xt_base.specs.Sized.{IsSized};
    ghost use Rattle.xt_base.specs.Sound.{IsSound};
    ghost use Rattle.xt_mount.specs.Texts.{ArePieces};

    ghost Value = { State };

    ghost use Rattle.xt_mount.specs.Machines.{state_of};

    ghost view = { λ m. state_of m.machine };

    ghost invariant = { λ m. IsSound (state_of m.machine) × IsSized (state_of m.machine) × ArePieces (flight_pieces m.machine.accounts.items.flight) };
}

impl Mount {
    /// A new mount of the slot whose share this is, which has no contents. Its life is the one after `last` (0 at first); it has a log
    /// of 65,536 to 16,777,216 bytes and a home device of 1 to 1,099,511,627,776 blocks. With a `size`, which is 512, 1,024, 2,048 or
    /// 4,096, its blocks have that size and its checkpoints say it; with none its blocks have 4,096 bytes and its checkpoints do not say
    /// so. `Invalid` where a size is outside these, `NoSpace` where the last life is the greatest, `NoMemory` where memory is refused;
    /// each hands the share back.
    pub fn new(
        alloc: Global,
        share: FrameShare,
        last: Life,
        log_bytes: u32,
        blocks: u64,
        size: Option<u32>,
    ) -> Result<Self, (Errno, FrameShare)>
        requires { share ≡ no_contents share.slot }
        ensures ok { IfOk result (λ mount. (first_of (new_refusals last log_bytes blocks size) ≡ None) × (mount ≡ mount_of share.slot (last + 1) log_bytes blocks (form_of size))) }
        ensures err { IfErr result (λ refused. (first_of (new_refusals last log_bytes blocks size) ≡ Some refused.0) ⊎ ((first_of (new_refusals last log_bytes blocks size) ≡ None) × (refused.0 ≡ NoMemory))) }
        ensures back { IfErr result (λ refused. refused.1 ≡ share) }
    {
        if let Some(errno) = Mount::refusal(last, log_bytes, blocks, size) {
            return Err((errno, share));
        }
        let Some(form) = Form::of(size) else {
            unreachable!();
        };
        match Machine::new(alloc, form, share, Life(last.0 + 1), log_bytes, blocks) {
            Ok(machine) => Ok(Mount { machine }),
            Err(share) => Err((Errno::NoMemory, share)),
        }
    }

    /// What refuses a new mount: `Invalid` where a size is outside its range, `NoSpace` where the last life is the greatest.
    pub fn refusal(last: Life, log_bytes: u32, blocks: u64, size: Option<u32>) -> Option<Errno>
        ensures { result ≡ first_of (new_refusals last log_bytes blocks size) }
    {
        if log_bytes < LEAST_LOG || log_bytes > MOST_LOG || blocks == 0 || blocks > MOST_BLOCKS {
            return Some(Errno::Invalid);
        }
        if Form::of(size).is_none() {
            return Some(Errno::Invalid);
        }
        if last.0 == u32::MAX {
            return Some(Errno::NoSpace);
        }
        None
    }

    /// Ends the mount: the share of its slot, without contents, for the next life. What is idle in one life is no part of the next. It
    /// takes no memory.
    pub fn into_share(self) -> FrameShare
        ensures { result ≡ no_contents self.slot }
    {
        let Mount { machine } = self;
        machine.into_share()
    }

    /// How many clean blocks settles of this mount dropped for want of memory: none, since its frames have room for each content that
    /// it keeps.
    pub fn drops(&self) -> u64
        ensures { result ≡ 0 }
    {
        0
    }

    /// The blocks that settles of the last call or job dropped for want of memory: none.
    pub fn dropped(&self) -> &[Block]
        ensures { result.now ≡ [] }
    {
        &[]
    }

    /// The life of the mount, counted from 1.
    pub fn life(&self) -> Life
        ensures { result ≡ self.now.life }
    {
        self.machine.jobs.life()
    }

    /// The form of the mount: the size of its blocks, and what the texts of its checkpoints have beside their items.
    pub fn form(&self) -> Form
        ensures { result ≡ self.now.form }
    {
        self.machine.accounts.form()
    }

    /// Why the mount is shut, if it is; the first reason is kept.
    pub fn shut(&self) -> Option<Reason>
        ensures { result ≡ self.now.shut }
    {
        self.machine.accounts.shut()
    }

    /// The pieces of the checkpoint in flight, from its begin to its end, at most 65 of 1 to 4,096 bytes each; none where
    /// nothing is in flight.
    pub fn pieces(&self) -> &[Bytes]
        ensures value { result.now ≡ flight_pieces self.now.items.flight }
        ensures few { length result.now ≤ TEXT_PIECES }
        ensures some { All (λ piece. 1 ≤ length piece) result.now }
        ensures short { All (λ piece. length piece ≤ PIECE_BYTES) result.now }
    {
        self.machine.accounts.pieces()
    }

    /// What the mount tells of itself, live or shut: how many transactions are open, how full its log and its lists are, and what it owes.
    /// It changes nothing, asks no device and takes no memory. Sizes are in bytes; 0 is no checkpoint's number.
    pub fn stat(&self) -> Stat
        ensures { result ≡ stat_of self.now }
    {
        self.machine.stat()
    }

    /// The mount as a plain value: the state that it has now, in a copy that stands still where the mount goes on. The one error is
    /// `NoMemory`, where memory is refused.
    pub fn snapshot(&self) -> Result<State, Errno>
        ensures value { IfOk result (λ state. state ≡ self.now) }
        ensures memory { IfErr result (λ errno. errno ≡ NoMemory) }
    {
        match self.machine.snapshot() {
            Ok(state) => Ok(state),
            Err(_) => Err(Errno::NoMemory),
        }
    }

    /// The block that a request must ask the home device for, if there is one: a read's, where nothing refuses it and
    /// the block is neither the transaction's own nor resident.
    pub fn needs(&self, request: &Request) -> Option<Block>
        ensures asked { is_some result ≡ asks request.now self.now }
        ensures block { IfSome result (λ block. read_block request.now ≡ Some block) }
    {
        self.machine.needs(request)
    }

    /// Serves a request, with the home device's answer where it asks one, a content of the mount's size: its reply and the state that
    /// it leaves are those of the machine of one mount. Where memory is refused the reply is ENOMEM, and nothing changes; no refusal
    /// that can be decided without memory is hidden so.
    pub fn serve(&mut self, request: &Request, answer: &Answer) -> Reply
        requires answered { is_there (asks request.now self.old) answer.now ≡ true }
        requires size { has_size answer.now (Some self.old) ≡ true }
        ensures served { IsCallUnlessMemory (may_want_memory request.now) (alone_with [] request.now answer.now self.old) result self.new self.old }
        ensures same { IsSameMount self.new self.old }
    {
        match self.machine.serve(request, answer) {
            Ok(reply) => reply,
            Err(_) => Reply::Refused(Errno::NoMemory),
        }
    }

    /// Serves a request that asks no home device, as `serve` does with no answer. One that must ask it changes nothing: the block that it
    /// asks for, and then it is to be served with the device's answer. What `needs` says is told on the way, so that nothing is looked
    /// up twice.
    pub fn try_serve(&mut self, request: &Request) -> Result<Reply, Block>
        ensures unasked { IfOk result (λ _. asks request.now self.old ≡ false) }
        ensures asked { IfErr result (λ _. asks request.now self.old ≡ true) }
        ensures block { IfErr result (λ block. read_block request.now ≡ Some block) }
        ensures served { IfOk result (λ reply. IsCallUnlessMemory (may_want_memory request.now) (alone_with [] request.now Answered.None self.old) reply self.new self.old) }
        ensures kept { IfErr result (λ _. self.new ≡ self.old) }
        ensures same { IsSameMount self.new self.old }
    {
        match request {
            Request::Read { trans, block } => self.machine.try_read(*trans, *block),
            _ => Ok(self.serve(request, &Answer::None)),
        }
    }

    /// Opens a transaction, as `serve` does, by its own arguments.
    #[inline(always)]
    pub fn alloc(&mut self, unit: u32, count: u32, perm: bool) -> Reply
        ensures served { IsCallUnlessMemory (may_want_memory (Alloc unit count perm)) (alone_with [] (Alloc unit count perm) Answered.None self.old) result self.new self.old }
        ensures same { IsSameMount self.new self.old }
    {
        match self.machine.alloc(unit, count, perm) {
            Ok(reply) => reply,
            Err(_) => Reply::Refused(Errno::NoMemory),
        }
    }

    /// Locks a block with its content, as `try_serve` does, by its own arguments.
    #[inline(always)]
    pub fn try_read(&mut self, trans: TransNo, block: Block) -> Result<Reply, Block>
        ensures unasked { IfOk result (λ _. asks (Read trans block) self.old ≡ false) }
        ensures asked { IfErr result (λ _. asks (Read trans block) self.old ≡ true) }
        ensures block { IfErr result (λ asked. asked ≡ block) }
        ensures served { IfOk result (λ reply. gives reply self.new ≡ alone_with [] (Read trans block) Answered.None self.old) }
        ensures kept { IfErr result (λ _. self.new ≡ self.old) }
        ensures same { IsSameMount self.new self.old }
    {
        self.machine.try_read(trans, block)
    }

    /// Writes bytes of a block, as `serve` does, that are borrowed: they are copied once, to where they are kept.
    #[inline(always)]
    pub fn log(&mut self, trans: TransNo, block: Block, first: u32, bytes: &DataRef<'_>) -> Reply
        ensures served { IsCallUnlessMemory (may_want_memory (Log first trans block bytes.now)) (alone_with [] (Log first trans block bytes.now) Answered.None self.old) result self.new self.old }
        ensures same { IsSameMount self.new self.old }
    {
        match self.machine.log(trans, block, first, bytes) {
            Ok(reply) => reply,
            Err(_) => Reply::Refused(Errno::NoMemory),
        }
    }

    /// Ends a transaction, as `serve` does, by its number.
    #[inline(always)]
    pub fn commit(&mut self, trans: TransNo) -> Reply
        ensures served { IsCallUnlessMemory (may_want_memory (Commit trans)) (alone_with [] (Commit trans) Answered.None self.old) result self.new self.old }
        ensures same { IsSameMount self.new self.old }
    {
        match self.machine.commit(trans) {
            Ok(reply) => reply,
            Err(_) => Reply::Refused(Errno::NoMemory),
        }
    }

    /// As `serve`, of a request and an answer that are handed over.
    pub fn call(&mut self, request: Request, answer: Answer) -> Reply
        requires answered { is_there (asks request self.old) answer ≡ true }
        requires size { has_size answer (Some self.old) ≡ true }
        ensures served { IsCallUnlessMemory (may_want_memory request) (alone_with [] request answer self.old) result self.new self.old }
        ensures same { IsSameMount self.new self.old }
    {
        self.serve(&request, &answer)
    }

    /// The next job of a kind, if the mount is live and owes one: a checkpoint, where nothing is in flight, something
    /// is committed, and a checkpoint was asked or the commit list costs an eighth of the log; a flush, where one was asked.
    pub fn owed(&self, kind: JobKind) -> Option<JobName>
        ensures { result ≡ owed_name kind self.now }
    {
        self.machine.owed(kind)
    }

    /// How many bytes the log has, where the texts on it are of no use any more: the mount is live, no checkpoint is in flight, and the
    /// active list is empty, so all that landed is home. None where they may be needed.
    pub fn spent_log(&self) -> Option<u32>
        ensures { result ≡ spent_log_of self.now }
    {
        self.machine.spent_log()
    }

    /// A job that is owed was posted: it is outstanding until its end, its flush, or a begin that finds nothing to do.
    pub fn posted(&mut self, name: JobName)
        requires { owed_name name.kind self.old ≡ Some name }
        ensures posted { self.new ≡ posted_state name.kind self.old }
        ensures same { IsSameMount self.new self.old }
    {
        self.machine.jobs.posted(name);
    }

    /// How far a job has come; None where it is of another slot, or not outstanding.
    pub fn stage(&self, name: &JobName) -> Option<Stage>
        ensures { result ≡ stage_of name.now self.now }
    {
        self.machine.stage(*name)
    }

    /// Begins the outstanding checkpoint: the committed items become the flight, and the next number opens. On a
    /// shut mount there is nothing to do. Where memory is refused the reply is ENOMEM, and nothing changes.
    pub fn begin(&mut self, name: JobName) -> Reply
        requires waiting { is_waiting name self.old ≡ true }
        requires kind { is_ckpt name.kind ≡ true }
        ensures begun { IsCallUnlessMemory has_begun (begin_step self.old) result self.new self.old }
        ensures same { IsSameMount self.new self.old }
    {
        let _name = name;
        match self.machine.begin() {
            Ok(reply) => reply,
            Err(_) => Reply::Refused(Errno::NoMemory),
        }
    }

    /// The same, with the pieces of the checkpoint that is begun: other owners of the same bytes, so that they can be written
    /// where the mount is not at hand. There are none where no checkpoint is begun.
    pub fn begin_shared(&mut self, name: JobName) -> (Reply, Vec<Bytes>)
        requires waiting { is_waiting name self.old ≡ true }
        requires kind { is_ckpt name.kind ≡ true }
        ensures begun { IsCallUnlessMemory has_begun (begin_step self.old) result.0 self.new self.old }
        ensures same { IsSameMount self.new self.old }
        ensures pieces { has_begun result.0 ≡ true → result.1.items ≡ flight_pieces self.new.items.flight }
        ensures none { has_begun result.0 ≡ false → result.1.items ≡ [] }
    {
        let _name = name;
        let mut pieces = Vec::new(self.machine.alloc);
        let reply = match self.machine.begin_shared(&mut pieces) {
            Ok(reply) => reply,
            Err(_) => Reply::Refused(Errno::NoMemory),
        };
        (reply, pieces)
    }

    /// Ends the checkpoint in flight by what the log device answered: how many pieces it took, and to the sync
    /// that follows where it took all. It takes no memory.
    pub fn end(&mut self, name: JobName, answers: LogAnswers) -> Reply
        requires begun { is_begun name self.old ≡ true }
        requires fits { fits_pieces answers (length (flight_pieces self.old.items.flight)) ≡ true }
        ensures ended { gives result self.new ≡ end_step [] answers self.old }
        ensures same { IsSameMount self.new self.old }
    {
        let _name = name;
        self.machine.end(answers)
    }

    /// The blocks that a flush writes home now, 0 to 8, in the order of their writes (`xfsaild_push`): those of the active list
    /// with the least (number, block) that are neither committed nor in flight and that nobody owns. Each has a committed
    /// content, and no open transaction has changed it. A plan of no block, as on a shut mount, means that nothing is offered. It takes no memory and is never refused.
    pub fn flush_plan(&self) -> Result<FlushPlan, Errno>
        ensures plan { result ≡ Ok (flush_plan self.now) }
        ensures committed { IfOk result (λ plan. All (λ b. is_in b self.now.frames.committed ≡ true) plan) }
        ensures unchanged { IfOk result (λ plan. All (λ b. IsUnchanged b self.now.transactions) plan) }
    {
        Ok(self.machine.flush_plan())
    }

    /// The committed content of a block that no open transaction has changed, of the mount's size: what a flush writes home. None where the mount
    /// keeps none, as of a block that is not busy.
    pub fn committed(&self, block: Block) -> Option<&[u8]>
        requires { IsUnchanged block self.now.transactions }
        ensures value { option_copied result ≡ at block self.now.frames.committed }
        ensures size { IfSome result (λ bytes. length bytes.now ≡ self.now.form.size) }
        ensures one_of { IfSome result (λ bytes. is_size (Some (length bytes.now)) ≡ true) }
    {
        match self.machine.accounts.committed(block.0) {
            Some(content) => Some(content.bytes()),
            None => None,
        }
    }

    /// Ends an outstanding flush by what the home device answered to each write of its plan, and to the sync that follows. Where
    /// the sync was Ok, the blocks whose write was Ok leave the active list; where all was Ok and a block is left that may be
    /// written, a flush is asked again. `Nothing` where the plan has no block, else how many blocks left. It takes no memory.
    pub fn flush(&mut self, name: JobName, answers: HomeAnswers) -> Reply
        requires waiting { is_waiting name self.old ≡ true }
        requires kind { is_ckpt name.kind ≡ false }
        requires fits { fits_plan answers (flush_plan self.old) ≡ true }
        ensures flushed { gives result self.new ≡ flush_step [] answers self.old }
        ensures same { IsSameMount self.new self.old }
    {
        let plan = self.machine.flush_plan();
        self.flush_planned(name, &plan, answers)
    }

    /// The same for a caller that has the plan at hand, so that it is not made again.
    pub fn flush_planned(&mut self, name: JobName, plan: &FlushPlan, answers: HomeAnswers) -> Reply
        requires waiting { is_waiting name self.old ≡ true }
        requires kind { is_ckpt name.kind ≡ false }
        requires planned { plan.now ≡ flush_plan self.old }
        requires fits { fits_plan answers plan.now ≡ true }
        ensures flushed { gives result self.new ≡ flush_step [] answers self.old }
        ensures same { IsSameMount self.new self.old }
    {
        let _name = name;
        self.machine.flush(plan, &answers)
    }
}
