//! Requests and jobs, each to the method that serves it.

ghost use Rattle.std.specs.Prelude.{◌≡◌, ◌/◌, [], Some, true, if◌then◌else◌, IfOk, OnErr};
ghost use Rattle.xt_base.specs.Alone.{may_want_memory};
ghost use Rattle.xt_base.specs.Calls.{alone_with, asks, gives};
ghost use Rattle.xt_base.specs.Order.{has_size, is_there};
ghost use Rattle.xt_base.specs.Owed.{is_owed, is_wanted, is_worth};
ghost use Rattle.xt_base.specs.Sized.{IsSized};
ghost use Rattle.xt_base.specs.Sound.{IsSound};
ghost use Rattle.xt_base.specs.declared.steps.Answer.{Answer as AnyAnswer};
ghost use Rattle.xt_mount.specs.Come.{is_of_mount, owed_name};
ghost use Rattle.xt_mount.specs.Machines.{state_of};
ghost use Rattle.xt_mount.specs.Stages.{stage_of};

use crate::machine::Machine;
use crate::mount::Stage;
use std::alloc::AllocError;
use xt_base::names::{JobKind, JobName};
use xt_base::steps::{Answer, Reply, Request};

impl Machine {
    /// Serves a request, with the home device's answer where it asks one: a content of the mount's size, or none. Where memory is refused nothing
    /// changes.
    pub fn serve(&mut self, request: &Request, answer: &Answer) -> Result<Reply, AllocError>
        requires sound { IsSound (state_of self.old) }
        requires sized { IsSized (state_of self.old) }
        requires answered { is_there (asks request.now (state_of self.old)) answer.now ≡ true }
        requires size { has_size answer.now (Some (state_of self.old)) ≡ true }
        ensures ok { IfOk result (λ reply. gives reply (state_of self.new) ≡ alone_with [] request.now answer.now (state_of self.old)) }
        ensures err { OnErr result (state_of self.new ≡ state_of self.old) }
        ensures want { OnErr result (may_want_memory request.now (alone_with [] request.now answer.now (state_of self.old)).reply ≡ true) }
    {
        match request {
            Request::Alloc { unit, count, perm } => self.alloc(*unit, *count, *perm),
            Request::Get { trans, block } => Ok(self.get(*trans, *block)),
            Request::Read { trans, block } => self.read(*trans, *block, answer),
            Request::View { trans, block } => self.view(*trans, *block),
            Request::Log {
                first,
                trans,
                block,
                bytes,
            } => self.log(*trans, *block, *first, &bytes.lent()),
            Request::Hold { trans, block } => Ok(self.hold(*trans, *block)),
            Request::Unhold { trans, block } => Ok(self.unhold(*trans, *block)),
            Request::Relse { trans, block } => Ok(self.relse(*trans, *block)),
            Request::Join { trans, block } => Ok(self.join(*trans, *block)),
            Request::Release { block } => Ok(self.release(*block)),
            Request::Inval { trans, block } => Ok(self.inval(*trans, *block)),
            Request::Commit { trans } => self.commit(*trans),
            Request::Roll { trans } => self.roll(*trans),
            Request::Cancel { trans } => self.cancel(*trans),
            _ => Ok(self.serve_mount(request)),
        }
    }

    /// Serves a request that names the mount as a whole. It takes no memory.
    fn serve_mount(&mut self, request: &Request) -> Reply
        requires kind { is_of_mount request.now ≡ true }
        requires sound { IsSound (state_of self.old) }
        ensures { (answer : AnyAnswer) → gives result (state_of self.new) ≡ alone_with [] request.now answer (state_of self.old) }
    {
        match request {
            Request::Force => self.force(),
            Request::ForceTo { number } => self.force_to(*number),
            Request::Push => self.push(),
            Request::Shutdown => self.shutdown(),
            Request::Freeze => self.freeze(),
            Request::Thaw => self.thaw(),
            Request::Stat => Reply::Stat(self.stat()),
            Request::Unmount => self.unmount(),
            _ => unreachable!(),
        }
    }

    /// Whether there is something to write, whose text has at least so many bytes, nothing in flight, and a
    /// number for the list after it.
    fn is_worth(&self, least: u64) -> bool
        ensures { result ≡ is_worth (state_of self.now).form.ends least (state_of self.now).items }
    {
        !self.accounts.is_flying()
            && self.accounts.open_number().0 != u64::MAX
            && !self.accounts.cil().is_empty()
            && least <= self.accounts.cil_cost()
    }

    /// The least cost of a commit list that is to be written: any, where a checkpoint was asked, else an eighth of the log.
    fn least_cost(&self) -> u64
        ensures { result ≡ (if (state_of self.now).jobs.asked_ckpt then 0 else (state_of self.now).log_bytes / 8) }
    {
        if self.jobs.asked(JobKind::Ckpt) {
            0
        } else {
            u64::from(self.accounts.log_bytes() / 8)
        }
    }

    /// Whether a job of a kind is wanted.
    fn is_wanted(&self, kind: JobKind) -> bool
        ensures { result ≡ is_wanted kind (state_of self.now) }
    {
        match kind {
            JobKind::Ckpt => self.is_worth(self.least_cost()),
            JobKind::Flush => self.jobs.asked(JobKind::Flush),
        }
    }

    /// Whether a live mount owes a job of a kind.
    pub fn is_owed(&self, kind: JobKind) -> bool
        ensures { result ≡ is_owed kind (state_of self.now) }
    {
        !self.is_shut() && self.is_wanted(kind) && self.jobs.next(kind).is_some()
    }

    /// The next job of a kind, if the mount owes one.
    pub fn owed(&self, kind: JobKind) -> Option<JobName>
        ensures { result ≡ owed_name kind (state_of self.now) }
    {
        if self.is_owed(kind) {
            self.jobs.next(kind)
        } else {
            None
        }
    }

    /// How far a job has come.
    pub fn stage(&self, name: JobName) -> Option<Stage>
        ensures { result ≡ stage_of name (state_of self.now) }
    {
        if name.slot != self.jobs.slot() || !self.jobs.is_outstanding(&name) {
            return None;
        }
        if name.kind.is_ckpt() && self.accounts.is_flying() {
            Some(Stage::Begun)
        } else {
            Some(Stage::Waiting)
        }
    }
}
