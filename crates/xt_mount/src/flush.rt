//! The flush job: blocks of landed checkpoints are written home; and the request that asks one.

ghost use Rattle.std.specs.Prelude.{◌≡◌, [], true};
ghost use Rattle.xt_base.specs.Calls.{gives, push as push_step};
ghost use Rattle.xt_base.specs.Jobs.{fits_plan, flush as flush_step, flush_plan, flushed as flushed_step, renewed, unflushed};
ghost use Rattle.xt_base.specs.Sound.{IsSound};
ghost use Rattle.xt_mount.specs.Come.{spent_log};
ghost use Rattle.xt_mount.specs.Machines.{state_of};

use crate::machine::Machine;
use xt_base::names::JobKind;
use xt_base::steps::{Errno, HomeAnswers, Reply};
use xt_items::plan::{FlushPlan, all_ok};

impl Machine {
    /// Asks that blocks be written home.
    pub fn push(&mut self) -> Reply
        ensures { gives result (state_of self.new) ≡ push_step (state_of self.old) }
    {
        if self.is_shut() {
            return Reply::Refused(Errno::Io);
        }
        self.ask_flush();
        Reply::Okay
    }

    /// The blocks that a flush writes home; none on a shut mount. It takes no memory.
    pub fn flush_plan(&self) -> FlushPlan
        ensures { result ≡ flush_plan (state_of self.now) }
    {
        if self.is_shut() {
            return FlushPlan::none();
        }
        self.accounts.flush_plan(&self.locks)
    }

    /// A flush has nothing to write: it is done, and none is asked any more.
    fn unflushed(&mut self)
        ensures { state_of self.new ≡ unflushed (state_of self.old) }
    {
        self.jobs.clear(JobKind::Flush);
        self.jobs.finish(JobKind::Flush);
    }

    /// The asking ends, and is renewed where each answer was Ok and some block is left to write.
    fn renew_asking(&mut self, answers: &HomeAnswers)
        ensures { state_of self.new ≡ renewed answers.now (state_of self.old) }
    {
        if all_ok(answers) && self.accounts.has_due(&self.locks) {
            self.jobs.ask(JobKind::Flush);
        } else {
            self.jobs.clear(JobKind::Flush);
        }
    }

    /// Blocks of this plan were written home, as the home device answered. It takes no memory.
    fn flushed(&mut self, plan: &FlushPlan, answers: &HomeAnswers) -> Reply
        requires sound { IsSound (state_of self.old) }
        requires fits { fits_plan answers.now plan.now ≡ true }
        ensures { gives result (state_of self.new) ≡ flushed_step [] plan.now answers.now (state_of self.old) }
    {
        let count = self.accounts.flush_done(plan, answers);
        self.jobs.finish(JobKind::Flush);
        self.renew_asking(answers);
        self.settle();
        Reply::Flushed(count)
    }

    /// Ends the outstanding flush of this plan, the one that stands now, by what the home device answered to its writes, and to the sync that
    /// follows. It takes no memory.
    pub fn flush(&mut self, plan: &FlushPlan, answers: &HomeAnswers) -> Reply
        requires sound { IsSound (state_of self.old) }
        requires planned { plan.now ≡ flush_plan (state_of self.old) }
        requires fits { fits_plan answers.now plan.now ≡ true }
        ensures { gives result (state_of self.new) ≡ flush_step [] answers.now (state_of self.old) }
    {
        if plan.count() == 0 {
            self.unflushed();
            return Reply::Nothing;
        }
        self.flushed(plan, answers)
    }

    /// How many bytes the log has, where the texts on it are of no use any more.
    pub fn spent_log(&self) -> Option<u32>
        ensures { result ≡ spent_log (state_of self.now) }
    {
        let accounts = &self.accounts;
        if !self.is_shut() && !accounts.is_flying() && accounts.ail().is_empty() {
            Some(accounts.log_bytes())
        } else {
            None
        }
    }
}
