//! Shutting a mount, and when its slot may be emptied.

ghost use Rattle.std.specs.Prelude.{◌≡◌, ◌&&◌, ◌==◌, is_none, length, not};
ghost use Rattle.xt_base.specs.Calls.{gives, is_in_use, shutdown as shutdown_step, unmount as unmount_step};
ghost use Rattle.xt_mount.specs.Machines.{state_of};

use crate::machine::Machine;
use xt_base::names::JobKind;
use xt_base::steps::{Errno, Reason, Reply};

impl Machine {
    /// Shuts a live mount.
    pub fn shutdown(&mut self) -> Reply
        ensures { gives result (state_of self.new) ≡ shutdown_step (state_of self.old) }
    {
        self.shut_down(Reason::ForceUmount);
        Reply::Okay
    }

    /// Whether the lists of a live mount have a block.
    fn is_listing(&self) -> bool
        ensures { result ≡ (is_none (state_of self.now).shut && not ((length (state_of self.now).items.cil == 0) && is_none (state_of self.now).items.flight && (length (state_of self.now).items.ail == 0))) }
    {
        !self.is_shut()
            && !(self.accounts.cil().is_empty()
                && !self.accounts.is_flying()
                && self.accounts.ail().is_empty())
    }

    /// Whether something keeps the mount: an open transaction, a held block, an outstanding job, or, if it is live, a
    /// listed block.
    fn is_in_use(&self) -> bool
        ensures { result ≡ is_in_use (state_of self.now) }
    {
        self.accounts.open_count() > 0
            || self.locks.has_held()
            || self.jobs.outstanding(JobKind::Ckpt).is_some()
            || self.jobs.outstanding(JobKind::Flush).is_some()
            || self.is_listing()
    }

    /// Whether the slot may be emptied: EBUSY where something keeps the mount.
    pub fn unmount(&self) -> Reply
        ensures { gives result (state_of self.now) ≡ unmount_step (state_of self.now) }
    {
        if self.is_in_use() {
            Reply::Refused(Errno::Busy)
        } else {
            Reply::Okay
        }
    }
}
