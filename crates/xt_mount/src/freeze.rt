//! Freezing a mount: it opens no transaction, and those that are open go on.

ghost use Rattle.std.specs.Prelude.{◌≡◌};
ghost use Rattle.xt_base.specs.Calls.{first_of, freeze as freeze_step, freeze_refusals, gives, thaw as thaw_step};
ghost use Rattle.xt_mount.specs.Machines.{state_of};

use crate::machine::Machine;
use xt_base::steps::{Errno, Reply};

impl Machine {
    /// What refuses a freeze.
    fn freeze_refusal(&self) -> Option<Errno>
        ensures { result ≡ first_of (freeze_refusals (state_of self.now)) }
    {
        if self.is_shut() {
            return Some(Errno::Io);
        }
        if self.frozen {
            return Some(Errno::Busy);
        }
        None
    }

    /// From here on no transaction is opened; those that are open go on.
    pub fn freeze(&mut self) -> Reply
        ensures { gives result (state_of self.new) ≡ freeze_step (state_of self.old) }
    {
        if let Some(errno) = self.freeze_refusal() {
            return Reply::Refused(errno);
        }
        self.frozen = true;
        Reply::Okay
    }

    /// Transactions may be opened again. It takes the mark off a shut mount too.
    pub fn thaw(&mut self) -> Reply
        ensures { gives result (state_of self.new) ≡ thaw_step (state_of self.old) }
    {
        if !self.frozen {
            return Reply::Refused(Errno::Invalid);
        }
        self.frozen = false;
        Reply::Okay
    }
}
