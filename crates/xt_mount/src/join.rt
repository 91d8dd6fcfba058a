//! Held blocks: a transaction takes one over, or it is given up.

ghost use Rattle.std.specs.Prelude.{◌≡◌, []};
ghost use Rattle.xt_base.specs.Calls.{first_of, gives, join as join_step, join_refusals, release as release_step, with_trans};
ghost use Rattle.xt_base.specs.Maps.{at};
ghost use Rattle.xt_base.specs.Sound.{IsSound};
ghost use Rattle.xt_mount.specs.Machines.{state_of};

use crate::machine::Machine;
use xt_base::names::{Block, TransNo};
use xt_base::steps::{Errno, Reply};

impl Machine {
    /// What refuses a join.
    fn join_refusal(&self, block: Block) -> Option<Errno>
        ensures { result ≡ first_of (join_refusals block (state_of self.now)) }
    {
        if !self.locks.is_held(block) {
            return Some(Errno::Invalid);
        }
        if self.is_shut() {
            return Some(Errno::Io);
        }
        None
    }

    /// Takes a held block over. It takes no memory.
    pub fn join(&mut self, trans: TransNo, block: Block) -> Reply
        ensures { gives result (state_of self.new) ≡ with_trans (at trans self.old.accounts.transactions) (state_of self.old) (join_step trans block (state_of self.old)) }
    {
        if !self.accounts.is_open(trans.0) {
            return Reply::Refused(Errno::Invalid);
        }
        if let Some(errno) = self.join_refusal(block) {
            return Reply::Refused(errno);
        }
        let _joined = self.locks.join(trans, block);
        Reply::Okay
    }

    /// Gives up a held block. It takes no memory.
    pub fn release(&mut self, block: Block) -> Reply
        requires { IsSound (state_of self.old) }
        ensures { gives result (state_of self.new) ≡ release_step [] block (state_of self.old) }
    {
        if !self.locks.is_held(block) {
            return Reply::Refused(Errno::Invalid);
        }
        self.free(block);
        Reply::Okay
    }
}
