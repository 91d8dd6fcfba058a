//! What a transaction sees of its blocks.

ghost use Rattle.std.specs.Prelude.{◌≡◌, false, IfOk, OnErr};
ghost use Rattle.xt_base.specs.Alone.{is_refusal};
ghost use Rattle.xt_base.specs.Calls.{gives, is_own, view as view_step, with_trans};
ghost use Rattle.xt_base.specs.Maps.{at};
ghost use Rattle.xt_mount.specs.Machines.{state_of};

use crate::machine::Machine;
use std::alloc::AllocError;
use xt_base::names::{Block, TransNo};
use xt_base::steps::{Errno, Reply};

impl Machine {
    /// What a transaction sees of its block. The one error is want of memory for the copy.
    pub fn view(&self, trans: TransNo, block: Block) -> Result<Reply, AllocError>
        ensures ok { IfOk result (λ reply. gives reply (state_of self.now) ≡ with_trans (at trans self.now.accounts.transactions) (state_of self.now) (view_step trans block (state_of self.now))) }
        ensures want { OnErr result (is_refusal (with_trans (at trans self.now.accounts.transactions) (state_of self.now) (view_step trans block (state_of self.now))).reply ≡ false) }
    {
        let Some(_opened) = self.accounts.get(trans.0) else {
            return Ok(Reply::Refused(Errno::Invalid));
        };
        if !self.is_own(trans, block) {
            return Ok(Reply::Refused(Errno::Invalid));
        }
        let content = self.accounts.seen(self.alloc, trans.0, block.0)?;
        Ok(Reply::Data(content))
    }
}
