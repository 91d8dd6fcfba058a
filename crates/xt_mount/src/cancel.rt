//! Giving a transaction up.

ghost use Rattle.std.specs.Prelude.{◌≡◌, [], true, IfOk, OnErr};
ghost use Rattle.xt_base.specs.Alone.{names_held};
ghost use Rattle.xt_base.specs.Calls.{cancel as cancel_step, gives, okay_of, shut_if, with_trans};
ghost use Rattle.xt_base.specs.Maps.{at};
ghost use Rattle.xt_base.specs.Sound.{IsSound};
ghost use Rattle.xt_mount.specs.Machines.{state_of};

use crate::machine::Machine;
use std::alloc::AllocError;
use xt_base::content::HeldBlocks;
use xt_base::names::TransNo;
use xt_base::steps::{Errno, Reason, Reply};

impl Machine {
    /// Shuts the mount for this reason, where a leg was dirty.
    fn shut_if(&mut self, is_dirty: bool, reason: Reason)
        ensures { state_of self.new ≡ shut_if is_dirty reason (state_of self.old) }
    {
        if is_dirty {
            self.shut_down(reason);
        }
    }

    /// Gives a leg up and ends its transaction; a dirty one shuts the mount. The one error is want of memory to name the
    /// held blocks, and then nothing changes.
    pub fn cancel(&mut self, trans: TransNo) -> Result<Reply, AllocError>
        requires { IsSound (state_of self.old) }
        ensures ok { IfOk result (λ reply. gives reply (state_of self.new) ≡ with_trans (at trans self.old.accounts.transactions) (state_of self.old) (cancel_step [] trans (state_of self.old))) }
        ensures err { OnErr result (state_of self.new ≡ state_of self.old) }
        ensures want { OnErr result (names_held (with_trans (at trans self.old.accounts.transactions) (state_of self.old) (cancel_step [] trans (state_of self.old))).reply ≡ true) }
    {
        let Some(opened) = self.accounts.get(trans.0) else {
            return Ok(Reply::Refused(Errno::Invalid));
        };
        let held = opened.leg().held(self.alloc)?;
        let is_dirty = opened.leg().is_dirty();
        self.shut_if(is_dirty, Reason::CorruptIncore);
        let only = self.only_clean(trans);
        self.close_aborted(trans);
        self.settle_but(only);
        Ok(okay_of(held))
    }
}

/// ok, with the blocks that stay held.
fn okay_of(held: Option<HeldBlocks>) -> Reply
    ensures { result ≡ okay_of held }
{
    match held {
        Some(held) => Reply::OkayHeld(held),
        None => Reply::Okay,
    }
}
