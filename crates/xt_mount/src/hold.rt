//! Hold marks.

ghost use Rattle.std.specs.Prelude.{◌≡◌, true, IfSome};
ghost use Rattle.xt_base.specs.Calls.{gives, hold as hold_step, is_own, unhold as unhold_step, with_leg, with_trans, without_hold};
ghost use Rattle.xt_base.specs.Maps.{at, is_in};
ghost use Rattle.xt_base.specs.Sound.{IsRising, IsSound};
ghost use Rattle.xt_mount.specs.Machines.{state_of};

use crate::machine::Machine;
use xt_base::names::{Block, TransNo};
use xt_base::steps::{Errno, Reply};

impl Machine {
    /// A block has no hold mark in a transaction's leg.
    pub fn mark_unheld(&mut self, trans: TransNo, block: Block)
        requires there { is_in trans self.old.accounts.transactions ≡ true }
        requires rising { IsRising self.old.accounts.transactions }
        ensures { IfSome (at trans self.old.accounts.transactions) (λ t. state_of self.new ≡ with_leg trans t (without_hold block t.leg) (state_of self.old)) }
    {
        self.accounts.unhold(trans.0, block.0);
    }

    /// A block stays locked when the leg of its transaction ends. It takes no memory.
    pub fn hold(&mut self, trans: TransNo, block: Block) -> Reply
        requires { IsSound (state_of self.old) }
        ensures { gives result (state_of self.new) ≡ with_trans (at trans self.old.accounts.transactions) (state_of self.old) (hold_step trans block (state_of self.old)) }
    {
        let Some(opened) = self.accounts.get(trans.0) else {
            return Reply::Refused(Errno::Invalid);
        };
        if !self.is_own(trans, block) {
            return Reply::Refused(Errno::Invalid);
        }
        if opened.leg().is_stale(block.0) {
            return Reply::Refused(Errno::Invalid);
        }
        self.accounts.hold(trans.0, block.0);
        Reply::Okay
    }

    /// Takes the hold mark of a block away. It takes no memory.
    pub fn unhold(&mut self, trans: TransNo, block: Block) -> Reply
        requires { IsSound (state_of self.old) }
        ensures { gives result (state_of self.new) ≡ with_trans (at trans self.old.accounts.transactions) (state_of self.old) (unhold_step trans block (state_of self.old)) }
    {
        let Some(opened) = self.accounts.get(trans.0) else {
            return Reply::Refused(Errno::Invalid);
        };
        if !self.is_own(trans, block) || !opened.leg().is_held(block.0) {
            return Reply::Refused(Errno::Invalid);
        }
        self.mark_unheld(trans, block);
        Reply::Okay
    }
}
