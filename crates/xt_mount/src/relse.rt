//! Giving blocks back.

ghost use Rattle.std.specs.Prelude.{◌≡◌, [], false, true, IfSome};
ghost use Rattle.xt_base.specs.Calls.{gives, is_own, relse as relse_step, unowned, with_leg, with_trans, without_hold};
ghost use Rattle.xt_base.specs.Maps.{at, is_in};
ghost use Rattle.xt_base.specs.Settle.{settled};
ghost use Rattle.xt_base.specs.Sound.{AreKept, IsSound};
ghost use Rattle.xt_base.specs.Space.{is_busy};
ghost use Rattle.xt_mount.specs.Machines.{state_of};
ghost use Rattle.xt_mount.specs.Settling.{AreChangedBusy};

use crate::machine::Machine;
use xt_base::names::{Block, TransNo};
use xt_base::steps::{Errno, Reply};

impl Machine {
    /// A block that no open transaction has changed has no owner any more, and settles; each other block that has a content or a fresh
    /// mark is busy.
    pub fn free(&mut self, block: Block)
        requires kept { AreKept (is_busy (state_of self.old)) (state_of self.old).frames }
        requires changed { AreChangedBusy (is_busy (unowned block (state_of self.old))) (state_of self.old).transactions }
        ensures { state_of self.new ≡ settled [] (unowned block (state_of self.old)) }
    {
        self.locks.unlock(block);
        self.settle_block(block);
    }

    /// A block of a transaction, with its hold mark, is given back and settles.
    fn give_back(&mut self, trans: TransNo, block: Block)
        requires there { is_in trans self.old.accounts.transactions ≡ true }
        requires sound { IsSound (state_of self.old) }
        requires own { is_own (state_of self.old) trans block ≡ true }
        requires unchanged { IfSome (at trans self.old.accounts.transactions) (λ t. is_in block t.leg.changes ≡ false) }
        ensures { IfSome (at trans self.old.accounts.transactions) (λ t. state_of self.new ≡ settled [] (unowned block (with_leg trans t (without_hold block t.leg) (state_of self.old)))) }
    {
        self.mark_unheld(trans, block);
        self.free(block);
    }

    /// Gives back one lock: a block that was locked again loses one lock, a changed or invalidated one stays, another is free.
    /// It takes no memory.
    pub fn relse(&mut self, trans: TransNo, block: Block) -> Reply
        requires { IsSound (state_of self.old) }
        ensures { gives result (state_of self.new) ≡ with_trans (at trans self.old.accounts.transactions) (state_of self.old) (relse_step [] trans block (state_of self.old)) }
    {
        let Some(opened) = self.accounts.get(trans.0) else {
            return Reply::Refused(Errno::Invalid);
        };
        let Some(count) = self.own_count(trans, block) else {
            return Reply::Refused(Errno::Invalid);
        };
        if count > 0 {
            self.locks.lower(trans, block);
            return Reply::Kept;
        }
        if opened.leg().is_changed(block.0) {
            return Reply::Kept;
        }
        self.give_back(trans, block);
        Reply::Free
    }
}
