//! Committing a leg and going on with the next one.

ghost use Rattle.std.specs.Prelude.{◌≡◌, ◌<◌, [], is_some, length, true, IfOk, IfSome, OnErr};
ghost use Rattle.xt_base.specs.Alone.{names_held};
ghost use Rattle.xt_base.specs.Calls.{gives, held_of, io_of as io_reply, roll as roll_step, with_legs, with_trans};
ghost use Rattle.xt_base.specs.Legs.{aborted};
ghost use Rattle.xt_base.specs.Maps.{at, is_in};
ghost use Rattle.xt_base.specs.Settle.{settled};
ghost use Rattle.xt_base.specs.Sized.{IsSized};
ghost use Rattle.xt_base.specs.Sound.{IsSound};
ghost use Rattle.xt_mount.specs.Machines.{state_of};

use crate::commit::{committed_of, io_of};
use crate::machine::Machine;
use std::alloc::AllocError;
use xt_base::names::TransNo;
use xt_base::steps::{Errno, Reply};

impl Machine {
    /// Commits a leg and goes on; the last leg asks one new unit. On a shut mount the leg is given up, which is EIO. EAGAIN
    /// where no space is left, and then a checkpoint and a flush are asked, and nothing is committed. The one error is want
    /// of memory to name the held blocks, and then nothing changes.
    pub fn roll(&mut self, trans: TransNo) -> Result<Reply, AllocError>
        requires sound { IsSound (state_of self.old) }
        requires sized { IsSized (state_of self.old) }
        ensures ok { IfOk result (λ reply. gives reply (state_of self.new) ≡ with_trans (at trans self.old.accounts.transactions) (state_of self.old) (roll_step [] trans (state_of self.old))) }
        ensures err { OnErr result (state_of self.new ≡ state_of self.old) }
        ensures want { OnErr result (names_held (with_trans (at trans self.old.accounts.transactions) (state_of self.old) (roll_step [] trans (state_of self.old))).reply ≡ true) }
    {
        let Some(opened) = self.accounts.get(trans.0) else {
            return Ok(Reply::Refused(Errno::Invalid));
        };
        if !opened.perm() {
            return Ok(Reply::Refused(Errno::Invalid));
        }
        if self.is_shut() {
            return self.roll_shut(trans);
        }
        if self.accounts.finds_no_room(&opened) {
            self.ask_space();
            return Ok(Reply::Refused(Errno::Again));
        }
        let held = opened.leg().held(self.alloc)?;
        let number = self.commit_number(opened.leg().is_dirty());
        let only = self.only_unchanged(trans);
        self.next_leg(trans);
        self.settle_but(only);
        Ok(committed_of(number, held))
    }

    /// The same on a shut mount: the leg is given up.
    fn roll_shut(&mut self, trans: TransNo) -> Result<Reply, AllocError>
        requires there { is_in trans self.old.accounts.transactions ≡ true }
        requires sound { IsSound (state_of self.old) }
        requires shut { is_some self.old.accounts.shut ≡ true }
        ensures ok { IfOk result (λ reply. IfSome (at trans self.old.accounts.transactions) (λ t. gives reply (state_of self.new) ≡ gives (io_reply (held_of t.leg.holds)) (settled [] (with_legs trans 0 t (aborted trans t.leg (state_of self.old)))))) }
        ensures err { OnErr result (state_of self.new ≡ state_of self.old) }
        ensures want { OnErr result (IfSome (at trans self.old.accounts.transactions) (λ t. 0 < length t.leg.holds)) }
    {
        let Some(opened) = self.accounts.get(trans.0) else {
            unreachable!();
        };
        let held = opened.leg().held(self.alloc)?;
        self.give_up_leg(trans);
        self.settle();
        Ok(io_of(held))
    }
}
