//! Invalidating a block.

ghost use Rattle.std.specs.Prelude.{◌≡◌, ◌+◌, ◌<◌, ◌≤◌, None, false, true, length, IfSome};
ghost use Rattle.xt_base.specs.Calls.{first_of, gives, inval as inval_step, inval_refusals, invalidated, is_own, not_fresh, with_leg, with_trans};
ghost use Rattle.xt_base.specs.Maps.{at, is_in};
ghost use Rattle.xt_base.specs.Sound.{IsRising, IsSound};
ghost use Rattle.xt_base.specs.Space.{charge};
ghost use Rattle.xt_mount.specs.Accounts.{IsAlone};
ghost use Rattle.xt_mount.specs.Machines.{state_of};

use crate::machine::Machine;
use crate::opened::Opened;
use xt_base::names::{Block, TransNo};
use xt_base::sizes::ROOM;
use xt_base::steps::{Errno, Reply};

impl Machine {
    /// A block is invalidated in a transaction's leg, and fresh no more.
    fn mark_stale(&mut self, trans: TransNo, block: Block)
        requires there { is_in trans self.old.accounts.transactions ≡ true }
        requires rising { IsRising self.old.accounts.transactions }
        requires alone { IsAlone trans block self.old.accounts.transactions }
        requires few { IfSome (at trans self.old.accounts.transactions) (λ t. is_in block t.leg.changes ≡ false → length t.leg.changes + length t.leg.holds < ROOM) }
        requires fits { IfSome (at trans self.old.accounts.transactions) (λ t. charge self.old.accounts.form.ends (invalidated block t.leg).changes ≤ t.unit) }
        ensures { IfSome (at trans self.old.accounts.transactions) (λ t. state_of self.new ≡ not_fresh block (with_leg trans t (invalidated block t.leg) (state_of self.old))) }
    {
        self.accounts.inval(trans.0, block.0);
        self.accounts.leave_fresh(block.0);
    }

    /// What refuses an invalidation.
    fn inval_refusal(&self, opened: &Opened<'_>, trans: TransNo, block: Block) -> Option<Errno>
        ensures refusal { result ≡ first_of (inval_refusals trans block opened.now (state_of self.now)) }
        ensures own { result ≡ None → is_own (state_of self.now) trans block ≡ true }
        ensures fits { result ≡ None → charge self.now.accounts.form.ends (invalidated block opened.now.leg).changes ≤ opened.now.unit }
    {
        if !self.is_own(trans, block) {
            return Some(Errno::Invalid);
        }
        if !opened.fits_invalidated(self.accounts.form(), block) {
            return Some(Errno::NoSpace);
        }
        None
    }

    /// Gives a block up for good: it is cancelled when the leg is committed. It takes no memory.
    pub fn inval(&mut self, trans: TransNo, block: Block) -> Reply
        requires { IsSound (state_of self.old) }
        ensures { gives result (state_of self.new) ≡ with_trans (at trans self.old.accounts.transactions) (state_of self.old) (inval_step trans block (state_of self.old)) }
    {
        let Some(opened) = self.accounts.get(trans.0) else {
            return Reply::Refused(Errno::Invalid);
        };
        if let Some(errno) = self.inval_refusal(&opened, trans, block) {
            return Reply::Refused(errno);
        }
        if !opened.leg().is_stale(block.0) {
            self.mark_stale(trans, block);
        }
        Reply::Okay
    }
}
