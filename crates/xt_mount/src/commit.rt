//! Committing a transaction.

ghost use Rattle.std.specs.Prelude.{◌≡◌, ◌&&◌, [], is_some, true, IfOk, OnErr, if◌then◌else◌};
ghost use Rattle.xt_base.specs.Alone.{names_held};
ghost use Rattle.xt_base.specs.Calls.{commit as commit_step, committed_of, gives, io_of, with_trans};
ghost use Rattle.xt_base.specs.Maps.{at};
ghost use Rattle.xt_base.specs.Sized.{IsSized};
ghost use Rattle.xt_base.specs.Sound.{IsSound};
ghost use Rattle.xt_mount.specs.Machines.{state_of};

use crate::machine::Machine;
use std::alloc::AllocError;
use xt_base::content::HeldBlocks;
use xt_base::names::{CkptNo, TransNo};
use xt_base::steps::{Errno, Reply};

impl Machine {
    /// The number that a leg's commit answers: 0 for a clean leg.
    pub fn commit_number(&self, is_dirty: bool) -> CkptNo
        ensures { result ≡ (if is_dirty then (state_of self.now).items.open_number else 0) }
    {
        if is_dirty {
            self.accounts.open_number()
        } else {
            CkptNo(0)
        }
    }

    /// Whether a leg can only be given up: a dirty one on a shut mount.
    fn gives_up(&self, is_dirty: bool) -> bool
        ensures { result ≡ (is_dirty && is_some (state_of self.now).shut) }
    {
        is_dirty && self.is_shut()
    }

    /// Ends a transaction. Its changes are committed under the open number; on a shut mount a dirty leg is
    /// given up, which is EIO. The one error is want of memory to name the held blocks, and then nothing changes.
    #[inline(always)]
    pub fn commit(&mut self, trans: TransNo) -> Result<Reply, AllocError>
        requires sound { IsSound (state_of self.old) }
        requires sized { IsSized (state_of self.old) }
        ensures ok { IfOk result (λ reply. gives reply (state_of self.new) ≡ with_trans (at trans self.old.accounts.transactions) (state_of self.old) (commit_step [] trans (state_of self.old))) }
        ensures err { OnErr result (state_of self.new ≡ state_of self.old) }
        ensures want { OnErr result (names_held (with_trans (at trans self.old.accounts.transactions) (state_of self.old) (commit_step [] trans (state_of self.old))).reply ≡ true) }
    {
        let Some(opened) = self.accounts.get(trans.0) else {
            return Ok(Reply::Refused(Errno::Invalid));
        };
        let held = opened.leg().held(self.alloc)?;
        let is_dirty = opened.leg().is_dirty();
        if self.gives_up(is_dirty) {
            self.close_aborted(trans);
            self.settle();
            return Ok(io_of(held));
        }
        let number = self.commit_number(is_dirty);
        let only = self.only_unchanged(trans);
        self.close(trans);
        self.settle_but(only);
        Ok(committed_of(number, held))
    }
}

/// The checkpoint of a committed leg, with the blocks that stay held.
pub fn committed_of(number: CkptNo, held: Option<HeldBlocks>) -> Reply
    ensures { result ≡ committed_of number held }
{
    match held {
        Some(held) => Reply::CommittedHeld { number, held },
        None => Reply::Committed(number),
    }
}

/// EIO, with the blocks that stay held.
pub fn io_of(held: Option<HeldBlocks>) -> Reply
    ensures { result ≡ io_of held }
{
    match held {
        Some(held) => Reply::Aborted(held),
        None => Reply::Refused(Errno::Io),
    }
}
