//! Locking a block.

ghost use Rattle.std.specs.Prelude.{◌≡◌, ◌<◌, None, false, length, if◌then◌else◌};
ghost use Rattle.xt_base.specs.Calls.{at_end, brought, first_of, get as get_step, get_refusals, gives, is_elsewhere, locked, with_trans};
ghost use Rattle.xt_base.specs.Legs.{own_count};
ghost use Rattle.xt_base.specs.Maps.{at};
ghost use Rattle.xt_base.specs.Sound.{IsSound};
ghost use Rattle.xt_mount.specs.Machines.{state_of};
ghost use Rattle.xt_mount.specs.Reads.{place_refusals};

use crate::machine::Machine;
use xt_base::names::{Block, TransNo};
use xt_base::steps::{Errno, Reply};

impl Machine {
    /// What refuses a get.
    fn get_refusal(&self, trans: TransNo, block: Block) -> Option<Errno>
        ensures refusal { result ≡ first_of (get_refusals trans block (state_of self.now)) }
        ensures room { result ≡ None → at_end (own_count trans (at block self.now.locks)) ≡ false }
        ensures free { result ≡ None → is_elsewhere (state_of self.now) trans block ≡ false }
    {
        if block.0 >= self.blocks {
            return Some(Errno::Invalid);
        }
        if self.is_shut() {
            return Some(Errno::Io);
        }
        if is_at_end(self.own_count(trans, block)) {
            return Some(Errno::Invalid);
        }
        self.place_refusal(trans, block)
    }

    /// What refuses a block that may be locked otherwise: somebody else has it, or there is no room for one more that is busy. Where there is
    /// room anyway, it is not looked up whether the block is busy.
    pub fn place_refusal(&self, trans: TransNo, block: Block) -> Option<Errno>
        ensures refusal { result ≡ first_of (place_refusals trans block (state_of self.now)) }
        ensures free { result ≡ None → is_elsewhere (state_of self.now) trans block ≡ false }
    {
        if self.is_elsewhere(trans, block) {
            return Some(Errno::Again);
        }
        if self.may_be_full() && !self.is_busy(block) && self.is_full() {
            return Some(Errno::NoBufs);
        }
        None
    }

    /// A first lock of a block: an idle one keeps its content, and one that is not resident is fresh.
    fn lock_first(&mut self, trans: TransNo, block: Block)
        requires sound { IsSound (state_of self.old) }
        requires strange { own_count trans (at block self.old.locks) ≡ None }
        requires free { is_elsewhere (state_of self.old) trans block ≡ false }
        ensures { state_of self.new ≡ locked trans block None (state_of self.old) }
    {
        if !self.is_busy(block) {
            self.accounts.bring(block.0);
        }
        let _locked = self.locks.try_lock(trans, block);
    }

    /// One lock more of a block that the transaction has, and a first one of another.
    pub fn lock(&mut self, trans: TransNo, block: Block)
        requires sound { IsSound (state_of self.old) }
        requires room { at_end (own_count trans (at block self.old.locks)) ≡ false }
        requires free { is_elsewhere (state_of self.old) trans block ≡ false }
        ensures { state_of self.new ≡ locked trans block (own_count trans (at block self.old.locks)) (state_of self.old) }
    {
        match self.own_count(trans, block) {
            Some(_) => {
                let _again = self.locks.again(trans, block);
            }
            None => self.lock_first(trans, block),
        }
    }

    /// Locks a block, unread. A block that the transaction has is locked once more. It takes no memory.
    pub fn get(&mut self, trans: TransNo, block: Block) -> Reply
        requires { IsSound (state_of self.old) }
        ensures { gives result (state_of self.new) ≡ with_trans (at trans self.old.accounts.transactions) (state_of self.old) (λ t. get_step trans block (state_of self.old)) }
    {
        if !self.accounts.is_open(trans.0) {
            return Reply::Refused(Errno::Invalid);
        }
        if let Some(errno) = self.get_refusal(trans, block) {
            return Reply::Refused(errno);
        }
        self.lock(trans, block);
        Reply::Okay
    }
}

/// Whether a recursion count is at its end.
pub fn is_at_end(count: Option<u32>) -> bool
    ensures { result ≡ at_end count }
{
    match count {
        Some(count) => count == u32::MAX,
        None => false,
    }
}
