//! Reading a block, and which reads ask the home device.

ghost use Rattle.std.specs.Bool.{OnFalse, OnTrue};
ghost use Rattle.std.specs.Prelude.{◌≡◌, ◌<◌, ◌&&◌, ◌||◌, None, false, is_none, is_some, length, not, true, IfErr, IfOk, IfSome, OnErr, Some, if◌then◌else◌};
ghost use Rattle.xt_base.specs.Alone.{is_refusal};
ghost use Rattle.xt_base.specs.Calls.{answered, asks, at_end, busied, first_of, gives, is_absent, is_elsewhere, is_fresh, is_own, is_resident, locked, read as read_step, read_asks, read_refusals, with_owner, with_trans};
ghost use Rattle.xt_base.specs.Legs.{is_dirty, is_stale, own_count};
ghost use Rattle.xt_base.specs.Maps.{at, is_in};
ghost use Rattle.xt_base.specs.Order.{has_size, is_there};
ghost use Rattle.xt_base.specs.Sound.{IsSound};
ghost use Rattle.xt_base.specs.Space.{is_busy};
ghost use Rattle.xt_base.specs.declared.steps.Answer.TheVariants as Answered;
ghost use Rattle.xt_base.specs.declared.steps.Owner.TheVariants.{Trans as OwnedBy};
ghost use Rattle.xt_mount.specs.Come.{read_block};
ghost use Rattle.xt_mount.specs.Machines.{state_of};
ghost use Rattle.xt_mount.specs.Reads.{IsAnswered, is_given};

use crate::get::is_at_end;
use crate::machine::Machine;
use crate::opened::LegSeen;
use std::alloc::AllocError;
use xt_base::content::Content;
use xt_base::names::{Block, TransNo};
use xt_base::steps::{Answer, Errno, Reason, Reply, Request};

impl Machine {
    /// Whether a block is the transaction's own, and fresh or stale.
    fn is_unreadable(&self, leg: &LegSeen<'_>, trans: TransNo, block: Block) -> bool
        ensures { result ≡ (is_own (state_of self.now) trans block && (is_fresh (state_of self.now) block || is_stale block leg.now)) }
    {
        self.is_own(trans, block) && (self.accounts.is_fresh(block.0) || leg.is_stale(block.0))
    }

    /// What refuses a read before its device is asked.
    #[inline(always)]
    fn read_refusal(&self, leg: &LegSeen<'_>, trans: TransNo, block: Block) -> Option<Errno>
        ensures refusal { result ≡ first_of (read_refusals trans block leg.now (state_of self.now)) }
        ensures room { result ≡ None → at_end (own_count trans (at block self.now.locks)) ≡ false }
        ensures free { result ≡ None → is_elsewhere (state_of self.now) trans block ≡ false }
    {
        if block.0 >= self.blocks {
            return Some(Errno::Invalid);
        }
        if self.is_shut() {
            return Some(Errno::Io);
        }
        if is_at_end(self.own_count(trans, block)) || self.is_unreadable(leg, trans, block) {
            return Some(Errno::Invalid);
        }
        self.place_refusal(trans, block)
    }

    /// Whether a block is resident: idle, which is looked up in one place, or busy and not fresh.
    fn is_resident(&self, block: Block) -> bool
        ensures { result ≡ is_resident (state_of self.now) block }
    {
        self.accounts.is_idle(block.0) || (self.is_busy(block) && !self.accounts.is_fresh(block.0))
    }

    /// Whether a block is neither the transaction's own nor resident.
    fn is_absent(&self, trans: TransNo, block: Block) -> bool
        ensures { result ≡ is_absent trans block (state_of self.now) }
    {
        !self.is_own(trans, block) && !self.is_resident(block)
    }

    /// The block that a request must ask the home device for: a read's, where nothing refuses it and the block is
    /// neither own nor resident.
    pub fn needs(&self, request: &Request) -> Option<Block>
        ensures asked { is_some result ≡ asks request.now (state_of self.now) }
        ensures block { IfSome result (λ block. read_block request.now ≡ Some block) }
    {
        match request {
            Request::Read { trans, block } => self.needs_block(*trans, *block),
            _ => None,
        }
    }

    /// The same for a read.
    fn needs_block(&self, trans: TransNo, block: Block) -> Option<Block>
        ensures asked { is_some result ≡ read_asks trans block (state_of self.now) (at trans self.now.accounts.transactions) }
        ensures block { IfSome result (λ asked. asked ≡ block) }
    {
        let opened = self.accounts.get(trans.0)?;
        if self.is_absent(trans, block)
            && self.read_refusal(&opened.leg(), trans, block).is_none()
        {
            Some(block)
        } else {
            None
        }
    }

    /// A first lock of a block that is busy: whether it is resident. One that is not is left as it is.
    fn lock_busy(&mut self, trans: TransNo, block: Block) -> bool
        requires sound { IsSound (state_of self.old) }
        requires strange { own_count trans (at block self.old.locks) ≡ None }
        requires free { is_elsewhere (state_of self.old) trans block ≡ false }
        requires busy { is_busy (state_of self.old) block ≡ true }
        ensures resident { result ≡ is_resident (state_of self.old) block }
        ensures locked { OnTrue result (state_of self.new ≡ locked trans block None (state_of self.old)) }
        ensures kept { OnFalse result (state_of self.new ≡ state_of self.old) }
    {
        if self.accounts.is_fresh(block.0) && !self.accounts.is_idle(block.0) {
            return false;
        }
        let _locked = self.locks.try_lock(trans, block);
        true
    }

    /// A first lock of a block that is not busy: whether it is resident, which is to be idle. It is searched once: found, it is taken. One
    /// that is not resident is left as it is.
    fn lock_idle(&mut self, trans: TransNo, block: Block) -> bool
        requires sound { IsSound (state_of self.old) }
        requires strange { own_count trans (at block self.old.locks) ≡ None }
        requires free { is_elsewhere (state_of self.old) trans block ≡ false }
        requires idle { is_busy (state_of self.old) block ≡ false }
        ensures resident { result ≡ is_resident (state_of self.old) block }
        ensures locked { OnTrue result (state_of self.new ≡ locked trans block None (state_of self.old)) }
        ensures kept { OnFalse result (state_of self.new ≡ state_of self.old) }
    {
        if !self.accounts.bring_idle(block.0) {
            return false;
        }
        let _locked = self.locks.try_lock(trans, block);
        true
    }

    /// Locks a block that is the transaction's own or resident, and says whether it is. One that is neither is left as it is.
    #[inline(always)]
    fn lock_resident(&mut self, trans: TransNo, block: Block) -> bool
        requires sound { IsSound (state_of self.old) }
        requires room { at_end (own_count trans (at block self.old.locks)) ≡ false }
        requires free { is_elsewhere (state_of self.old) trans block ≡ false }
        ensures absent { result ≡ not (is_absent trans block (state_of self.old)) }
        ensures locked { OnTrue result (state_of self.new ≡ locked trans block (own_count trans (at block self.old.locks)) (state_of self.old)) }
        ensures kept { OnFalse result (state_of self.new ≡ state_of self.old) }
    {
        match self.own_count(trans, block) {
            Some(_) => {
                let _again = self.locks.again(trans, block);
                true
            }
            None => {
                if self.is_busy(block) {
                    self.lock_busy(trans, block)
                } else {
                    self.lock_idle(trans, block)
                }
            }
        }
    }

    /// Locks a block with its content where that asks no home device; else nothing changes, and the device is to be asked for the block
    /// first. It takes no memory.
    #[inline(always)]
    pub fn try_read(&mut self, trans: TransNo, block: Block) -> Result<Reply, Block>
        requires { IsSound (state_of self.old) }
        ensures served { IfOk result (λ reply. gives reply (state_of self.new) ≡ with_trans (at trans self.old.accounts.transactions) (state_of self.old) (read_step trans block Answered.None (state_of self.old))) }
        ensures unasked { IfOk result (λ _. read_asks trans block (state_of self.old) (at trans self.old.accounts.transactions) ≡ false) }
        ensures asked { IfErr result (λ _. read_asks trans block (state_of self.old) (at trans self.old.accounts.transactions) ≡ true) }
        ensures block { IfErr result (λ asked. asked ≡ block) }
        ensures kept { IfErr result (λ _. state_of self.new ≡ state_of self.old) }
    {
        let Some(opened) = self.accounts.get(trans.0) else {
            return Ok(Reply::Refused(Errno::Invalid));
        };
        if let Some(errno) = self.read_refusal(&opened.leg(), trans, block) {
            return Ok(Reply::Refused(errno));
        }
        if self.lock_resident(trans, block) {
            Ok(Reply::Okay)
        } else {
            Err(block)
        }
    }

    /// A block that nobody has is the transaction's, with the content that the device gave, which has the mount's size.
    fn take_content(&mut self, trans: TransNo, block: Block, content: Content)
        requires sound { IsSound (state_of self.old) }
        requires absent { is_absent trans block (state_of self.old) ≡ true }
        requires free { is_in block self.old.locks ≡ false }
        requires size { length content ≡ self.old.accounts.form.size }
        ensures { state_of self.new ≡ with_owner block (OwnedBy trans 0) (busied block content (state_of self.old)) }
    {
        self.accounts.bring_content(block.0, content);
        let _locked = self.locks.try_lock(trans, block);
    }

    /// What the device answered to a read, where a content has the mount's size. A failure is EIO, and shuts the mount where the leg is dirty.
    fn take_answer(
        &mut self,
        trans: TransNo,
        block: Block,
        dirty: bool,
        answer: &Answer,
    ) -> Result<Reply, AllocError>
        requires sound { IsSound (state_of self.old) }
        requires absent { is_absent trans block (state_of self.old) ≡ true }
        requires free { is_elsewhere (state_of self.old) trans block ≡ false }
        requires size { has_size answer.now (Some (state_of self.old)) ≡ true }
        ensures ok { IfOk result (λ reply. IsAnswered trans block dirty answer.now reply (state_of self.new) (state_of self.old)) }
        ensures err { OnErr result (state_of self.new ≡ state_of self.old) }
        ensures want { OnErr result (is_given answer.now ≡ true) }
    {
        if let Answer::Content(content) = answer {
            let content = content.copy(self.alloc)?;
            self.take_content(trans, block, content);
            return Ok(Reply::Okay);
        }
        if dirty {
            self.shut_down(Reason::MetaIoError);
        }
        Ok(Reply::Refused(Errno::Io))
    }

    /// Locks a block with its content. The home device is asked where nothing refuses the read and the block is neither own nor resident, and
    /// just then its answer is handed in.
    pub fn read(
        &mut self,
        trans: TransNo,
        block: Block,
        answer: &Answer,
    ) -> Result<Reply, AllocError>
        requires sound { IsSound (state_of self.old) }
        requires answered { is_there (read_asks trans block (state_of self.old) (at trans self.old.accounts.transactions)) answer.now ≡ true }
        requires size { has_size answer.now (Some (state_of self.old)) ≡ true }
        ensures ok { IfOk result (λ reply. gives reply (state_of self.new) ≡ with_trans (at trans self.old.accounts.transactions) (state_of self.old) (read_step trans block answer.now (state_of self.old))) }
        ensures err { OnErr result (state_of self.new ≡ state_of self.old) }
        ensures want { OnErr result (is_refusal (with_trans (at trans self.old.accounts.transactions) (state_of self.old) (read_step trans block answer.now (state_of self.old))).reply ≡ false) }
    {
        let Some(opened) = self.accounts.get(trans.0) else {
            return Ok(Reply::Refused(Errno::Invalid));
        };
        if let Some(errno) = self.read_refusal(&opened.leg(), trans, block) {
            return Ok(Reply::Refused(errno));
        }
        // An answer is there exactly where the block is absent, so that is not looked up again.
        if matches!(answer, Answer::None) {
            self.lock(trans, block);
            return Ok(Reply::Okay);
        }
        let dirty = opened.leg().is_dirty();
        self.take_answer(trans, block, dirty, answer)
    }
}
