//! The contents in the accounts of a mount: what a block has, what a leg sees of it, and when it comes and settles.

ghost use Rattle.std.specs.Bool.{OnFalse, OnTrue};
ghost use Rattle.std.specs.Prelude.{◌≡◌, ◌<◌, ◌≤◌, false, true, is_none, length, IfOk, IfSome, option_copied, ◌||◌};
ghost use Rattle.xt_base.specs.Calls.{seen};
ghost use Rattle.xt_base.specs.Legs.{is_stale};
ghost use Rattle.xt_base.specs.Maps.{at, has, is_in, put, without, without_member};
ghost use Rattle.xt_base.specs.Sound.{IsRising};
ghost use Rattle.xt_base.specs.Text.{content_at};
ghost use Rattle.xt_base.specs.declared.sizes.TheConstants.{IDLE_BLOCKS};
ghost use Rattle.xt_frames.specs.Busy.{committed_of};
ghost use Rattle.xt_frames.specs.Contents.{brought_in, contents_of};
ghost use Rattle.xt_frames.specs.Settling.{AreOthersBusy, settled_by};
ghost use Rattle.xt_mount.specs.Accounts.{IsUnchanged};
ghost use Rattle.xt_mount.specs.Settling.{AreChangedBusy, is_busy_in};
ghost use Rattle.xt_mount.specs.Shown.{has_in_place};
ghost use Rattle.xt_journal.specs.Over.{frame_bytes, leg_over};

use crate::accounts::Accounts;
use std::alloc::{AllocError, Global};
use xt_base::content::Content;
use xt_base::sizes::ROOM;
use xt_journal::journal::Journal;
use xt_locks::locks::Locks;
use xt_trans::trans::TransRec;

impl Accounts {
    /// Whether a block is fresh: it shows zeros until it is written whole.
    pub fn is_fresh(&self, block: u64) -> bool
        ensures { result ≡ has self.now.frames.fresh block }
    {
        self.journal.frames().is_fresh(block)
    }

    /// Whether a block is idle.
    pub fn is_idle(&self, block: u64) -> bool
        ensures { result ≡ is_in block self.now.frames.idle }
    {
        self.journal.frames().is_idle(block)
    }

    /// The committed content of a block that no open transaction has changed.
    pub fn committed(&self, block: u64) -> Option<&Content>
        requires { IsUnchanged block self.now.transactions }
        ensures { option_copied result ≡ at block self.now.frames.committed }
    {
        match self.journal.frames().frame(block) {
            Some(frame) => Some(frame.content()),
            None => None,
        }
    }

    /// The committed contents in a list of their own, by rising block. The one error is want of memory.
    pub fn committed_copies(&self, alloc: Global) -> Result<Vec<(u64, Content)>, AllocError>
        ensures { IfOk result (λ contents. contents.items ≡ self.now.frames.committed) }
    {
        self.journal.frames().committed(alloc)
    }

    /// The fresh blocks, ascending, in a list of their own. The one error is want of memory.
    pub fn fresh_copies(&self, alloc: Global) -> Result<Vec<u64>, AllocError>
        ensures { IfOk result (λ blocks. blocks.items ≡ self.now.frames.fresh) }
    {
        self.journal.frames().fresh(alloc)
    }

    /// The idle contents in a list of their own, the most recent first. The one error is want of memory.
    pub fn idle_copies(&self, alloc: Global) -> Result<Vec<(u64, Content)>, AllocError>
        ensures { IfOk result (λ contents. contents.items ≡ self.now.frames.idle) }
    {
        self.journal.frames().idle(alloc)
    }

    /// A copy of what an open transaction sees of a block that it has. The one error is want of memory.
    pub fn seen(&self, alloc: Global, trans: u64, block: u64) -> Result<Content, AllocError>
        requires there { is_in trans self.now.transactions ≡ true }
        ensures { IfOk result (λ content. IfSome (at trans self.now.transactions) (λ t. content ≡ seen self.now.form.size block t.leg self.now.frames)) }
    {
        match self.transactions.get(trans) {
            Some(opened) => copy_seen(alloc, opened.leg(), &self.journal, block),
            None => unreachable!(),
        }
    }

    /// A block becomes busy, on a live mount one that is not listed: with its idle content, or fresh. It takes no memory.
    pub fn bring(&mut self, block: u64)
        requires unlisted { is_none self.old.shut ≡ true → is_in block self.old.items.cil ≡ false }
        requires unchanged { IsUnchanged block self.old.transactions }
        requires committed { length self.old.frames.committed < ROOM }
        requires fresh { length self.old.frames.fresh < ROOM }
        ensures { self.new ≡ record self.old { frames = brought_in block (at block self.old.frames.idle) self.old.frames } }
    {
        self.journal.bring(block);
    }

    /// An idle block becomes busy, on a live mount one that is not listed, with its content; one that is not idle is left as it is.
    /// Whether it was idle. It takes no memory.
    pub fn bring_idle(&mut self, block: u64) -> bool
        requires unlisted { is_none self.old.shut ≡ true → is_in block self.old.items.cil ≡ false }
        requires unchanged { IsUnchanged block self.old.transactions }
        requires committed { length self.old.frames.committed < ROOM }
        ensures there { result ≡ is_in block self.old.frames.idle }
        ensures brought { OnTrue result (self.new ≡ record self.old { frames = brought_in block (at block self.old.frames.idle) self.old.frames }) }
        ensures kept { OnFalse result (self.new ≡ self.old) }
    {
        self.journal.bring_idle(block)
    }

    /// A block becomes busy, on a live mount one that is not listed, with this content, which has the mount's size. It takes no memory.
    pub fn bring_content(&mut self, block: u64, content: Content)
        requires unlisted { is_none self.old.shut ≡ true → is_in block self.old.items.cil ≡ false }
        requires unchanged { IsUnchanged block self.old.transactions }
        requires room { length self.old.frames.committed < ROOM }
        requires size { length content ≡ self.old.form.size }
        ensures { self.new ≡ record self.old { frames = record self.old.frames { committed = put block content self.old.frames.committed; idle = without block self.old.frames.idle } } }
    {
        self.journal.bring_content(block, content);
    }

    /// A block is fresh no more.
    pub fn leave_fresh(&mut self, block: u64)
        ensures { self.new ≡ record self.old { frames = record self.old.frames { fresh = without_member block self.old.frames.fresh } } }
    {
        self.journal.leave_fresh(block);
    }

    /// Contents of blocks that are no longer locked, held or on a list go, on a live mount to the front of the idle list,
    /// ascending by block; their fresh marks go. It takes no memory.
    pub fn settle(&mut self, locks: &Locks)
        requires { AreChangedBusy (is_busy_in locks.now self.old.items) self.old.transactions }
        ensures { self.new ≡ record self.old { frames = settled_by (is_busy_in locks.now self.old.items) (is_none self.old.shut) self.old.frames } }
    {
        self.journal.settle(locks);
    }

    /// At most 64 blocks are idle: for a proof, at run time nothing.
    pub fn idle_is_short(&self)
        ensures { length self.now.frames.idle ≤ IDLE_BLOCKS }
    {
        self.journal.frames().idle_is_short();
    }

    /// The same where only one block may not be busy any more: nothing is asked of the others.
    pub fn settle_block(&mut self, locks: &Locks, block: u64)
        requires rising { IsRising self.old.frames.committed }
        requires others { AreOthersBusy (is_busy_in locks.now self.old.items) block self.old.frames }
        requires changed { AreChangedBusy (is_busy_in locks.now self.old.items) self.old.transactions }
        ensures { self.new ≡ record self.old { frames = settled_by (is_busy_in locks.now self.old.items) (is_none self.old.shut) self.old.frames } }
    {
        self.journal.settle_block(locks, block);
    }
}

/// A copy of what a leg sees of a block. The one error is want of memory.
fn copy_seen(
    alloc: Global,
    leg: &TransRec,
    journal: &Journal,
    block: u64,
) -> Result<Content, AllocError>
    requires { has_in_place block leg.now ≡ true → is_in block journal.now.frames.frames ≡ true }
    ensures { IfOk result (λ content. content ≡ seen journal.now.form.size block (leg_over journal.now.frames.frames leg.now) (contents_of journal.now.frames)) }
{
    if let Some(content) = leg.edit(block) {
        return content.copy(alloc);
    }
    if leg.is_in_place(block) {
        return copy_in_place(alloc, journal, block);
    }
    if is_hidden(leg, journal, block) {
        return Content::zeros(alloc, journal.form());
    }
    copy_committed(alloc, journal, block)
}

/// Whether a leg that did not change a block sees zeros of it.
fn is_hidden(leg: &TransRec, journal: &Journal, block: u64) -> bool
    ensures { result ≡ (has journal.now.frames.fresh block || is_stale block leg.now) }
{
    journal.frames().is_fresh(block) || leg.is_stale(block)
}

/// A copy of the bytes of a block's frame. The one error is want of memory.
fn copy_in_place(alloc: Global, journal: &Journal, block: u64) -> Result<Content, AllocError>
    requires { is_in block journal.now.frames.frames ≡ true }
    ensures { IfOk result (λ content. content ≡ frame_bytes (at block journal.now.frames.frames)) }
{
    match journal.frames().frame(block) {
        Some(frame) => frame.content().copy(alloc),
        None => unreachable!(),
    }
}

/// A copy of the committed content of a block, zeros where there is none. The one error is want of memory.
fn copy_committed(alloc: Global, journal: &Journal, block: u64) -> Result<Content, AllocError>
    ensures { IfOk result (λ content. content ≡ content_at journal.now.form.size block (committed_of journal.now.frames.frames)) }
{
    match journal.frames().frame(block) {
        Some(frame) => frame.committed_copy(alloc),
        None => Content::zeros(alloc, journal.form()),
    }
}
