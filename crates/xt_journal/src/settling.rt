//! Blocks that are no longer busy leave the frames.

ghost use Rattle.std.specs.Prelude.{◌≡◌, is_none};
ghost use Rattle.xt_frames.specs.Contents.{contents_of};
ghost use Rattle.xt_frames.specs.Settling.{AreOthersBusy, bufs_settled_by};
ghost use Rattle.xt_journal.specs.Journals.{is_busy_beside};

use crate::journal::Journal;
use xt_base::names::Block;
use xt_frames::frames::Frames;
use xt_items::items::Items;
use xt_locks::locks::Locks;

impl Journal {
    /// Frames of blocks that are no longer locked, held or on a list go, on a live mount to the front of the idle list,
    /// ascending by block; their fresh marks go. It takes no memory.
    pub fn settle(&mut self, locks: &Locks)
        ensures { self.new ≡ record self.old { frames = bufs_settled_by (is_busy_beside locks.now self.old.lists) (is_none self.old.shut) self.old.frames } }
    {
        let is_live = self.shut.is_none();
        settle_frames(&mut self.frames, locks, &self.items, is_live);
    }

    /// The same where only one block may not be busy any more: nothing is asked of the others.
    pub fn settle_block(&mut self, locks: &Locks, block: u64)
        requires { AreOthersBusy (is_busy_beside locks.now self.old.lists) block (contents_of self.old.frames) }
        ensures { self.new ≡ record self.old { frames = bufs_settled_by (is_busy_beside locks.now self.old.lists) (is_none self.old.shut) self.old.frames } }
    {
        let stays = is_busy(locks, &self.items, block);
        let is_live = self.shut.is_none();
        self.frames.settle_block(block, stays, is_live);
    }
}

/// Whether a block is locked, held or on a list.
fn is_busy(locks: &Locks, items: &Items, block: u64) -> bool
    ensures { result ≡ is_busy_beside locks.now items.now block }
{
    locks.is_locked(Block(block)) || items.is_listed(block)
}

/// The same, for blocks that are asked in rising order, as `is_listed_near` of the lists.
#[inline(always)]
fn is_busy_near(locks: &Locks, items: &Items, near: &mut usize, block: u64) -> bool
    ensures { result ≡ is_busy_beside locks.now items.now block }
{
    items.is_listed_near(near, block) || locks.is_locked(Block(block))
}

/// Frames of blocks that are no longer busy go, on a live mount their committed contents to the idle list; their fresh marks go.
fn settle_frames(frames: &mut Frames, locks: &Locks, items: &Items, is_live: bool)
    ensures { frames.new ≡ bufs_settled_by (is_busy_beside locks.now items.now) is_live frames.old }
{
    frames.settle(is_live, |near, block| {
        is_busy_near(locks, items, near, block)
    });
}
