//! Contents: those of busy blocks in frames, fresh marks, and the idle list.

ghost use Rattle.std.specs.Bool.{OnFalse, OnTrue};
ghost use Rattle.std.specs.Prelude.{ℕ, Bool, ◌≡◌, ◌+◌, ◌-◌, Some, None, ◌<◌, ◌≤◌, ◌++◌, ◌∷◌, [], length, take, drop, slice_get, false, true, IfErr, IfOk, IfSome, OnErr, OnOk, option_copied, if◌then◌else◌, ◌&&◌, nat_lt, not};
ghost use Rattle.xt_base.specs.Maps.{at, has, is_in, put, with_member, without, without_member};
ghost use Rattle.xt_base.specs.Sound.{IsRising};
ghost use Rattle.xt_frames.specs.Busy.{changed_in, committed_of};
ghost use Rattle.xt_frames.specs.Contents.{bufs_brought_in, contents_of, no_bufs};
ghost use Rattle.xt_frames.specs.Kept.{clean_of, committed_now, logged, undone};
ghost use Rattle.xt_frames.specs.Settling.{AreOthersBusy, bufs_saved_by, bufs_settled_by, frame_block, frames_from, fresh_block, fresh_from, idle_entry, is_other};
ghost use Rattle.xt_frames.specs.Shares.{no_contents};

use crate::buf::Buf;
use crate::busy::BusyFrames;
use crate::fresh::FreshBlocks;
use crate::idle::IdleList;
use crate::share::FrameShare;
use std::alloc::{AllocError, Global};
use std::marker::Model;
use xt_base::content::Content;
use xt_base::data_ref::DataRef;
use xt_base::names::Slot;
use xt_base::sizes::{IDLE_BLOCKS, ROOM};

/// The contents that a mount keeps: frames of busy blocks, each with its bytes as the leg that changes it has them and with its
/// committed content; which blocks are fresh; and the contents of idle blocks, the most recent first.
#[derive(Debug, Drop)]
pub struct Frames {
    busy: BusyFrames,
    fresh: FreshBlocks,
    idle: IdleList,
}

impl Model for Frames {
    ghost use Rattle.xt_frames.specs.Contents.{Bufs};

    ghost Value = { Bufs };

    ghost view = { λ f. record { frames = f.busy; fresh = f.fresh; idle = f.idle } };
}

impl Frames {
    /// No content at all, in a share that has none. Where memory is refused for the fresh marks, the share is handed back.
    pub fn over(alloc: Global, share: FrameShare) -> Result<Self, FrameShare>
        requires { share ≡ no_contents share.slot }
        ensures ok { IfOk result (λ frames. frames ≡ no_bufs) }
        ensures back { IfErr result (λ back. back ≡ share) }
    {
        let Ok(fresh) = FreshBlocks::new(alloc) else {
            return Err(share);
        };
        let FrameShare { busy, idle, .. } = share;
        Ok(Frames { busy, fresh, idle })
    }

    /// The frames go back into a share of their slot: what one life kept is no part of the next. It takes no memory.
    pub fn into_share(self, slot: Slot) -> FrameShare
        ensures { result ≡ no_contents slot }
    {
        let Frames {
            mut busy,
            mut idle,
            ..
        } = self;
        busy.clear();
        idle.clear();
        FrameShare { slot, busy, idle }
    }

    /// Whether a block is fresh: it shows zeros until it is written whole.
    pub fn is_fresh(&self, block: u64) -> bool
        ensures { result ≡ has self.now.fresh block }
    {
        self.fresh.contains(block)
    }

    /// Whether a block is idle.
    pub fn is_idle(&self, block: u64) -> bool
        ensures { result ≡ is_in block self.now.idle }
    {
        self.idle.contains(block)
    }

    /// Whether there is no room for one more frame, or for one more fresh mark.
    pub fn is_full(&self) -> bool
        ensures { result ≡ not (nat_lt (length self.now.frames) ROOM && nat_lt (length self.now.fresh) ROOM) }
    {
        !(self.busy.len() < ROOM && self.fresh.len() < ROOM)
    }

    /// The blocks of the frames rise: for a proof, at run time nothing.
    pub fn frames_rise(&self)
        ensures { IsRising self.now.frames }
    {
        self.busy.blocks_rise();
    }

    /// The frame of a block.
    pub fn frame(&self, block: u64) -> Option<&Buf>
        ensures { option_copied result ≡ at block self.now.frames }
    {
        self.busy.get(block)
    }

    /// The committed contents in a list of their own, by rising block. The one error is want of memory.
    pub fn committed(&self, alloc: Global) -> Result<Vec<(u64, Content)>, AllocError>
        ensures { IfOk result (λ contents. contents.items ≡ committed_of self.now.frames) }
    {
        self.busy.copies(alloc)
    }

    /// The idle contents in a list of their own, the most recent first. The one error is want of memory.
    pub fn idle(&self, alloc: Global) -> Result<Vec<(u64, Content)>, AllocError>
        ensures { IfOk result (λ contents. contents.items ≡ self.now.idle) }
    {
        self.idle.copies(alloc)
    }

    /// The fresh blocks, ascending, in a list of their own. The one error is want of memory.
    pub fn fresh(&self, alloc: Global) -> Result<Vec<u64>, AllocError>
        ensures { IfOk result (λ blocks. blocks.items ≡ self.now.fresh) }
    {
        self.fresh.blocks(alloc)
    }

    /// A block becomes busy: with its idle content, or fresh. It takes no memory.
    pub fn bring(&mut self, block: u64)
        requires frames { length self.old.frames < ROOM }
        requires fresh { length self.old.fresh < ROOM }
        ensures { self.new ≡ bufs_brought_in block (at block self.old.idle) self.old }
    {
        match self.idle.take(block) {
            Some(content) => {
                let _before = self.busy.exchange(block, Buf::clean(content));
            }
            None => self.fresh.insert(block),
        }
    }

    /// An idle block becomes busy, with its content; another is left as it is. Whether it was idle. It takes no memory.
    pub fn bring_idle(&mut self, block: u64) -> bool
        requires { length self.old.frames < ROOM }
        ensures there { result ≡ is_in block self.old.idle }
        ensures brought { OnTrue result (self.new ≡ bufs_brought_in block (at block self.old.idle) self.old) }
        ensures kept { OnFalse result (self.new ≡ self.old) }
    {
        match self.idle.take(block) {
            Some(content) => {
                let _before = self.busy.exchange(block, Buf::clean(content));
                true
            }
            None => false,
        }
    }

    /// A block becomes busy, with this content. It takes no memory.
    pub fn bring_content(&mut self, block: u64, content: Content)
        requires { length self.old.frames < ROOM }
        ensures { self.new ≡ record self.old { frames = put block (clean_of content) self.old.frames; idle = without block self.old.idle } }
    {
        self.leave_idle(block);
        let _before = self.busy.exchange(block, Buf::clean(content));
    }

    /// A block is idle no more.
    fn leave_idle(&mut self, block: u64)
        ensures { self.new ≡ record self.old { idle = without block self.old.idle } }
    {
        let _content = self.idle.take(block);
    }

    /// A leg writes bytes of a block that has a frame, in place. The one error is want of memory for the first chunk that is kept of
    /// it, and then nothing changes.
    pub fn log(
        &mut self,
        alloc: Global,
        block: u64,
        first: u32,
        bytes: &DataRef<'_>,
    ) -> Result<(), AllocError>
        requires there { is_in block self.old.frames ≡ true }
        requires within { IfSome (at block self.old.frames) (λ f. first + length bytes.now ≤ length f.edit) }
        requires some { 0 < length bytes.now }
        ensures ok { OnOk result (self.new ≡ record self.old { frames = changed_in (logged first bytes.now) block self.old.frames }) }
        ensures err { OnErr result (self.new ≡ self.old) }
    {
        self.busy.log(alloc, block, first, bytes)
    }

    /// What a leg changed of a block in place is put back, if it has a frame. It takes no memory.
    pub fn undo(&mut self, block: u64)
        ensures { self.new ≡ record self.old { frames = changed_in undone block self.old.frames } }
    {
        self.busy.undo(block);
    }

    /// What a leg changed of a block in place is committed. It takes no memory.
    pub fn keep(&mut self, block: u64)
        requires { is_in block self.old.frames ≡ true }
        ensures { self.new ≡ record self.old { frames = changed_in committed_now block self.old.frames } }
    {
        self.busy.commit(block);
    }

    /// A content of a leg's own is committed. It takes no memory.
    pub fn commit(&mut self, block: u64, content: Content)
        requires { is_in block self.old.frames ≡ false → length self.old.frames < ROOM }
        ensures { self.new ≡ record self.old { frames = put block (clean_of content) self.old.frames } }
    {
        let _before = self.busy.exchange(block, Buf::clean(content));
    }

    /// The frame of a block goes. It takes no memory.
    pub fn uncommit(&mut self, block: u64)
        ensures { self.new ≡ record self.old { frames = without block self.old.frames } }
    {
        let _frame = self.take_frame(block);
    }

    /// A block is fresh. It takes no memory.
    pub fn make_fresh(&mut self, block: u64)
        requires { length self.old.fresh < ROOM }
        ensures { self.new ≡ record self.old { fresh = with_member block self.old.fresh } }
    {
        self.fresh.insert(block);
    }

    /// A block is fresh no more.
    pub fn leave_fresh(&mut self, block: u64)
        ensures { self.new ≡ record self.old { fresh = without_member block self.old.fresh } }
    {
        self.fresh.remove(block);
    }

    /// Frames and fresh marks of blocks that are not busy go. Where contents are kept, the committed ones go to the front of the
    /// idle list, ascending by block, which is cut at 64. `is_busy` is asked of the blocks that have frames in rising order, and then
    /// of the fresh ones; what it is lent is its own, for where it looked last. It takes no memory.
    pub fn settle<F: Fn(&mut usize, u64) -> bool>(&mut self, is_kept: bool, is_busy: F)
        requires { F.IsAlwaysCallable is_busy }
        ensures { (busy : ℕ → Bool) → ((near : _) → (b : ℕ) → (r : Bool) → (after : _) → F.post is_busy near b r after → r ≡ busy b) → self.new ≡ bufs_settled_by busy is_kept self.old }
    {
        self.settle_frames(is_kept, &is_busy);
        self.settle_marks(&is_busy);
    }

    /// What `settle` does with frames.
    fn settle_frames<F: Fn(&mut usize, u64) -> bool>(&mut self, is_kept: bool, is_busy: &F)
        requires { F.IsAlwaysCallable is_busy.now }
        ensures { (busy : ℕ → Bool) → ((near : _) → (b : ℕ) → (r : Bool) → (after : _) → F.post is_busy.now near b r after → r ≡ busy b) → self.new ≡ frames_from busy is_kept 0 self.old }
    {
        let mut near = 0;
        let mut frame = 0;
        while let Some(block) = self.frame_block(frame) {
            let stays = is_busy(&mut near, block);
            frame = self.settle_frame(frame, block, stays, is_kept);
        }
    }

    /// What `settle` does with fresh marks.
    fn settle_marks<F: Fn(&mut usize, u64) -> bool>(&mut self, is_busy: &F)
        requires { F.IsAlwaysCallable is_busy.now }
        ensures { (busy : ℕ → Bool) → ((near : _) → (b : ℕ) → (r : Bool) → (after : _) → F.post is_busy.now near b r after → r ≡ busy b) → self.new ≡ fresh_from busy 0 self.old }
    {
        let mut near = 0;
        let mut mark = 0;
        while let Some(block) = self.fresh_block(mark) {
            let stays = is_busy(&mut near, block);
            mark = self.settle_mark(mark, block, stays);
        }
    }

    /// What `settle` does where each block is busy but perhaps one: whether that one stays is said. It takes no memory.
    pub fn settle_block(&mut self, block: u64, stays: bool, is_kept: bool)
        ensures { (busy : ℕ → Bool) → stays ≡ busy block → AreOthersBusy busy block (contents_of self.old) → self.new ≡ bufs_settled_by busy is_kept self.old }
    {
        self.idle_is_short();
        if !stays {
            self.frames_rise();
            self.leave(block, is_kept);
        }
    }

    /// How many blocks are idle.
    pub fn idle_count(&self) -> usize
        ensures value { result ≡ length self.now.idle }
        ensures small { result ≤ IDLE_BLOCKS }
    {
        self.idle.count()
    }

    /// At most 64 blocks are idle: for a proof, at run time nothing.
    pub fn idle_is_short(&self)
        ensures { length self.now.idle ≤ IDLE_BLOCKS }
    {
        self.idle.is_short();
    }

    /// The frame and the fresh mark of one block go; where contents are kept, the committed one to the front of the idle list.
    fn leave(&mut self, block: u64, is_kept: bool)
        requires { IsRising self.old.frames }
        ensures { self.new ≡ bufs_settled_by (is_other block) is_kept self.old }
    {
        self.leave_fresh(block);
        let Some(frame) = self.take_frame(block) else {
            return;
        };
        if is_kept {
            self.keep_idle(block, frame.into_committed());
        }
    }

    /// A frame goes: what it was, if there was one.
    fn take_frame(&mut self, block: u64) -> Option<Buf>
        ensures value { result ≡ at block self.old.frames }
        ensures rest { self.new ≡ record self.old { frames = without block self.old.frames } }
        ensures idle { length self.new.idle ≤ IDLE_BLOCKS }
    {
        self.idle.is_short();
        self.busy.remove(block)
    }

    /// A content goes to the front of the idle list, which is cut at 64.
    fn keep_idle(&mut self, block: u64, content: Content)
        ensures { self.new ≡ record self.old { idle = take IDLE_BLOCKS ((block, content) ∷ self.old.idle) } }
    {
        self.idle.put(block, content);
    }

    /// Frames of blocks that are not saved go. It takes no memory.
    pub fn forget<F: Fn(u64) -> bool>(&mut self, is_saved: F)
        requires { F.IsAlwaysCallable is_saved }
        ensures { (saved : ℕ → Bool) → ((b : ℕ) → (r : Bool) → F.post is_saved b r → r ≡ saved b) → self.new ≡ bufs_saved_by saved self.old }
    {
        let mut frame = 0;
        while let Some(block) = self.frame_block(frame) {
            let stays = is_saved(block);
            frame = self.settle_frame(frame, block, stays, false);
        }
    }

    /// The block of the frame at a place.
    fn frame_block(&self, index: usize) -> Option<u64>
        ensures block { result ≡ frame_block index self.now }
        ensures small { IfSome result (λ _. index < ROOM) }
        ensures idle { length self.now.idle ≤ IDLE_BLOCKS }
    {
        self.idle.is_short();
        self.busy.block_at(index)
    }

    /// The fresh block at a place.
    fn fresh_block(&self, index: usize) -> Option<u64>
        ensures block { result ≡ fresh_block index self.now }
        ensures small { IfSome result (λ _. index < ROOM) }
    {
        if index < self.fresh.len() {
            Some(self.fresh.at(index))
        } else {
            None
        }
    }

    /// The frame at a place stays or goes, where it is of this block. The place of the next one.
    #[inline(always)]
    fn settle_frame(&mut self, index: usize, block: u64, stays: bool, is_kept: bool) -> usize
        ensures frames { (busy : ℕ → Bool) → stays ≡ busy block → frames_from busy is_kept result self.new ≡ frames_from busy is_kept index self.old }
        ensures fresh { self.new.fresh ≡ self.old.fresh }
        ensures left { length self.new.frames - result ≤ length self.old.frames - index }
        ensures fewer { frame_block index self.old ≡ Some block → length self.new.frames - result < length self.old.frames - index }
    {
        if self.frame_block(index) != Some(block) {
            return index;
        }
        if stays {
            return index + 1;
        }
        self.settle_at(index, is_kept);
        index
    }

    /// The fresh mark at a place stays or goes, where it is of this block. The place of the next one.
    fn settle_mark(&mut self, index: usize, block: u64, stays: bool) -> usize
        ensures marks { (busy : ℕ → Bool) → stays ≡ busy block → fresh_from busy result self.new ≡ fresh_from busy index self.old }
        ensures frames { self.new.frames ≡ self.old.frames }
        ensures left { length self.new.fresh - result ≤ length self.old.fresh - index }
        ensures fewer { fresh_block index self.old ≡ Some block → length self.new.fresh - result < length self.old.fresh - index }
    {
        if self.fresh_block(index) != Some(block) {
            return index;
        }
        if stays {
            return index + 1;
        }
        self.drop_fresh_at(index);
        index
    }

    /// The frame at a place goes; where contents are kept, the committed one to the front of the idle list, which is cut at 64.
    #[inline(never)]
    fn settle_at(&mut self, index: usize, is_kept: bool)
        requires { index < length self.old.frames }
        ensures { IfSome (slice_get self.old.frames index) (λ e. self.new ≡ record self.old {
          frames = take index self.old.frames ++ drop (index + 1) self.old.frames;
          idle = if is_kept then take IDLE_BLOCKS (idle_entry e ∷ self.old.idle) else self.old.idle;
        }) }
    {
        let (block, frame) = self.busy.remove_at(index);
        if is_kept {
            self.idle.put(block, frame.into_committed());
        }
    }

    /// The fresh mark at a place goes.
    fn drop_fresh_at(&mut self, index: usize)
        requires { index < length self.old.fresh }
        ensures { self.new ≡ record self.old { fresh = take index self.old.fresh ++ drop (index + 1) self.old.fresh } }
    {
        self.fresh.remove_at(index);
    }
}
