//! A leg is given up: what it changed is as it was, and what it changed and holds is held as fresh.

ghost use Rattle.std.specs.Prelude.{ℕ, ◌≡◌, ◌+◌, ◌≤◌, ◌<◌, ◌&&◌, IfSome, false, is_none, length, true};
ghost use Rattle.xt_base.specs.Legs.{is_dirty};
ghost use Rattle.xt_base.specs.Maps.{at, is_in};
ghost use Rattle.xt_frames.specs.Contents.{contents_of};
ghost use Rattle.xt_frames.specs.Kept.{IsClean};
ghost use Rattle.xt_frames.specs.Settling.{bufs_saved_by};
ghost use Rattle.xt_journal.specs.Keeping.{change_lost, changes_lost, is_saved, leg_lost};

use crate::journal::Journal;
use xt_base::sizes::ROOM;
use xt_frames::frames::Frames;
use xt_trans::trans::{Change, TransRec};

impl Journal {
    /// A leg is given up, on a live mount only a clean one: what it changed in place is as it was, and what it changed and holds is held
    /// as fresh, with no content. It takes no memory.
    pub fn lose_leg(&mut self, leg: &mut TransRec)
        requires kept { (is_dirty leg.old && is_none self.old.shut) ≡ false }
        requires room { length self.old.frames.fresh + length leg.old.changes ≤ ROOM }
        ensures contents { contents_of self.new.frames ≡ leg_lost leg.old (contents_of self.old.frames) }
        ensures others { (b : ℕ) → is_in b leg.old.changes ≡ false → at b self.new.frames.frames ≡ at b self.old.frames.frames }
        ensures clean { (b : ℕ) → is_in b leg.old.changes ≡ true → IfSome (at b self.new.frames.frames) IsClean }
        ensures rest { self.new ≡ record self.old { frames = self.new.frames } }
    {
        self.frames.frames_rise();
        lose_contents(&mut self.frames, leg);
        lose_changes(&mut self.frames, leg);
    }
}

/// Whether a block keeps its content where a leg is given up.
fn is_saved(leg: &TransRec, block: u64) -> bool
    ensures { result ≡ is_saved leg.now block }
{
    !(leg.is_changed(block) && leg.is_held(block))
}

/// Frames of blocks that a leg changed and holds go, where it is given up.
fn lose_contents(frames: &mut Frames, leg: &TransRec)
    ensures { frames.new ≡ bufs_saved_by (is_saved leg.now) frames.old }
{
    frames.forget(|block| is_saved(leg, block));
}

/// What a leg changed in place is as it was, and blocks that it changed and holds are fresh, where it is given up. It takes no memory.
fn lose_changes(frames: &mut Frames, leg: &mut TransRec)
    requires { length frames.old.fresh + length leg.old.changes ≤ ROOM }
    ensures { frames.new ≡ changes_lost leg.old.changes leg.old.holds frames.old }
{
    while let Some((block, change)) = leg.take_change() {
        lose_change(frames, leg, block, change);
    }
}

/// The same for one block.
fn lose_change(frames: &mut Frames, leg: &TransRec, block: u64, change: Change)
    requires { length frames.old.fresh < ROOM }
    ensures frames { frames.new ≡ change_lost leg.now.holds block frames.old }
    ensures count { length frames.new.fresh ≤ length frames.old.fresh + 1 }
{
    let _lost = change;
    frames.undo(block);
    if leg.is_held(block) {
        frames.make_fresh(block);
    }
}
