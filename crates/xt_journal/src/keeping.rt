//! A leg is committed: its edits are the committed contents, and its marks stand on the commit list, with the log vectors that they make.

ghost use Rattle.std.specs.Prelude.{ℕ, ◌≡◌, ◌+◌, ◌≤◌, ◌<◌, [], IfSome, false, length, true, unwrap_or};
ghost use Rattle.xt_base.specs.Chunks.{union};
ghost use Rattle.xt_base.specs.Maps.{at, is_in, put, without};
ghost use Rattle.xt_base.specs.Sized.{IsWithin};
ghost use Rattle.xt_base.specs.Sound.{IsRising};
ghost use Rattle.xt_frames.specs.Busy.{changed_in};
ghost use Rattle.xt_frames.specs.Contents.{contents_of};
ghost use Rattle.xt_frames.specs.Kept.{IsClean, clean_of, committed_now};
ghost use Rattle.xt_items.specs.Lists.{marked};
ghost use Rattle.xt_journal.specs.Keeping.{AreFramed, HasChunks, HaveChunks, change_kept, changes_kept, edits_kept, marks_kept};
ghost use Rattle.xt_journal.specs.Over.{changes_over, frame_bytes, shown_over};
ghost use Rattle.xt_vectors.specs.Edits.{is_in_place};
ghost use Rattle.xt_vectors.specs.Vectors.{no_vector};

use crate::journal::Journal;
use xt_base::chunks::Chunks;
use xt_base::content::Content;
use xt_base::sizes::ROOM;
use xt_trans::trans::{Change, TransRec};
use xt_vectors::vector::VectorRoom;

impl Journal {
    /// The edits of a leg, with the bytes of a block's frame where it was changed in place, are committed, and its marks joined to the
    /// commit list; the log vector of each changed block has the committed bytes of all chunks of its item. It takes no memory.
    pub fn keep_changes(&mut self, leg: &mut TransRec)
        requires framed { AreFramed self.old.frames.frames leg.old.changes }
        requires frames { length self.old.frames.frames + length leg.old.changes ≤ ROOM }
        requires cil { length self.old.lists.cil + length leg.old.changes ≤ ROOM }
        requires chunks { HaveChunks self.old.lists.cil (changes_over self.old.frames.frames leg.old.changes) }
        ensures lists { self.new.lists ≡ marks_kept (changes_over self.old.frames.frames leg.old.changes) self.old.lists }
        ensures contents { contents_of self.new.frames ≡ edits_kept (changes_over self.old.frames.frames leg.old.changes) (contents_of self.old.frames) }
        ensures others { (b : ℕ) → is_in b leg.old.changes ≡ false → at b self.new.frames.frames ≡ at b self.old.frames.frames }
        ensures clean { (b : ℕ) → is_in b leg.old.changes ≡ true → IfSome (at b self.new.frames.frames) IsClean }
        ensures rest { self.new ≡ record self.old { lists = self.new.lists; frames = self.new.frames } }
    {
        leg.changes_rise();
        self.frames.frames_rise();
        self.keep_each(leg);
    }

    /// The same, one change after another.
    fn keep_each(&mut self, leg: &mut TransRec)
        requires framed { AreFramed self.old.frames.frames leg.old.changes }
        requires rising { IsRising leg.old.changes }
        requires frames { length self.old.frames.frames + length leg.old.changes ≤ ROOM }
        requires cil { length self.old.lists.cil + length leg.old.changes ≤ ROOM }
        requires chunks { HaveChunks self.old.lists.cil (changes_over self.old.frames.frames leg.old.changes) }
        ensures { self.new ≡ changes_kept leg.old.changes self.old }
    {
        while let Some((block, change)) = leg.take_change() {
            self.keep_change(block, change);
        }
    }

    /// The same for one block.
    fn keep_change(&mut self, block: u64, change: Change)
        requires framed { is_in_place change.edit ≡ true → is_in block self.old.frames.frames ≡ true }
        requires frames { length self.old.frames.frames < ROOM }
        requires cil { length self.old.lists.cil < ROOM }
        requires chunks { HasChunks (at block self.old.lists.cil) (shown_over self.old.frames.frames block change) }
        ensures { self.new ≡ change_kept block change self.old }
    {
        let Change {
            edit,
            marks,
            charged: _,
        } = change;
        match edit {
            Some(edit) => {
                let (content, room) = edit.into_parts();
                match content {
                    Some(content) => self.keep_own(block, marks, content, room),
                    None => self.keep_in_place(block, marks, room),
                }
            }
            None => self.keep_cancelled(block),
        }
    }

    /// Bytes of a leg's own are committed.
    fn keep_own(&mut self, block: u64, marks: Chunks, content: Content, room: VectorRoom)
        requires frames { length self.old.frames.frames < ROOM }
        requires cil { length self.old.lists.cil < ROOM }
        requires chunks { IsWithin (length content) (union (unwrap_or (at block self.old.lists.cil) []) marks) }
        ensures { self.new ≡ record self.old {
          lists = marked block (union (unwrap_or (at block self.old.lists.cil) []) marks) content self.old.lists;
          frames = record self.old.frames { frames = put block (clean_of content) self.old.frames.frames };
        } }
    {
        let _cil = self.items.cil();
        self.items.mark(block, marks, &content, room);
        self.frames.commit(block, content);
    }

    /// What was changed in place is committed.
    fn keep_in_place(&mut self, block: u64, marks: Chunks, room: VectorRoom)
        requires there { is_in block self.old.frames.frames ≡ true }
        requires cil { length self.old.lists.cil < ROOM }
        requires chunks { IsWithin (length (frame_bytes (at block self.old.frames.frames))) (union (unwrap_or (at block self.old.lists.cil) []) marks) }
        ensures { self.new ≡ record self.old {
          lists = marked block (union (unwrap_or (at block self.old.lists.cil) []) marks) (frame_bytes (at block self.old.frames.frames)) self.old.lists;
          frames = record self.old.frames { frames = changed_in committed_now block self.old.frames.frames };
        } }
    {
        let _cil = self.items.cil();
        match self.frames.frame(block) {
            Some(frame) => {
                self.items.mark(block, marks, frame.content(), room);
            }
            None => unreachable!(),
        }
        self.frames.keep(block);
    }

    /// An invalidated block has no content any more, and its item cancels it.
    fn keep_cancelled(&mut self, block: u64)
        requires { length self.old.lists.cil < ROOM }
        ensures { self.new ≡ record self.old {
          lists = record self.old.lists { cil = put block [] self.old.lists.cil; vectors = put block no_vector self.old.lists.vectors };
          frames = record self.old.frames { frames = without block self.old.frames.frames };
        } }
    {
        let _cil = self.items.cil();
        self.frames.uncommit(block);
        self.items.cancel(block);
    }
}
