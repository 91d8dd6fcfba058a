//! The journal of a mount: item lists and contents in one hand, since what is written to the log is of both.

ghost use Rattle.std.specs.Bool.{OnFalse, OnTrue};
ghost use Rattle.std.specs.Prelude.{◌≡◌, ◌+◌, ◌*◌, ◌<◌, ◌≤◌, [], Some, None, filter, is_none, is_some, length, not, true, IfErr, IfOk, IfSome, OnErr, OnOk, false};
ghost use Rattle.xt_base.specs.Calls.{shut_for};
ghost use Rattle.xt_base.specs.Jobs.{activated, fits_plan, gone};
ghost use Rattle.xt_base.specs.Maps.{at, has, is_in, put, without, without_member};
ghost use Rattle.xt_base.specs.Space.{cost, flight_items};
ghost use Rattle.xt_frames.specs.Busy.{changed_in, committed_of};
ghost use Rattle.xt_frames.specs.Contents.{bufs_brought_in};
ghost use Rattle.xt_frames.specs.Kept.{clean_of, logged, undone};
ghost use Rattle.xt_frames.specs.Shares.{no_contents};
ghost use Rattle.xt_journal.specs.Journals.{no_journal, with_frames};
ghost use Rattle.xt_vectors.specs.Vectors.{vectors_of};

use bytes::Bytes;
use std::alloc::{AllocError, Global};
use std::marker::Model;
use xt_base::chunks::Chunks;
use xt_base::content::Content;
use xt_base::data_ref::DataRef;
use xt_base::form::Form;
use xt_base::map::NumberMap;
use xt_base::names::Slot;
use xt_base::sizes::{CHUNK_COST, CHUNKS, ITEM_COST, MOST_ENDS, ROOM};
use xt_base::steps::{HomeAnswers, Reason};
use xt_frames::frames::Frames;
use xt_frames::share::FrameShare;
use xt_items::items::Items;
use xt_items::plan::FlushPlan;
use xt_vectors::vector::{LogVector, VectorRoom};

/// The item lists of a mount beside the frames that they are of, and why the mount is shut, if it is. Clauses see all four parts.
/// On a live mount each log vector of the commit list has the committed bytes of its item's chunks.
#[derive(Debug, Drop)]
pub struct Journal {
    pub(crate) items: Items,
    pub(crate) frames: Frames,
    pub(crate) shut: Option<Reason>,
    form: Form,
}

impl Model for Journal {
    ghost use Rattle.xt_journal.specs.Journals.{JournalState};

    ghost Value = { JournalState };

    ghost use Rattle.xt_frames.specs.Contents.{contents_of};
    ghost use Rattle.xt_journal.specs.Journals.{AreVectors};

    ghost view = { λ j. record { form = j.form; lists = j.items; frames = j.frames; shut = j.shut } };

    ghost invariant = { λ j. AreVectors j.form.size j.items (contents_of j.frames) j.shut };
}

impl Journal {
    /// The journal of a new mount of a form, in the frames of a share that has no contents. Where memory is refused the share is
    /// handed back.
    pub fn over(alloc: Global, form: Form, share: FrameShare) -> Result<Self, FrameShare>
        requires { share ≡ no_contents share.slot }
        ensures ok { IfOk result (λ journal. journal ≡ no_journal form) }
        ensures back { IfErr result (λ back. back ≡ share) }
    {
        let Ok(items) = Items::new(alloc) else {
            return Err(share);
        };
        match Frames::over(alloc, share) {
            Ok(frames) => Ok(Journal {
                items,
                frames,
                shut: None,
                form,
            }),
            Err(share) => Err(share),
        }
    }

    /// The frames go back into a share of their slot, without contents. It takes no memory.
    pub fn into_share(self, slot: Slot) -> FrameShare
        ensures { result ≡ no_contents slot }
    {
        let Journal { frames, .. } = self;
        frames.into_share(slot)
    }

    // ---- what it has
    /// The form of the mount.
    pub fn form(&self) -> Form
        ensures { result ≡ self.now.form }
    {
        self.form
    }

    /// The item lists.
    pub fn items(&self) -> &Items
        ensures { result.now ≡ self.now.lists }
    {
        &self.items
    }

    /// The cost of the commit list in bytes: the length of its checkpoint text, 0 where it is empty.
    pub fn cil_cost(&self) -> u64
        ensures value { result ≡ cost self.now.form.ends self.now.lists.cil }
        ensures range { result ≤ MOST_ENDS + ROOM * (ITEM_COST + CHUNK_COST * CHUNKS) }
    {
        self.items.cil_cost(self.form)
    }

    /// The log vectors of the commit list of a live mount: what a checkpoint of it is written from.
    pub fn vectors(&self) -> &[(u64, LogVector)]
        requires { is_none self.now.shut ≡ true }
        ensures { result.now ≡ vectors_of self.now.form.size (committed_of self.now.frames.frames) self.now.lists.cil }
    {
        self.items.vectors()
    }

    /// The frames, fresh marks and idle contents.
    pub fn frames(&self) -> &Frames
        ensures { result.now ≡ self.now.frames }
    {
        &self.frames
    }

    /// Why the mount is shut, if it is.
    pub fn shut(&self) -> Option<Reason>
        ensures { result ≡ self.now.shut }
    {
        self.shut
    }

    /// Shuts the mount, for this reason if it was live.
    pub fn shut_down(&mut self, reason: Reason)
        ensures { self.new ≡ record self.old { shut = shut_for reason self.old.shut } }
    {
        if self.shut.is_none() {
            self.shut = Some(reason);
        }
    }

    // ---- contents
    /// A block becomes busy, on a live mount one that is not listed: with its idle content, or fresh. It takes no memory.
    pub fn bring(&mut self, block: u64)
        requires unlisted { is_none self.old.shut ≡ true → is_in block self.old.lists.cil ≡ false }
        requires frames { length self.old.frames.frames < ROOM }
        requires fresh { length self.old.frames.fresh < ROOM }
        ensures { self.new ≡ record self.old { frames = bufs_brought_in block (at block self.old.frames.idle) self.old.frames } }
    {
        self.frames.bring(block);
    }

    /// An idle block becomes busy, on a live mount one that is not listed, with its content; one that is not idle is left as it is.
    /// Whether it was idle. It takes no memory.
    pub fn bring_idle(&mut self, block: u64) -> bool
        requires unlisted { is_none self.old.shut ≡ true → is_in block self.old.lists.cil ≡ false }
        requires frames { length self.old.frames.frames < ROOM }
        ensures there { result ≡ is_in block self.old.frames.idle }
        ensures brought { OnTrue result (self.new ≡ record self.old { frames = bufs_brought_in block (at block self.old.frames.idle) self.old.frames }) }
        ensures kept { OnFalse result (self.new ≡ self.old) }
    {
        self.frames.bring_idle(block)
    }

    /// A block becomes busy, on a live mount one that is not listed, with this content. It takes no memory.
    pub fn bring_content(&mut self, block: u64, content: Content)
        requires unlisted { is_none self.old.shut ≡ true → is_in block self.old.lists.cil ≡ false }
        requires room { length self.old.frames.frames < ROOM }
        ensures { self.new ≡ record self.old { frames = record self.old.frames { frames = put block (clean_of content) self.old.frames.frames; idle = without block self.old.frames.idle } } }
    {
        self.frames.bring_content(block, content);
    }

    /// A block is fresh no more.
    pub fn leave_fresh(&mut self, block: u64)
        ensures { self.new ≡ record self.old { frames = record self.old.frames { fresh = without_member block self.old.frames.fresh } } }
    {
        self.frames.leave_fresh(block);
    }

    /// A leg writes bytes of a block that has a frame, in place, within its content: what is committed stays. The one error is want of
    /// memory for the first chunk that is kept of it, and then nothing changes.
    pub fn log_in_place(
        &mut self,
        alloc: Global,
        block: u64,
        first: u32,
        bytes: &DataRef<'_>,
    ) -> Result<(), AllocError>
        requires there { is_in block self.old.frames.frames ≡ true }
        requires within { IfSome (at block self.old.frames.frames) (λ f. first + length bytes.now ≤ length f.edit) }
        requires some { 0 < length bytes.now }
        ensures ok { OnOk result (self.new ≡ with_frames (changed_in (logged first bytes.now) block self.old.frames.frames) self.old) }
        ensures err { OnErr result (self.new ≡ self.old) }
    {
        self.frames.frames_rise();
        self.frames.log(alloc, block, first, bytes)
    }

    /// What a leg changed of a block in place is put back, if it has a frame: what is committed stays. It takes no memory.
    pub fn undo(&mut self, block: u64)
        ensures { self.new ≡ with_frames (changed_in undone block self.old.frames.frames) self.old }
    {
        self.frames.frames_rise();
        self.frames.undo(block);
    }

    /// The room of a log vector that was replaced, if there is one: a later one may take its place.
    pub fn take_room(&mut self) -> Option<VectorRoom>
        ensures { self.new ≡ self.old }
    {
        self.items.take_room()
    }

    // ---- item lists
    /// An empty list for the next `fly`. The one error is want of memory.
    pub fn next_list(&mut self, alloc: Global) -> Result<NumberMap<Chunks>, AllocError>
        ensures list { IfOk result (λ list. list ≡ []) }
        ensures lists { self.new ≡ self.old }
    {
        self.items.next_list(alloc)
    }

    /// The committed items become the flight, with these pieces; `next`, an empty list, takes their place under the next number.
    /// It takes no memory.
    pub fn fly(&mut self, next: NumberMap<Chunks>, pieces: Vec<Bytes>)
        requires next { next ≡ [] }
        requires number { self.old.lists.open_number < 18446744073709551615 }
        ensures { self.new ≡ record self.old {
          lists = record self.old.lists {
            open_number = self.old.lists.open_number + 1;
            cil = [];
            vectors = [];
            flight = Some (record { number = self.old.lists.open_number; items = self.old.lists.cil; pieces = pieces.items });
          };
        } }
    {
        self.items.fly(next, pieces);
    }

    /// The flight has landed: cancelled blocks leave the active list, and each other block goes there with the flight's
    /// number unless it is there. It takes no memory.
    pub fn land(&mut self)
        requires flying { is_some self.old.lists.flight ≡ true }
        requires room { length self.old.lists.ail + length (flight_items self.old.lists.flight) ≤ ROOM }
        ensures { IfSome self.old.lists.flight (λ f. self.new ≡ record self.old { lists = record self.old.lists { flight = None; ail = activated f.number f.items self.old.lists.ail } }) }
    {
        self.items.land();
    }

    /// The flight is given up.
    pub fn fail(&mut self)
        ensures { self.new ≡ record self.old { lists = record self.old.lists { flight = None } } }
    {
        self.items.fail();
    }

    /// A flush of this plan was answered so: where the sync was Ok, the blocks whose write was Ok leave the active list.
    /// How many they are. It takes no memory.
    pub fn flush_done(&mut self, plan: &FlushPlan, answers: &HomeAnswers) -> u32
        requires { fits_plan answers.now plan.now ≡ true }
        ensures count { result ≡ length (gone plan.now answers.now) }
        ensures lists { self.new ≡ record self.old { lists = record self.old.lists { ail = filter (λ e. not (has (gone plan.now answers.now) e.0)) self.old.lists.ail } } }
    {
        self.items.flush_done(plan, answers)
    }
}
