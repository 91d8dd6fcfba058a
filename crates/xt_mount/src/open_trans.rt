//! An open transaction: its ticket, and what its present leg did.

ghost use Rattle.std.specs.Prelude.{◌≡◌, ◌+◌, ◌*◌, ◌<◌, ◌≤◌, ◌&&◌, ℕ, [], IfOk, IfSome, OnErr, OnOk, Some, false, is_none, is_some, length, nat_le, sum_by, true, unwrap_or};
ghost use Rattle.xt_base.specs.Calls.{edited, invalidated, legs_after, seen, without_hold};
ghost use Rattle.xt_base.specs.Chunks.{marks};
ghost use Rattle.xt_base.specs.Legs.{change_of, clean_leg, is_dirty, with_marks};
ghost use Rattle.xt_base.specs.Maps.{at, has, is_in, with_member};
ghost use Rattle.xt_base.specs.Sound.{IsRising};
ghost use Rattle.xt_base.specs.Space.{change_cost, charge, cost};
ghost use Rattle.xt_frames.specs.Contents.{contents_of};
ghost use Rattle.xt_frames.specs.Kept.{IsClean};
ghost use Rattle.xt_journal.specs.Keeping.{HaveChunks, edits_kept, leg_lost, marks_kept};
ghost use Rattle.xt_journal.specs.Over.{changes_over, leg_over};
ghost use Rattle.xt_mount.specs.Accounts.{opened_with};
ghost use Rattle.xt_mount.specs.Shown.{HasFrames, IsStep, goes_in_place, has_in_place, shown_logged};
ghost use Rattle.xt_resv.specs.Ledgers.{charged_with, is_fitting, is_no_room, regranted, ungranted};
ghost use Rattle.xt_resv.specs.Mounts.{grant_of};
ghost use Rattle.xt_vectors.specs.Edits.{own_edit};

use std::alloc::{AllocError, Global};
use std::marker::Model;
use xt_base::chunks::Chunks;
use xt_base::content::Content;
use xt_base::data_ref::DataRef;
use xt_base::form::Form;
use xt_base::names::Block;
use xt_base::newly::Newly;
use xt_base::sizes::{BLOCK_BYTES, CHUNKS, ROOM};
use xt_journal::journal::Journal;
use xt_resv::space::{LogSpace, Ticket};
use xt_trans::trans::TransRec;
use xt_vectors::edit::Edit;
use xt_vectors::vector::VectorRoom;

/// An open transaction: its ticket, which is charged what the leg's blocks and chunks are, and the leg. Like its ticket it can't be let go.
#[derive(Debug)]
pub struct OpenTrans {
    ticket: Ticket,
    leg: TransRec,
}

impl Model for OpenTrans {
    ghost use Rattle.std.specs.Prelude.{◌≡◌, sum_by};
    ghost use Rattle.xt_base.specs.Space.{change_cost};
    ghost use Rattle.xt_base.specs.State.{Transaction};

    ghost Value = { Transaction };

    ghost view = { λ t. record { unit = t.ticket.unit; legs = t.ticket.legs; perm = t.ticket.perm; leg = t.leg } };

    ghost invariant = { λ t. t.ticket.charged ≡ sum_by change_cost t.leg.changes };
}

impl OpenTrans {
    /// A transaction of a ticket and a leg, which was charged as the ticket says.
    pub fn new(ticket: Ticket, leg: TransRec) -> Self
        requires { ticket.charged ≡ sum_by change_cost leg.changes }
        ensures { result ≡ opened_with ticket leg }
    {
        OpenTrans { ticket, leg }
    }

    /// Its ticket and its leg.
    pub fn into_parts(self) -> (Ticket, TransRec)
        ensures ticket { result.0 ≡ grant_of self }
        ensures leg { result.1 ≡ self.leg }
    {
        let OpenTrans { ticket, leg } = self;
        (ticket, leg)
    }

    /// The legs left, the present one counted; 0 after a roll that was given up.
    pub fn legs(&self) -> u32
        ensures { result ≡ self.now.legs }
    {
        self.ticket.legs()
    }

    /// Whether it may roll.
    pub fn perm(&self) -> bool
        ensures { result ≡ self.now.perm }
    {
        self.ticket.perm()
    }

    /// What its present leg did.
    pub fn leg(&self) -> &TransRec
        ensures { result.now ≡ self.now.leg }
    {
        &self.leg
    }

    /// Its ticket.
    pub fn ticket(&self) -> &Ticket
        ensures { result.now ≡ grant_of self.now }
    {
        &self.ticket
    }

    /// Whether the charge would keep within the unit, were these chunks of a block changed too.
    pub fn fits_logged(&self, form: Form, block: Block, marked: Chunks) -> bool
        ensures { result ≡ nat_le (charge form.ends (edited block [] marked self.now.leg).changes) self.now.unit }
    {
        LogSpace::fits(form, &self.ticket, self.leg.newly_logged(block.0, marked))
    }

    /// Whether the charge would keep within the unit, were a block invalidated too.
    pub fn fits_invalidated(&self, form: Form, block: Block) -> bool
        ensures { result ≡ nat_le (charge form.ends (invalidated block self.now.leg).changes) self.now.unit }
    {
        LogSpace::fits(form, &self.ticket, self.leg.newly_invalidated(block.0))
    }

    // ---- bytes written
    /// Writes bytes of a block from `first` on, and marks and charges their chunks: over the leg's own bytes, if it has some; else in
    /// the block's frame, unless the leg sees zeros of it; else in a content of the leg's own. The one error is want of memory, and then
    /// nothing changes.
    pub fn log(
        &mut self,
        journal: &mut Journal,
        alloc: Global,
        block: u64,
        first: u32,
        bytes: &DataRef<'_>,
    ) -> Result<(), AllocError>
        requires few { is_in block self.old.leg.changes ≡ false → length self.old.leg.changes + length self.old.leg.holds < ROOM }
        requires fits { charge journal.old.form.ends (edited block [] (marks first (length bytes.now)) self.old.leg).changes ≤ self.old.unit }
        requires within { first + length bytes.now ≤ BLOCK_BYTES }
        requires seen { first + length bytes.now ≤ length (seen journal.old.form.size block (leg_over journal.old.frames.frames self.old.leg) (contents_of journal.old.frames)) }
        requires some { 0 < length bytes.now }
        requires framed { has_in_place block self.old.leg ≡ true → is_in block journal.old.frames.frames ≡ true }
        requires clean { has_in_place block self.old.leg ≡ false → IfSome (at block journal.old.frames.frames) IsClean }
        ensures ok { OnOk result (IsStep block (shown_logged block first bytes.now journal.old self.old.leg) journal.new journal.old self.new self.old) }
        ensures trans { OnErr result (self.new ≡ self.old) }
        ensures journal { OnErr result (journal.new ≡ journal.old) }
    {
        if self.has_own(block) {
            self.log_over(journal, block, first, bytes);
            return Ok(());
        }
        if self.goes_in_place(journal, block) {
            return self.log_in_place(journal, alloc, block, first, bytes);
        }
        self.log_own(journal, alloc, block, first, bytes)
    }

    /// Whether the leg has bytes of its own of a block.
    fn has_own(&self, block: u64) -> bool
        ensures { result ≡ is_some (own_edit (change_of block self.now.leg).edit) }
    {
        self.leg.edit(block).is_some()
    }

    /// Whether bytes that the leg writes of a block, of which it has none of its own, go into the block's frame.
    fn goes_in_place(&self, journal: &Journal, block: u64) -> bool
        ensures { result ≡ goes_in_place block self.now.leg journal.now.frames }
    {
        let frames = journal.frames();
        let leg = &self.leg;
        frames.frame(block).is_some()
            && (leg.is_in_place(block) || !(frames.is_fresh(block) || leg.is_stale(block)))
    }

    /// Writes bytes over the leg's own bytes of a block. It takes no memory.
    fn log_over(&mut self, journal: &Journal, block: u64, first: u32, bytes: &DataRef<'_>)
        requires own { is_some (own_edit (change_of block self.old.leg).edit) ≡ true }
        requires fits { charge journal.now.form.ends (edited block [] (marks first (length bytes.now)) self.old.leg).changes ≤ self.old.unit }
        requires within { first + length bytes.now ≤ length (unwrap_or (change_of block self.old.leg).edit []) }
        requires room { first + length bytes.now ≤ BLOCK_BYTES }
        requires some { 0 < length bytes.now }
        requires clean { has_in_place block self.old.leg ≡ false → IfSome (at block journal.now.frames.frames) IsClean }
        ensures { IsStep block (shown_logged block first bytes.now journal.now self.old.leg) journal.now journal.now self.new self.old }
    {
        let marked = Chunks::mark(first, bytes.len() as u32);
        self.leg.changes_rise();
        pay_logged(journal.form(), &mut self.ticket, &self.leg, block, marked);
        self.leg.write(block, first as usize, bytes, marked);
    }

    /// Writes bytes of a block in its frame. The one error is want of memory, and then nothing changes.
    fn log_in_place(
        &mut self,
        journal: &mut Journal,
        alloc: Global,
        block: u64,
        first: u32,
        bytes: &DataRef<'_>,
    ) -> Result<(), AllocError>
        requires none { is_some (own_edit (change_of block self.old.leg).edit) ≡ false }
        requires goes { goes_in_place block self.old.leg journal.old.frames ≡ true }
        requires few { is_in block self.old.leg.changes ≡ false → length self.old.leg.changes + length self.old.leg.holds < ROOM }
        requires fits { charge journal.old.form.ends (edited block [] (marks first (length bytes.now)) self.old.leg).changes ≤ self.old.unit }
        requires within { IfSome (at block journal.old.frames.frames) (λ f. first + length bytes.now ≤ length f.edit) }
        requires room { first + length bytes.now ≤ BLOCK_BYTES }
        requires some { 0 < length bytes.now }
        requires clean { has_in_place block self.old.leg ≡ false → IfSome (at block journal.old.frames.frames) IsClean }
        ensures ok { OnOk result (IsStep block (shown_logged block first bytes.now journal.old self.old.leg) journal.new journal.old self.new self.old) }
        ensures trans { OnErr result (self.new ≡ self.old) }
        ensures journal { OnErr result (journal.new ≡ journal.old) }
    {
        let room = self.room_of(journal, alloc, block)?;
        self.changes_rise();
        journal.frames().frames_rise();
        journal.log_in_place(alloc, block, first, bytes)?;
        let marked = Chunks::mark(first, bytes.len() as u32);
        self.mark(journal.form(), block, room, marked);
        Ok(())
    }

    /// Room for the log vector of a block that is to be changed in place; none where the block has it. The one error is want of memory.
    fn room_of(
        &self,
        journal: &mut Journal,
        alloc: Global,
        block: u64,
    ) -> Result<Option<VectorRoom>, AllocError>
        ensures room { IfOk result (λ room. is_none room ≡ true → has_in_place block self.now.leg ≡ true) }
        ensures journal { journal.new ≡ journal.old }
    {
        if self.leg.is_in_place(block) {
            return Ok(None);
        }
        let room = VectorRoom::or_new(journal.take_room(), alloc)?;
        Ok(Some(room))
    }

    /// Chunks of a block that is changed in place are marked and charged, with this room, or that which the block has. It takes no memory.
    fn mark(&mut self, form: Form, block: u64, room: Option<VectorRoom>, marked: Chunks)
        requires room { is_none room ≡ true → has_in_place block self.old.leg ≡ true }
        requires few { is_in block self.old.leg.changes ≡ false → length self.old.leg.changes + length self.old.leg.holds < ROOM }
        requires fits { charge form.ends (edited block [] marked self.old.leg).changes ≤ self.old.unit }
        ensures { self.new ≡ record self.old { leg = edited block [] marked self.old.leg } }
    {
        match room {
            Some(room) => self.keep_edit(form, block, Edit::in_place(room), marked),
            None => self.mark_more(form, block, marked),
        }
    }

    /// More chunks of a block that is changed in place are marked and charged. It takes no memory.
    fn mark_more(&mut self, form: Form, block: u64, marked: Chunks)
        requires there { has_in_place block self.old.leg ≡ true }
        requires fits { charge form.ends (edited block [] marked self.old.leg).changes ≤ self.old.unit }
        ensures { self.new ≡ record self.old { leg = edited block [] marked self.old.leg } }
    {
        pay_logged(form, &mut self.ticket, &self.leg, block, marked);
        self.leg.mark(block, marked);
    }

    /// Writes bytes of a block of which the leg sees zeros in a content of the leg's own. The one error is want of memory, and then
    /// nothing changes.
    fn log_own(
        &mut self,
        journal: &mut Journal,
        alloc: Global,
        block: u64,
        first: u32,
        bytes: &DataRef<'_>,
    ) -> Result<(), AllocError>
        requires none { is_some (own_edit (change_of block self.old.leg).edit) ≡ false }
        requires goes { goes_in_place block self.old.leg journal.old.frames ≡ false }
        requires few { is_in block self.old.leg.changes ≡ false → length self.old.leg.changes + length self.old.leg.holds < ROOM }
        requires fits { charge journal.old.form.ends (edited block [] (marks first (length bytes.now)) self.old.leg).changes ≤ self.old.unit }
        requires room { first + length bytes.now ≤ BLOCK_BYTES }
        requires within { first + length bytes.now ≤ journal.old.form.size }
        requires some { 0 < length bytes.now }
        requires framed { has_in_place block self.old.leg ≡ true → is_in block journal.old.frames.frames ≡ true }
        requires clean { has_in_place block self.old.leg ≡ false → IfSome (at block journal.old.frames.frames) IsClean }
        ensures ok { OnOk result (IsStep block (shown_logged block first bytes.now journal.old self.old.leg) journal.new journal.old self.new self.old) }
        ensures trans { OnErr result (self.new ≡ self.old) }
        ensures journal { OnErr result (journal.new ≡ journal.old) }
    {
        let mut content = Content::zeros(alloc, journal.form())?;
        let room = VectorRoom::or_new(journal.take_room(), alloc)?;
        content.write_data(first as usize, bytes);
        let marked = Chunks::mark(first, bytes.len() as u32);
        self.changes_rise();
        self.keep_edit(journal.form(), block, Edit::own(content, room), marked);
        Ok(())
    }

    /// The blocks that the leg changed or invalidated rise: for a proof, at run time nothing.
    fn changes_rise(&self)
        ensures { IsRising self.now.leg.changes }
    {
        self.leg.changes_rise();
    }

    /// A block has these bytes in the leg, and these chunks are marked and charged too. It takes no memory.
    #[inline(always)]
    fn keep_edit(&mut self, form: Form, block: u64, edit: Edit, marked: Chunks)
        requires few { is_in block self.old.leg.changes ≡ false → length self.old.leg.changes + length self.old.leg.holds < ROOM }
        requires fits { charge form.ends (edited block [] marked self.old.leg).changes ≤ self.old.unit }
        ensures { self.new ≡ record self.old { leg = edited block edit marked self.old.leg } }
    {
        pay_logged(form, &mut self.ticket, &self.leg, block, marked);
        self.leg.log(block, edit, marked);
    }

    // ---- other changes of the leg
    /// The leg invalidates a block: what it changed of it in place is put back. It takes no memory.
    pub fn inval(&mut self, journal: &mut Journal, block: u64)
        requires few { is_in block self.old.leg.changes ≡ false → length self.old.leg.changes + length self.old.leg.holds < ROOM }
        requires fits { charge journal.old.form.ends (invalidated block self.old.leg).changes ≤ self.old.unit }
        ensures { IsStep block (invalidated block (leg_over journal.old.frames.frames self.old.leg)) journal.new journal.old self.new self.old }
    {
        journal.frames().frames_rise();
        journal.undo(block);
        self.changes_rise();
        self.mark_stale(journal.form(), block);
    }

    /// The leg invalidates a block that it did not change in place, or of which that was put back. It takes no memory.
    fn mark_stale(&mut self, form: Form, block: u64)
        requires few { is_in block self.old.leg.changes ≡ false → length self.old.leg.changes + length self.old.leg.holds < ROOM }
        requires fits { charge form.ends (invalidated block self.old.leg).changes ≤ self.old.unit }
        ensures { self.new ≡ record self.old { leg = invalidated block self.old.leg } }
    {
        let newly = self.leg.newly_invalidated(block);
        pay(form, &mut self.ticket, newly);
        self.leg.inval(block);
    }

    /// A block stays locked when the leg ends.
    pub fn hold(&mut self, block: u64)
        requires { has self.old.leg.holds block ≡ false → length self.old.leg.changes + length self.old.leg.holds < ROOM }
        ensures { self.new ≡ record self.old { leg = record self.old.leg { holds = with_member block self.old.leg.holds } } }
    {
        self.leg.hold(block);
    }

    /// The hold mark of a block goes.
    pub fn unhold(&mut self, block: u64)
        ensures { self.new ≡ record self.old { leg = without_hold block self.old.leg } }
    {
        self.leg.unhold(block);
    }

    /// The leg is committed, and the next one begins. It takes no memory.
    pub fn roll(&mut self, journal: &mut Journal, space: &mut LogSpace)
        requires framed { HasFrames journal.old.frames.frames self.old.leg }
        requires frames { length journal.old.frames.frames + length self.old.leg.changes ≤ ROOM }
        requires cil { length journal.old.lists.cil + length self.old.leg.changes ≤ ROOM }
        requires chunks { HaveChunks journal.old.lists.cil (changes_over journal.old.frames.frames self.old.leg.changes) }
        requires granted { self.old.unit * self.old.legs ≤ space.old.granted }
        requires legs { 1 ≤ self.old.legs }
        requires paid { cost journal.old.form.ends (with_marks self.old.leg.changes journal.old.lists.cil) ≤ space.old.cil + self.old.unit }
        requires room { is_no_room (grant_of self.old) (cost journal.old.form.ends (with_marks self.old.leg.changes journal.old.lists.cil)) space.old ≡ false }
        ensures trans { self.new ≡ record self.old { legs = legs_after self.old.legs; leg = clean_leg } }
        ensures lists { journal.new.lists ≡ marks_kept (changes_over journal.old.frames.frames self.old.leg.changes) journal.old.lists }
        ensures contents { contents_of journal.new.frames ≡ edits_kept (changes_over journal.old.frames.frames self.old.leg.changes) (contents_of journal.old.frames) }
        ensures others { (b : ℕ) → is_in b self.old.leg.changes ≡ false → at b journal.new.frames.frames ≡ at b journal.old.frames.frames }
        ensures clean { (b : ℕ) → is_in b self.old.leg.changes ≡ true → IfSome (at b journal.new.frames.frames) IsClean }
        ensures rest { journal.new ≡ record journal.old { lists = journal.new.lists; frames = journal.new.frames } }
        ensures space { space.new ≡ regranted (grant_of self.old) (cost journal.old.form.ends (with_marks self.old.leg.changes journal.old.lists.cil)) space.old }
    {
        self.leg.changes_rise();
        journal.keep_changes(&mut self.leg);
        self.leg.next_leg();
        match space.next_leg(&mut self.ticket, journal.cil_cost()) {
            Ok(()) => {}
            Err(_) => unreachable!(),
        }
    }

    /// The leg is given up, on a live mount only a clean one, and no leg is left. It takes no memory.
    pub fn give_up(&mut self, journal: &mut Journal, space: &mut LogSpace)
        requires kept { (is_dirty self.old.leg && is_none journal.old.shut) ≡ false }
        requires fresh { length journal.old.frames.fresh + length self.old.leg.changes ≤ ROOM }
        requires granted { self.old.unit * self.old.legs ≤ space.old.granted }
        ensures trans { self.new ≡ record self.old { legs = 0; leg = clean_leg } }
        ensures contents { contents_of journal.new.frames ≡ leg_lost self.old.leg (contents_of journal.old.frames) }
        ensures others { (b : ℕ) → is_in b self.old.leg.changes ≡ false → at b journal.new.frames.frames ≡ at b journal.old.frames.frames }
        ensures clean { (b : ℕ) → is_in b self.old.leg.changes ≡ true → IfSome (at b journal.new.frames.frames) IsClean }
        ensures rest { journal.new ≡ record journal.old { frames = journal.new.frames } }
        ensures space { space.new ≡ ungranted (grant_of self.old) space.old.cil space.old }
    {
        journal.lose_leg(&mut self.leg);
        self.leg.next_leg();
        space.give_up(&mut self.ticket);
    }
}

/// Charges a ticket, whose unit has the room, these chunks of a block of a leg.
#[inline(always)]
fn pay_logged(form: Form, ticket: &mut Ticket, leg: &TransRec, block: u64, marked: Chunks)
    requires charged { ticket.old.charged ≡ sum_by change_cost leg.now.changes }
    requires fits { charge form.ends (edited block [] marked leg.now).changes ≤ ticket.old.unit }
    ensures { ticket.new ≡ record ticket.old { charged = sum_by change_cost (edited block [] marked leg.now).changes } }
{
    let newly = leg.newly_logged(block, marked);
    pay(form, ticket, newly);
}

/// Charges a ticket, whose unit has the room.
fn pay(form: Form, ticket: &mut Ticket, newly: Newly)
    requires blocks { newly.blocks ≤ 1 }
    requires chunks { newly.chunks ≤ CHUNKS }
    requires fits { is_fitting form.ends newly ticket.old ≡ true }
    ensures { ticket.new ≡ record ticket.old { charged = charged_with newly ticket.old.charged } }
{
    match LogSpace::charge(form, ticket, newly) {
        Ok(()) => {}
        Err(_) => unreachable!(),
    }
}
