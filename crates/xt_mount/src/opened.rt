//! What is shown of an open transaction, and of its present leg.

ghost use Rattle.std.specs.Prelude.{◌≡◌, ◌<◌, ◌≤◌, [], IfOk, OnErr, Some, false, is_none, length, map, nat_le};
ghost use Rattle.xt_base.specs.Calls.{edited, held_of, invalidated};
ghost use Rattle.xt_base.specs.Legs.{change_of, is_dirty, is_stale, with_marks};
ghost use Rattle.xt_base.specs.Maps.{has, is_in};
ghost use Rattle.xt_base.specs.Sound.{Each, IsRising};
ghost use Rattle.xt_base.specs.Space.{charge, cost};
ghost use Rattle.xt_journal.specs.Over.{edit_over, trans_over};
ghost use Rattle.xt_mount.specs.Shown.{HasFrames, IsMarked, change_shown, has_in_place};
ghost use Rattle.xt_resv.specs.Mounts.{grant_of};

use crate::open_trans::OpenTrans;
use std::alloc::{AllocError, Global};
use std::marker::Model;
use xt_base::chunks::Chunks;
use xt_base::content::{Content, HeldBlocks};
use xt_base::form::Form;
use xt_base::map::NumberMap;
use xt_base::names::Block;
use xt_base::sizes::BUSY_BLOCKS;
use xt_frames::frames::Frames;
use xt_resv::space::Ticket;
use xt_trans::trans::{ChangeMarks, ChangeState, TransRec};

/// An open transaction, as its accounts show it. Clauses see the transaction.
#[derive(Debug, Drop)]
pub struct Opened<'a> {
    trans: &'a OpenTrans,
    frames: &'a Frames,
}

impl<'a> Model for Opened<'a> {
    ghost use Rattle.xt_base.specs.State.{Transaction};

    ghost Value = { Transaction };

    ghost use Rattle.xt_journal.specs.Over.{trans_over};
    ghost use Rattle.xt_mount.specs.Shown.{HasFrames};

    ghost view = { λ o. trans_over o.frames.now.frames o.trans.now };

    ghost invariant = { λ o. HasFrames o.frames.now.frames o.trans.now.leg };
}

impl<'a> Opened<'a> {
    /// This transaction, over the frames in which it changes blocks in place.
    pub fn new(trans: &'a OpenTrans, frames: &'a Frames) -> Self
        requires { HasFrames frames.now.frames trans.now.leg }
        ensures { result ≡ trans_over frames.now.frames trans.now }
    {
        Opened { trans, frames }
    }

    /// The log bytes of a leg.
    pub fn unit(&self) -> u32
        ensures { result ≡ self.now.unit }
    {
        let trans = self.trans;
        trans.ticket().unit()
    }

    /// The legs left, the present one counted; 0 after a roll that was given up.
    pub fn legs(&self) -> u32
        ensures { result ≡ self.now.legs }
    {
        let trans = self.trans;
        trans.legs()
    }

    /// Whether it may roll.
    pub fn perm(&self) -> bool
        ensures { result ≡ self.now.perm }
    {
        let trans = self.trans;
        trans.perm()
    }

    /// What its present leg did.
    pub fn leg(&self) -> LegSeen<'a>
        ensures { result ≡ self.now.leg }
    {
        let trans = self.trans;
        let frames = self.frames;
        LegSeen {
            leg: trans.leg(),
            frames,
        }
    }

    /// Its ticket.
    pub fn ticket(&self) -> &Ticket
        ensures { result.now ≡ grant_of self.now }
    {
        let trans = self.trans;
        trans.ticket()
    }

    /// Whether the charge would keep within the unit, were these chunks of a block changed too.
    pub fn fits_logged(&self, form: Form, block: Block, marked: Chunks) -> bool
        ensures { result ≡ nat_le (charge form.ends (edited block [] marked self.now.leg).changes) self.now.unit }
    {
        let trans = self.trans;
        trans.fits_logged(form, block, marked)
    }

    /// Whether the charge would keep within the unit, were a block invalidated too.
    pub fn fits_invalidated(&self, form: Form, block: Block) -> bool
        ensures { result ≡ nat_le (charge form.ends (invalidated block self.now.leg).changes) self.now.unit }
    {
        let trans = self.trans;
        trans.fits_invalidated(form, block)
    }
}

/// What the present leg of an open transaction did, as its accounts show it. Clauses see the leg.
#[derive(Debug, Drop)]
pub struct LegSeen<'a> {
    leg: &'a TransRec,
    frames: &'a Frames,
}

impl<'a> Model for LegSeen<'a> {
    ghost use Rattle.xt_base.specs.State.{Leg};

    ghost Value = { Leg };

    ghost use Rattle.xt_journal.specs.Over.{leg_over};
    ghost use Rattle.xt_mount.specs.Shown.{HasFrames};

    ghost view = { λ l. leg_over l.frames.now.frames l.leg.now };

    ghost invariant = { λ l. HasFrames l.frames.now.frames l.leg.now };
}

impl<'a> LegSeen<'a> {
    /// Whether the leg changed or invalidated a block.
    pub fn is_dirty(&self) -> bool
        ensures { result ≡ is_dirty self.now }
    {
        let leg = self.leg;
        leg.is_dirty()
    }

    /// Whether the leg changed or invalidated this block.
    pub fn is_changed(&self, block: u64) -> bool
        ensures { result ≡ is_in block self.now.changes }
    {
        let leg = self.leg;
        leg.is_changed(block)
    }

    /// Whether the leg invalidated a block.
    pub fn is_stale(&self, block: u64) -> bool
        ensures { result ≡ is_stale block self.now }
    {
        let leg = self.leg;
        leg.is_stale(block)
    }

    /// Whether a block has the hold mark.
    pub fn is_held(&self, block: u64) -> bool
        ensures { result ≡ has self.now.holds block }
    {
        let leg = self.leg;
        leg.is_held(block)
    }

    /// The blocks with the hold mark, ascending, if there are some; where there is none it takes no memory. The one error is
    /// want of memory.
    #[inline(always)]
    pub fn held(&self, alloc: Global) -> Result<Option<HeldBlocks>, AllocError>
        requires { length self.now.holds ≤ BUSY_BLOCKS }
        ensures ok { IfOk result (λ blocks. blocks ≡ held_of self.now.holds) }
        ensures want { OnErr result (0 < length self.now.holds) }
    {
        let leg = self.leg;
        leg.held(alloc)
    }

    /// What a commit list costs once the marks of this leg were joined to it: the length of its checkpoint text of this form.
    pub fn cost_with(&self, form: Form, list: &NumberMap<Chunks>) -> u64
        requires { IsRising list.now }
        ensures { result ≡ cost form.ends (with_marks self.now.changes list.now) }
    {
        let leg = self.leg;
        leg.cost_with(form, list)
    }

    /// Copies of what the leg did to the blocks that it changed or invalidated, by rising block. The one error is want of memory.
    pub fn changes(&self, alloc: Global) -> Result<Vec<(u64, ChangeState)>, AllocError>
        ensures { IfOk result (λ changes. changes.items ≡ self.now.changes) }
    {
        let leg = self.leg;
        let frames = self.frames;
        leg.changes_rise();
        let marks = leg.changes(alloc)?;
        changes_copied(alloc, leg, frames, &marks)
    }

    /// The blocks with the hold mark, ascending, in a list of their own. The one error is want of memory.
    pub fn holds(&self, alloc: Global) -> Result<Vec<Block>, AllocError>
        ensures { IfOk result (λ blocks. blocks.items ≡ self.now.holds) }
    {
        let leg = self.leg;
        leg.holds(alloc)
    }
}

/// What a leg did to some blocks, as it shows it. The one error is want of memory.
fn changes_copied(
    alloc: Global,
    leg: &TransRec,
    frames: &Frames,
    marks: &[(u64, ChangeMarks)],
) -> Result<Vec<(u64, ChangeState)>, AllocError>
    requires framed { HasFrames frames.now.frames leg.now }
    requires marks { Each (IsMarked leg.now) marks.now }
    ensures { IfOk result (λ changes. changes.items ≡ map (change_shown frames.now.frames leg.now) marks.now) }
{
    let mut changes = Vec::with_capacity(alloc, marks.len())?;
    for e in marks {
        changes.push((e.0, change_copy(alloc, leg, frames, e)?))?;
    }
    Ok(changes)
}

/// What a leg did to a block, as it shows it. The one error is want of memory.
fn change_copy(
    alloc: Global,
    leg: &TransRec,
    frames: &Frames,
    e: &(u64, ChangeMarks),
) -> Result<ChangeState, AllocError>
    requires framed { HasFrames frames.now.frames leg.now }
    requires marks { IsMarked leg.now e.now }
    ensures { IfOk result (λ change. change ≡ (change_shown frames.now.frames leg.now e.now).1) }
{
    let ChangeMarks {
        is_stale,
        marks,
        charged,
    } = e.1;
    let edit = if is_stale {
        None
    } else {
        Some(bytes_copy(alloc, leg, frames, e.0)?)
    };
    Ok(ChangeState {
        edit,
        marks,
        charged,
    })
}

/// The bytes of a block that a leg changed: its own, or where it has none those of the frame. The one error is want of memory.
fn bytes_copy(
    alloc: Global,
    leg: &TransRec,
    frames: &Frames,
    block: u64,
) -> Result<Content, AllocError>
    requires framed { HasFrames frames.now.frames leg.now }
    requires changed { is_none (change_of block leg.now).edit ≡ false }
    ensures { IfOk result (λ content. Some content ≡ edit_over frames.now.frames block (change_of block leg.now).edit) }
{
    if let Some(content) = leg.edit(block) {
        return content.copy(alloc);
    }
    match frames.frame(block) {
        Some(frame) => frame.content().copy(alloc),
        None => unreachable!(),
    }
}
