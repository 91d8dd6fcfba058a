//! What the present leg of a transaction did to its blocks: the bytes written, the chunks marked and charged, and which blocks
//! are invalidated or stay locked when the leg ends.

ghost use Rattle.std.specs.Prelude.{ℕ, ◌≡◌, ◌+◌, ◌*◌, ◌<◌, ◌≤◌, ◌∷◌, [], false, true, if◌then◌else◌, length, option_copied, option_map, unwrap_or, IfOk, OnErr, IfSome, MatchOption, is_none, is_some};
ghost use Rattle.xt_base.specs.Calls.{edited, held_of, invalidated as invalidated_leg, overwritten, without_hold};
ghost use Rattle.xt_base.specs.Chunks.{union as either};
ghost use Rattle.xt_base.specs.Legs.{change_of, clean_leg, is_dirty, is_stale, with_marks};
ghost use Rattle.xt_base.specs.Maps.{at, has, is_in, with_member, without};
ghost use Rattle.xt_base.specs.Marks.{marks_of};
ghost use Rattle.xt_base.specs.Sound.{IsRising};
ghost use Rattle.xt_base.specs.Space.{charge, cost};
ghost use Rattle.xt_trans.specs.ChangeMarks.{change_marks};
ghost use Rattle.xt_trans.specs.LegItems.{AreItems, change_in, leg_of};
ghost use Rattle.xt_vectors.specs.Edits.{is_in_place, own_edit};

use crate::costs::{gained_and_lost, standing};
use crate::entries::{changes_of, drop_hold, first_dirty, held_blocks, take_dirty, take_item};
use crate::item::{
    BufItem, blank_item, content_of, has_no_content, held, invalidated, logged, marked_too, written,
};
use std::alloc::{AllocError, Global};
use std::marker::Model;
use xt_base::chunks::Chunks;
use xt_base::content::{Content, HeldBlocks};
use xt_base::data_ref::DataRef;
use xt_base::form::Form;
use xt_base::map::NumberMap;
use xt_base::names::Block;
use xt_base::newly::Newly;
use xt_base::sizes::{BUSY_BLOCKS, CHUNK_COST, CHUNKS, ITEM_COST, MOST_ENDS, ROOM};
use xt_vectors::edit::Edit;

/// What a leg did to a block that it changed or invalidated: its edit (none where it was invalidated), the chunks marked, and
/// the chunks charged.
#[derive(Debug, Drop)]
pub struct Change {
    pub edit: Option<Edit>,
    pub marks: Chunks,
    pub charged: Chunks,
}

impl Model for Change {
    ghost use Rattle.xt_base.specs.State.{Change as ChangeValue};

    ghost Value = { ChangeValue };

    ghost view = { λ c. record { edit = c.edit; marks = c.marks; charged = c.charged } };
}

/// What a leg did to such a block, without its bytes: whether it was invalidated, the chunks marked, and the chunks charged.
#[derive(Clone, Copy, Debug)]
pub struct ChangeMarks {
    pub is_stale: bool,
    pub marks: Chunks,
    pub charged: Chunks,
}

/// What a leg did to such a block as a plain value, with no room for what its commit makes.
#[derive(Debug, Drop)]
pub struct ChangeState {
    pub edit: Option<Content>,
    pub marks: Chunks,
    pub charged: Chunks,
}

impl Model for ChangeState {
    ghost use Rattle.xt_base.specs.State.{Change as ChangeValue};

    ghost Value = { ChangeValue };

    ghost view = { λ c. record { edit = c.edit; marks = c.marks; charged = c.charged } };
}

/// What the present leg of a transaction did, with room for the blocks of a mount: one entry for each block that it changed,
/// invalidated or holds. Clauses see the leg. No call but `new`, `held`, `changes` and `holds` takes memory.
#[derive(Debug, Drop)]
pub struct TransRec {
    items: NumberMap<BufItem>,
}

impl Model for TransRec {
    ghost use Rattle.xt_base.specs.State.{Leg};

    ghost Value = { Leg };

    ghost use Rattle.xt_trans.specs.LegItems.{AreItems, leg_of};

    ghost view = { λ t. leg_of t.items };

    ghost invariant = { λ t. AreItems t.items };
}

impl TransRec {
    /// A leg that did nothing. The one error is want of memory.
    pub fn new(alloc: Global) -> Result<Self, AllocError>
        ensures { IfOk result (λ leg. leg ≡ clean_leg) }
    {
        let items = NumberMap::new(alloc)?;
        Ok(TransRec { items })
    }

    /// Whether the leg changed or invalidated a block.
    pub fn is_dirty(&self) -> bool
        ensures { result ≡ is_dirty self.now }
    {
        self.first_changed().is_some()
    }

    /// Whether the leg changed or invalidated this block.
    pub fn is_changed(&self, block: u64) -> bool
        ensures { result ≡ is_in block self.now.changes }
    {
        self.changed(block).is_some()
    }

    /// Whether the leg invalidated a block.
    pub fn is_stale(&self, block: u64) -> bool
        ensures { result ≡ is_stale block self.now }
    {
        match self.changed(block) {
            Some(item) => item.marks.is_stale(),
            None => false,
        }
    }

    /// Whether a block has the hold mark.
    pub fn is_held(&self, block: u64) -> bool
        ensures { result ≡ has self.now.holds block }
    {
        match self.items.get(block) {
            Some(item) => item.marks.is_held(),
            None => false,
        }
    }

    /// The leg's own bytes of a block, if it has some: none of one that is changed in place.
    pub fn edit(&self, block: u64) -> Option<&Content>
        ensures { option_copied result ≡ own_edit (change_of block self.now).edit }
    {
        match self.changed(block) {
            Some(item) => content_of(&item.edit),
            None => None,
        }
    }

    /// Whether the leg changes a block in place: without bytes of its own.
    pub fn is_in_place(&self, block: u64) -> bool
        ensures { result ≡ is_in_place (change_of block self.now).edit }
    {
        match self.changed(block) {
            Some(item) => has_no_content(&item.edit),
            None => false,
        }
    }

    /// What a commit list costs once the marks of this leg were joined to it: the length of its checkpoint text of this form,
    /// at most 1,052,708.
    pub fn cost_with(&self, form: Form, list: &NumberMap<Chunks>) -> u64
        requires { IsRising list.now }
        ensures value { result ≡ cost form.ends (with_marks self.now.changes list.now) }
        ensures range { result ≤ MOST_ENDS + 2 * ROOM * (ITEM_COST + CHUNK_COST * CHUNKS) }
    {
        let entries = self.items.entries();
        let (gained, lost) = gained_and_lost(entries, list);
        let total = standing(list.entries()) + gained - lost;
        if total == 0 {
            0
        } else {
            u64::from(form.ends()) + total
        }
    }

    /// What the leg would charge anew, were these chunks of a block changed too.
    pub fn newly_logged(&self, block: u64, marked: Chunks) -> Newly
        ensures blocks { result.blocks ≡ (if is_in block self.now.changes then 0 else 1) }
        ensures chunks { length (either (change_of block self.now).charged marked) ≡ length (change_of block self.now).charged + result.chunks }
        ensures range { result.chunks ≤ CHUNKS }
        ensures charge { (ends : ℕ) → charge ends (edited block [] marked self.now).changes ≡ charge ends self.now.changes + (if is_dirty self.now then 0 else ends) + ITEM_COST * result.blocks + CHUNK_COST * result.chunks }
    {
        let _ = &self.items;
        let blocks = self.new_blocks(block);
        let chunks = self.charged_of(block).lacks(marked);
        Newly { blocks, chunks }
    }

    /// What the leg would charge anew, were a block invalidated too.
    pub fn newly_invalidated(&self, block: u64) -> Newly
        ensures blocks { result.blocks ≡ (if is_in block self.now.changes then 0 else 1) }
        ensures chunks { result.chunks ≡ 0 }
        ensures charge { (ends : ℕ) → charge ends (invalidated_leg block self.now).changes ≡ charge ends self.now.changes + (if is_dirty self.now then 0 else ends) + ITEM_COST * result.blocks + CHUNK_COST * result.chunks }
    {
        let _ = &self.items;
        let blocks = self.new_blocks(block);
        Newly { blocks, chunks: 0 }
    }

    /// How many blocks the leg would charge anew, were this one changed too: none that it changed or invalidated before.
    fn new_blocks(&self, block: u64) -> u32
        ensures { result ≡ (if is_in block self.now.changes then 0 else 1) }
    {
        if self.is_changed(block) { 0 } else { 1 }
    }

    /// The chunks charged for a block.
    fn charged_of(&self, block: u64) -> Chunks
        ensures { result ≡ (change_of block self.now).charged }
    {
        match self.changed(block) {
            Some(item) => item.charged,
            None => Chunks::none(),
        }
    }

    /// The blocks with the hold mark, ascending, if there are some; where there is none it takes no memory. The one error is
    /// want of memory.
    pub fn held(&self, alloc: Global) -> Result<Option<HeldBlocks>, AllocError>
        requires { length self.now.holds ≤ BUSY_BLOCKS }
        ensures ok { IfOk result (λ blocks. blocks ≡ held_of self.now.holds) }
        ensures want { OnErr result (0 < length self.now.holds) }
    {
        let blocks = held_blocks(alloc, self.items.entries())?;
        HeldBlocks::of(alloc, blocks)
    }

    /// What the leg did to the blocks that it changed or invalidated, without their bytes, by rising block. The one error is want
    /// of memory.
    pub fn changes(&self, alloc: Global) -> Result<Vec<(u64, ChangeMarks)>, AllocError>
        ensures { IfOk result (λ changes. changes.items ≡ change_marks self.now.changes) }
    {
        changes_of(alloc, self.items.entries())
    }

    /// The blocks with the hold mark, ascending, in a list of their own. The one error is want of memory.
    pub fn holds(&self, alloc: Global) -> Result<Vec<Block>, AllocError>
        ensures { IfOk result (λ blocks. blocks.items ≡ self.now.holds) }
    {
        held_blocks(alloc, self.items.entries())
    }

    /// A block has these bytes in the leg, none where it is changed in place, and these chunks are marked and charged too. One that was
    /// invalidated is so no more.
    pub fn log(&mut self, block: u64, edit: Edit, marked: Chunks)
        requires { is_in block self.old.changes ≡ false → length self.old.changes + length self.old.holds < ROOM }
        ensures { self.new ≡ edited block edit marked self.old }
    {
        // the leg's first change of a block, as most are, is put where it stays, and not over another
        match self.items.find(block) {
            Err(place) => {
                let item = logged(blank_item(), edit, marked);
                self.items.insert_at(place, block, item);
            }
            Ok(_) => {
                let item = take_item(&mut self.items, block);
                self.items.put(block, logged(item, edit, marked));
            }
        }
    }

    /// Bytes are written from `first` on over the leg's own bytes of a block, and these chunks are marked and charged too. It takes
    /// no memory.
    pub fn write(&mut self, block: u64, first: usize, bytes: &DataRef<'_>, marked: Chunks)
        requires own { is_some (own_edit (change_of block self.old).edit) ≡ true }
        requires within { first + length bytes.now ≤ length (unwrap_or (change_of block self.old).edit []) }
        ensures { self.new ≡ edited block (overwritten first bytes.now (unwrap_or (change_of block self.old).edit [])) marked self.old }
    {
        let item = take_item(&mut self.items, block);
        let item = written(item, first, bytes);
        self.items.put(block, marked_too(item, marked));
    }

    /// More chunks of a block that is changed in place are marked and charged. It takes no memory.
    pub fn mark(&mut self, block: u64, marked: Chunks)
        requires { is_in_place (change_of block self.old).edit ≡ true }
        ensures { self.new ≡ edited block [] marked self.old }
    {
        let item = take_item(&mut self.items, block);
        self.items.put(block, marked_too(item, marked));
    }

    /// A block is invalidated: its bytes, marks and hold mark go, and what it was charged stays.
    pub fn inval(&mut self, block: u64)
        requires { is_in block self.old.changes ≡ false → length self.old.changes + length self.old.holds < ROOM }
        ensures { self.new ≡ invalidated_leg block self.old }
    {
        let item = take_item(&mut self.items, block);
        self.items.put(block, invalidated(item));
    }

    /// A block stays locked when the leg ends.
    pub fn hold(&mut self, block: u64)
        requires { has self.old.holds block ≡ false → length self.old.changes + length self.old.holds < ROOM }
        ensures { self.new ≡ record self.old { holds = with_member block self.old.holds } }
    {
        let item = take_item(&mut self.items, block);
        self.items.put(block, held(item));
    }

    /// Takes the hold mark of a block away, if it has one.
    pub fn unhold(&mut self, block: u64)
        ensures { self.new ≡ without_hold block self.old }
    {
        drop_hold(&mut self.items, block);
    }

    /// Takes the change of the least block out. Its hold mark stays.
    pub fn take_change(&mut self) -> Option<(u64, Change)>
        ensures { MatchOption result ((self.old.changes ≡ []) × (self.new ≡ self.old)) (λ e. self.old ≡ record self.new { changes = e ∷ self.new.changes }) }
    {
        let block = self.first_changed()?;
        let item = take_dirty(&mut self.items, block);
        Some((
            block,
            Change {
                edit: item.edit,
                marks: item.chunks,
                charged: item.charged,
            },
        ))
    }

    /// The leg ends, and the next one did nothing. It takes no memory.
    pub fn next_leg(&mut self)
        ensures { self.new ≡ clean_leg }
    {
        self.items.clear();
    }

    /// The blocks that it changed or invalidated rise: for a proof, at run time nothing.
    pub fn changes_rise(&self)
        ensures { IsRising self.now.changes }
    {
        let _ = &self.items;
    }

    /// The entry of a block that the leg changed or invalidated.
    fn changed(&self, block: u64) -> Option<&BufItem>
        ensures value { option_map change_in (option_copied result) ≡ at block self.now.changes }
        ensures stale { IfSome (option_copied result) (λ item. (marks_of item.marks).stale ≡ is_none item.edit) }
    {
        match self.items.get(block) {
            Some(item) => {
                if item.marks.is_dirty() {
                    Some(item)
                } else {
                    None
                }
            }
            None => None,
        }
    }

    /// The least block that the leg changed or invalidated.
    fn first_changed(&self) -> Option<u64>
        ensures { MatchOption result (self.now.changes ≡ []) (λ block. self.now.changes ≡ (block, change_of block self.now) ∷ without block self.now.changes) }
    {
        first_dirty(self.items.entries())
    }
}
