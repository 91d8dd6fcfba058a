//! The fresh blocks of a mount.

ghost use Rattle.std.specs.Prelude.{◌≡◌, ◌+◌, ◌<◌, ◌≤◌, ◌++◌, [], Some, drop, length, slice_get, take, true, IfOk};
ghost use Rattle.xt_base.specs.Maps.{has, with_member, without_member};
ghost use Rattle.xt_base.specs.Marks.{marks_of, no_marks};
ghost use Rattle.xt_frames.specs.Fresh.{fresh_of};

use std::alloc::{AllocError, Global};
use std::marker::Model;
use xt_base::map::NumberMap;
use xt_base::marks::ItemMarks;
use xt_base::sizes::ROOM;

/// The blocks with the fresh mark: they show zeros until they are written whole. It has room for 128.
/// Clauses see the rising list of the blocks.
#[derive(Debug, Drop)]
pub struct FreshBlocks {
    marks: NumberMap<ItemMarks>,
}

impl Model for FreshBlocks {
    ghost use Rattle.std.specs.Prelude.{List, ℕ};

    ghost Value = { List ℕ };

    ghost use Rattle.xt_frames.specs.Fresh.{AreFresh, fresh_of};

    ghost view = { λ f. fresh_of f.marks };

    ghost invariant = { λ f. AreFresh f.marks };
}

impl FreshBlocks {
    /// No block is fresh. The one error is want of memory.
    pub fn new(alloc: Global) -> Result<Self, AllocError>
        ensures { IfOk result (λ fresh. fresh ≡ []) }
    {
        let marks = NumberMap::new(alloc)?;
        Ok(FreshBlocks { marks })
    }

    /// How many blocks are fresh.
    pub fn len(&self) -> usize
        ensures value { result ≡ length self.now }
        ensures small { result ≤ ROOM }
    {
        self.marks.len()
    }

    /// Whether a block is fresh.
    pub fn contains(&self, block: u64) -> bool
        ensures { result ≡ has self.now block }
    {
        match self.marks.get(block) {
            Some(marks) => marks.is_fresh(),
            None => false,
        }
    }

    /// The fresh blocks, ascending, in a list of their own. The one error is want of memory.
    pub fn blocks(&self, alloc: Global) -> Result<Vec<u64>, AllocError>
        ensures { IfOk result (λ blocks. blocks.items ≡ self.now) }
    {
        fresh_blocks(alloc, self.marks.entries())
    }

    /// A block is fresh. It takes no memory.
    pub fn insert(&mut self, block: u64)
        requires { length self.old < ROOM }
        ensures { self.new ≡ with_member block self.old }
    {
        self.marks.put(block, fresh_mark());
    }

    /// A block is fresh no more.
    pub fn remove(&mut self, block: u64)
        ensures { self.new ≡ without_member block self.old }
    {
        let _marks = self.marks.remove(block);
    }

    /// The fresh block at a place.
    pub fn at(&self, index: usize) -> u64
        requires { index < length self.now }
        ensures { slice_get self.now index ≡ Some result }
    {
        entry_at(&self.marks, index).0
    }

    /// The fresh block at a place is so no more.
    pub fn remove_at(&mut self, index: usize)
        requires { index < length self.old }
        ensures { self.new ≡ take index self.old ++ drop (index + 1) self.old }
    {
        let _marks = self.marks.remove_at(index);
    }
}

/// The blocks of these marks that have the fresh one.
fn fresh_blocks(alloc: Global, marks: &[(u64, ItemMarks)]) -> Result<Vec<u64>, AllocError>
    ensures { IfOk result (λ blocks. blocks.items ≡ fresh_of marks.now) }
{
    let mut blocks = Vec::new(alloc);
    for e in marks {
        if e.1.is_fresh() {
            blocks.push(e.0)?;
        }
    }
    Ok(blocks)
}

/// The fresh mark alone.
fn fresh_mark() -> ItemMarks
    ensures { marks_of result ≡ record no_marks { fresh = true } }
{
    ItemMarks::none().with(ItemMarks::FRESH)
}

/// The entry at a place.
fn entry_at(marks: &NumberMap<ItemMarks>, index: usize) -> (u64, ItemMarks)
    requires { index < length marks.now }
    ensures { slice_get marks.now index ≡ Some result }
{
    marks.entries()[index]
}
