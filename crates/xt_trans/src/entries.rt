//! The entries of a leg: what they say together, and how one is taken out.

ghost use Rattle.std.specs.Prelude.{◌≡◌, ◌<◌, ◌∷◌, [], false, length, IfOk, OnErr, MatchOption};
ghost use Rattle.xt_base.specs.Calls.{without_hold};
ghost use Rattle.xt_base.specs.Legs.{change_of};
ghost use Rattle.xt_base.specs.Maps.{is_in, without};
ghost use Rattle.xt_trans.specs.ChangeMarks.{change_marks, marks_in};
ghost use Rattle.xt_trans.specs.LegItems.{AreItems, change_in, item_at, leg_of};

use crate::item::{BufItem, blank_item, hold_alone, released};
use crate::trans::ChangeMarks;
use std::alloc::{AllocError, Global};
use xt_base::map::NumberMap;
use xt_base::names::Block;
use xt_base::sizes::ROOM;

/// The blocks of the entries with the hold mark; where there is none it takes no memory.
pub(crate) fn held_blocks(alloc: Global, items: &[(u64, BufItem)]) -> Result<Vec<Block>, AllocError>
    ensures ok { IfOk result (λ blocks. blocks.items ≡ (leg_of items.now).holds) }
    ensures want { OnErr result (0 < length (leg_of items.now).holds) }
{
    let mut blocks = Vec::new(alloc);
    for e in items {
        if e.1.marks.is_held() {
            blocks.push(block_of(e.0))?;
        }
    }
    Ok(blocks)
}

/// The block of a number.
fn block_of(number: u64) -> Block
    ensures { result ≡ number }
{
    Block(number)
}

/// The changes of the dirty entries, without their bytes.
pub(crate) fn changes_of(
    alloc: Global,
    items: &[(u64, BufItem)],
) -> Result<Vec<(u64, ChangeMarks)>, AllocError>
    ensures { IfOk result (λ changes. changes.items ≡ change_marks (leg_of items.now).changes) }
{
    let mut changes = Vec::new(alloc);
    for e in items {
        if e.1.marks.is_dirty() {
            changes.push((e.0, marks_of_change(&e.1)))?;
        }
    }
    Ok(changes)
}

/// An entry's change, without its bytes.
fn marks_of_change(item: &BufItem) -> ChangeMarks
    ensures { result ≡ marks_in (change_in item.now) }
{
    ChangeMarks {
        is_stale: item.edit.is_none(),
        marks: item.chunks,
        charged: item.charged,
    }
}

/// The block of the first dirty entry.
pub(crate) fn first_dirty(items: &[(u64, BufItem)]) -> Option<u64>
    ensures { MatchOption result ((leg_of items.now).changes ≡ [])
        (λ block. (leg_of items.now).changes ≡ (block, change_of block (leg_of items.now)) ∷ without block (leg_of items.now).changes) }
{
    for e in items {
        if e.1.marks.is_dirty() {
            return Some(e.0);
        }
    }
    None
}

/// Takes the hold mark of a block away. An entry that has nothing else goes.
pub(crate) fn drop_hold(items: &mut NumberMap<BufItem>, block: u64)
    requires { AreItems items.old }
    ensures leg { leg_of items.new ≡ without_hold block (leg_of items.old) }
    ensures items { AreItems items.new }
{
    let item = take_item(items, block);
    if item.marks.is_dirty() {
        items.put(block, released(item));
    }
}

/// Takes the entry of a block out, and leaves its hold mark, if it has one.
pub(crate) fn take_dirty(items: &mut NumberMap<BufItem>, block: u64) -> BufItem
    requires { AreItems items.old }
    ensures value { result ≡ item_at block items.old }
    ensures leg { leg_of items.new ≡ record (leg_of items.old) { changes = without block (leg_of items.old).changes } }
    ensures items { AreItems items.new }
{
    let item = take_item(items, block);
    if item.marks.is_held() {
        items.put(block, hold_alone());
    }
    item
}

/// Takes the entry of a block out; a blank one, where there is none.
pub(crate) fn take_item(items: &mut NumberMap<BufItem>, block: u64) -> BufItem
    ensures value { result ≡ item_at block items.old }
    ensures rest { items.new ≡ without block items.old }
    ensures room { (is_in block items.old ≡ false → length items.old < ROOM) → length items.new < ROOM }
{
    match items.remove(block) {
        Some(item) => item,
        None => blank_item(),
    }
}
