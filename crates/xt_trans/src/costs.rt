//! What a commit list costs, and what it gains and loses by the entries of a leg.

ghost use Rattle.std.specs.Prelude.{◌≡◌, ◌+◌, ◌*◌, ◌≤◌, length, option_copied, sum_by};
ghost use Rattle.xt_base.specs.Legs.{joined_marks};
ghost use Rattle.xt_base.specs.Space.{item_cost};
ghost use Rattle.xt_trans.specs.LegItems.{change_in, gain_in, item_gain, item_loss, loss_in};

use crate::item::BufItem;
use xt_base::chunks::Chunks;
use xt_base::map::NumberMap;
use xt_base::sizes::{CHUNK_COST, CHUNKS, ITEM_COST, ROOM};

/// What the items of a commit list cost.
pub(crate) fn standing(list: &[(u64, Chunks)]) -> u64
    requires { length list.now ≤ ROOM }
    ensures value { result ≡ sum_by item_cost list.now }
    ensures range { result ≤ ROOM * (ITEM_COST + CHUNK_COST * CHUNKS) }
{
    let mut total = 0;
    for e in list {
        total += ITEM_COST + CHUNK_COST * e.1.count() as u64;
    }
    total
}

/// What the items of changed blocks cost on a commit list, with the marks of these entries and without them.
pub(crate) fn gained_and_lost(items: &[(u64, BufItem)], list: &NumberMap<Chunks>) -> (u64, u64)
    requires { length items.now ≤ ROOM }
    ensures gained { result.0 ≡ sum_by (gain_in list.now) items.now }
    ensures lost { result.1 ≡ sum_by (loss_in list.now) items.now }
    ensures most_gained { result.0 ≤ ROOM * (ITEM_COST + CHUNK_COST * CHUNKS) }
    ensures most_lost { result.1 ≤ ROOM * (ITEM_COST + CHUNK_COST * CHUNKS) }
{
    let mut gained = 0;
    let mut lost = 0;
    for e in items {
        let old = list.get(e.0);
        gained += gain(&e.1, old);
        lost += loss(&e.1, old);
    }
    (gained, lost)
}

/// What the commit list's item of an entry's block costs with the entry's marks.
fn gain(item: &BufItem, old: Option<&Chunks>) -> u64
    ensures value { result ≡ item_gain item.now (option_copied old.entry) }
    ensures range { result ≤ ITEM_COST + CHUNK_COST * CHUNKS }
{
    if item.marks.is_dirty() {
        ITEM_COST + CHUNK_COST * joined(item, old).count() as u64
    } else {
        0
    }
}

/// What the commit list's item of an entry's block costs, if the entry changes it.
fn loss(item: &BufItem, old: Option<&Chunks>) -> u64
    ensures value { result ≡ item_loss item.now (option_copied old.entry) }
    ensures range { result ≤ ITEM_COST + CHUNK_COST * CHUNKS }
{
    match old {
        Some(chunks) if item.marks.is_dirty() => ITEM_COST + CHUNK_COST * chunks.count() as u64,
        _ => 0,
    }
}

/// The marks of a commit list's item with those of an entry joined to them; none for an invalidated block.
fn joined(item: &BufItem, old: Option<&Chunks>) -> Chunks
    ensures { result ≡ joined_marks (option_copied old.entry) (change_in item.now) }
{
    match item.edit {
        None => Chunks::none(),
        Some(_) => old.copied().unwrap_or(Chunks::none()).union(item.chunks),
    }
}
