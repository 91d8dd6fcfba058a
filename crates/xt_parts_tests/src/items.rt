//! The lists on numbers worked out by hand, and what a refused allocation leaves.
//!
//! A test function is proved too, at a cost that grows with the square of its length. So what is
//! expected stands in constants and helpers, and a test has few assertions.

ghost use Rattle.std.specs.Prelude.{◌≡◌, ◌≤◌};
ghost use Rattle.xt_base.specs.Maps.{is_in};
ghost use Rattle.xt_items.specs.Plans.{planned};

use bytes::Bytes;
use std::alloc::{AllocError, Global};
use xt_base::chunks::Chunks;
use xt_base::content::Content;
use xt_base::form::Form;
use xt_base::map::NumberMap;
use xt_base::sizes::BLOCK_BYTES;
use xt_base::steps::HomeAnswers;
use xt_items::items::Items;
use xt_items::plan::{FlushPlan, all_ok};
use xt_vectors::vector::VectorRoom;

/// Marks twelve bytes of a block of zeros; false where the commit list has no room, or a growth is refused.
fn mark(alloc: Global, items: &mut Items, block: u64, first: u32) -> bool
    requires within { first ≤ 4000 }
{
    if items.cil().len() == 128 {
        return false;
    }
    let (Ok(content), Ok(room)) = (Content::zeros(alloc, Form::one()), VectorRoom::new(alloc))
    else {
        return false;
    };
    // A block of 4,096 bytes has all chunks.
    if content.bytes().len() != BLOCK_BYTES {
        return false;
    }
    items.mark(block, Chunks::mark(first, 12), &content, room);
    true
}

/// Cancels a block; false where the commit list has no room.
fn cancel(items: &mut Items, block: u64) -> bool {
    if items.cil().len() == 128 {
        return false;
    }
    items.cancel(block);
    true
}

/// Marks one chunk of each block.
fn commit(alloc: Global, items: &mut Items, blocks: &[u64]) -> bool {
    for block in blocks {
        if !mark(alloc, items, *block, 0) {
            return false;
        }
    }
    true
}

/// The commit list flies with one piece; false where a growth is refused.
fn begin(alloc: Global, items: &mut Items) -> bool {
    let Ok(pieces) = one_piece(alloc) else {
        return false;
    };
    let Ok(next) = NumberMap::new(alloc) else {
        return false;
    };
    if items.is_flying() || items.open_number() == u64::MAX {
        return false;
    }
    items.fly(next, pieces);
    true
}

/// A text of one piece.
fn one_piece(alloc: Global) -> Result<Vec<Bytes>, AllocError> {
    let mut text = Vec::new(alloc);
    text.push(7)?;
    let mut pieces = Vec::new(alloc);
    pieces.push(Bytes::from_vec(text)?)?;
    Ok(pieces)
}

/// The flight lands.
fn end(items: &mut Items) -> bool {
    let Some(flying) = items.flight_items() else {
        return false;
    };
    if items.ail().len() + flying.len() > 128 {
        return false;
    }
    items.land();
    true
}

/// Blocks are committed, fly and land.
fn write(alloc: Global, items: &mut Items, blocks: &[u64]) -> bool {
    commit(alloc, items, blocks) && begin(alloc, items) && end(items)
}

/// What a flush writes beside the blocks that are owned: a caller knows it from the clause of `flush_plan`.
fn plan_beside(items: &Items, owned: &NumberMap<u64>) -> FlushPlan
    ensures { result ≡ planned (λ b. is_in b owned.now) items.now }
{
    items.flush_plan(&|block| owned.contains(block))
}

/// How many chunks of a committed block are marked.
fn marked(items: &Items, block: u64) -> Option<u32> {
    Some(items.marks(block)?.count())
}

/// The open list's number, and what it costs.
fn open_list(items: &Items) -> (u64, u64) {
    (items.open_number(), items.cil_cost(Form::one()))
}

/// Whether the open list has three marked chunks of block 7, and block 9 cancelled.
fn has_both(items: &Items) -> bool {
    let Some(marks) = items.marks(7) else {
        return false;
    };
    (marks.count(), marks.has(2), marks.has(3)) == (3, true, false)
        && (marked(items, 8), marked(items, 9)) == (None, Some(0))
        && (items.is_committed(8), items.is_committed(9)) == (false, true)
}

/// Whether block 7 has a log vector of three chunks, and block 9 one of none.
fn has_vectors(items: &Items) -> bool {
    match items.vectors() {
        [marked, cancelled] => {
            (marked.0, cancelled.0) == (7, 9)
                && (marked.1.bytes().len(), cancelled.1.bytes().len()) == (384, 0)
        }
        _ => false,
    }
}

/// Whether both fly in checkpoint 1 and checkpoint 2 is open; before they do, nothing flies and checkpoint 1 has its cost.
fn both_fly(items: &Items, are_begun: bool) -> bool {
    if !are_begun {
        return !items.is_flying() && open_list(items) == (1, 448);
    }
    open_list(items) == (2, 0)
        && (items.flight_number(), items.pieces().len()) == (Some(1), 1)
        && items.is_in_flight(7)
        && (items.is_listed(8), items.is_listed(9)) == (false, true)
}

/// Whether nothing flies, and just these blocks are active.
fn rests(items: &Items, active: &[(u64, u64)]) -> bool {
    !items.is_flying() && items.pieces().is_empty() && items.ail() == active
}

/// A block is logged twice and another one cancelled. None where a growth is refused.
fn two_blocks(alloc: Global) -> Option<Items> {
    let mut items = Items::new(alloc).ok()?;
    let is_done = mark(alloc, &mut items, 7, 0)
        && mark(alloc, &mut items, 7, 250)
        && cancel(&mut items, 9);
    if is_done { Some(items) } else { None }
}

/// They fly and land. Where a growth is refused nothing has changed: run it with each allocation failing in turn.
#[test]
fn a_checkpoint_lands(rt: HostRuntime) {
    let Some(mut items) = two_blocks(rt.alloc()) else {
        return;
    };
    assert!(rt; has_both(&items) && has_vectors(&items));
    let are_begun = begin(rt.alloc(), &mut items);
    assert!(rt; both_fly(&items, are_begun));
    if are_begun {
        assert!(rt; end(&mut items) && rests(&items, &[(7, 1)]) && items.least() == Some(1));
    }
}

/// A cancelled block leaves the active list when it lands.
#[test]
fn a_cancelled_block_leaves(rt: HostRuntime) {
    let alloc = rt.alloc();
    let Ok(mut items) = Items::new(alloc) else {
        return;
    };
    if write(alloc, &mut items, &[4, 5]) && cancel(&mut items, 4) && begin(alloc, &mut items) {
        assert!(rt; end(&mut items) && rests(&items, &[(5, 1)]));
    }
}

/// A flight that is given up leaves its blocks.
#[test]
fn a_failed_flight_leaves_its_blocks(rt: HostRuntime) {
    let Ok(mut items) = Items::new(rt.alloc()) else {
        return;
    };
    if commit(rt.alloc(), &mut items, &[6]) && begin(rt.alloc(), &mut items) {
        items.fail();
        assert!(rt; rests(&items, &[]) && !items.is_listed(6) && items.open_number() == 2);
    }
}

/// Nine blocks on the active list, by number: 20, 30; 5, 7, 9, 25; 1, 2, 3. None where a growth is refused.
fn nine_blocks(alloc: Global) -> Option<Items> {
    let mut items = Items::new(alloc).ok()?;
    let is_written = write(alloc, &mut items, &[30, 20])
        && write(alloc, &mut items, &[25, 5, 7, 9])
        && write(alloc, &mut items, &[1, 2, 3, 20]);
    if is_written { Some(items) } else { None }
}

/// Whether a plan has just these blocks, in order.
fn plans(plan: &FlushPlan, blocks: &[u64]) -> bool {
    for (planned, block) in plan.blocks().iter().zip(blocks) {
        if planned.0 != *block {
            return false;
        }
    }
    plan.blocks().len() == blocks.len()
        && plan.count() as usize == blocks.len()
        && plan.count == plan.count()
}

/// The eight that are first go home.
#[test]
fn a_flush_takes_the_first_eight(rt: HostRuntime) {
    const FIRST: &[u64] = &[20, 30, 5, 7, 9, 25, 1, 2];
    let (Some(items), Ok(owned)) = (nine_blocks(rt.alloc()), NumberMap::new(rt.alloc())) else {
        return;
    };
    assert!(rt; items.ail().len() == 9 && plans(&plan_beside(&items, &owned), FIRST));
}

/// None goes home that is owned, committed or in flight.
#[test]
fn a_flush_leaves_out_blocks_in_use(rt: HostRuntime) {
    const OTHERS: &[u64] = &[9, 25, 1, 2, 3];
    let Some(mut items) = nine_blocks(rt.alloc()) else {
        return;
    };
    let alloc = rt.alloc();
    if commit(alloc, &mut items, &[7])
        && begin(alloc, &mut items)
        && commit(alloc, &mut items, &[5, 20])
    {
        assert!(rt; plans(&items.flush_plan(&|block| block == 30), OTHERS));
        assert!(rt; items.has_due(&|block| block < 9));
        assert!(rt; !items.has_due(&|block| block < 26 || block == 30));
    }
}

/// Answers to so many writes, of which the second failed, and to the sync.
fn answers(count: u8, sync: bool) -> HomeAnswers {
    HomeAnswers {
        count,
        writes: [true, false, true, true, true, true, true, true],
        sync,
    }
}

/// A flush of three blocks with these answers: how many went home.
fn flush(items: &mut Items, answers: &HomeAnswers) -> Option<u32> {
    let plan = items.flush_plan(&|_| false);
    if plan.count() != answers.count {
        return None;
    }
    Some(items.flush_done(&plan, answers))
}

/// Of three blocks the middle one's write failed: it stays. Where the sync failed all stay.
#[test]
fn a_flush_leaves_what_failed(rt: HostRuntime) {
    let Ok(mut items) = Items::new(rt.alloc()) else {
        return;
    };
    if write(rt.alloc(), &mut items, &[3, 2, 1]) {
        assert!(rt; flush(&mut items, &answers(3, false)) == Some(0) && items.ail().len() == 3);
        assert!(rt; flush(&mut items, &answers(3, true)) == Some(2) && rests(&items, &[(2, 1)]));
    }
}

/// Answers after the last planned write don't count.
#[test]
fn all_answers_are_ok(rt: HostRuntime) {
    assert!(rt; all_ok(&answers(1, true)) && !all_ok(&answers(1, false)));
    assert!(rt; !all_ok(&answers(2, true)) && FlushPlan::none().count() == 0);
}
