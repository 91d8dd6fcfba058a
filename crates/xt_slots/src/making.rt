//! How the sixteen locked slots are made, four at a time.

ghost use Rattle.std.specs.Prelude.{◌≡◌, ◌<◌, ◌+◌, ◌-◌, ◌^◌, IfOk, OnOk};
ghost use Rattle.std.specs.Arc.{arc_value};
ghost use Rattle.xt_base.specs.declared.sizes.TheConstants.{SLOTS};
ghost use Rattle.xt_queue.specs.Passes.{fresh_post, fresh_posts};
ghost use Rattle.xt_cell.specs.Ledgers.{AreCut, AreNamed};
ghost use Rattle.xt_frames.specs.Shares.{AreThere, no_contents};

use crate::desk::{FromBlanks, Slots};
use crate::slot_lock::SlotLock;
use std::alloc::{AllocError, Global};
use std::sync::Arc;
use std::sync::ledger::Book;
use xt_base::names::Slot;
use xt_base::sizes::SLOTS;
use xt_cell::book::SlotBook;
use xt_cell::cell::SlotCell;
use xt_cell::house::{House, Of};
use xt_cell::poster::Poster;
use xt_cell::reserve::{Blanks, Books, Reserve};
use xt_frames::share::FrameShare;
use xt_frames::table::FrameTable;
use xt_queue::jobs::{JobQueue, PostPass};

/// Four cells.
#[derive(Drop)]
struct Four<H: House, const A: u8, const B: u8, const C: u8, const D: u8> {
    a: SlotLock<H, A>,
    b: SlotLock<H, B>,
    c: SlotLock<H, C>,
    d: SlotLock<H, D>,
}

/// All sixteen.
#[derive(Drop)]
struct Cells<H: House> {
    high: Four<H, 15, 14, 13, 12>,
    upper: Four<H, 11, 10, 9, 8>,
    lower: Four<H, 7, 6, 5, 4>,
    low: Four<H, 3, 2, 1, 0>,
}

/// The pass of slot S, the last of those that are left.
fn next_pass<const S: u8>(queue: &Arc<JobQueue, Global>, posts: &mut Vec<PostPass>) -> PostPass
    requires { posts.old.items ≡ fresh_posts (arc_value queue.now) (S + 1) }
    ensures pass { result ≡ fresh_post (arc_value queue.now) S }
    ensures left { posts.new.items ≡ fresh_posts (arc_value queue.now) S }
{
    let _queue = queue;
    let Some(pass) = posts.pop() else {
        unreachable!()
    };
    pass
}

/// The share of slot S, the last of those that are left.
fn next_share<const S: u8>(shares: &mut FrameTable) -> FrameShare
    requires slot { S < SLOTS }
    requires there { AreThere 0 (S + 1) shares.old }
    ensures share { result ≡ no_contents S }
    ensures left { AreThere 0 S shares.new }
{
    let Some(slot) = Slot::new(S) else {
        unreachable!()
    };
    let Some(share) = shares.take_share(slot) else {
        unreachable!()
    };
    share
}

/// The cell of slot S, in its share of the frames, with the last of the passes that are left. The one error is want of memory.
fn next_cell<H: House, const S: u8>(
    alloc: Global,
    book_limit: u64,
    count: Book<Of<H, S>>,
    queue: &Arc<JobQueue, Global>,
    posts: &mut Vec<PostPass>,
    share: FrameShare,
) -> Result<SlotLock<H, S>, AllocError>
    requires slot { S < SLOTS }
    requires none { count.total ≡ 0 }
    requires posts { posts.old.items ≡ fresh_posts (arc_value queue.now) (S + 1) }
    requires share { share ≡ no_contents S }
    ensures { OnOk result (posts.new.items ≡ fresh_posts (arc_value queue.now) S) }
{
    let pass = next_pass::<S>(queue, posts);
    let poster = Poster::new(Arc::try_clone(queue)?, pass);
    let book = SlotBook::new(alloc, share, count);
    Ok(SlotLock::new(SlotCell::new(alloc, book_limit, book, poster, None, None)))
}

/// The cells of four slots, from the highest down, with the last four of the passes that are left. The one error is want of memory.
fn next_four<H: House, const A: u8, const B: u8, const C: u8, const D: u8>(
    alloc: Global,
    book_limit: u64,
    counts: (
        Book<Of<H, A>>,
        Book<Of<H, B>>,
        Book<Of<H, C>>,
        Book<Of<H, D>>,
    ),
    queue: &Arc<JobQueue, Global>,
    posts: &mut Vec<PostPass>,
    shares: &mut FrameTable,
) -> Result<Four<H, A, B, C, D>, AllocError>
    requires slots { (A < SLOTS) × (A ≡ B + 1) × (B ≡ C + 1) × (C ≡ D + 1) }
    requires none { (counts.0.total ≡ 0) × (counts.1.total ≡ 0) × (counts.2.total ≡ 0) × (counts.3.total ≡ 0) }
    requires posts { posts.old.items ≡ fresh_posts (arc_value queue.now) (A + 1) }
    requires shares { AreThere 0 (A + 1) shares.old }
    ensures posts { OnOk result (posts.new.items ≡ fresh_posts (arc_value queue.now) D) }
    ensures shares { OnOk result (AreThere 0 D shares.new) }
{
    let (a, b, c, d) = counts;
    let a = next_cell(alloc, book_limit, a, queue, posts, next_share::<A>(shares))?;
    let b = next_cell(alloc, book_limit, b, queue, posts, next_share::<B>(shares))?;
    let c = next_cell(alloc, book_limit, c, queue, posts, next_share::<C>(shares))?;
    let d = next_cell(alloc, book_limit, d, queue, posts, next_share::<D>(shares))?;
    Ok(Four { a, b, c, d })
}

/// The cells of all slots. The one error is want of memory.
fn all_cells<H: House>(
    alloc: Global,
    book_limit: u64,
    books: Books<H>,
    queue: &Arc<JobQueue, Global>,
    posts: Vec<PostPass>,
    shares: FrameTable,
) -> Result<Cells<H>, AllocError>
    requires none { (books.b0.total ≡ 0) × (books.b1.total ≡ 0) × (books.b2.total ≡ 0) × (books.b3.total ≡ 0) × (books.b4.total ≡ 0) × (books.b5.total ≡ 0) × (books.b6.total ≡ 0) × (books.b7.total ≡ 0) × (books.b8.total ≡ 0) × (books.b9.total ≡ 0) × (books.b10.total ≡ 0) × (books.b11.total ≡ 0) × (books.b12.total ≡ 0) × (books.b13.total ≡ 0) × (books.b14.total ≡ 0) × (books.b15.total ≡ 0) }
    requires posts { posts.items ≡ fresh_posts (arc_value queue.now) SLOTS }
    requires shares { AreThere 0 SLOTS shares }
{
    let (mut posts, mut shares) = (posts, shares);
    let high = next_four(
        alloc,
        book_limit,
        (books.b15, books.b14, books.b13, books.b12),
        queue,
        &mut posts,
        &mut shares,
    )?;
    let upper = next_four(
        alloc,
        book_limit,
        (books.b11, books.b10, books.b9, books.b8),
        queue,
        &mut posts,
        &mut shares,
    )?;
    let lower = next_four(
        alloc,
        book_limit,
        (books.b7, books.b6, books.b5, books.b4),
        queue,
        &mut posts,
        &mut shares,
    )?;
    let low = next_four(
        alloc,
        book_limit,
        (books.b3, books.b2, books.b1, books.b0),
        queue,
        &mut posts,
        &mut shares,
    )?;
    Ok(Cells {
        high,
        upper,
        lower,
        low,
    })
}

/// The slots over their cells.
fn joined<H: House>(cells: Cells<H>) -> Slots<H> {
    let Cells {
        high,
        upper,
        lower,
        low,
    } = cells;
    Slots {
        c0: low.d,
        c1: low.c,
        c2: low.b,
        c3: low.a,
        c4: lower.d,
        c5: lower.c,
        c6: lower.b,
        c7: lower.a,
        c8: upper.d,
        c9: upper.c,
        c10: upper.b,
        c11: upper.a,
        c12: high.d,
        c13: high.c,
        c14: high.b,
        c15: high.a,
    }
}

impl<H: House> FromBlanks<H> for Slots<H> {
    fn from_blanks(
        alloc: Global,
        book_limit: u64,
        blanks: Blanks,
        queue: &Arc<JobQueue, Global>,
        posts: Vec<PostPass>,
    ) -> Result<(Self, Reserve<H>), AllocError>
        requires names { AreNamed H.names blanks }
        requires parts { AreCut H.all blanks }
        requires all { H.all ≡ 2 ^ 64 - 1 }
        requires posts { posts.items ≡ fresh_posts (arc_value queue.now) SLOTS }
        ensures reserve { IfOk result (λ made. made.1 ≡ 1) }
    {
        let (books, reserve) = Reserve::open(blanks);
        let shares = FrameTable::new(alloc, SLOTS as u8)?;
        let cells = all_cells(alloc, book_limit, books, queue, posts, shares)?;
        Ok((joined(cells), reserve))
    }
}
