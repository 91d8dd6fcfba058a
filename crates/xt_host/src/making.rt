//! How a host is made: its queue, its board and its reserve first, and then its slots.

ghost use Rattle.std.specs.Prelude.{◌≡◌, ◌≢◌, ◌-◌, ◌^◌, ◌↔◌, IsTrue, IfErr, IfOk, OnOk, [], replicate, take};
ghost use Rattle.std.specs.Arc.{arc_value};
ghost use Rattle.xt_base.specs.declared.sizes.TheConstants.{SLOTS, WORKERS};
ghost use Rattle.xt_base.specs.declared.steps.Errno.TheVariants.{Invalid, NoMemory};
ghost use Rattle.xt_queue.specs.Passes.{fresh_posts, fresh_works};
ghost use Rattle.xt_queue.specs.Seats.{fresh_seat};
ghost use Rattle.xt_queue.specs.Boards.{blank_words};
ghost use Rattle.xt_host.specs.Making.{MayHave};
ghost use Rattle.xt_cell.specs.Ledgers.{AreCut, AreNamed};

use crate::host::{BOOK_ENTRIES, Host};
use std::alloc::{AllocError, Global};
use std::sync::{Arc, Mutex};
use xt_base::sizes::WORKERS;
use xt_base::steps::Errno;
use xt_cell::house::House;
use xt_cell::reserve::Blanks;
use xt_cell::seat::HostSeat;
use xt_queue::board::{Board, Seat};
use xt_queue::jobs::{JobQueue, Passes, PostPass, WorkPass};
use xt_slots::desk::FromBlanks;

/// Makes the slots and the reserve, and draws the first seat. The one error is want of memory.
fn opened<H: House, D>(
    alloc: Global,
    book_limit: u64,
    blanks: Blanks,
    queue: Arc<JobQueue, Global>,
    board: Board,
    seat: Seat,
    posts: Vec<PostPass>,
) -> Result<(Host<H, D>, HostSeat<H>), AllocError>
where
    D: FromBlanks<H>,
    requires names { AreNamed H.names blanks }
    requires parts { AreCut H.all blanks }
    requires all { H.all ≡ 2 ^ 64 - 1 }
    requires posts { posts.items ≡ fresh_posts (arc_value queue) SLOTS }
    requires seat { seat ≡ fresh_seat board blank_words 0 }
    ensures limit { IfOk result (λ made. made.0.book_limit ≡ book_limit) }
    ensures board { IfOk result (λ made. made.1.board ≡ fresh_seat made.0.board blank_words 0) }
    ensures queue { IfOk result (λ made. arc_value made.0.queue ≡ arc_value queue) }
    ensures caller { IfOk result (λ made. made.1.caller ≡ 1) }
    ensures counts { IfOk result (λ made. made.1.counts ≡ replicate SLOTS 0) }
    ensures receipts { IfOk result (λ made. made.1.receipts ≡ []) }
{
    let (slots, mut reserve) = D::from_blanks(alloc, book_limit, blanks, &queue, posts)?;
    let seat = HostSeat::first(alloc, &mut reserve, seat);
    let host = Host {
        alloc,
        book_limit,
        board,
        queue,
        reserve: Mutex::new(reserve),
        slots,
    };
    Ok((host, seat))
}

/// Whether a host may have so many workers, and books of such a limit.
fn may_have(workers: usize, book_limit: u64) -> bool
    ensures { IsTrue result ↔ MayHave workers book_limit }
{
    (1..=WORKERS).contains(&workers) && (1..=BOOK_ENTRIES).contains(&book_limit)
}

impl<H: House, D> Host<H, D> {
    /// A host of sixteen empty slots, its first seat, and the passes of its workers, 1 to 8, with a limit of its books of 1 to 1,048,576
    /// entries. EINVAL for other numbers, else ENOMEM where memory is refused. The blanks are its sixteen ledgers; a program picks their names once, where it calls this.
    pub fn new(
        alloc: Global,
        blanks: Blanks,
        workers: usize,
        book_limit: u64,
    ) -> Result<(Self, HostSeat<H>, Vec<WorkPass>), Errno>
    where
        D: FromBlanks<H>,
        requires names { AreNamed H.names blanks }
        requires parts { AreCut H.all blanks }
        requires all { H.all ≡ 2 ^ 64 - 1 }
        ensures valid { OnOk result (MayHave workers book_limit) }
        ensures invalid { IfErr result (λ errno. errno ≡ Invalid → MayHave workers book_limit → ⊥) }
        ensures memory { IfErr result (λ errno. errno ≢ Invalid → (errno ≡ NoMemory) × MayHave workers book_limit) }
        ensures limit { IfOk result (λ made. made.0.book_limit ≡ book_limit) }
        ensures board { IfOk result (λ made. made.1.board ≡ fresh_seat made.0.board blank_words 0) }
        ensures caller { IfOk result (λ made. made.1.caller ≡ 1) }
        ensures counts { IfOk result (λ made. made.1.counts ≡ replicate SLOTS 0) }
        ensures receipts { IfOk result (λ made. made.1.receipts ≡ []) }
        ensures passes { IfOk result (λ made. made.2.items ≡ take workers (fresh_works (arc_value made.0.queue) WORKERS)) }
    {
        if !may_have(workers, book_limit) {
            return Err(Errno::Invalid);
        }
        let (queue, passes) = JobQueue::new(alloc)?;
        let (board, seat) = Board::new(alloc)?;
        let Ok(queue) = Arc::new(alloc, queue) else {
            return Err(Errno::NoMemory);
        };
        let Passes { posts, mut works } = passes;
        works.truncate(workers);
        match opened(alloc, book_limit, blanks, queue, board, seat, posts) {
            Ok((host, seat)) => Ok((host, seat, works)),
            Err(_) => Err(Errno::NoMemory),
        }
    }
}
