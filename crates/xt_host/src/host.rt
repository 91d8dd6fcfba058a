//! The running host: sixteen locked slots, the queue of jobs, the board, and the seats to come.

ghost use Rattle.std.specs.Prelude.{◌≡◌, ◌<◌, ◌+◌, ◌^◌, IfOk, IsErr, IfErr, OnErr, OnOk, None, [], length, replicate, slice_index, slice_set};
ghost use Rattle.std.specs.Arc.{arc_value};
ghost use Rattle.xt_base.specs.declared.sizes.TheConstants.{SLOTS};
ghost use Rattle.xt_base.specs.declared.steps.Errno.TheVariants.{NoSpace};
ghost use Rattle.xt_cell.specs.HostSeats.{with_split};
ghost use Rattle.xt_receipts.specs.Closing.{AreOwn, IsClosed};
ghost use Rattle.xt_queue.specs.Boards.{Rises};
ghost use Rattle.xt_queue.specs.Seats.{fresh_seat};
ghost use Rattle.xt_queue.specs.Words.{word_of};

use std::alloc::Global;
use std::sync::{Arc, Mutex, Wait};
use xt_base::names::{Life, Slot};
use xt_base::sizes::SLOTS;
use xt_base::steps::{Errno, Reason};
use xt_cell::account::Account;
use xt_cell::house::House;
use xt_cell::reserve::Reserve;
use xt_cell::seat::HostSeat;
use xt_queue::board::Board;
use xt_queue::jobs::{JobQueue, WorkPass};
use xt_receipts::comparing::compare_all;
use xt_receipts::fault::CloseFault;
use xt_slots::desk::{IntoBooks, Slots};

/// The greatest limit of a book, in entries.
pub const BOOK_ENTRIES: u64 = 1_048_576;

/// A host of sixteen slots, for many threads: each slot behind a lock of its own, one queue of jobs, one board.
#[derive(Drop)]
pub struct Host<H: House, D = Slots<H>> {
    pub(crate) alloc: Global,
    pub(crate) book_limit: u64,
    pub(crate) board: Board,
    pub(crate) queue: Arc<JobQueue, Global>,
    pub(crate) reserve: Mutex<Reserve<H>>,
    pub(crate) slots: D,
}

impl<H: House, D> Host<H, D> {
    /// From how many entries on a book is folded: an event that finds so many folds them first, where there is memory for the state of
    /// its slot. Tests show that; clauses say what a fold makes of a book, and of the limit that it is the one that `new` was given.
    pub fn book_limit(&self) -> u64
        ensures { result ≡ self.now.book_limit }
    {
        self.book_limit
    }

    /// Another seat, for another thread: it has seen of the board what this one saw. ENOSPC where the numbers of callers end.
    pub fn seat<R: Wait>(&self, rt: &R, seat: &mut HostSeat<H>) -> Result<HostSeat<H>, Errno>
        requires board { seat.old.board.board ≡ self.now.board }
        ensures split { OnOk result (seat.new ≡ with_split seat.old) }
        ensures kept { OnErr result (seat.new ≡ seat.old) }
        ensures counts { IfOk result (λ other. other.counts ≡ replicate SLOTS 0) }
        ensures receipts { IfOk result (λ other. other.receipts ≡ []) }
        ensures board { IfOk result (λ other. (other.board.board ≡ self.now.board) × (other.board.seen ≡ seat.old.board.seen)) }
        ensures fresh { IfOk result (λ other. other.board ≡ fresh_seat self.now.board seat.old.board.seen (seat.old.board.rank + 1)) }
        ensures space { IfErr result (λ errno. errno ≡ NoSpace) }
    {
        let mut reserve = self.reserve.lock(rt);
        let Some(other) = seat.another(self.alloc, &mut *reserve, &self.board) else {
            return Err(Errno::NoSpace);
        };
        Ok(other)
    }

    /// The last life of a slot that the board tells of, and why it was shut; life 0 where nothing was shown. It takes no lock. What is
    /// answered is at least what this seat saw before: a life that it saw shut is shut for good.
    pub fn seen_shut(&self, seat: &mut HostSeat<H>, slot: Slot) -> (Life, Option<Reason>)
        requires board { seat.old.board.board ≡ self.now.board }
        ensures shown { seat.new.board.shown ≡ seat.old.board.shown }
        ensures seen { seat.new.board.seen ≡ slice_set seat.old.board.seen slot (word_of result.0 result.1) }
        ensures rises { Rises seat.old.board.seen seat.new.board.seen }
        ensures splits { seat.new.board.splits ≡ seat.old.board.splits }
        ensures rank { seat.new.board.rank ≡ seat.old.board.rank }
        ensures board { seat.new.board.board ≡ seat.old.board.board }
        ensures counts { seat.new.counts ≡ seat.old.counts }
        ensures receipts { seat.new.receipts ≡ seat.old.receipts }
        ensures caller { seat.new.caller ≡ seat.old.caller }
    {
        seat.peek(&self.board, slot)
    }
}

impl<H: House, D> Host<H, D> {
    /// Closes its sixteen books, for those who want to look at them or run them again.
    pub fn into_books(self) -> [Account; SLOTS]
    where
        D: IntoBooks,
        ensures slots { length result ≡ SLOTS }
        ensures own { AreOwn 0 result }
    {
        let Host { slots, .. } = self;
        slots.into_books()
    }

    /// Ends the host: closes its sixteen books and compares them with the seats that came back. Nothing is handed back in either case.
    pub fn close(self, seats: Vec<HostSeat<H>>, passes: Vec<WorkPass>) -> Result<(), CloseFault>
    where
        D: IntoBooks,
        ensures { IsClosed seats.items result }
    {
        let _passes = passes;
        let books = self.into_books();
        compare_all(&books, &seats)
    }
}
