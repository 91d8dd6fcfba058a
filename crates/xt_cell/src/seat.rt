//! What a caller keeps of its calls.

ghost use Rattle.std.specs.Prelude.{◌≡◌, ◌+◌, ◌++◌, ◌∷◌, ◌≤◌, ◌<◌, ◌^◌, [], None, OnOk, IfSome, replicate, slice_index, slice_set, true};
ghost use Rattle.xt_base.specs.declared.sizes.TheConstants.{SLOTS};
ghost use Rattle.xt_cell.specs.Counting.{counted};
ghost use Rattle.xt_queue.specs.Boards.{Rises};
ghost use Rattle.xt_queue.specs.Seats.{fresh_seat};
ghost use Rattle.xt_queue.specs.Words.{word_of};
ghost use Rattle.xt_cell.specs.HostSeats.{IsSameSeat, Shows, with_split};

use crate::house::{House, Of};
use crate::records::Receipt;
use crate::reserve::Reserve;
use crate::shares::{Counts, Shares};
use std::alloc::{AllocError, Global};
use std::marker::Model;
use std::sync::ledger::Book;
use xt_base::names::{Caller, Life, Slot};
use xt_base::steps::Reason;
use xt_queue::board::{Board, Seat};

/// One caller of the host: its number, its count of each slot's events, a receipt for each of them, and its seat at the board.
/// A thread has a seat of its own, and lends it to each call.
#[derive(Drop)]
pub struct HostSeat<H: House> {
    caller: Caller,
    shares: Shares<H>,
    receipts: Vec<Receipt>,
    board: Seat,
}

impl<H: House> Model for HostSeat<H> {
    ghost use Rattle.std.specs.Prelude.{◌-◌, vec_capacity, vec_len};
    ghost use Rattle.xt_cell.specs.HostSeats.{HostSeatView};

    ghost Value = { HostSeatView };

    ghost view = { λ s. record { caller = s.caller; counts = s.shares; receipts = s.receipts.items; board = s.board; room = vec_capacity s.receipts - vec_len s.receipts } };
}

impl<H: House> HostSeat<H> {
    /// The first seat of a host, by a reserve of which none was drawn, with a seat at the board.
    pub fn first(alloc: Global, reserve: &mut Reserve<H>, board: Seat) -> Self
        requires first { reserve.old ≡ 1 }
        ensures next { reserve.new ≡ 2 }
        ensures caller { result.caller ≡ 1 }
        ensures counts { result.counts ≡ replicate SLOTS 0 }
        ensures receipts { result.receipts ≡ [] }
        ensures board { result.board ≡ board }
    {
        let Some((caller, shares)) = reserve.draw() else {
            unreachable!()
        };
        HostSeat::new(alloc, caller, shares, board)
    }

    /// Another seat, split off this one: it has seen of the board what this one saw, and did nothing yet. None, and nothing changes, where
    /// the numbers of callers end.
    pub fn another(
        &mut self,
        alloc: Global,
        reserve: &mut Reserve<H>,
        board: &Board,
    ) -> Option<Self>
        requires board { self.old.board.board ≡ board.now }
        ensures split { IfSome result (λ _. self.new ≡ with_split self.old) }
        ensures kept { result ≡ None → self.new ≡ self.old }
        ensures caller { IfSome result (λ other. other.caller ≡ reserve.old) }
        ensures next { IfSome result (λ _. reserve.new ≡ reserve.old + 1) }
        ensures counts { IfSome result (λ other. other.counts ≡ replicate SLOTS 0) }
        ensures receipts { IfSome result (λ other. other.receipts ≡ []) }
        ensures seat { IfSome result (λ other. other.board ≡ fresh_seat board.now self.old.board.seen (self.old.board.rank + 1)) }
    {
        let (caller, shares) = reserve.draw()?;
        let seat = self.split(board);
        Some(HostSeat::new(alloc, caller, shares, seat))
    }

    /// The seat of a caller that did nothing yet.
    pub(crate) fn new(alloc: Global, caller: Caller, shares: Shares<H>, board: Seat) -> Self
        ensures caller { result.caller ≡ caller }
        ensures counts { result.counts ≡ shares }
        ensures receipts { result.receipts ≡ [] }
        ensures board { result.board ≡ board }
    {
        HostSeat {
            caller,
            shares,
            receipts: Vec::new(alloc),
            board,
        }
    }

    /// Its number, which no other seat of the host has.
    pub fn caller(&self) -> Caller
        ensures { result ≡ self.now.caller }
    {
        self.caller
    }

    /// How many events of a slot it counted.
    pub fn count(&self, slot: Slot) -> u64
        ensures { result ≡ slice_index self.now.counts slot }
    {
        self.shares.amount(slot)
    }

    /// Its receipts, in the order of its calls since it last forgot them.
    pub fn receipts(&self) -> &[Receipt]
        ensures { result.now ≡ self.now.receipts }
    {
        &self.receipts
    }

    /// Drops its receipts, so that a seat that calls for a day stays small. Its counts stay.
    pub fn forget(&mut self)
        ensures caller { self.new.caller ≡ self.old.caller }
        ensures counts { self.new.counts ≡ self.old.counts }
        ensures receipts { self.new.receipts ≡ [] }
        ensures board { self.new.board ≡ self.old.board }
    {
        self.receipts.clear();
    }

    /// Makes room for one receipt. The one error is want of memory.
    pub(crate) fn reserve(&mut self) -> Result<(), AllocError>
        ensures same { IsSameSeat self.old self.new }
        ensures room { OnOk result (1 ≤ self.new.room) }
    {
        self.receipts.reserve(1)
    }

    /// Whether there is room for one receipt already.
    pub(crate) fn has_room(&self) -> bool
        ensures { result ≡ true → 1 ≤ self.now.room }
    {
        self.receipts.len() < self.receipts.capacity()
    }

    /// Shows a life of a slot, live or shut for a reason, on the board.
    pub(crate) fn show(&mut self, board: &Board, slot: Slot, life: Life, shut: Option<Reason>)
        requires board { self.old.board.board ≡ board.now }
        ensures shown { Shows slot (word_of life shut) self.old.board self.new.board }
        ensures caller { self.new.caller ≡ self.old.caller }
        ensures counts { self.new.counts ≡ self.old.counts }
        ensures receipts { self.new.receipts ≡ self.old.receipts }
    {
        board.show(&mut self.board, slot, life, shut);
    }

    /// Another seat at the board, which has seen what this one saw.
    fn split(&mut self, board: &Board) -> Seat
        requires board { self.old.board.board ≡ board.now }
        ensures kept { self.new ≡ with_split self.old }
        ensures seat { result ≡ fresh_seat board.now self.old.board.seen (self.old.board.rank + 1) }
    {
        board.split(&mut self.board)
    }

    /// What the board shows of a slot: the life, and why it was shut; life 0 where nothing was shown.
    pub fn peek(&mut self, board: &Board, slot: Slot) -> (Life, Option<Reason>)
        requires board { self.old.board.board ≡ board.now }
        ensures board { self.new.board.board ≡ self.old.board.board }
        ensures shown { self.new.board.shown ≡ self.old.board.shown }
        ensures seen { self.new.board.seen ≡ slice_set self.old.board.seen slot (word_of result.0 result.1) }
        ensures rises { Rises self.old.board.seen self.new.board.seen }
        ensures splits { self.new.board.splits ≡ self.old.board.splits }
        ensures rank { self.new.board.rank ≡ self.old.board.rank }
        ensures caller { self.new.caller ≡ self.old.caller }
        ensures counts { self.new.counts ≡ self.old.counts }
        ensures receipts { self.new.receipts ≡ self.old.receipts }
    {
        board.peek(&mut self.board, slot)
    }

    /// Counts one event of a slot in its book, and keeps the receipt.
    pub(crate) fn note<const S: u8>(&mut self, receipt: Receipt, book: &mut Book<Of<H, S>>)
    where
        Shares<H>: Counts<H, S>,
        requires room { 1 ≤ self.old.room }
        requires few { book.old.total < 2 ^ 63 }
        ensures caller { self.new.caller ≡ self.old.caller }
        ensures counted { ⟦<Shares<H> as Counts<H, S>>⟧.counts self.new.counts ≡ counted S (⟦<Shares<H> as Counts<H, S>>⟧.counts self.old.counts) }
        ensures receipts { self.new.receipts ≡ self.old.receipts ++ receipt ∷ [] }
        ensures board { self.new.board ≡ self.old.board }
        ensures total { book.new.total ≡ book.old.total + 1 }
    {
        self.receipts.push_reserved(receipt);
        self.shares.count(book);
    }
}
