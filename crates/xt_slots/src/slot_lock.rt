//! The lock of one slot, with what those sleep on who wait for a change of it.

ghost use Rattle.std.specs.Prelude.{◌≡◌, ◌<◌, None, false, slice_index, true};
ghost use Rattle.xt_base.specs.Calls.{is_unmount};
ghost use Rattle.xt_base.specs.Isolation.{is_no_memory};
ghost use Rattle.xt_base.specs.Replies.{is_read, may_get};
ghost use Rattle.xt_base.specs.declared.sizes.TheConstants.{SLOTS};
ghost use Rattle.xt_base.specs.declared.steps.Answer.{Answer as AnAnswer};
ghost use Rattle.xt_base.specs.declared.steps.Answer.TheVariants as Answered;
ghost use Rattle.xt_base.specs.declared.steps.Reply.TheVariants.{Okay};
ghost use Rattle.xt_base.specs.declared.steps.Request.TheVariants as ARequest;
ghost use Rattle.xt_base.specs.declared.steps.Step.{Step as AStep};
ghost use Rattle.xt_cell.specs.HostSeats.{IsSameSeat};
ghost use Rattle.xt_queue.specs.Boards.{Rises};
ghost use Rattle.xt_queue.specs.Words.{word_of};
ghost use Rattle.xt_receipts.specs.Calls.{Receives};
ghost use Rattle.xt_slots.specs.Commands.{Did, MayBe, slot_of, with_counts};

use crate::commands::{Command, Outcome};
use std::sync::{Condvar, Mutex, Wait};
use xt_base::steps::{Reply, Request};
use xt_cell::account::Account;
use xt_cell::cell::SlotCell;
use xt_cell::house::House;
use xt_cell::mount_ref::MountRef;
use xt_cell::seat::HostSeat;
use xt_cell::shares::{Counts, Shares};
use xt_queue::board::Board;
use xt_receipts::again::asks_again;

/// A slot behind its lock. Whoever waits for a change of it sleeps until the next command was done.
#[derive(Drop)]
pub struct SlotLock<H: House, const S: u8> {
    cell: Mutex<SlotCell<H, S>>,
    changed: Condvar,
}

impl<H: House, const S: u8> SlotLock<H, S> {
    /// The lock of a slot.
    pub fn new(cell: SlotCell<H, S>) -> Self {
        SlotLock {
            cell: Mutex::new(cell),
            changed: Condvar::new(),
        }
    }

    /// Serves a request to a mount of the slot, whose book is folded first where it is at its limit, and then wakes all who wait for a
    /// change of it. A request that waits, and is told to try again, lets nobody go: it wakes nobody, and sleeps. It does so from the same
    /// hold on, so that it misses no change after its reply.
    pub fn ask<R: Wait>(
        &self,
        rt: &R,
        seat: &mut HostSeat<H>,
        board: &Board,
        at: MountRef,
        request: Request,
        waits: bool,
    ) -> Reply
    where
        Shares<H>: Counts<H, S>,
        requires slot { at.slot ≡ S }
        requires kind { is_unmount request ≡ false }
        requires board { seat.old.board.board ≡ board.now }
        ensures refused { is_no_memory result ≡ true → IsSameSeat (with_counts (⟦<Shares<H> as Counts<H, S>>⟧.counts seat.old.counts) seat.old) (with_counts (⟦<Shares<H> as Counts<H, S>>⟧.counts seat.new.counts) seat.new) }
        ensures received { is_no_memory result ≡ false → (answer : AnAnswer) × Receives at.slot (AStep.Call at.slot at.life request answer) result (with_counts (⟦<Shares<H> as Counts<H, S>>⟧.counts seat.old.counts) seat.old) (with_counts (⟦<Shares<H> as Counts<H, S>>⟧.counts seat.new.counts) seat.new) }
        ensures unasked { is_no_memory result ≡ false → is_read request ≡ false → Receives at.slot (AStep.Call at.slot at.life request Answered.None) result (with_counts (⟦<Shares<H> as Counts<H, S>>⟧.counts seat.old.counts) seat.old) (with_counts (⟦<Shares<H> as Counts<H, S>>⟧.counts seat.new.counts) seat.new) }
        ensures kind { may_get request result ≡ true }
        ensures shut { request ≡ ARequest.Shutdown → result ≡ Okay → word_of at.life None < slice_index seat.new.board.seen at.slot }
        ensures board { seat.new.board.board ≡ seat.old.board.board }
        ensures rises { Rises seat.old.board.seen seat.new.board.seen }
    {
        let mut cell = self.cell.lock(rt);
        cell.fold();
        let reply = called(rt, &mut *cell, seat, board, at, request);
        if waits && asks_again(&reply) {
            let _cell = self.changed.wait(rt, cell);
        } else {
            drop(cell);
            self.changed.notify_all();
        }
        reply
    }

    /// Does a command with the slot, whose book is folded first where it is at its limit, and then wakes all who wait for a change of it.
    pub fn serve<R: Wait>(
        &self,
        rt: &R,
        seat: &mut HostSeat<H>,
        board: &Board,
        command: Command,
    ) -> Outcome
    where
        Shares<H>: Counts<H, S>,
        requires slot { slot_of command ≡ S }
        requires kind { MayBe command }
        requires board { seat.old.board.board ≡ board.now }
        ensures did { Did command (with_counts (⟦<Shares<H> as Counts<H, S>>⟧.counts seat.old.counts) seat.old) (with_counts (⟦<Shares<H> as Counts<H, S>>⟧.counts seat.new.counts) seat.new) result }
        ensures board { seat.new.board.board ≡ seat.old.board.board }
    {
        let mut cell = self.cell.lock(rt);
        cell.fold();
        let outcome = command.run(rt, &mut *cell, seat, board);
        drop(cell);
        self.changed.notify_all();
        outcome
    }

    /// Closes its book, which is that of its slot.
    pub fn into_account(self) -> Account
        requires slot { S < SLOTS }
        ensures slot { result.base.state.slot ≡ S }
    {
        self.cell.into_inner().into_account()
    }
}

/// Serves a request to a mount of a locked slot.
fn called<H: House, R: Wait, const S: u8>(
    rt: &R,
    cell: &mut SlotCell<H, S>,
    seat: &mut HostSeat<H>,
    board: &Board,
    at: MountRef,
    request: Request,
) -> Reply
where
    Shares<H>: Counts<H, S>,
    requires slot { at.slot ≡ S }
    requires kind { is_unmount request ≡ false }
    requires board { seat.old.board.board ≡ board.now }
    ensures refused { is_no_memory result ≡ true → IsSameSeat (with_counts (⟦<Shares<H> as Counts<H, S>>⟧.counts seat.old.counts) seat.old) (with_counts (⟦<Shares<H> as Counts<H, S>>⟧.counts seat.new.counts) seat.new) }
    ensures received { is_no_memory result ≡ false → (answer : AnAnswer) × Receives at.slot (AStep.Call at.slot at.life request answer) result (with_counts (⟦<Shares<H> as Counts<H, S>>⟧.counts seat.old.counts) seat.old) (with_counts (⟦<Shares<H> as Counts<H, S>>⟧.counts seat.new.counts) seat.new) }
    ensures unasked { is_no_memory result ≡ false → is_read request ≡ false → Receives at.slot (AStep.Call at.slot at.life request Answered.None) result (with_counts (⟦<Shares<H> as Counts<H, S>>⟧.counts seat.old.counts) seat.old) (with_counts (⟦<Shares<H> as Counts<H, S>>⟧.counts seat.new.counts) seat.new) }
    ensures kind { may_get request result ≡ true }
    ensures shut { request ≡ ARequest.Shutdown → result ≡ Okay → word_of at.life None < slice_index seat.new.board.seen at.slot }
    ensures board { seat.new.board.board ≡ seat.old.board.board }
    ensures rises { Rises seat.old.board.seen seat.new.board.seen }
{
    cell.call(rt, seat, board, at, request)
}
