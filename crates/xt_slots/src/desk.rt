//! The sixteen locked slots of a host, and what a host asks of them.

ghost use Rattle.xt_base.specs.declared.sizes.TheConstants.{SLOTS};
ghost use Rattle.std.specs.Arc.{arc_value};
ghost use Rattle.std.specs.Prelude.{◌≡◌, ◌<◌, ◌-◌, ◌^◌, IfOk, None, false, length, slice_index, true};
ghost use Rattle.xt_base.specs.Calls.{is_unmount};
ghost use Rattle.xt_base.specs.Isolation.{is_no_memory};
ghost use Rattle.xt_base.specs.Replies.{is_read, may_get};
ghost use Rattle.xt_base.specs.declared.steps.Answer.{Answer as AnAnswer};
ghost use Rattle.xt_base.specs.declared.steps.Answer.TheVariants as Answered;
ghost use Rattle.xt_base.specs.declared.steps.Reply.TheVariants.{Okay};
ghost use Rattle.xt_base.specs.declared.steps.Request.TheVariants as ARequest;
ghost use Rattle.xt_base.specs.declared.steps.Step.{Step as AStep};
ghost use Rattle.xt_cell.specs.HostSeats.{IsSameSeat};
ghost use Rattle.xt_cell.specs.Ledgers.{AreCut, AreNamed};
ghost use Rattle.xt_receipts.specs.Calls.{Receives};
ghost use Rattle.xt_receipts.specs.Closing.{AreOwn};
ghost use Rattle.xt_queue.specs.Boards.{Rises};
ghost use Rattle.xt_queue.specs.Passes.{fresh_posts};
ghost use Rattle.xt_queue.specs.Words.{word_of};
ghost use Rattle.xt_slots.specs.Commands.{Did, MayBe};

use crate::commands::{Command, Outcome};
use crate::slot_lock::SlotLock;
use std::alloc::{AllocError, Global};
use std::sync::{Arc, Wait};
use xt_base::sizes::SLOTS;
use xt_base::steps::{Reply, Request};
use xt_cell::account::Account;
use xt_cell::house::House;
use xt_cell::mount_ref::MountRef;
use xt_cell::reserve::{Blanks, Reserve};
use xt_cell::seat::HostSeat;
use xt_queue::board::Board;
use xt_queue::jobs::{JobQueue, PostPass};

/// Slots, each behind a lock of its own, of which a mount can be asked.
pub trait Desk<H: House, R: Wait> {
    /// Locks a slot and serves a request to its mount. One that waits sleeps until the slot changes, where its reply asks to try again.
    fn ask(
        &self,
        rt: &R,
        seat: &mut HostSeat<H>,
        board: &Board,
        at: MountRef,
        request: Request,
        waits: bool,
    ) -> Reply
        requires kind { is_unmount request ≡ false }
        requires board { seat.old.board.board ≡ board.now }
        ensures refused { is_no_memory result ≡ true → IsSameSeat seat.old seat.new }
        ensures received { is_no_memory result ≡ false → (answer : AnAnswer) × Receives at.slot (AStep.Call at.slot at.life request answer) result seat.old seat.new }
        ensures unasked { is_no_memory result ≡ false → is_read request ≡ false → Receives at.slot (AStep.Call at.slot at.life request Answered.None) result seat.old seat.new }
        ensures kind { may_get request result ≡ true }
        ensures shut { request ≡ ARequest.Shutdown → result ≡ Okay → word_of at.life None < slice_index seat.new.board.seen at.slot }
        ensures board { seat.new.board.board ≡ seat.old.board.board }
        ensures rises { Rises seat.old.board.seen seat.new.board.seen };
}

/// Slots that can be made anew.
pub trait FromBlanks<H: House> {
    /// Opens the ledgers of the house: empty slots over their books, which post into the queue, and the reserve, of which no seat was
    /// drawn. The one error is want of memory.
    fn from_blanks(
        alloc: Global,
        book_limit: u64,
        blanks: Blanks,
        queue: &Arc<JobQueue, Global>,
        posts: Vec<PostPass>,
    ) -> Result<(Self, Reserve<H>), AllocError>
        requires names { AreNamed H.names blanks }
        requires parts { AreCut H.all blanks }
        requires all { H.all ≡ 2 ^ 64 - 1 }
        requires posts { posts.items ≡ fresh_posts (arc_value queue.now) SLOTS }
        ensures reserve { IfOk result (λ made. made.1 ≡ 1) };
}

/// Slots whose books can be closed.
pub trait IntoBooks {
    /// Closes its books, slot by slot, for those who want to look at them or run them again.
    fn into_books(self) -> [Account; SLOTS]
        ensures slots { length result ≡ SLOTS }
        ensures own { AreOwn 0 result };
}

/// Sixteen slots.
#[derive(Drop)]
pub struct Slots<H: House> {
    pub(crate) c0: SlotLock<H, 0>,
    pub(crate) c1: SlotLock<H, 1>,
    pub(crate) c2: SlotLock<H, 2>,
    pub(crate) c3: SlotLock<H, 3>,
    pub(crate) c4: SlotLock<H, 4>,
    pub(crate) c5: SlotLock<H, 5>,
    pub(crate) c6: SlotLock<H, 6>,
    pub(crate) c7: SlotLock<H, 7>,
    pub(crate) c8: SlotLock<H, 8>,
    pub(crate) c9: SlotLock<H, 9>,
    pub(crate) c10: SlotLock<H, 10>,
    pub(crate) c11: SlotLock<H, 11>,
    pub(crate) c12: SlotLock<H, 12>,
    pub(crate) c13: SlotLock<H, 13>,
    pub(crate) c14: SlotLock<H, 14>,
    pub(crate) c15: SlotLock<H, 15>,
}

impl<H: House> Slots<H> {
    /// Locks the slot of a command, and does it there.
    pub fn serve<R: Wait>(
        &self,
        rt: &R,
        seat: &mut HostSeat<H>,
        board: &Board,
        command: Command,
    ) -> Outcome
        requires kind { MayBe command }
        requires board { seat.old.board.board ≡ board.now }
        ensures did { Did command seat.old seat.new result }
        ensures board { seat.new.board.board ≡ seat.old.board.board }
    {
        match command.slot().index() {
            0 => self.c0.serve(rt, seat, board, command),
            1 => self.c1.serve(rt, seat, board, command),
            2 => self.c2.serve(rt, seat, board, command),
            3 => self.c3.serve(rt, seat, board, command),
            4 => self.c4.serve(rt, seat, board, command),
            5 => self.c5.serve(rt, seat, board, command),
            6 => self.c6.serve(rt, seat, board, command),
            7 => self.c7.serve(rt, seat, board, command),
            8 => self.c8.serve(rt, seat, board, command),
            9 => self.c9.serve(rt, seat, board, command),
            10 => self.c10.serve(rt, seat, board, command),
            11 => self.c11.serve(rt, seat, board, command),
            12 => self.c12.serve(rt, seat, board, command),
            13 => self.c13.serve(rt, seat, board, command),
            14 => self.c14.serve(rt, seat, board, command),
            15 => self.c15.serve(rt, seat, board, command),
            _ => unreachable!(),
        }
    }
}

impl<H: House, R: Wait> Desk<H, R> for Slots<H> {
    fn ask(
        &self,
        rt: &R,
        seat: &mut HostSeat<H>,
        board: &Board,
        at: MountRef,
        request: Request,
        waits: bool,
    ) -> Reply
        requires kind { is_unmount request ≡ false }
        requires board { seat.old.board.board ≡ board.now }
        ensures refused { is_no_memory result ≡ true → IsSameSeat seat.old seat.new }
        ensures received { is_no_memory result ≡ false → (answer : AnAnswer) × Receives at.slot (AStep.Call at.slot at.life request answer) result seat.old seat.new }
        ensures unasked { is_no_memory result ≡ false → is_read request ≡ false → Receives at.slot (AStep.Call at.slot at.life request Answered.None) result seat.old seat.new }
        ensures kind { may_get request result ≡ true }
        ensures shut { request ≡ ARequest.Shutdown → result ≡ Okay → word_of at.life None < slice_index seat.new.board.seen at.slot }
        ensures board { seat.new.board.board ≡ seat.old.board.board }
        ensures rises { Rises seat.old.board.seen seat.new.board.seen }
    {
        match at.slot.index() {
            0 => self.c0.ask(rt, seat, board, at, request, waits),
            1 => self.c1.ask(rt, seat, board, at, request, waits),
            2 => self.c2.ask(rt, seat, board, at, request, waits),
            3 => self.c3.ask(rt, seat, board, at, request, waits),
            4 => self.c4.ask(rt, seat, board, at, request, waits),
            5 => self.c5.ask(rt, seat, board, at, request, waits),
            6 => self.c6.ask(rt, seat, board, at, request, waits),
            7 => self.c7.ask(rt, seat, board, at, request, waits),
            8 => self.c8.ask(rt, seat, board, at, request, waits),
            9 => self.c9.ask(rt, seat, board, at, request, waits),
            10 => self.c10.ask(rt, seat, board, at, request, waits),
            11 => self.c11.ask(rt, seat, board, at, request, waits),
            12 => self.c12.ask(rt, seat, board, at, request, waits),
            13 => self.c13.ask(rt, seat, board, at, request, waits),
            14 => self.c14.ask(rt, seat, board, at, request, waits),
            15 => self.c15.ask(rt, seat, board, at, request, waits),
            _ => unreachable!(),
        }
    }
}

impl<H: House> IntoBooks for Slots<H> {
    fn into_books(self) -> [Account; SLOTS]
        ensures slots { length result ≡ SLOTS }
        ensures own { AreOwn 0 result }
    {
        let Slots {
            c0,
            c1,
            c2,
            c3,
            c4,
            c5,
            c6,
            c7,
            c8,
            c9,
            c10,
            c11,
            c12,
            c13,
            c14,
            c15,
        } = self;
        [
            c0.into_account(),
            c1.into_account(),
            c2.into_account(),
            c3.into_account(),
            c4.into_account(),
            c5.into_account(),
            c6.into_account(),
            c7.into_account(),
            c8.into_account(),
            c9.into_account(),
            c10.into_account(),
            c11.into_account(),
            c12.into_account(),
            c13.into_account(),
            c14.into_account(),
            c15.into_account(),
        ]
    }
}
