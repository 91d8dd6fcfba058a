//! What each event of a slot has around its change: room before it, and the board after it.

ghost use Rattle.std.specs.Prelude.{◌≡◌, ◌≤◌, OnOk};
ghost use Rattle.xt_cell.specs.Books.{IsSameBook};
ghost use Rattle.xt_cell.specs.Cells.{IsShown, word_shown};
ghost use Rattle.xt_cell.specs.HostSeats.{IsSameSeat};
ghost use Rattle.xt_queue.specs.Boards.{Rises};

use crate::book::SlotBook;
use crate::house::House;
use crate::seat::HostSeat;
use std::alloc::AllocError;
use xt_base::steps::Reason;
use xt_queue::board::Board;

/// Makes room for an event and its posts in the book, and for its receipt at the seat. The one error is want of memory.
#[inline(always)]
pub fn make_room<H: House, const S: u8>(
    book: &mut SlotBook<H, S>,
    seat: &mut HostSeat<H>,
) -> Result<(), AllocError>
    ensures book { IsSameBook book.old book.new }
    ensures seat { IsSameSeat seat.old seat.new }
    ensures room { OnOk result (3 ≤ book.new.room) }
    ensures place { OnOk result (1 ≤ seat.new.room) }
{
    book.reserve()?;
    seat.reserve()
}

/// Shows a mount that is shut, where it was live before or was asked to be shut.
pub fn show_shut<H: House, const S: u8>(
    book: &SlotBook<H, S>,
    seat: &mut HostSeat<H>,
    board: &Board,
    is_asked: bool,
    before: Option<Reason>,
)
    requires board { seat.old.board.board ≡ board.now }
    ensures shown { IsShown S (word_shown is_asked before book.now.state.mounted) seat.old.board seat.new.board }
    ensures board { seat.new.board.board ≡ seat.old.board.board }
    ensures rises { Rises seat.old.board.seen seat.new.board.seen }
    ensures splits { seat.new.board.splits ≡ seat.old.board.splits }
    ensures rank { seat.new.board.rank ≡ seat.old.board.rank }
    ensures caller { seat.new.caller ≡ seat.old.caller }
    ensures counts { seat.new.counts ≡ seat.old.counts }
    ensures receipts { seat.new.receipts ≡ seat.old.receipts }
{
    let slot = book.slot();
    let Some(life) = slot.life() else {
        return;
    };
    let shut = slot.shut();
    if shut.is_some() && (is_asked || before.is_none()) {
        seat.show(board, slot.slot(), life, shut);
    }
}
