//! Whether the books have as many events as the seats counted.

ghost use Rattle.std.specs.Prelude.{◌≡◌, ◌≤◌, ◌<◌, ◌↔◌, IsTrue, MatchOption, length};
ghost use Rattle.xt_base.specs.declared.sizes.TheConstants.{SLOTS};
ghost use Rattle.xt_receipts.specs.Closing.{AreEven, IsFirstUneven, counted_by};

use xt_base::names::Slot;
use xt_cell::account::Account;
use xt_cell::house::House;
use xt_cell::seat::HostSeat;

/// Whether the seats counted so many events of a slot. Each seat's number is taken off, so that no sum can wrap.
fn is_counted<H: House>(count: u64, slot: Slot, seats: &[HostSeat<H>]) -> bool
    ensures { IsTrue result ↔ (count ≡ counted_by slot seats.now) }
{
    let mut left = count;
    let mut rest = seats;
    while let Some((seat, tail)) = rest.split_first() {
        let amount = seat.count(slot);
        if amount > left {
            return false;
        }
        left -= amount;
        rest = tail;
    }
    left == 0
}

/// The first slot whose book does not have as many events as the seats counted.
pub fn first_uneven<H: House>(books: &[Account], seats: &[HostSeat<H>]) -> Option<Slot>
    requires { length books.now ≤ SLOTS }
    ensures { MatchOption result (AreEven 0 books.now seats.now) (λ slot. IsFirstUneven 0 books.now seats.now slot) }
{
    let mut index = 0;
    let mut rest = books;
    while let Some((book, tail)) = rest.split_first() {
        let Some(slot) = Slot::new(index) else {
            unreachable!()
        };
        if !is_counted(book.count(), slot, seats) {
            return Some(slot);
        }
        index += 1;
        rest = tail;
    }
    None
}
