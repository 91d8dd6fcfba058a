//! Whether each receipt that the seats kept has its entry in a book.

ghost use Rattle.std.specs.Prelude.{◌≡◌, ◌≤◌, ◌<◌, ◌^◌, ◌↔◌, IsTrue, MatchOption, length, replicate, slice_index};
ghost use Rattle.xt_base.specs.declared.sizes.TheConstants.{SLOTS};
ghost use Rattle.xt_receipts.specs.Closing.{AreKept, HasItsEntry, IsFirstLost, IsFirstStray, MayAllStand, MayStand};

use xt_base::names::Caller;
use xt_base::sizes::SLOTS;
use xt_cell::account::Account;
use xt_cell::house::House;
use xt_cell::records::Receipt;
use xt_cell::seat::HostSeat;

/// Whether a receipt of a caller has its entry in the book of its slot.
fn has_its_entry(books: &[Account], caller: Caller, receipt: &Receipt) -> bool
    ensures value { IsTrue result ↔ HasItsEntry books.now caller receipt.now }
    ensures small { IsTrue result → receipt.now.number < 2 ^ 63 }
{
    match books.get(receipt.slot.index()) {
        Some(book) => book.has_entry(caller, receipt),
        None => false,
    }
}

/// Whether it has, and its number is not below the least that may follow in its slot.
fn may_stand(books: &[Account], caller: Caller, next: &[u64; SLOTS], receipt: &Receipt) -> bool
    ensures value { IsTrue result ↔ MayStand books.now caller next.now receipt.now }
    ensures small { IsTrue result → receipt.now.number < 2 ^ 63 }
{
    has_its_entry(books, caller, receipt) && next[receipt.slot.index()] <= receipt.number
}

/// The first receipt of a caller that has no entry, or whose number does not rise in its slot.
fn first_stray<'a>(
    books: &[Account],
    caller: Caller,
    receipts: &'a [Receipt],
) -> Option<&'a Receipt>
    ensures { MatchOption result (MayAllStand books.now caller (replicate SLOTS 0) receipts.now) (λ r. IsFirstStray books.now caller (replicate SLOTS 0) receipts.now r.now) }
{
    let mut next = [0; SLOTS];
    let mut rest = receipts;
    while let Some((receipt, tail)) = rest.split_first() {
        if !may_stand(books, caller, &next, receipt) {
            return Some(receipt);
        }
        next[receipt.slot.index()] = receipt.number + 1;
        rest = tail;
    }
    None
}

/// The first receipt of the first seat that has such a one.
pub fn first_lost<'a, H: House>(books: &[Account], seats: &'a [HostSeat<H>]) -> Option<&'a Receipt>
    ensures { MatchOption result (AreKept books.now seats.now) (λ r. IsFirstLost books.now seats.now r.now) }
{
    let mut rest = seats;
    while let Some((seat, tail)) = rest.split_first() {
        if let Some(receipt) = first_stray(books, seat.caller(), seat.receipts()) {
            return Some(receipt);
        }
        rest = tail;
    }
    None
}
