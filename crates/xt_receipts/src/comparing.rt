//! The comparison at the end of a host.

ghost use Rattle.std.specs.Prelude.{◌≡◌, ◌≤◌, ◌↔◌, IfErr, IsTrue, OnOk, length};
ghost use Rattle.xt_base.specs.declared.sizes.TheConstants.{SLOTS};
ghost use Rattle.xt_receipts.specs.Closing.{AreApart, AreInOrder, AreTrue, DoAgree, IsAnswered, IsFound, IsFree};

use crate::counting::first_uneven;
use crate::fault::CloseFault;
use crate::receipts::first_lost;
use xt_base::names::Caller;
use xt_cell::account::Account;
use xt_cell::house::House;
use xt_cell::seat::HostSeat;

/// Whether no seat has this caller.
fn is_free<H: House>(caller: Caller, seats: &[HostSeat<H>]) -> bool
    ensures { IsTrue result ↔ IsFree caller seats.now }
{
    let mut rest = seats;
    while let Some((seat, tail)) = rest.split_first() {
        if seat.caller() == caller {
            return false;
        }
        rest = tail;
    }
    true
}

/// Whether no two seats have one caller.
fn are_apart<H: House>(seats: &[HostSeat<H>]) -> bool
    ensures { IsTrue result ↔ AreApart seats.now }
{
    let mut rest = seats;
    while let Some((seat, tail)) = rest.split_first() {
        if !is_free(seat.caller(), tail) {
            return false;
        }
        rest = tail;
    }
    true
}

/// Compares the books of all slots with the seats of all callers: no two seats have one caller; each book has as many events as the
/// seats counted; each receipt that a seat kept has its entry, and the numbers of a seat's receipts rise in each slot. What is
/// wrong first, in this order, is told.
#[tactic(auto, using(crate::proofs::AgreeLemmas::agree))]
pub fn compare<H: House>(books: &[Account], seats: &[HostSeat<H>]) -> Result<(), CloseFault>
    requires { length books.now ≤ SLOTS }
    ensures order { OnOk result (AreInOrder books.now seats.now) }
    ensures agree { OnOk result (DoAgree books.now seats.now) }
    ensures fault { IfErr result (λ fault. IsFound books.now seats.now fault) }
{
    if !are_apart(seats) {
        return Err(CloseFault::Callers);
    }
    if let Some(slot) = first_uneven(books, seats) {
        return Err(CloseFault::Books(slot));
    }
    if let Some(receipt) = first_lost(books, seats) {
        return Err(CloseFault::Receipt(receipt.slot, receipt.number));
    }
    Ok(())
}

/// Whether all books are true ones: it tells so of each.
fn all_true(books: &[Account])
    ensures { AreTrue books.now }
{
    let mut rest = books;
    while let Some((book, tail)) = rest.split_first() {
        let _count = book.count();
        rest = tail;
    }
}

/// The comparison of sixteen books, all of which are true ones: what is answered is of these and of no other.
pub fn compare_all<H: House>(books: &[Account], seats: &[HostSeat<H>]) -> Result<(), CloseFault>
    requires { length books.now ≡ SLOTS }
    ensures all { AreTrue books.now }
    ensures answered { IsAnswered books.now seats.now result }
{
    all_true(books);
    compare(books, seats)
}
