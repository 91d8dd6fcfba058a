//! How many blocks of each list nobody owns.

ghost use Rattle.std.specs.Prelude.{◌≡◌, ◌+◌, ◌≤◌, ◌||◌, count_by, length, not};
ghost use Rattle.xt_base.specs.Maps.{is_in};
ghost use Rattle.xt_base.specs.Space.{count_beside, flight_items};

use crate::accounts::Accounts;
use xt_base::names::Block;
use xt_base::sizes::ROOM;
use xt_locks::locks::Locks;

/// Whether somebody owns a block.
fn is_owned(locks: &Locks, block: u64) -> bool
    ensures { result ≡ is_in block locks.now }
{
    locks.is_locked(Block(block))
}

/// How many blocks of the commit list nobody owns.
pub fn beside_cil(locks: &Locks, accounts: &Accounts) -> usize
    ensures count { result ≡ count_by (λ e. not (is_in e.0 locks.now)) accounts.now.items.cil }
    ensures small { result ≤ ROOM }
{
    accounts
        .cil()
        .iter()
        .filter(|e| !is_owned(locks, e.0))
        .count()
}

/// How many blocks of the flight nobody owns, those of the commit list aside.
pub fn beside_flight(locks: &Locks, accounts: &Accounts) -> usize
    ensures count { result ≡ count_by (λ e. not (is_in e.0 locks.now || is_in e.0 accounts.now.items.cil)) (flight_items accounts.now.items.flight) }
    ensures small { result ≤ ROOM }
{
    match accounts.flight_items() {
        Some(flight) => flight
            .iter()
            .filter(|e| !(is_owned(locks, e.0) || accounts.is_committed(e.0)))
            .count(),
        None => 0,
    }
}

/// How many blocks of the active list nobody owns, those of the other lists aside.
pub fn beside_ail(locks: &Locks, accounts: &Accounts) -> usize
    ensures count { result ≡ count_by (λ e. not (is_in e.0 locks.now || is_in e.0 accounts.now.items.cil || is_in e.0 (flight_items accounts.now.items.flight))) accounts.now.items.ail }
    ensures small { result ≤ ROOM }
{
    accounts
        .ail()
        .iter()
        .filter(|e| !(is_owned(locks, e.0)
            || accounts.is_committed(e.0)
            || accounts.is_in_flight(e.0)))
        .count()
}

/// How many places the owners and the lists have together: no fewer than there are busy blocks, as some are on two of them.
#[tactic(auto, using(crate::proofs::BusyLemmas::beside_le))]
pub fn most_busy(locks: &Locks, accounts: &Accounts) -> usize
    ensures { length locks.now + count_beside locks.now accounts.now.items ≤ result }
{
    let flight = match accounts.flight_items() {
        Some(flight) => flight.len(),
        None => 0,
    };
    locks.owners().len() + accounts.cil().len() + flight + accounts.ail().len()
}
