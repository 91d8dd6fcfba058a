//! The book of a slot in which nothing more is written, for whoever compares it with what the callers kept.

ghost use Rattle.std.specs.Prelude.{◌≡◌, ◌<◌, ◌^◌, ◌↔◌, IsTrue};
ghost use Rattle.xt_cell.specs.Accounts.{HasEntry, IsEntryOf, IsTrueAccount};

use crate::records::{Entry, Receipt};
use std::marker::Model;
use xt_base::names::Caller;
use xt_mount::state::SlotState;

/// A closed book: a contract sees its base, its entries, and how many events it counts, folded ones too. Of every closed book it
/// holds that it is a true one: its entries lead from its base to some state of the slot.
#[derive(Drop)]
pub struct Account {
    pub(crate) base: SlotState,
    pub(crate) folded: u64,
    pub(crate) events: u64,
    pub(crate) entries: Vec<Entry>,
    pub(crate) count: u64,
}

impl Model for Account {
    ghost use Rattle.std.specs.Prelude.{◌≡◌};
    ghost use Rattle.xt_cell.specs.Accounts.{AccountView};
    ghost use Rattle.xt_cell.specs.Books.{IsTrueBook, base_of};
    ghost use Rattle.xt_mount.specs.Slots.{SlotState};

    ghost Value = { AccountView };

    ghost view = { λ a. record { base = base_of a.base a.folded a.events; entries = a.entries.items; count = a.count } };

    ghost invariant = { λ a. (state : SlotState) × IsTrueBook a.base.slot (base_of a.base a.folded a.events) a.entries.items state a.count };
}

impl Account {
    /// The slot where the book begins: one that was never mounted, or what it was at the last fold.
    pub fn base(&self) -> &SlotState
        ensures { result.now ≡ self.now.base.state }
    {
        &self.base
    }

    /// How many entries were folded into the base: the number of the first entry that the book still has.
    pub fn folded(&self) -> u64
        ensures { result ≡ self.now.base.folded }
    {
        self.folded
    }

    /// How many of its entries are no posts, folded ones counted.
    pub fn count(&self) -> u64
        ensures value { result ≡ self.now.count }
        ensures book { IsTrueAccount self.now }
    {
        self.count
    }

    /// Its entries since its base, in order: the events of the slot, with the posts after them.
    pub fn entries(&self) -> &[Entry]
        ensures value { result.now ≡ self.now.entries }
        ensures book { IsTrueAccount self.now }
    {
        &self.entries
    }

    /// Whether a receipt that a caller kept has its entry here: at its number an entry of that caller with the receipt's step and
    /// reply. One that is older than the base has none any more, and is taken as it is.
    pub fn has_entry(&self, caller: Caller, receipt: &Receipt) -> bool
        ensures value { IsTrue result ↔ HasEntry self.now caller receipt.now }
        ensures small { IsTrue result → receipt.now.number < 2 ^ 63 }
    {
        if receipt.number < self.folded {
            return true;
        }
        let place = receipt.number - self.folded;
        match self.entries.get(place as usize) {
            Some(entry) => receipt.is_of(caller, entry),
            None => false,
        }
    }
}

impl Receipt {
    /// Whether this is the receipt of an entry, kept by a caller.
    pub fn is_of(&self, caller: Caller, entry: &Entry) -> bool
        ensures { IsTrue result ↔ IsEntryOf caller self.now entry.now }
    {
        entry.caller == caller
            && self.step.get().is(entry.step.get())
            && self.reply.get().is(entry.reply.get())
    }
}
