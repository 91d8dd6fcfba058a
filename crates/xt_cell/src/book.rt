//! The book of a slot: its mount, and every event that brought the mount there.

ghost use Rattle.std.specs.Bool.{OnFalse, OnTrue};
ghost use Rattle.std.specs.Prelude.{◌≡◌, ◌+◌, ◌++◌, ◌∷◌, ◌≤◌, ◌<◌, ◌^◌, [], OnOk, length, true, vec_capacity};
ghost use Rattle.xt_base.specs.Jobs.{is_owed_as};
ghost use Rattle.xt_base.specs.Order.{mount_is};
ghost use Rattle.xt_base.specs.declared.sizes.TheConstants.{SLOTS};
ghost use Rattle.xt_base.specs.declared.steps.Reply.{Reply as AReply};
ghost use Rattle.xt_base.specs.declared.steps.Step.{Step as AStep};
ghost use Rattle.xt_cell.specs.Books.{Adds, Folds, IsSameBook, Readies, count_of, entry, events_of, is_post, next_number, unwritten};
ghost use Rattle.xt_cell.specs.Counting.{counted};
ghost use Rattle.xt_cell.specs.HostSeats.{Notes};
ghost use Rattle.xt_frames.specs.Shares.{no_contents};

use crate::account::Account;
use crate::house::{House, Of};
use crate::kept::Kept;
use crate::records::{Entry, Receipt};
use crate::seat::HostSeat;
use crate::shares::{Counts, Shares};
use crate::twin::Twin;
use std::alloc::{AllocError, Global};
use std::marker::Model;
use std::sync::ledger::Book;
use xt_base::names::{Caller, JobName, Slot};
use xt_base::steps::{Reply, Step};
use xt_frames::share::FrameShare;
use xt_mount::slot::MountSlot;
use xt_mount::state::SlotState;

/// The most entries that a book has: so many that no run gets there.
const MOST_ENTRIES: usize = 1 << 62;

/// How many entries an event adds at most: its own, and a post of each kind.
const EVENT_ENTRIES: usize = 3;

/// The book of slot S: the slot's mount, and its events since the book's base, each with who called, the step and the reply.
/// A contract sees the base, the entries, the state of the slot, and for how many entries more there is room. Of every book it
/// holds that its entries lead from the base to the state, with those replies, and that the ledger of the slot counts those that
/// are no posts.
#[derive(Drop)]
pub struct SlotBook<H: House, const S: u8> {
    pub(crate) alloc: Global,
    pub(crate) mount: MountSlot,
    /// The slot where the book begins.
    base: SlotState,
    /// How many entries were folded into the base.
    folded: u64,
    /// How many of these were no posts.
    events: u64,
    pub(crate) entries: Vec<Entry>,
    pub(crate) count: Book<Of<H, S>>,
}

impl<H: House, const S: u8> Model for SlotBook<H, S> {
    ghost use Rattle.std.specs.Prelude.{◌-◌, ◌^◌, length, min, vec_capacity};
    ghost use Rattle.xt_cell.specs.Books.{BookView, IsTrueBook, base_of};

    ghost Value = { BookView };

    ghost view = { λ b. record { base = base_of b.base b.folded b.events; entries = b.entries.items; state = b.mount; room = min (vec_capacity b.entries) (2 ^ 62) - length b.entries.items } };

    ghost invariant = { λ b. IsTrueBook S (base_of b.base b.folded b.events) b.entries.items b.mount b.count.total };
}

impl<H: House, const S: u8> SlotBook<H, S> {
    /// The book of a slot that was never mounted, in which nothing is written yet.
    pub fn new(alloc: Global, share: FrameShare, count: Book<Of<H, S>>) -> Self
        requires share { share ≡ no_contents S }
        requires none { count.total ≡ 0 }
        ensures { IsSameBook (unwritten S) result }
    {
        let slot = share.slot();
        SlotBook {
            alloc,
            mount: MountSlot::new(alloc, share),
            base: SlotState::empty(slot),
            folded: 0,
            events: 0,
            entries: Vec::new(alloc),
            count,
        }
    }

    /// The slot and its mount.
    pub fn slot(&self) -> &MountSlot
        ensures state { result.now ≡ self.now.state }
        ensures slot { result.now.slot ≡ S }
    {
        &self.mount
    }

    /// Its entries since the base, in order.
    pub fn entries(&self) -> &[Entry]
        ensures { result.now ≡ self.now.entries }
    {
        &self.entries
    }

    /// How many entries were folded into the base: the number of the first entry that the book still has.
    pub fn folded(&self) -> u64
        ensures { result ≡ self.now.base.folded }
    {
        self.folded
    }

    /// The number of the next entry, folded ones counted.
    pub(crate) fn next_number(&self) -> u64
        ensures { result ≡ next_number self.now }
    {
        self.folded + self.entries.len() as u64
    }

    /// Closes the book: nothing more is written in it.
    pub fn into_account(self) -> Account
        requires slot { S < SLOTS }
        ensures base { result.base ≡ self.base }
        ensures slot { result.base.state.slot ≡ S }
        ensures entries { result.entries ≡ self.entries }
        ensures count { result.count ≡ events_of self }
    {
        let SlotBook {
            base,
            folded,
            events,
            entries,
            ..
        } = self;
        let count = events + count_events(&entries);
        Account {
            base,
            folded,
            events,
            entries,
            count,
        }
    }

    /// Folds all entries into the base, which is then the slot as it is now: so the book is short again, and the numbers of its entries
    /// go on. Where memory for the state is refused it stays as it is, and so does a book that folded as many entries as its numbers can
    /// count, which no run gets to.
    #[inline(never)]
    pub(crate) fn fold(&mut self) -> bool
        ensures folded { OnTrue result (Folds self.old self.new) }
        ensures kept { OnFalse result (self.new ≡ self.old) }
    {
        let length = self.entries.len() as u64;
        if length > MOST_ENTRIES as u64 - self.folded {
            return false;
        }
        let Ok(base) = self.mount.snapshot() else {
            return false;
        };
        self.events += count_events(&self.entries);
        self.folded += length;
        self.base = base;
        self.entries.clear();
        true
    }

    /// Folds where there are at least so many entries, if there is memory.
    #[inline(always)]
    pub(crate) fn fold_from(&mut self, limit: u64)
        ensures book { Readies limit self.old self.new }
        ensures state { self.new.state ≡ self.old.state }
    {
        if self.entries.len() as u64 >= limit {
            let _is_folded = self.fold();
        }
    }

    /// Makes room for an event with its posts. The one error is want of memory.
    pub(crate) fn reserve(&mut self) -> Result<(), AllocError>
        ensures same { IsSameBook self.old self.new }
        ensures room { OnOk result (EVENT_ENTRIES ≤ self.new.room) }
    {
        if self.entries.len() > MOST_ENTRIES - EVENT_ENTRIES {
            return Err(AllocError);
        }
        self.entries.reserve(EVENT_ENTRIES)
    }

    /// Whether there is room for an event with its posts already.
    pub(crate) fn has_room(&self) -> bool
        ensures { result ≡ true → EVENT_ENTRIES ≤ self.now.room }
    {
        let length = self.entries.len();
        length <= MOST_ENTRIES - EVENT_ENTRIES && self.entries.capacity() - length >= EVENT_ENTRIES
    }

    /// A job that is owed was posted: books that, for the caller of the event that found it owed.
    #[tactic(auto, using(crate::proofs::BookLemmas::posted_book))]
    pub(crate) fn posted(&mut self, caller: Caller, name: &JobName)
        requires owed { mount_is (is_owed_as name.now) self.old.state.mounted ≡ true }
        requires slot { name.now.slot ≡ S }
        requires room { 1 ≤ self.old.room }
        ensures booked { Adds self.old caller (AStep.Post name.now) AReply.Okay self.new }
        ensures room { self.new.room + 1 ≡ self.old.room }
    {
        let step = Kept::own(Step::Post(*name));
        let reply = Kept::own(Reply::Okay);
        self.mount.posted(*name);
        self.entries.push_reserved(Entry {
            caller,
            step,
            reply,
        });
    }
}

/// Writes an event into the entries of a slot, counts it, and keeps the receipt.
pub(crate) fn write<H: House, const S: u8>(
    entries: &mut Vec<Entry>,
    count: &mut Book<Of<H, S>>,
    seat: &mut HostSeat<H>,
    slot: Slot,
    number: u64,
    step: Twin<Step>,
    reply: Twin<Reply>,
)
where
    Shares<H>: Counts<H, S>,
    requires room { length entries.old.items < vec_capacity entries.old }
    requires seat { 1 ≤ seat.old.room }
    requires few { count.old.total < 2 ^ 63 }
    ensures entries { entries.new.items ≡ entries.old.items ++ entry seat.old.caller step.booked reply.booked ∷ [] }
    ensures capacity { vec_capacity entries.new ≡ vec_capacity entries.old }
    ensures notes { Notes slot number step.booked reply.booked seat.old seat.new }
    ensures counted { ⟦<Shares<H> as Counts<H, S>>⟧.counts seat.new.counts ≡ counted S (⟦<Shares<H> as Counts<H, S>>⟧.counts seat.old.counts) }
    ensures total { count.new.total ≡ count.old.total + 1 }
{
    let caller = seat.caller();
    let receipt = Receipt {
        slot,
        number,
        step: step.handed,
        reply: reply.handed,
    };
    let entry = Entry {
        caller,
        step: step.booked,
        reply: reply.booked,
    };
    entries.push_reserved(entry);
    seat.note(receipt, count);
}

/// How many entries are no posts.
#[tactic(auto, using(crate::proofs::BookLemmas::count_first))]
fn count_events(entries: &[Entry]) -> u64
    requires few { length entries.now ≤ 2 ^ 62 }
    ensures { result ≡ count_of entries.now }
{
    let mut count = 0;
    let mut rest = entries;
    while let Some((entry, tail)) = rest.split_first() {
        if !is_post(entry.step.get()) {
            count += 1;
        }
        rest = tail;
    }
    count
}

/// Whether a step is a post.
fn is_post(step: &Step) -> bool
    ensures { result ≡ is_post step.now }
{
    matches!(step, Step::Post(_))
}
