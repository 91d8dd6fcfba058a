//! A closed book: its receipts, and its entries, run again by the host core.

use std::alloc::{AllocError, Global};
use xt_base::names::{Caller, Slot};
use xt_base::outcomes::{Outcomes, RunFault, Turn};
use xt_base::steps::{Errno, Reason, Step};
use xt_cell::{Account, Entry, Receipt};
use xt_core::HostCore;

/// What is left of a slot that was closed: its book, why the board shows it shut, and whether each receipt of the one seat is that
/// of an entry.
#[derive(Drop)]
pub struct Ended {
    pub slot: Slot,
    pub shut: Option<Reason>,
    pub has_receipts: bool,
    pub account: Account,
}

impl Ended {
    /// Whether a new host that runs the entries gives their replies, and is left shut as the board shows it. Where memory is refused it
    /// runs them once more.
    pub fn is_replayed(&self, alloc: Global) -> Result<bool, Errno> {
        match self.replays(alloc) {
            Err(Errno::NoMemory) => self.replays(alloc),
            told => told,
        }
    }

    /// The same, once. ENOMEM where memory is refused.
    fn replays(&self, alloc: Global) -> Result<bool, Errno> {
        let entries = self.account.entries();
        let Ok(steps) = steps_of(alloc, entries) else {
            return Err(Errno::NoMemory);
        };
        match HostCore::run(alloc, &steps) {
            Ok(told) => self.said_again(&told, &steps),
            Err(RunFault::Disorder { before, .. }) => ended_early(&before, self.slot),
            Err(RunFault::Memory) => Err(Errno::NoMemory),
        }
    }

    /// The same of what a run of the steps told.
    fn said_again(&self, told: &Outcomes, steps: &[Step]) -> Result<bool, Errno> {
        if told.refused(self.slot) {
            return Err(Errno::NoMemory);
        }
        let is_shut_so = told.shut(self.slot) == self.shut;
        Ok(is_shut_so && have_replies(self.account.entries(), steps, told.turns()))
    }
}

/// The steps of entries in order, with a take by its worker before each job that is begun or flushed, since a book has no takes.
fn steps_of(alloc: Global, entries: &[Entry]) -> Result<Vec<Step>, AllocError> {
    let mut steps = Vec::new(alloc);
    for entry in entries {
        let step = entry.step.get();
        if let Step::Begin { worker, name } | Step::Flush { worker, name, .. } = step {
            steps.push(Step::Take {
                worker: *worker,
                name: *name,
            })?;
        }
        steps.push(step.copy(alloc)?)?;
    }
    Ok(steps)
}

/// Whether the turns of steps, those of takes left out, have the replies of the entries.
fn have_replies(entries: &[Entry], steps: &[Step], turns: &[Turn]) -> bool {
    let mut rest = entries;
    for (step, turn) in steps.iter().zip(turns) {
        if matches!(step, Step::Take { .. }) {
            continue;
        }
        let Some((entry, tail)) = rest.split_first() else {
            return false;
        };
        if !turn.reply.is(entry.reply.get()) {
            return false;
        }
        rest = tail;
    }
    rest.is_empty()
}

/// A run that broke off: ENOMEM where a step was refused memory, so that those after it fit no more.
fn ended_early(before: &Outcomes, slot: Slot) -> Result<bool, Errno> {
    if before.refused(slot) {
        return Err(Errno::NoMemory);
    }
    Ok(false)
}

/// Whether each receipt of a caller is that of the entry that it names; one that is older than the book's base names none.
pub fn are_of(caller: Caller, receipts: &[Receipt], account: &Account) -> bool {
    for receipt in receipts {
        if !account.has_entry(caller, receipt) {
            return false;
        }
    }
    true
}
