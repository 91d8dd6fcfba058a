//! Books run again by the host core: the same replies, and the same offers.

use crate::tests::tape::Tape;
use std::alloc::{AllocError, Global};
use xt_base::names::{JobName, Slot, Worker};
use xt_base::outcomes::{Outcomes, Turn};
use xt_base::steps::Step;
use xt_cell::records::Entry;
use xt_core::HostCore;

/// The job that a step runs, and for which worker: such a step comes after the worker took the name.
fn job_of(step: &Step) -> Option<(Worker, JobName)> {
    match step {
        Step::Begin { worker, name } | Step::Flush { worker, name, .. } => Some((*worker, *name)),
        _ => None,
    }
}

/// Who runs the job of a name in these entries.
fn worker_of(name: &JobName, entries: &[Entry]) -> Option<Worker> {
    for entry in entries {
        if let Some((worker, job)) = job_of(entry.step.get()) {
            if job == *name {
                return Some(worker);
            }
        }
    }
    None
}

/// The names that a book posted, those in front taken.
#[derive(Drop)]
struct Posted {
    names: Vec<JobName>,
    taken: usize,
}

impl Posted {
    /// Adds the takes of all names up to this one, in the order in which they were posted, each by the worker that runs it among
    /// these entries. None where there is no such worker.
    fn take_to(
        &mut self,
        name: &JobName,
        entries: &[Entry],
        steps: &mut Vec<Step>,
    ) -> Result<Option<()>, AllocError> {
        let waiting = &self.names[self.taken.min(self.names.len())..];
        let Some(place) = waiting.iter().position(|posted| posted == name) else {
            return Ok(Some(()));
        };
        for name in &waiting[..=place] {
            let Some(worker) = worker_of(name, entries) else {
                return Ok(None);
            };
            steps.push(Step::Take {
                worker,
                name: *name,
            })?;
        }
        self.taken += place + 1;
        Ok(Some(()))
    }
}

/// The steps of entries in order, with takes before the jobs that are begun or flushed, since a book has no takes. None where a name
/// was taken by nobody.
fn steps_of(alloc: Global, entries: &[Entry]) -> Result<Option<Vec<Step>>, AllocError> {
    let mut steps = Vec::new(alloc);
    let mut posted = Posted {
        names: Vec::new(alloc),
        taken: 0,
    };
    for (place, entry) in entries.iter().enumerate() {
        let step = entry.step.get();
        if let Step::Post(name) = step {
            posted.names.push(*name)?;
        }
        if let Some((_, name)) = job_of(step) {
            let Some(()) = posted.take_to(&name, &entries[place..], &mut steps)? else {
                return Ok(None);
            };
        }
        steps.push(step.copy(alloc)?)?;
    }
    Ok(Some(steps))
}

/// Whether the turns of steps, those of takes left out, have the replies of the entries.
fn have_replies(entries: &[Entry], steps: &[Step], turns: &[Turn]) -> bool {
    let mut rest = entries;
    for (step, turn) in steps.iter().zip(turns) {
        if matches!(step, Step::Take { .. }) {
            continue;
        }
        let Some((entry, tail)) = rest.split_first() else {
            return false;
        };
        if !turn.reply.is(entry.reply.get()) {
            return false;
        }
        rest = tail;
    }
    rest.is_empty()
}

/// What a run offered to the devices of a slot, as two tapes: log and home.
fn offered(alloc: Global, told: &Outcomes, slot: Slot) -> Result<(Tape, Tape), AllocError> {
    let log = Tape::new(alloc)?;
    for offer in &told.log_offers(alloc, slot)? {
        log.log_offer(offer);
    }
    let home = Tape::new(alloc)?;
    for offer in &told.home_offers(alloc, slot)? {
        home.home_offer(offer);
    }
    Ok((log, home))
}

/// What the host core makes of a book.
#[derive(Clone, Copy, Debug, PartialEq, Eq)]
pub struct Replayed {
    /// All replies are those of the book.
    pub replies: bool,
    /// All that the log device was offered is on its tape, and nothing more.
    pub log: bool,
    /// The same of the home device.
    pub home: bool,
}

/// Runs the book of a slot again in a new host core; None where the core refuses a step as out of order.
pub fn replay(
    alloc: Global,
    slot: Slot,
    entries: &[Entry],
    tapes: (&Tape, &Tape),
) -> Result<Option<Replayed>, AllocError> {
    let Some(steps) = steps_of(alloc, entries)? else {
        return Ok(None);
    };
    let Ok(told) = HostCore::run(alloc, &steps) else {
        return Ok(None);
    };
    let (log, home) = offered(alloc, &told, slot)?;
    Ok(Some(Replayed {
        replies: have_replies(entries, &steps, told.turns()),
        log: log.is_like(tapes.0),
        home: home.is_like(tapes.1),
    }))
}
