//! Books of a running host, run again by the host core.

use std::alloc::{AllocError, Global};
use xt_base::names::{JobName, Worker};
use xt_base::outcomes::Turn;
use xt_base::sizes::FLUSH_BLOCKS;
use xt_base::steps::{Answer, Errno, Reply, Request, Step};
use xt_cell::records::Entry;
use xt_core::HostCore;

/// The job that a step runs, and for which worker: such a step comes after the worker took the name.
fn job_of(step: &Step) -> Option<(Worker, JobName)> {
    match step {
        Step::Begin { worker, name } | Step::Flush { worker, name, .. } => Some((*worker, *name)),
        _ => None,
    }
}

/// Who runs the job of a name in these entries.
fn worker_of(name: &JobName, entries: &[Entry]) -> Option<Worker> {
    for entry in entries {
        if let Some((worker, job)) = job_of(entry.step.get()) {
            if job == *name {
                return Some(worker);
            }
        }
    }
    None
}

/// The names that a book posted, those in front taken.
#[derive(Drop)]
struct Posted {
    names: Vec<JobName>,
    taken: usize,
}

impl Posted {
    /// Adds the takes of all names up to this one, in the order in which they were posted, each by the worker that runs it among
    /// these entries. False where there is no such worker.
    fn take_to(
        &mut self,
        name: &JobName,
        entries: &[Entry],
        steps: &mut Vec<Step>,
    ) -> Result<bool, AllocError> {
        let waiting = &self.names[self.taken.min(self.names.len())..];
        let Some(place) = waiting.iter().position(|posted| posted == name) else {
            return Ok(true);
        };
        for name in &waiting[..=place] {
            let Some(worker) = worker_of(name, entries) else {
                return Ok(false);
            };
            steps.push(Step::Take {
                worker,
                name: *name,
            })?;
        }
        self.taken += place + 1;
        Ok(true)
    }
}

/// The steps of entries in order, with takes before the jobs that are begun or flushed, since a book has no takes. None where a name
/// was taken by nobody.
fn steps_of(alloc: Global, entries: &[Entry]) -> Result<Option<Vec<Step>>, AllocError> {
    let mut steps = Vec::new(alloc);
    let mut posted = Posted {
        names: Vec::new(alloc),
        taken: 0,
    };
    for (place, entry) in entries.iter().enumerate() {
        let step = entry.step.get();
        if let Step::Post(name) = step {
            posted.names.push(*name)?;
        }
        if let Some((_, name)) = job_of(step) {
            if !posted.take_to(&name, &entries[place..], &mut steps)? {
                return Ok(None);
            }
        }
        steps.push(step.copy(alloc)?)?;
    }
    Ok(Some(steps))
}

/// Whether the turns of steps, those of takes left out, have the replies of the entries.
fn have_replies(entries: &[Entry], steps: &[Step], turns: &[Turn]) -> bool {
    let mut rest = entries;
    for (step, turn) in steps.iter().zip(turns) {
        if matches!(step, Step::Take { .. }) {
            continue;
        }
        let Some((entry, tail)) = rest.split_first() else {
            return false;
        };
        if !turn.reply.is(entry.reply.get()) {
            return false;
        }
        rest = tail;
    }
    rest.is_empty()
}

/// Whether the host core, run on the entries of a slot's book, gives just their replies.
pub fn gives_replies(alloc: Global, entries: &[Entry]) -> Result<bool, AllocError> {
    let Some(steps) = steps_of(alloc, entries)? else {
        return Ok(false);
    };
    match HostCore::run(alloc, &steps) {
        Ok(told) => Ok(have_replies(entries, &steps, told.turns())),
        Err(_) => Ok(false),
    }
}

/// What the entries of books tell of what came to pass.
#[derive(Clone, Copy, Default)]
pub struct Tally {
    pub events: u64,
    /// Mounts that were not refused.
    pub mounts: u64,
    /// Mounts that were unmounted.
    pub unmounts: u64,
    /// Checkpoints that landed, and blocks that were written home.
    pub landed: u64,
    pub flushed: u64,
    /// Reads, checkpoints and flushes in which a device call failed.
    pub failed: u64,
    /// Calls that were told to try again, since another one was in the way.
    pub again: u64,
}

/// Whether a device call failed in a step.
fn is_failed(step: &Step, reply: &Reply) -> bool {
    match step {
        Step::Call { answer, .. } => matches!(answer, Answer::Failed),
        Step::End { .. } => matches!(reply, Reply::Failed(_)),
        Step::Flush { answers, .. } => {
            let count = usize::from(answers.count).min(FLUSH_BLOCKS);
            count > 0 && (!answers.sync || answers.writes[..count].contains(&false))
        }
        _ => false,
    }
}

impl Tally {
    /// Adds what one entry tells.
    fn add(&mut self, step: &Step, reply: &Reply) {
        raise(&mut self.events, 1);
        if is_failed(step, reply) {
            raise(&mut self.failed, 1);
        }
        match reply {
            Reply::Life(_) => raise(&mut self.mounts, 1),
            Reply::Landed(_) => raise(&mut self.landed, 1),
            Reply::Flushed(blocks) => raise(&mut self.flushed, u64::from(*blocks)),
            Reply::Refused(Errno::Again) => raise(&mut self.again, 1),
            Reply::Okay if is_unmount(step) => raise(&mut self.unmounts, 1),
            _ => {}
        }
    }

    /// Adds what the entries of a book tell.
    pub fn add_book(&mut self, entries: &[Entry]) {
        for entry in entries {
            self.add(entry.step.get(), entry.reply.get());
        }
    }
}

/// Raises a count.
fn raise(count: &mut u64, by: u64) {
    *count = count.saturating_add(by);
}

/// Whether a step unmounts.
fn is_unmount(step: &Step) -> bool {
    matches!(
        step,
        Step::Call {
            request: Request::Unmount,
            ..
        }
    )
}
