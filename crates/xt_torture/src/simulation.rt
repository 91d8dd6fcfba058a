//! Sixteen tenants of one host, and each of them alone.

use crate::round::{Counts, Round};
use std::alloc::{AllocError, Global};
use xt_base::names::Slot;
use xt_base::outcomes::{Outcomes, Turn};
use xt_base::sizes::SLOTS;
use xt_base::steps::{HomeOffer, LogOffer, Reply, Step};
use xt_core::HostCore;
use xt_trials::dice::Dice;

/// How many turns a host is given.
const TURNS: u32 = 20_000;

/// What a simulation found.
#[derive(Clone, Copy, Default)]
pub struct Found {
    pub counts: Counts,
    /// Hosts that were made.
    pub rounds: u64,
    /// Tenants that were told or offered another thing than alone.
    pub different: u64,
}

impl Found {
    /// Adds what a round counted.
    fn add(&mut self, counts: Counts) {
        self.rounds = self.rounds.saturating_add(1);
        let sum = &mut self.counts;
        sum.steps = sum.steps.saturating_add(counts.steps);
        sum.disorder = sum.disorder.saturating_add(counts.disorder);
        sum.refused = sum.refused.saturating_add(counts.refused);
        sum.failed = sum.failed.saturating_add(counts.failed);
        sum.misfits = sum.misfits.saturating_add(counts.misfits);
    }
}

/// Whether two logs were offered the same.
fn is_same_log(one: &[LogOffer], other: &[LogOffer]) -> bool {
    one.len() == other.len()
        && one.iter().zip(other).all(|pair| match pair {
            (LogOffer::Piece { bytes, ok }, LogOffer::Piece { bytes: b, ok: o }) => {
                bytes.is(b) && ok == o
            }
            (LogOffer::Sync { ok }, LogOffer::Sync { ok: o }) => ok == o,
            _ => false,
        })
}

/// Whether two home devices were offered the same.
fn is_same_home(one: &[HomeOffer], other: &[HomeOffer]) -> bool {
    one.len() == other.len()
        && one.iter().zip(other).all(|pair| match pair {
            (
                HomeOffer::Write { block, content, ok },
                HomeOffer::Write {
                    block: b,
                    content: c,
                    ok: o,
                },
            ) => block == b && content.is(c) && ok == o,
            (HomeOffer::Sync { ok }, HomeOffer::Sync { ok: o }) => ok == o,
            _ => false,
        })
}

/// Whether a slot was told and offered the same in a run of all as in a run of its own steps.
fn is_same_turn(all: &Turn, alone: &Turn) -> bool {
    all.reply.is(&alone.reply)
        && is_same_log(all.offers.log(), alone.offers.log())
        && is_same_home(all.offers.home(), alone.offers.home())
}

/// Whether the turns of a slot among those of all are those of the slot alone.
fn are_same_turns(slot: Slot, all: &Outcomes, alone: &Outcomes) -> bool {
    let mut rest = alone.turns();
    for turn in all.turns() {
        if turn.slot() == slot {
            let Some((first, tail)) = rest.split_first() else {
                return false;
            };
            if !is_same_turn(turn, first) {
                return false;
            }
            rest = tail;
        }
    }
    rest.is_empty() && all.shut(slot) == alone.shut(slot)
}

/// Whether a run of all steps gives the replies that were given as they came.
fn gives_replies(all: &Outcomes, replies: &[Reply]) -> bool {
    if all.turns().len() != replies.len() {
        return false;
    }
    for (turn, reply) in all.turns().iter().zip(replies) {
        if !turn.reply.is(reply) {
            return false;
        }
    }
    true
}

/// Whether a slot alone is told and offered what it is among the others.
fn is_alike(alloc: Global, steps: &[Step], slot: Slot, all: &Outcomes) -> Result<bool, AllocError> {
    let Ok(own) = HostCore::strike(alloc, steps, slot) else {
        return Err(AllocError);
    };
    match HostCore::run(alloc, &own) {
        Ok(alone) => Ok(are_same_turns(slot, all, &alone)),
        Err(_) => Ok(false),
    }
}

/// How many tenants of a round are told or offered another thing than alone; all sixteen where the list as a whole, run again, gives
/// other replies.
fn differences(alloc: Global, round: &Round) -> Result<u64, AllocError> {
    let Ok(all) = HostCore::run(alloc, &round.steps) else {
        return Ok(SLOTS as u64);
    };
    if !gives_replies(&all, &round.replies) {
        return Ok(SLOTS as u64);
    }
    let mut different = 0u64;
    for index in 0..SLOTS as u8 {
        if let Some(slot) = Slot::new(index) {
            if !is_alike(alloc, &round.steps, slot, &all)? {
                different = different.saturating_add(1);
            }
        }
    }
    Ok(different)
}

/// Runs hosts on random steps until so many were taken, and compares each tenant with itself alone.
pub fn simulate(
    alloc: Global,
    seed: u64,
    steps: u64,
    is_hungry: bool,
) -> Result<Found, AllocError> {
    let mut dice = Dice::new(seed);
    let mut found = Found::default();
    for _ in 0..steps {
        if found.counts.steps >= steps {
            break;
        }
        let mut round = Round::new(alloc, is_hungry)?;
        for _ in 0..TURNS {
            round.turn(&mut dice)?;
        }
        found.add(round.counts);
        found.different = found.different.saturating_add(differences(alloc, &round)?);
    }
    Ok(found)
}
