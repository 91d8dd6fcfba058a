//! Rows while one request for memory is refused, which one is for others to say: who starts this program refuses it.

use std::alloc::{AllocError, Global};
use xt_base::names::Slot;
use xt_base::outcomes::{Outcomes, RunFault, Turn};
use xt_base::sizes::SLOTS;
use xt_base::steps::Step;
use xt_core::HostCore;
use xt_text::buffer::Text;
use xt_text::print_reply::{print_home_offer, print_log_offer, print_slot_reply};
use xt_trials::row::{Row, RowFault, is_printed};
use xt_trials::seen::Seen;

/// Gives a host each step of a row, and gives a step that is refused memory again: at the second try at least it has the row's reply.
fn try_again(alloc: Global, row: &Row, seen: &mut Seen) -> Result<(), AllocError> {
    let (firsts, seconds) = (row.copies(alloc)?, row.copies(alloc)?);
    let mut text = Text::new(alloc)?;
    let mut host = HostCore::new(alloc)?;
    let pairs = firsts.into_iter().zip(seconds).zip(&row.replies);
    for ((first, second), wanted) in pairs {
        seen.count();
        let slot = first.slot();
        let mut answer = host.step(first);
        if matches!(&answer, Ok(reply) if reply.is_no_memory()) {
            seen.refuse();
            answer = host.step(second);
        }
        let is_right = match &answer {
            Ok(reply) => is_printed(&mut text, slot, reply, wanted),
            Err(_) => false,
        };
        seen.judge(is_right);
    }
    Ok(())
}

/// Gives a host each step of a row once: of a slot that is not refused memory each reply is the row's.
fn try_once(alloc: Global, row: &Row, seen: &mut Seen) -> Result<(), AllocError> {
    let steps = row.copies(alloc)?;
    let mut text = Text::new(alloc)?;
    let mut host = HostCore::new(alloc)?;
    let mut refused = [false; SLOTS];
    for (step, wanted) in steps.into_iter().zip(&row.replies) {
        seen.count();
        let slot = step.slot();
        let answer = host.step(step);
        if matches!(&answer, Ok(reply) if reply.is_no_memory()) {
            seen.refuse();
            refused[slot.index()] = true;
        }
        let is_right = match &answer {
            Ok(reply) => is_printed(&mut text, slot, reply, wanted),
            Err(_) => false,
        };
        seen.judge(is_right || refused[slot.index()]);
    }
    Ok(())
}

/// Puts what a buffer holds behind other lines, with a newline.
fn put_line(lines: &mut Vec<u8>, text: &Text) -> Result<(), AllocError> {
    lines.extend_from_slice(text.bytes())?;
    lines.push(b'\n')?;
    Ok(())
}

/// Puts what a turn told behind other lines: its reply, and its offers.
fn put_turn(lines: &mut Vec<u8>, text: &mut Text, turn: &Turn) -> Result<(), AllocError> {
    let slot = turn.slot();
    text.clear();
    print_slot_reply(slot, &turn.reply, text);
    put_line(lines, text)?;
    for offer in turn.offers.log() {
        text.clear();
        print_log_offer(slot, offer, text);
        put_line(lines, text)?;
    }
    for offer in turn.offers.home() {
        text.clear();
        print_home_offer(slot, offer, text);
        put_line(lines, text)?;
    }
    Ok(())
}

/// The lines of what a run told.
fn lines_of(alloc: Global, outcomes: &Outcomes) -> Result<Vec<u8>, AllocError> {
    let mut lines = Vec::new(alloc);
    let mut text = Text::new(alloc)?;
    for turn in outcomes.turns() {
        put_turn(&mut lines, &mut text, turn)?;
    }
    Ok(lines)
}

/// Compares what a run told of each step: the slots that were refused memory.
fn compare(row: &Row, text: &mut Text, outcomes: &Outcomes, seen: &mut Seen) -> [bool; SLOTS] {
    let mut refused = [false; SLOTS];
    for (turn, wanted) in outcomes.turns().iter().zip(&row.replies) {
        seen.count();
        let slot = turn.slot();
        if turn.reply.is_no_memory() {
            seen.refuse();
            refused[slot.index()] = true;
        } else if !refused[slot.index()] {
            seen.judge(is_printed(text, slot, &turn.reply, wanted));
        }
    }
    refused
}

/// Whether a run says of each slot just whether it was refused memory.
fn says_refused(outcomes: &Outcomes, refused: &[bool; SLOTS]) -> bool {
    for (index, is_refused) in refused.iter().enumerate() {
        if let Some(slot) = Slot::new(index as u8) {
            if outcomes.refused(slot) != *is_refused {
                return false;
            }
        }
    }
    true
}

/// Whether a step is of a slot that was refused memory.
fn is_excused(step: Option<&Step>, refused: &[bool; SLOTS]) -> bool {
    step.is_some_and(|step| refused[step.slot().index()])
}

/// Runs a row: what it tells of a slot that was not refused memory is the row's, and it stops only at a step of another.
fn try_run(alloc: Global, row: &Row, seen: &mut Seen) -> Result<(), AllocError> {
    let mut text = Text::new(alloc)?;
    match HostCore::run(alloc, &row.steps) {
        Ok(outcomes) => {
            let refused = compare(row, &mut text, &outcomes, seen);
            seen.judge(says_refused(&outcomes, &refused));
            if !refused.contains(&true) {
                seen.judge(lines_of(alloc, &outcomes)? == row.output);
            }
        }
        Err(RunFault::Disorder { at, before }) => {
            let refused = compare(row, &mut text, &before, seen);
            seen.judge(says_refused(&before, &refused));
            seen.judge(is_excused(row.steps.get(at), &refused));
        }
        Err(RunFault::Memory) => seen.refuse(),
    }
    Ok(())
}

/// Tries the row of a text three times: each refused step again, none again, and all as one run.
pub fn try_row(alloc: Global, text: &[u8]) -> Result<Seen, RowFault> {
    let row = Row::read(alloc, text)?;
    let mut seen = Seen::default();
    try_again(alloc, &row, &mut seen)?;
    try_once(alloc, &row, &mut seen)?;
    try_run(alloc, &row, &mut seen)?;
    Ok(seen)
}
