//! A script and what it must print, read from one text.

use std::alloc::{AllocError, Global};
use xt_base::names::Slot;
use xt_base::steps::{Reply, Step};
use xt_text::bad_line::BadLine;
use xt_text::buffer::Text;
use xt_text::parse::parse_line;
use xt_text::print_reply::print_slot_reply;

/// Why a row can't be tried.
#[derive(Clone, Copy, Debug, PartialEq, Eq)]
pub enum RowFault {
    /// It is no script with an empty line and its output behind it.
    Input,
    /// Memory was refused to the trial itself.
    Memory,
}

impl From<AllocError> for RowFault {
    fn from(_: AllocError) -> Self {
        RowFault::Memory
    }
}

/// The steps of a script, and the reply that is wanted of each, as it is printed.
#[derive(Drop)]
pub struct Row {
    pub steps: Vec<Step>,
    pub replies: Vec<Vec<u8>>,
    /// All lines that the script prints, replies and offers.
    pub output: Vec<u8>,
}

/// Whether a line of an output tells an offer, and no reply.
fn tells_offer(line: &[u8]) -> bool {
    let word = line.split(|byte| *byte == b' ').nth(1);
    matches!(word, Some(b"log" | b"logsync" | b"home" | b"homesync"))
}

/// A step of a line.
fn step_of(alloc: Global, line: &[u8]) -> Result<Step, RowFault> {
    parse_line(alloc, line).map_err(|bad| match bad {
        BadLine::Spelling => RowFault::Input,
        BadLine::Memory => RowFault::Memory,
    })
}

impl Row {
    /// The row of a text: the lines of a script, an empty line, and the lines that it prints.
    pub fn read(alloc: Global, text: &[u8]) -> Result<Self, RowFault> {
        let mut row = Row {
            steps: Vec::new(alloc),
            replies: Vec::new(alloc),
            output: Vec::new(alloc),
        };
        let mut is_output = false;
        for line in text.split(|byte| *byte == b'\n') {
            if line.is_empty() {
                is_output = true;
            } else if is_output {
                row.add_output(alloc, line)?;
            } else {
                row.add_step(step_of(alloc, line)?)?;
            }
        }
        if row.steps.len() == row.replies.len() {
            Ok(row)
        } else {
            Err(RowFault::Input)
        }
    }

    /// Adds a step.
    fn add_step(&mut self, step: Step) -> Result<(), AllocError> {
        self.steps.push(step)?;
        Ok(())
    }

    /// Adds a line of the output.
    fn add_output(&mut self, alloc: Global, line: &[u8]) -> Result<(), AllocError> {
        if !tells_offer(line) {
            self.replies.push(line.to_vec(alloc)?)?;
        }
        self.output.extend_from_slice(line)?;
        self.output.push(b'\n')?;
        Ok(())
    }

    /// Its steps, once more.
    pub fn copies(&self, alloc: Global) -> Result<Vec<Step>, AllocError> {
        let mut copies = Vec::with_capacity(alloc, self.steps.len())?;
        for step in &self.steps {
            copies.push(step.copy(alloc)?)?;
        }
        Ok(copies)
    }
}

/// Whether a reply of a slot is printed so.
pub fn is_printed(text: &mut Text, slot: Slot, reply: &Reply, wanted: &[u8]) -> bool {
    text.clear();
    print_slot_reply(slot, reply, text);
    text.holds(wanted)
}
