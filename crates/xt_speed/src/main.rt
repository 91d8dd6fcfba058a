//! How fast parts of the product are that need no host.
//!
//! `xt_speed checkpoints ROUNDS` reads and copies a text of 64 whole blocks so often, and prints both rates. `xt_speed queue NAMES` sends so
//! many names through the queue and a plain one by 1, 2 and 4 threads, and prints names a second. `xt_speed sessions LINES` sends so many lines
//! of three kinds through a session over memory, and prints lines a second for each. Without the number each does a few, and says how many or
//! how long. Without words all three do so.
#![tactic(auto)]

mod checkpoints;
mod queue;
mod sessions;

use crate::checkpoints::print_checkpoints;
use crate::queue::print_queue;
use crate::sessions::print_sessions;
use anyhow::{Context, Result, bail};
use std::env;

/// What is measured.
const PARTS: &str = "checkpoints, queue or sessions";

fn main(rt: HostRuntime) -> Result<()> {
    let alloc = rt.alloc();
    let words: Vec<String> = env::args(&rt)?.collect(alloc)?;
    let Some(part) = words.get(1) else {
        print_checkpoints(&rt, alloc, None)?;
        print_queue(&rt, alloc, None)?;
        return print_sessions(&rt, alloc, None);
    };
    let asked = match words.get(2) {
        Some(word) => Some(word.parse::<u32>().context("a number")?),
        None => None,
    };
    match part.as_str() {
        "checkpoints" => print_checkpoints(&rt, alloc, asked),
        "queue" => print_queue(&rt, alloc, asked),
        "sessions" => print_sessions(&rt, alloc, asked),
        _ => bail!(PARTS),
    }
}
