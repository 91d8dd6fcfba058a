//! Tries to break what is promised of a running host.
//!
//! `xt_host_torture threads SEED HOSTS TURNS` has four threads call the sixteen slots of each host at random, over devices that fail, and runs
//! the books of all slots again.
//!
//! `xt_host_torture served` takes a script and its output, with an empty line between them, from standard input, and tries it through a running
//! host of one worker. Who starts it refuses memory: the status is 3 where a step was refused memory and all else was as it must be, 2 where
//! something was not, and 1 where the trial itself was refused memory.
#![tactic(auto)]

mod crew;
mod guest;
mod replay;
mod served;
mod working;

use crate::crew::{Ended, Plan, try_host};
use crate::served::try_served;
use anyhow::{Context, Result, bail};
use std::alloc::Global;
use std::env;
use std::io::{Input, Read};
use std::process::ExitCode;
use std::sync::Wait;
use std::thread::Threads;
use xt_cell::reserve::Blanks;
use xt_trials::words::number;

/// The trials.
const TRIALS: &str = "threads or served";

/// How much each thread of a host does at most, so that no book is folded.
const MOST_TURNS: u64 = 100_000;

/// Tries hosts with four threads each, and prints what their books tell: the status.
fn print_threads<R: Print + Threads + Wait + Sync>(
    rt: &R,
    alloc: Global,
    first: Plan,
    hosts: u64,
) -> Result<ExitCode> {
    let mut ended = Ended::default();
    for number in 0..hosts {
        let seed = first.seed.wrapping_add(number);
        try_host(rt, alloc, Blanks::new(), Plan { seed, ..first }, &mut ended)?;
    }
    let tally = ended.tally;
    println!(rt;
        "threads, seed {}: {} events on {} hosts of sixteen slots by four threads, {} mounts, {} unmounts, {} checkpoints landed, {} blocks written home, {} calls told to try again, {} device calls failed: {} hosts unclean, {} books different",
        first.seed,
        tally.events,
        ended.hosts,
        tally.mounts,
        tally.unmounts,
        tally.landed,
        tally.flushed,
        tally.again,
        tally.failed,
        ended.unclean,
        ended.different
    )?;
    let different = ended.unclean.saturating_add(ended.different);
    Ok(ExitCode::from(u8::from(different != 0)))
}

/// Tries a row on a running host, and prints what was seen: the status.
fn print_served<R: Print + Threads + Wait + Sync>(
    rt: &R,
    alloc: Global,
    text: &[u8],
) -> Result<ExitCode> {
    let Ok(seen) = try_served(rt, alloc, Blanks::new(), text) else {
        bail!("no row, or no memory for it");
    };
    println!(rt;
        "{} steps, {} refused: {} wrong",
        seen.steps, seen.refused, seen.wrong
    )?;
    Ok(ExitCode::from(seen.status()))
}

fn main(rt: HostRuntime) -> Result<ExitCode> {
    let alloc = rt.alloc();
    let words: Vec<String> = env::args(&rt)?.collect(alloc)?;
    match words.get(1).context(TRIALS)?.as_str() {
        "threads" => {
            let seed = number(&words, 2, "SEED")?;
            let hosts = number(&words, 3, "HOSTS")?;
            let turns = number(&words, 4, "TURNS")?.min(MOST_TURNS) as u32;
            print_threads(&rt, alloc, Plan { seed, turns }, hosts)
        }
        "served" => {
            let mut text = Vec::new(alloc);
            rt.reader().read_to_end(&mut text)?;
            print_served(&rt, alloc, &text)
        }
        _ => bail!(TRIALS),
    }
}
