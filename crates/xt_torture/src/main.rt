//! Tries to break what is promised of a host core, of the texts of its checkpoints, and of what a crash leaves.
//!
//! `xt_torture simulation SEED STEPS [hungry]` runs random steps of sixteen tenants, with failing devices, and compares what each is told
//! and offered with what it is alone. Where the program's memory has a limit and it is `hungry`, memory is taken away now and then.
//!
//! `xt_torture bytes VALUES` reads texts of checkpoints cut at each length, and with each byte changed to so many other values, 1 to 255.
//!
//! `xt_torture crash SEED CRASHES` runs random steps of one mount over devices that crash: after each of so many crashes the log's texts are laid
//! over the home device, which must then have what one checkpoint committed, all of it.
//!
//! `xt_torture refusals` takes a script and its output, with an empty line between them, from standard input, and tries it through the host
//! core. Who starts it refuses memory: the status is 3 where a step was refused memory and all else was as it must be, 2 where something was
//! not, and 1 where the trial itself was refused memory.
#![tactic(auto)]

mod bytes;
mod crash;
mod crash_home;
mod crash_life;
mod crash_log;
mod hunger;
mod image;
mod judge;
mod plain;
mod refusals;
mod round;
mod simulation;
mod sizes;
mod wreck;

use crate::bytes::try_bytes;
use crate::crash::try_crashes;
use crate::refusals::try_row;
use crate::simulation::simulate;
use anyhow::{Context, Result, bail};
use std::alloc::Global;
use std::env;
use std::io::{Input, Read};
use std::process::ExitCode;
use xt_trials::row::RowFault;
use xt_trials::seen::Seen;
use xt_trials::words::number;

/// The trials.
const TRIALS: &str = "simulation, bytes, crash or refusals";

/// The status of a trial that found so many differences.
fn status(different: u64) -> ExitCode {
    ExitCode::from(if different == 0 { 0 } else { 1 })
}

/// Simulates, and prints what was found: the status.
fn print_simulation<R: Print>(
    rt: &R,
    alloc: Global,
    seed: u64,
    steps: u64,
    is_hungry: bool,
) -> Result<ExitCode> {
    let found = simulate(alloc, seed, steps, is_hungry)?;
    let counts = found.counts;
    println!(rt;
        "simulation, seed {seed}: {} steps of sixteen tenants on {} hosts, {} more out of order, {} device calls failed: {} tenants different, {} answers of a wrong size taken",
        counts.steps, found.rounds, counts.disorder, counts.failed, found.different, counts.misfits
    )?;
    if is_hungry {
        println!(rt;
            "simulation, seed {seed}: {} steps refused memory",
            counts.refused
        )?;
    }
    Ok(status(found.different.saturating_add(counts.misfits)))
}

/// Tries texts, and prints how they were read: the status.
fn print_bytes<R: Print>(rt: &R, alloc: Global, values: u8) -> Result<ExitCode> {
    let tried = try_bytes(alloc, values)?;
    println!(rt;
        "bytes: {} texts, {} whole, {} cut, {} faults: {} different",
        tried.texts, tried.whole, tried.cut, tried.fault, tried.different
    )?;
    Ok(status(tried.different))
}

/// Crashes a mount, and prints what was recovered: the status.
fn print_crashes<R: Print>(rt: &R, alloc: Global, seed: u64, crashes: u64) -> Result<ExitCode> {
    let counts = try_crashes(alloc, seed, crashes)?;
    println!(rt;
        "crash, seed {seed}: {} crashes of a mount in {} lives, {} steps, {} checkpoints landed, {} blocks written home; {} crashes left a part of a text, {} a whole one that was not safe, {} torn home writes; {} recoveries broken off; the log was cut {} times, {} times to nothing: {} wrong",
        counts.crashes,
        counts.lives,
        counts.steps,
        counts.landed,
        counts.flushed,
        counts.parts,
        counts.wholes,
        counts.torn,
        counts.again,
        counts.cuts,
        counts.emptied,
        counts.wrong
    )?;
    Ok(status(counts.wrong))
}

/// The status of a row, which is printed.
fn print_seen<R: Print>(rt: &R, seen: Result<Seen, RowFault>) -> Result<ExitCode> {
    let Ok(seen) = seen else {
        bail!("no row, or no memory for it");
    };
    println!(rt;
        "{} steps, {} refused: {} wrong",
        seen.steps, seen.refused, seen.wrong
    )?;
    Ok(ExitCode::from(seen.status()))
}

fn main(rt: HostRuntime) -> Result<ExitCode> {
    let alloc = rt.alloc();
    let words: Vec<String> = env::args(&rt)?.collect(alloc)?;
    match words.get(1).context(TRIALS)?.as_str() {
        "simulation" => {
            let seed = number(&words, 2, "SEED")?;
            let steps = number(&words, 3, "STEPS")?;
            print_simulation(&rt, alloc, seed, steps, words.len() > 4)
        }
        "bytes" => {
            let values = number(&words, 2, "VALUES")?.clamp(1, 255) as u8;
            print_bytes(&rt, alloc, values)
        }
        "crash" => {
            let seed = number(&words, 2, "SEED")?;
            let crashes = number(&words, 3, "CRASHES")?;
            print_crashes(&rt, alloc, seed, crashes)
        }
        "refusals" => {
            let mut text = Vec::new(alloc);
            rt.reader().read_to_end(&mut text)?;
            print_seen(&rt, try_row(alloc, &text))
        }
        _ => bail!(TRIALS),
    }
}
