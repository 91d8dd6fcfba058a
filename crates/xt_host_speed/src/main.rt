//! How fast a host of many slots serves, over devices that keep nothing.
//!
//! `xt_host_speed COUNT` does each thing that is measured so often, and prints transactions a second and what a call costs.
//! Without COUNT it does a few and says how many. `xt_host_speed COUNT LIMIT` does only small changes of one mount, on a host whose books
//! are folded from LIMIT entries on, so that the memory of a long run can be looked at from outside.
#![tactic(auto)]

mod calls;
mod client;
mod crew;
mod null;
mod rig;
mod workplace;

use crate::calls::{Call, Crowd, Trial};
use crate::client::Change;
use crate::rig::{Plan, Task, time};
use anyhow::{Context, Result};
use std::alloc::Global;
use std::env;
use std::sync::Wait;
use std::thread::Threads;
use std::time::{Clock, Duration};
use xt_cell::reserve::Blanks;
use xt_host::host::BOOK_ENTRIES;

const SMALL: &str = "128 bytes of one block";

const WHOLE: &str = "eight whole blocks";

/// What the host has while calls are measured.
const CROWDS: [Crowd; 7] = [
    Crowd {
        open: 1,
        busy: 1,
        mounts: 1,
    },
    Crowd {
        open: 8,
        busy: 1,
        mounts: 1,
    },
    Crowd {
        open: 32,
        busy: 1,
        mounts: 1,
    },
    Crowd {
        open: 1,
        busy: 16,
        mounts: 1,
    },
    Crowd {
        open: 1,
        busy: 64,
        mounts: 1,
    },
    Crowd {
        open: 1,
        busy: 1,
        mounts: 4,
    },
    Crowd {
        open: 1,
        busy: 1,
        mounts: 16,
    },
];

/// From how many entries on the books of a service are folded (`xth serve`), and those of what is measured here.
const SERVICE_ENTRIES: u64 = 1_024;

/// From how many entries on books are folded, where that is measured: at each event, and less and less often.
const BOOK_LIMITS: [u64; 4] = [1, 64, SERVICE_ENTRIES, BOOK_ENTRIES];

/// How many a second.
fn rate(count: u32, took: Duration) -> u128 {
    let micros = took.as_micros();
    if micros == 0 {
        0
    } else {
        u128::from(count) * 1_000_000 / micros
    }
}

/// Nanoseconds of one.
fn cost(count: u32, took: Duration) -> u128 {
    if count == 0 {
        0
    } else {
        took.as_nanos() / u128::from(count)
    }
}

/// The transactions that are measured, with their labels.
fn plans(alloc: Global, count: u32) -> [(&'static str, Plan); 3] {
    let small = Task::Transact(Change::small(alloc));
    let whole = Task::Transact(Change::whole(alloc));
    [
        (
            SMALL,
            Plan {
                task: small,
                count,
                mounts: 1,
                book_limit: SERVICE_ENTRIES,
            },
        ),
        (
            WHOLE,
            Plan {
                task: whole,
                count: count / 8,
                mounts: 1,
                book_limit: SERVICE_ENTRIES,
            },
        ),
        (
            SMALL,
            Plan {
                task: small,
                count: count / 16,
                mounts: 16,
                book_limit: SERVICE_ENTRIES,
            },
        ),
    ]
}

/// What is printed of a measurement: its figures, or how often it was done.
#[derive(Clone, Copy)]
struct Report {
    alloc: Global,
    count: u32,
    has_figures: bool,
}

/// Measures so many transactions of each of so many mounts, and prints how many a second.
fn print_transactions<R: Threads + Wait + Clock + Print + Sync>(
    rt: &R,
    report: Report,
    label: &str,
    plan: &Plan,
) -> Result<()> {
    let Plan { count, mounts, .. } = *plan;
    let took = time(rt, report.alloc, Blanks::new(), plan)?;
    if report.has_figures {
        let rate = rate(count.saturating_mul(u32::from(mounts)), took);
        println!(rt; "{label}, {mounts} mounted: {rate} transactions/s")?;
    } else {
        println!(rt; "{label}, {mounts} mounted: {count} transactions of each")?;
    }
    Ok(())
}

/// Measures small changes of one mount on a host whose books are folded from so many entries on, and prints how many a second.
fn print_folds<R: Threads + Wait + Clock + Print + Sync>(
    rt: &R,
    report: Report,
    book_limit: u64,
) -> Result<()> {
    let plan = Plan {
        task: Task::Transact(Change::small(report.alloc)),
        count: report.count,
        mounts: 1,
        book_limit,
    };
    let took = time(rt, report.alloc, Blanks::new(), &plan)?;
    let count = report.count;
    if report.has_figures {
        let rate = rate(count, took);
        println!(rt; "{SMALL}, books of {book_limit} entries: {rate} transactions/s")?;
    } else {
        println!(rt; "{SMALL}, books of {book_limit} entries: {count} transactions")?;
    }
    Ok(())
}

/// Measures so many transactions of each of sixteen mounts by four threads, and prints how many a second.
fn print_crew<R: Threads + Wait + Clock + Print + Sync>(rt: &R, report: Report) -> Result<()> {
    let count = report.count / 16;
    let plan = Plan {
        task: Task::Share(Change::small(report.alloc)),
        count,
        mounts: 16,
        book_limit: SERVICE_ENTRIES,
    };
    let took = time(rt, report.alloc, Blanks::new(), &plan)?;
    if report.has_figures {
        let rate = rate(count.saturating_mul(16), took);
        println!(rt; "{SMALL}, 16 mounted, four threads: {rate} transactions/s")?;
    } else {
        println!(rt; "{SMALL}, 16 mounted, four threads: {count} transactions of each")?;
    }
    Ok(())
}

/// What a call costs in a crowd, in nanoseconds.
fn call_cost<R: Threads + Wait + Clock + Sync>(
    rt: &R,
    report: Report,
    call: Call,
    crowd: Crowd,
) -> Result<u128> {
    let plan = Plan {
        task: Task::Call(Trial { call, crowd }),
        count: report.count,
        mounts: crowd.mounts,
        book_limit: SERVICE_ENTRIES,
    };
    Ok(cost(report.count, time(rt, report.alloc, Blanks::new(), &plan)?))
}

/// Measures the calls in a crowd, and prints what one costs.
fn print_calls<R: Threads + Wait + Clock + Print + Sync>(
    rt: &R,
    report: Report,
    crowd: Crowd,
) -> Result<()> {
    let Crowd { open, busy, mounts } = crowd;
    let lock = call_cost(rt, report, Call::Lock, crowd)?;
    let log = call_cost(rt, report, Call::Log, crowd)?;
    if report.has_figures {
        println!(rt;
            "{open} open, {busy} busy, {mounts} mounted: get and relse {lock} ns, log {log} ns"
        )?;
    } else {
        println!(rt;
            "{open} open, {busy} busy, {mounts} mounted: {} calls",
            report.count
        )?;
    }
    Ok(())
}

/// Measures everything, and prints it.
fn print_all<R: Threads + Wait + Clock + Print + Sync>(rt: &R, report: Report) -> Result<()> {
    for (label, plan) in plans(report.alloc, report.count) {
        print_transactions(rt, report, label, &plan)?;
    }
    print_crew(rt, report)?;
    for crowd in CROWDS {
        print_calls(rt, report, crowd)?;
    }
    for book_limit in BOOK_LIMITS {
        print_folds(rt, report, book_limit)?;
    }
    Ok(())
}

fn main(rt: HostRuntime) -> Result<()> {
    let alloc = rt.alloc();
    let word = env::args(&rt)?.nth(1);
    let count = match &word {
        Some(word) => word.parse::<u32>().context("COUNT")?,
        None => 1000,
    };
    let report = Report {
        alloc,
        count,
        has_figures: word.is_some(),
    };
    match env::args(&rt)?.nth(2) {
        Some(limit) => print_folds(&rt, report, limit.parse::<u64>().context("LIMIT")?),
        None => print_all(&rt, report),
    }
}
