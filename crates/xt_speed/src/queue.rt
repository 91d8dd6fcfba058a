//! How fast names go through the queue, beside a plain queue of the same capacity.

ghost use Rattle.std.specs.Prelude.{◌≡◌};
ghost use Rattle.xt_queue.specs.Passes.{fresh_post};

use anyhow::{Context, Result};
use crossbeam_queue::ArrayQueue;
use std::alloc::Global;
use std::sync::Wait;
use std::thread::{self, Threads};
use std::time::{Clock, Duration, Instant};
use xt_base::names::{JobKind, JobName, Life, Slot};
use xt_queue::jobs::{JobQueue, PostPass, WorkPass};

/// How many names are sent where no figures are wanted.
const FEW: u32 = 1_000;

/// A name of a slot's first life.
fn name(slot: Slot, serial: u64) -> JobName
    ensures slot { result.slot ≡ slot }
    ensures life { result.life ≡ 1 }
    ensures serial { result.serial ≡ serial }
{
    JobName {
        slot,
        life: Life(1),
        kind: JobKind::Ckpt,
        serial,
    }
}

/// Posts the first names of a slot, waiting where the queue is full.
fn post_all<R: Wait>(rt: &R, queue: &JobQueue, mut pass: PostPass, slot: Slot, count: u32)
    requires fresh { pass ≡ fresh_post queue.now slot }
{
    let mut serial = 1;
    for _ in rt.forever() {
        if serial > u64::from(count) {
            return;
        }
        match queue.post(rt, &mut pass, name(slot, serial)) {
            Ok(()) => serial += 1,
            Err(_) => thread::yield_now(),
        }
    }
}

/// Takes so many names, waiting where there is none.
fn take_all<R: Wait>(rt: &R, queue: &JobQueue, mut pass: WorkPass, count: u32)
    requires queue { pass.queue ≡ queue.now }
{
    let mut taken = 0;
    for _ in rt.forever() {
        if taken >= count {
            return;
        }
        match queue.take(rt, &mut pass) {
            Some(_) => taken += 1,
            None => thread::yield_now(),
        }
    }
}

/// Posts and takes a name by turns, on one thread.
fn alternate<R: Wait>(
    rt: &R,
    queue: &JobQueue,
    mut posting: PostPass,
    mut taking: WorkPass,
    slot: Slot,
    count: u32,
)
    requires fresh { posting ≡ fresh_post queue.now slot }
    requires queue { taking.queue ≡ queue.now }
{
    let mut serial = 1;
    for _ in rt.forever() {
        if serial > u64::from(count) {
            return;
        }
        if queue.post(rt, &mut posting, name(slot, serial)).is_ok() {
            serial += 1;
        }
        queue.take(rt, &mut taking);
    }
}

/// Pushes so many names, waiting where the queue is full.
fn push_all<R: Wait>(rt: &R, queue: &ArrayQueue<JobName>, slot: Slot, count: u32) {
    let mut serial = 1;
    for _ in rt.forever() {
        if serial > u64::from(count) {
            return;
        }
        match queue.push(rt, name(slot, serial)) {
            Ok(()) => serial += 1,
            Err(_) => thread::yield_now(),
        }
    }
}

/// Pops so many names, waiting where there is none.
fn pop_all<R: Wait>(rt: &R, queue: &ArrayQueue<JobName>, count: u32) {
    let mut taken = 0;
    for _ in rt.forever() {
        if taken >= count {
            return;
        }
        match queue.pop(rt) {
            Some(_) => taken += 1,
            None => thread::yield_now(),
        }
    }
}

/// Pushes and pops a name by turns, on one thread.
fn alternate_plain<R: Wait>(rt: &R, queue: &ArrayQueue<JobName>, slot: Slot, count: u32) {
    let mut serial = 1;
    for _ in rt.forever() {
        if serial > u64::from(count) {
            return;
        }
        if queue.push(rt, name(slot, serial)).is_ok() {
            serial += 1;
        }
        queue.pop(rt);
    }
}

/// One slot posts and one worker takes, in a thread each.
fn pair<R: Threads + Wait + Sync>(
    rt: &R,
    queue: &JobQueue,
    posting: PostPass,
    taking: WorkPass,
    slot: Slot,
    count: u32,
)
    requires fresh { posting ≡ fresh_post queue.now slot }
    requires queue { taking.queue ≡ queue.now }
{
    thread::join(
        rt,
        move ||
            requires { posting ≡ fresh_post queue.now slot }
        { post_all(rt, queue, posting, slot, count) },
        move ||
            requires { taking.queue ≡ queue.now }
        { take_all(rt, queue, taking, count) },
    );
}

/// One thread pushes and one pops.
fn pair_plain<R: Threads + Wait + Sync>(
    rt: &R,
    queue: &ArrayQueue<JobName>,
    slot: Slot,
    count: u32,
) {
    thread::join(
        rt,
        || push_all(rt, queue, slot, count),
        || pop_all(rt, queue, count),
    );
}

/// Names a second.
fn rate(count: u32, took: Duration) -> u128 {
    let micros = took.as_micros();
    if micros == 0 {
        0
    } else {
        u128::from(count) * 1_000_000 / micros
    }
}

/// How long both queues take on one thread.
fn on_one<R: Threads + Wait + Sync + Clock>(
    rt: &R,
    alloc: Global,
    slot: Slot,
    count: u32,
) -> Result<(Duration, Duration)>
    requires slot { slot ≡ 15 }
{
    let plain = ArrayQueue::new(alloc, 32)?;
    let (queue, mut passes) = JobQueue::new(alloc).ok().context("memory")?;
    let posting = passes.posts.pop().context("a slot's pass")?;
    let taking = passes.works.pop().context("a worker's pass")?;
    let start = Instant::now(rt)?;
    alternate(rt, &queue, posting, taking, slot, count);
    let ruled = start.elapsed(rt)?;
    let start = Instant::now(rt)?;
    alternate_plain(rt, &plain, slot, count);
    Ok((ruled, start.elapsed(rt)?))
}

/// How long both queues take with a thread on each side.
fn on_two<R: Threads + Wait + Sync + Clock>(
    rt: &R,
    alloc: Global,
    slot: Slot,
    count: u32,
) -> Result<(Duration, Duration)>
    requires slot { slot ≡ 15 }
{
    let plain = ArrayQueue::new(alloc, 32)?;
    let (queue, mut passes) = JobQueue::new(alloc).ok().context("memory")?;
    let posting = passes.posts.pop().context("a slot's pass")?;
    let taking = passes.works.pop().context("a worker's pass")?;
    let start = Instant::now(rt)?;
    pair(rt, &queue, posting, taking, slot, count);
    let ruled = start.elapsed(rt)?;
    let start = Instant::now(rt)?;
    pair_plain(rt, &plain, slot, count);
    Ok((ruled, start.elapsed(rt)?))
}

/// Two pairs at once.
fn two_pairs<R: Threads + Wait + Sync>(
    rt: &R,
    queue: &JobQueue,
    posts: (PostPass, PostPass),
    works: (WorkPass, WorkPass),
    slots: (Slot, Slot),
    count: u32,
)
    requires posts { (posts.0 ≡ fresh_post queue.now slots.0) × (posts.1 ≡ fresh_post queue.now slots.1) }
    requires works { (works.0.queue ≡ queue.now) × (works.1.queue ≡ queue.now) }
{
    let (first, second) = posts;
    let (one, other) = works;
    let (high, low) = slots;
    thread::join(
        rt,
        move ||
            requires { (first ≡ fresh_post queue.now high) × (one.queue ≡ queue.now) }
        { pair(rt, queue, first, one, high, count) },
        move ||
            requires { (second ≡ fresh_post queue.now low) × (other.queue ≡ queue.now) }
        { pair(rt, queue, second, other, low, count) },
    );
}

/// How long both queues take with two threads on each side.
fn on_four<R: Threads + Wait + Sync + Clock>(
    rt: &R,
    alloc: Global,
    slots: (Slot, Slot),
    count: u32,
) -> Result<(Duration, Duration)>
    requires slots { (slots.0 ≡ 15) × (slots.1 ≡ 14) }
{
    let plain = ArrayQueue::new(alloc, 32)?;
    let (queue, mut passes) = JobQueue::new(alloc).ok().context("memory")?;
    let first = passes.posts.pop().context("a slot's pass")?;
    let second = passes.posts.pop().context("a slot's pass")?;
    let one = passes.works.pop().context("a worker's pass")?;
    let other = passes.works.pop().context("a worker's pass")?;
    let start = Instant::now(rt)?;
    two_pairs(rt, &queue, (first, second), (one, other), slots, count / 2);
    let ruled = start.elapsed(rt)?;
    let start = Instant::now(rt)?;
    let (high, low) = slots;
    thread::join(
        rt,
        || pair_plain(rt, &plain, high, count / 2),
        || pair_plain(rt, &plain, low, count / 2),
    );
    Ok((ruled, start.elapsed(rt)?))
}

/// Sends names through each queue by 1, 2 and 4 threads, and prints names a second. Where no number is asked for, it sends a few through and
/// prints how many.
pub fn print_queue<R: Print + Threads + Wait + Sync + Clock>(
    rt: &R,
    alloc: Global,
    asked: Option<u32>,
) -> Result<()> {
    let count = asked.unwrap_or(FEW);
    let high = Slot::new(15).context("a slot")?;
    let low = Slot::new(14).context("a slot")?;
    let times = [
        on_one(rt, alloc, high, count)?,
        on_two(rt, alloc, high, count)?,
        on_four(rt, alloc, (high, low), count)?,
    ];
    if asked.is_none() {
        println!(rt; "{count} names")?;
        return Ok(());
    }
    for (threads, (ruled, plain)) in [1, 2, 4].into_iter().zip(times) {
        println!(rt;
            "{threads} threads: queue {}/s, plain {}/s",
            rate(count, ruled),
            rate(count, plain)
        )?;
    }
    Ok(())
}
