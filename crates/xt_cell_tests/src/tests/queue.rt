//! Worked rows of the queue and of the board, and names that go through two threads on each side.

ghost use Rattle.std.specs.Prelude.{◌≡◌, ◌+◌, ◌-◌, ◌<◌, ◌≤◌, ◌++◌, [], ◌∷◌, IfSome, vec_capacity, vec_len};
ghost use Rattle.xt_queue.specs.Names.{last_of, unposted};
ghost use Rattle.xt_queue.specs.Passes.{fresh_post, fresh_posts, fresh_works};

use std::sync::Wait;
use std::test::*;
use std::thread;
use std::thread::Threads;
use xt_base::names::{JobKind, JobName, Life, Slot};
use xt_base::steps::{Errno, Reason};
use xt_queue::{Board, JobQueue, PostPass, Seat, WorkPass};

/// The slot of an index.
fn slot(index: u8) -> Slot
    requires range { index < 16 }
    ensures value { result ≡ index }
{
    let Some(slot) = Slot::new(index) else {
        unreachable!()
    };
    slot
}

/// A name of a slot's first life.
fn name(index: u8, serial: u64) -> JobName
    requires range { index < 16 }
    ensures slot { result.slot ≡ index }
    ensures life { result.life ≡ 1 }
    ensures serial { result.serial ≡ serial }
{
    JobName {
        slot: slot(index),
        life: Life(1),
        kind: JobKind::Ckpt,
        serial,
    }
}

/// What slot 0 shows after a word.
fn shown(
    board: &Board,
    showing: &mut Seat,
    reading: &mut Seat,
    life: u32,
    shut: Option<Reason>,
) -> (Life, Option<Reason>)
    requires showing { showing.old.board ≡ board.now }
    requires reading { reading.old.board ≡ board.now }
    ensures showing { showing.new.board ≡ board.now }
    ensures reading { reading.new.board ≡ board.now }
{
    board.show(showing, slot(0), Life(life), shut);
    board.peek(reading, slot(0))
}

/// What slot 0 shows of the first life and reason of some that is not shown as itself.
fn first_other(
    board: &Board,
    showing: &mut Seat,
    reading: &mut Seat,
    rows: &[(u32, Option<Reason>)],
) -> Option<(Life, Option<Reason>)>
    requires showing { showing.old.board ≡ board.now }
    requires reading { reading.old.board ≡ board.now }
{
    for (life, shut) in rows {
        let told = shown(board, showing, reading, *life, *shut);
        if told != (Life(*life), *shut) {
            return Some(told);
        }
    }
    None
}

/// Each life and reason is shown as itself, and stands above those before it.
#[test]
fn words_are_lives_and_reasons(rt: HostRuntime) -> Result<(), Errno> {
    const RISING: &[(u32, Option<Reason>)] = &[
        (1, None),
        (1, Some(Reason::MetaIoError)),
        (1, Some(Reason::LogIoError)),
        (1, Some(Reason::ForceUmount)),
        (1, Some(Reason::CorruptIncore)),
        (2, None),
    ];
    let (board, mut showing) = Board::new(rt.alloc())?;
    let mut reading = board.split(&mut showing);
    let told = first_other(&board, &mut showing, &mut reading, RISING);
    assert_eq!(rt; told, None);
    Ok(())
}

#[test]
fn a_shown_word_never_goes_down(rt: HostRuntime) -> Result<(), Errno> {
    const SHUT: Option<Reason> = Some(Reason::CorruptIncore);
    let (board, mut showing) = Board::new(rt.alloc())?;
    let mut reading = board.split(&mut showing);
    let blank = board.peek(&mut reading, slot(0));
    let first = shown(&board, &mut showing, &mut reading, 1, SHUT);
    let lower = shown(&board, &mut showing, &mut reading, 1, None);
    let higher = shown(&board, &mut showing, &mut reading, 2, None);
    let other = board.peek(&mut reading, slot(1));
    assert!(rt; blank == (Life(0), None) && other == (Life(0), None));
    assert!(rt; first == (Life(1), SHUT) && lower == (Life(1), SHUT));
    assert_eq!(rt; higher, (Life(2), None));
    Ok(())
}

/// Posts the first two names of the slot whose fresh pass is the last, and hands the pass back.
#[tactic(auto, using(crate::proofs::PassLemmas::fresh_posts_next))]
fn post_two<R: Wait>(
    rt: &R,
    queue: &JobQueue,
    posts: &mut Vec<PostPass>,
    index: u8,
) -> Option<PostPass>
    requires range { index < 16 }
    requires posts { posts.old.items ≡ fresh_posts queue.now (index + 1) }
    ensures posts { posts.new.items ≡ fresh_posts queue.now index }
    ensures queue { IfSome result (λ pass. pass.queue ≡ queue.now) }
    ensures slot { IfSome result (λ pass. pass.slot ≡ index) }
    ensures last { IfSome result (λ pass. last_of unposted pass.posted ≡ (1, 2)) }
{
    let mut pass = posts.pop()?;
    queue.post(rt, &mut pass, name(index, 1)).ok()?;
    queue.post(rt, &mut pass, name(index, 2)).ok()?;
    Some(pass)
}

/// Posts two names of each slot, 15 to 0, and hands back the pass of slot 0.
fn fill<R: Wait>(rt: &R, queue: &JobQueue, posts: &mut Vec<PostPass>) -> Option<PostPass>
    requires posts { posts.old.items ≡ fresh_posts queue.now 16 }
    ensures queue { IfSome result (λ pass. pass.queue ≡ queue.now) }
    ensures slot { IfSome result (λ pass. pass.slot ≡ 0) }
    ensures last { IfSome result (λ pass. last_of unposted pass.posted ≡ (1, 2)) }
{
    for low in 0..15 {
        post_two(rt, queue, posts, 15 - low)?;
    }
    post_two(rt, queue, posts, 0)
}

/// Posts the third name of slot 0, takes one, and posts it again: what came back, who was taken, and what came back then.
type Full = (Option<JobName>, Option<JobName>, Option<JobName>);

fn post_to_full<R: Wait>(rt: &R, queue: &JobQueue, pass: &mut PostPass, work: &mut WorkPass) -> Full
    requires queue { pass.old.queue ≡ queue.now }
    requires slot { pass.old.slot ≡ 0 }
    requires last { last_of unposted pass.old.posted ≡ (1, 2) }
    requires work { work.old.queue ≡ queue.now }
{
    let back = queue.post(rt, pass, name(0, 3)).err();
    if back.is_none() {
        return (None, None, None);
    }
    let taken = queue.take(rt, work);
    (back, taken, queue.post(rt, pass, name(0, 3)).err())
}

#[test]
fn a_full_queue_hands_a_name_back(rt: HostRuntime) -> Result<(), Errno> {
    let (queue, mut passes) = JobQueue::new(rt.alloc())?;
    let Some(mut first_slot) = fill(&rt, &queue, &mut passes.posts) else {
        return Ok(assert!(rt; false, "two names of each slot"));
    };
    let Some(mut worker) = passes.works.pop() else {
        unreachable!()
    };
    let told = post_to_full(&rt, &queue, &mut first_slot, &mut worker);
    assert!(rt; told == (Some(name(0, 3)), Some(name(15, 1)), None));
    Ok(())
}

/// The slot and the serial of the next name that a worker takes.
fn take<R: Wait>(rt: &R, queue: &JobQueue, pass: &mut WorkPass) -> Option<(usize, u64)>
    requires queue { pass.old.queue ≡ queue.now }
    ensures queue { pass.new.queue ≡ queue.now }
{
    let taken = queue.take(rt, pass)?;
    Some((taken.slot.index(), taken.serial))
}

#[test]
fn an_empty_queue_gives_none(rt: HostRuntime) -> Result<(), Errno> {
    let (queue, mut passes) = JobQueue::new(rt.alloc())?;
    let Some(mut worker) = passes.works.pop() else {
        unreachable!()
    };
    assert_eq!(rt; take(&rt, &queue, &mut worker), None);
    assert!(rt; post_two(&rt, &queue, &mut passes.posts, 15).is_some());
    let (first, second) = (
        take(&rt, &queue, &mut worker),
        take(&rt, &queue, &mut worker),
    );
    assert!(rt; first == Some((15, 1)) && second == Some((15, 2)));
    assert_eq!(rt; take(&rt, &queue, &mut worker), None);
    Ok(())
}

#[test]
fn a_post_and_a_wake_end_a_rest(rt: HostRuntime) -> Result<(), Errno> {
    let (queue, mut passes) = JobQueue::new(rt.alloc())?;
    let rest = queue.prepare_rest();
    assert!(rt; post_two(&rt, &queue, &mut passes.posts, 15).is_some());
    rest.wait(&rt);
    let rest = queue.prepare_rest();
    queue.wake_all();
    rest.wait(&rt);
    Ok(())
}

/// How many names each slot posts in the exchange, and how many each worker takes.
const SERIALS: usize = 50;

/// Posts so many names of a slot's first life, waiting where the queue is full.
fn post_all<R: Wait>(rt: &R, queue: &JobQueue, mut pass: PostPass, index: u8)
    requires range { index < 16 }
    requires fresh { pass ≡ fresh_post queue.now index }
{
    let mut serial = 1;
    for _ in rt.forever() {
        if serial > SERIALS as u64 {
            return;
        }
        match queue.post(rt, &mut pass, name(index, serial)) {
            Ok(()) => serial += 1,
            Err(_) => thread::yield_now(),
        }
    }
    unreachable!()
}

/// Fills the room in a list with names, and sleeps while there is none to take.
fn take_all<R: Wait>(
    rt: &R,
    queue: &JobQueue,
    mut pass: WorkPass,
    mut names: Vec<JobName>,
) -> Vec<JobName>
    requires queue { pass.queue ≡ queue.now }
    requires empty { vec_len names ≡ 0 }
    requires room { vec_capacity names ≡ 50 }
{
    for _ in rt.forever() {
        if names.len() >= SERIALS {
            return names;
        }
        let rest = queue.prepare_rest();
        match queue.take(rt, &mut pass) {
            Some(name) => names.push_reserved(name),
            None => rest.wait(rt),
        }
    }
    unreachable!()
}

/// Two slots post, in threads of their own.
fn post_both<R: Threads + Wait + Sync>(rt: &R, queue: &JobQueue, high: PostPass, low: PostPass)
    requires high { high ≡ fresh_post queue.now 15 }
    requires low { low ≡ fresh_post queue.now 14 }
{
    thread::join(
        rt,
        move ||
            requires { high ≡ fresh_post queue.now 15 }
        { post_all(rt, queue, high, 15) },
        move ||
            requires { low ≡ fresh_post queue.now 14 }
        { post_all(rt, queue, low, 14) },
    );
}

/// Two workers take, in threads of their own.
fn take_both<R: Threads + Wait + Sync>(
    rt: &R,
    queue: &JobQueue,
    works: (WorkPass, WorkPass),
    lists: (Vec<JobName>, Vec<JobName>),
) -> (Vec<JobName>, Vec<JobName>)
    requires queue { (works.0.queue ≡ queue.now) × (works.1.queue ≡ queue.now) }
    requires empty { (vec_len lists.0 ≡ 0) × (vec_len lists.1 ≡ 0) }
    requires room { (vec_capacity lists.0 ≡ 50) × (vec_capacity lists.1 ≡ 50) }
{
    let (first, second) = works;
    let (one, other) = lists;
    thread::join(
        rt,
        move ||
            requires { (first.queue ≡ queue.now) × (vec_len one ≡ 0) × (vec_capacity one ≡ 50) }
        { take_all(rt, queue, first, one) },
        move ||
            requires { (second.queue ≡ queue.now) × (vec_len other ≡ 0) × (vec_capacity other ≡ 50) }
        { take_all(rt, queue, second, other) },
    )
}

/// How often a slot's serial stands in the list.
fn times(names: &[JobName], index: usize, serial: u64) -> usize {
    names
        .iter()
        .filter(|x| x.slot.index() == index && x.serial == serial)
        .count()
}

/// Whether the serials of one slot rise through the list.
fn rises(names: &[JobName], index: usize) -> bool {
    let mut last = 0;
    for x in names {
        if x.slot.index() == index {
            if x.serial <= last {
                return false;
            }
            last = x.serial;
        }
    }
    true
}

/// Whether each serial of a slot stands once in one of two lists, in both of which they rise.
fn is_dealt(first: &[JobName], second: &[JobName], index: usize) -> bool {
    for serial in 1..SERIALS as u64 + 1 {
        let found = (times(first, index, serial), times(second, index, serial));
        if found != (1, 0) && found != (0, 1) {
            return false;
        }
    }
    rises(first, index) && rises(second, index)
}

/// Two slots post to two workers, in threads of their own: what each worker took.
fn exchange<R: Threads + Wait + Sync>(
    rt: &R,
    queue: &JobQueue,
    posts: (PostPass, PostPass),
    works: (WorkPass, WorkPass),
    lists: (Vec<JobName>, Vec<JobName>),
) -> (Vec<JobName>, Vec<JobName>)
    requires high { posts.0 ≡ fresh_post queue.now 15 }
    requires low { posts.1 ≡ fresh_post queue.now 14 }
    requires queue { (works.0.queue ≡ queue.now) × (works.1.queue ≡ queue.now) }
    requires empty { (vec_len lists.0 ≡ 0) × (vec_len lists.1 ≡ 0) }
    requires room { (vec_capacity lists.0 ≡ 50) × (vec_capacity lists.1 ≡ 50) }
{
    let (high, low) = posts;
    let ((), taken) = thread::join(
        rt,
        move ||
            requires { (high ≡ fresh_post queue.now 15) × (low ≡ fresh_post queue.now 14) }
        { post_both(rt, queue, high, low) },
        move ||
            requires queue { (works.0.queue ≡ queue.now) × (works.1.queue ≡ queue.now) }
            requires empty { (vec_len lists.0 ≡ 0) × (vec_len lists.1 ≡ 0) }
            requires room { (vec_capacity lists.0 ≡ 50) × (vec_capacity lists.1 ≡ 50) }
        { take_both(rt, queue, works, lists) },
    );
    taken
}

#[test]
fn each_name_goes_to_one_worker_in_order(rt: HostRuntime) -> Result<(), Fail> {
    let alloc = rt.alloc();
    let (queue, mut passes) = JobQueue::new(alloc)?;
    let (Some(high), Some(low)) = (passes.posts.pop(), passes.posts.pop()) else {
        unreachable!()
    };
    let (Some(first), Some(second)) = (passes.works.pop(), passes.works.pop()) else {
        unreachable!()
    };
    let lists = (
        Vec::with_capacity(alloc, SERIALS)?,
        Vec::with_capacity(alloc, SERIALS)?,
    );
    let (first, second) = exchange(&rt, &queue, (high, low), (first, second), lists);
    assert!(rt; is_dealt(&first, &second, 14));
    assert!(rt; is_dealt(&first, &second, 15));
    Ok(())
}
