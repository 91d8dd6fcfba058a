//! The loop that accepts streams, and serves a session over each.

ghost use Rattle.std.specs.Prelude.{◌≡◌, ◌+◌, vec_len};
ghost use Rattle.slab.specs.Slab.{slab_len};
ghost use Rattle.std.specs.Arc.{arc_value};

use crate::door::Door;
use crate::stream::{Listener, Stream};
use crate::table::Table;
use crate::tidings::Tidings;
use std::alloc::Global;
use std::io::{self, ErrorKind};
use std::sync::{Arc, Wait};
use std::thread;
use std::thread::Threads;
use std::time::{Clock, Duration};
use xt_cell::house::House;
use xt_host::desk::Desk;
use xt_host::host::Host;

/// How long it waits at first before it asks again for a stream, where a listener does not wait itself, in milliseconds.
const FIRST_REST_MILLIS: u64 = 1;

/// How long it waits then at most: twice as long each time while no client comes, so that a service that nobody calls costs next to nothing.
const LONGEST_REST_MILLIS: u64 = 64;

/// How long it waits where a stream could not be accepted, or its session had no thread, in milliseconds: others may end meanwhile, and give
/// theirs back.
const PAUSE_MILLIS: u64 = 100;

/// A wait for a stream: how long it rests next, in milliseconds.
#[derive(Drop)]
struct Waiting {
    rest: u64,
}

impl Waiting {
    /// One that begins.
    fn new() -> Self {
        Waiting {
            rest: FIRST_REST_MILLIS,
        }
    }

    /// Waits before a stream is asked for again. The first fault of all is told.
    fn wait_after<R: Wait + Clock>(&mut self, rt: &R, error: io::Error, tidings: &Tidings) {
        if error.kind() == ErrorKind::WouldBlock {
            thread::sleep(rt, Duration::from_millis(self.rest));
            self.rest = self.rest.saturating_mul(2).min(LONGEST_REST_MILLIS);
            return;
        }
        tidings.note_fault(rt, error);
        thread::sleep(rt, Duration::from_millis(PAUSE_MILLIS));
    }
}

/// The next stream of a listener; None once the door is shut. A stream that could not be accepted, as where its client went away before, or
/// where there are too many open files, is passed over.
fn next_stream<R: Wait + Clock>(
    rt: &R,
    listener: Listener<'_>,
    tidings: &Tidings,
    door: &Door,
) -> Option<Stream> {
    let mut waiting = Waiting::new();
    for _ in rt.forever() {
        if door.is_shut() {
            return None;
        }
        match listener.accept() {
            Ok(stream) => return Some(stream),
            Err(error) => waiting.wait_after(rt, error, tidings),
        }
    }
    unreachable!()
}

/// Begins one session more of a host: whether one has begun, or the door is shut. Where its thread is refused its client is sent away, and after
/// a while the next one is accepted.
fn begin_session<
    H: House + Send + Sync + 'static,
    D: Desk<H, R> + Drop + Send + Sync + 'static,
    R: Threads + Wait + Clock + Copy + Send + 'static,
>(
    rt: R,
    alloc: Global,
    host: &Arc<Host<H, D>, Global>,
    listener: Listener<'_>,
    table: &mut Table<H>,
    tidings: &Tidings,
    door: &Arc<Door, Global>,
) -> bool
    requires board { table.old.like.value.board.board ≡ (arc_value host.now).board }
    ensures like { table.new.like ≡ table.old.like }
    ensures places { slab_len table.new.sessions + vec_len table.new.free ≡ slab_len table.old.sessions + vec_len table.old.free }
{
    for _ in rt.forever() {
        table.wait_for_seat(&rt);
        let Some(stream) = next_stream(&rt, listener, tidings, door) else {
            return false;
        };
        if table.open(rt, alloc, host, stream, door) {
            return true;
        }
        tidings.note_sent_away();
        thread::sleep(&rt, Duration::from_millis(PAUSE_MILLIS));
    }
    unreachable!()
}

/// Serves so many sessions of a host, each in a thread of its own; while all places of the table are taken it accepts no stream. It
/// returns when the last has begun, or the door is shut.
pub fn accept_sessions<
    H: House + Send + Sync + 'static,
    D: Desk<H, R> + Drop + Send + Sync + 'static,
    R: Threads + Wait + Clock + Copy + Send + 'static,
>(
    rt: R,
    alloc: Global,
    host: &Arc<Host<H, D>, Global>,
    listener: Listener<'_>,
    table: &mut Table<H>,
    count: u64,
    tidings: &Tidings,
    door: &Arc<Door, Global>,
)
    requires board { table.old.like.value.board.board ≡ (arc_value host.now).board }
    ensures like { table.new.like ≡ table.old.like }
    ensures places { slab_len table.new.sessions + vec_len table.new.free ≡ slab_len table.old.sessions + vec_len table.old.free }
{
    for _ in 0..count {
        if !begin_session(rt, alloc, host, listener, table, tidings, door) {
            return;
        }
    }
}
