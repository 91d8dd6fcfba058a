//! The sessions that run, at most sixteen at a time, each in a thread of its own.

ghost use Rattle.std.specs.Prelude.{◌≡◌, ◌≤◌, ◌<◌, ◌+◌, ℕ, All, IfErr, IfOk, None, vec_len, vec_capacity};
ghost use Rattle.slab.specs.Slab.{get, slab_len};
ghost use Rattle.std.specs.Arc.{arc_value};
ghost use Rattle.std.specs.Option.{ForSome};
ghost use Rattle.xt_service.specs.HostSession.{IsHostSession};
ghost use Rattle.xt_service.specs.declared.ended.TheConstants.{PLACES};
ghost use Rattle.xt_session.specs.declared.session_end.SessionEnd.{SessionEnd as AnEnd};

use crate::door::Door;
use crate::ended::{Ended, PLACES};
use crate::guest::{Guest, Hearing, Telling};
use crate::host_session::host_session;
use crate::stream::Stream;
use slab::Slab;
use std::alloc::{AllocError, Global};
use std::snapshot::Snapshot;
use std::sync::{Arc, Wait};
use std::thread;
use std::thread::{Promise, PromisedHandle, Threads};
use xt_cell::house::House;
use xt_cell::seat::HostSeat;
use xt_host::desk::Desk;
use xt_host::host::Host;

/// What a session's thread promises: that it served one whole session by the seat that it was given, and gives that seat back. Of what a
/// stream carries nothing is known.
#[derive(Drop)]
pub struct OneSession<H: House>(pub Snapshot<HostSeat<H>>);

impl<H: House> Promise<HostSeat<H>> for OneSession<H> {
    ghost kept_by = { λ promise seat. (end : AnEnd) × IsHostSession promise.0.value seat None None None None end };
}

/// A session in a thread of its own, which gives its seat back at its end.
type Session<H> = PromisedHandle<HostSeat<H>, OneSession<H>>;

/// The sessions that run, by the numbers that they tell at their ends, and the seats of those that may begin. Off none of these seats
/// another was split.
#[derive(Drop)]
pub struct Table<H: House> {
    sessions: Slab<Session<H>>,
    free: Vec<HostSeat<H>>,
    ended: Arc<Ended, Global>,
    /// A seat as it was once: each seat here is of the same host.
    like: Snapshot<HostSeat<H>>,
    ghost most: { slab_len sessions + vec_len free ≤ PLACES },
    ghost keys: { PLACES ≤ sessions.capacity },
    ghost room: { PLACES ≤ vec_capacity free },
    ghost seats: { All (λ seat. seat.board.board ≡ like.value.board.board) free.items },
    ghost unsplit: { All (λ seat. seat.board.splits ≡ 0) free.items },
    ghost promised: { (number : ℕ) → ForSome (get sessions number) (λ session. session.promise.0.value.board.board ≡ like.value.board.board) },
    ghost promised_unsplit: { (number : ℕ) → ForSome (get sessions number) (λ session. session.promise.0.value.board.splits ≡ 0) },
}

/// Serves a session of a client to its end: the seat. Of a client that was sent away no line is heard. Once the door is shut it ends where
/// its client is silent.
fn serve_guest<H: House, D: Desk<H, R>, R: Wait>(
    rt: &R,
    alloc: Global,
    host: &Host<H, D>,
    seat: HostSeat<H>,
    guest: &Guest,
    door: &Door,
) -> HostSeat<H>
    requires board { seat.board.board ≡ host.now.board }
    ensures session { (end : AnEnd) × IsHostSession seat result None None None None end }
    ensures board { result.board.board ≡ host.now.board }
{
    guest.prepare();
    let mut reader = Hearing::new(guest, door);
    let mut writer = Telling::new(guest, door);
    let (seat, _end) = host_session(rt, alloc, host, seat, &mut reader, &mut writer);
    seat
}

/// Serves a session of a client, closes its stream, and then tells of its end under its number.
fn serve_told<H: House, D: Desk<H, R> + Drop, R: Wait + Copy>(
    rt: R,
    alloc: Global,
    host: Arc<Host<H, D>, Global>,
    seat: HostSeat<H>,
    guest: Arc<Guest, Global>,
    ended: Arc<Ended, Global>,
    number: usize,
    door: Arc<Door, Global>,
) -> HostSeat<H>
    requires board { seat.board.board ≡ (arc_value host).board }
    ensures session { (end : AnEnd) × IsHostSession seat result None None None None end }
    ensures board { result.board.board ≡ (arc_value host).board }
{
    let seat = serve_guest(&rt, alloc, &host, seat, &guest, &door);
    drop(guest);
    ended.tell(&rt, number);
    seat
}

/// Serves a session of a client in a thread of its own: its handle. Where no thread can be made the client is sent away, and no line of it
/// is heard: the seat.
fn start<
    H: House + Send + Sync + 'static,
    D: Desk<H, R> + Drop + Send + Sync + 'static,
    R: Threads + Wait + Copy + Send + 'static,
>(
    rt: R,
    alloc: Global,
    host: &Arc<Host<H, D>, Global>,
    seat: HostSeat<H>,
    guest: Arc<Guest, Global>,
    ended: &Arc<Ended, Global>,
    number: usize,
    door: &Arc<Door, Global>,
) -> Result<Session<H>, HostSeat<H>>
    requires board { seat.board.board ≡ (arc_value host.now).board }
    ensures session { IfOk result (λ session. session.promise.0.value ≡ seat) }
    ensures ended { IfErr result (λ back. (end : AnEnd) × IsHostSession seat back None None None None end) }
    ensures seat { IfErr result (λ back. back.board.board ≡ (arc_value host.now).board) }
{
    let (Ok(theirs), Ok(client), Ok(told), Ok(shut)) = (
        Arc::try_clone(host),
        Arc::try_clone(&guest),
        Arc::try_clone(ended),
        Arc::try_clone(door),
    ) else {
        guest.send_away();
        return Err(serve_guest(&rt, alloc, host, seat, &guest, door));
    };
    let promise = OneSession(Snapshot::of(&seat));
    let session = move || -> HostSeat<H>
        requires { seat.board.board ≡ (arc_value theirs).board }
        ensures { (end : AnEnd) × IsHostSession seat result None None None None end }
    { serve_told(rt, alloc, theirs, seat, client, told, number, shut) };
    match thread::spawn_with(&rt, promise, session) {
        Ok(session) => Ok(session),
        Err(refused) => {
            // the seat is in the closure, which gives it back
            guest.send_away();
            Err((refused.value)())
        }
    }
}

impl<H: House> Table<H> {
    /// A table with no seat yet, whose sessions tell their ends there; its seats will be of the host of this one. The one error is want
    /// of memory.
    pub fn new(
        alloc: Global,
        ended: Arc<Ended, Global>,
        seat: &HostSeat<H>,
    ) -> Result<Self, AllocError>
        ensures like { IfOk result (λ table. table.like.value ≡ seat.now) }
        ensures running { IfOk result (λ table. slab_len table.sessions ≡ 0) }
        ensures free { IfOk result (λ table. vec_len table.free ≡ 0) }
    {
        let sessions = Slab::with_capacity(alloc, PLACES)?;
        let free = Vec::with_capacity(alloc, PLACES)?;
        Ok(Table {
            sessions,
            free,
            ended,
            like: Snapshot::of(seat),
        })
    }

    /// How many sessions run: sixteen at most.
    pub fn running(&self) -> usize
        ensures count { result ≡ slab_len self.now.sessions }
        ensures most { result ≤ PLACES }
    {
        self.sessions.len()
    }

    /// How many places there are in all, with those of the sessions that run: sixteen at most.
    pub fn places(&self) -> usize
        ensures count { result ≡ slab_len self.now.sessions + vec_len self.now.free }
        ensures most { result ≤ PLACES }
    {
        self.sessions.len() + self.free.len()
    }

    /// One more place, which is free, by a seat of the table's host, off which none was split.
    pub fn add(&mut self, seat: HostSeat<H>)
        requires room { slab_len self.old.sessions + vec_len self.old.free < PLACES }
        requires board { seat.board.board ≡ self.old.like.value.board.board }
        requires unsplit { seat.board.splits ≡ 0 }
        ensures running { slab_len self.new.sessions ≡ slab_len self.old.sessions }
        ensures free { vec_len self.new.free ≡ vec_len self.old.free + 1 }
        ensures like { self.new.like ≡ self.old.like }
    {
        self.free.push_reserved(seat);
    }

    /// Waits for the end of a session, and takes its seat back.
    fn take_back<R: Threads + Wait>(&mut self, rt: &R)
        ensures like { self.new.like ≡ self.old.like }
        ensures places { slab_len self.new.sessions + vec_len self.new.free ≡ slab_len self.old.sessions + vec_len self.old.free }
    {
        let number = self.ended.next(rt);
        let Some(session) = self.sessions.try_remove(number) else {
            return;
        };
        self.free.push_reserved(session.join(rt));
    }

    /// Waits until a place is free: while all are taken, until a session ends.
    pub fn wait_for_seat<R: Threads + Wait>(&mut self, rt: &R)
        ensures free { 0 < vec_len self.new.free }
        ensures like { self.new.like ≡ self.old.like }
        ensures places { slab_len self.new.sessions + vec_len self.new.free ≡ slab_len self.old.sessions + vec_len self.old.free }
    {
        for _ in rt.forever() {
            if !self.free.is_empty() {
                return;
            }
            self.take_back(rt);
        }
        unreachable!()
    }

    /// Waits until no session runs.
    pub fn wait_for_all<R: Threads + Wait>(&mut self, rt: &R)
        ensures running { slab_len self.new.sessions ≡ 0 }
        ensures like { self.new.like ≡ self.old.like }
        ensures places { slab_len self.new.sessions + vec_len self.new.free ≡ slab_len self.old.sessions + vec_len self.old.free }
    {
        for _ in rt.forever() {
            if self.sessions.is_empty() {
                return;
            }
            self.take_back(rt);
        }
        unreachable!()
    }

    /// The seats, for the end of the host.
    pub fn into_seats(self) -> Vec<HostSeat<H>>
        requires running { slab_len self.sessions ≡ 0 }
        ensures seats { result ≡ self.free }
    {
        self.free
    }
}

impl<H: House + Send + Sync + 'static> Table<H> {
    /// Serves a session of a host over a stream, in a thread of its own and by a free place: whether one has begun. Where no thread can be made,
    /// or no memory for one, the client is sent away: the stream is closed, and no line of it was heard. Once the door is shut the session ends
    /// where its client is silent.
    pub fn open<
        D: Desk<H, R> + Drop + Send + Sync + 'static,
        R: Threads + Wait + Copy + Send + 'static,
    >(
        &mut self,
        rt: R,
        alloc: Global,
        host: &Arc<Host<H, D>, Global>,
        stream: Stream,
        door: &Arc<Door, Global>,
    ) -> bool
        requires free { 0 < vec_len self.old.free }
        requires board { self.old.like.value.board.board ≡ (arc_value host.now).board }
        ensures like { self.new.like ≡ self.old.like }
        ensures places { slab_len self.new.sessions + vec_len self.new.free ≡ slab_len self.old.sessions + vec_len self.old.free }
    {
        let Ok(guest) = Arc::new(alloc, Guest::new(stream)) else {
            return false;
        };
        let Some(seat) = self.free.pop() else {
            unreachable!()
        };
        let number = self.sessions.vacant_key();
        match start(rt, alloc, host, seat, guest, &self.ended, number, door) {
            Ok(session) => {
                self.sessions.insert_reserved(session);
                true
            }
            Err(seat) => {
                self.ended.forget(&rt, number);
                self.free.push_reserved(seat);
                false
            }
        }
    }
}
