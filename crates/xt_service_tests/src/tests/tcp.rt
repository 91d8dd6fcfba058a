//! Sessions over TCP, in one process with their clients.

ghost use Rattle.std.specs.Prelude.{◌≡◌, ◌-◌, ◌^◌, All};
ghost use Rattle.std.specs.Arc.{arc_value};
ghost use Rattle.xt_cell.specs.Ledgers.{AreCut, AreNamed};

use crate::tests::stand::{Stand, in_memory, mounted, two_slots};
use std::alloc::Global;
use std::io::{Read, Write};
use std::marker::Brand;
use std::net::{Net, Shutdown, SocketAddr, TcpListener, TcpStream};
use std::process::Abort;
use std::rt::HostRuntime;
use std::sync::{Arc, Wait};
use std::thread::{JoinHandle, Threads};
use std::time::{Clock, Duration};
use std::{io, thread};
use xt_base::names::{Life, Slot};
use xt_base::sizes::SLOTS;
use xt_base::steps::Errno;
use xt_cell::house::House;
use xt_cell::mount_ref::MountRef;
use xt_cell::reserve::Blanks;
use xt_host::desk::Slots;
use xt_host::fault::CloseFault;
use xt_host::host::Host;
use xt_service::door::Door;
use xt_service::service::{Service, ServiceEnd};
use xt_service::stream::Listener;
use xt_service::tidings::Tidings;

/// What the clients of a service do.
#[derive(Clone, Copy)]
enum Visit {
    /// Two come, one after the other: each says its lines, and hears all that it is told.
    Two(&'static [u8], &'static [u8]),
    /// One says its lines, and goes away before it hears anything.
    Leave(&'static [u8]),
    /// Sixteen come and stay, and then a seventeenth.
    Crowd,
}

impl Visit {
    /// How many sessions it has.
    fn sessions(&self) -> u32 {
        match self {
            Visit::Two(..) => 2,
            Visit::Leave(_) => 1,
            Visit::Crowd => 17,
        }
    }
}

/// Says some lines in a session, and hears all that it is told.
fn ask<R: Net<Stream = TcpStream>>(
    rt: &R,
    at: SocketAddr,
    lines: &[u8],
    told: &mut Vec<u8>,
) -> io::Result<()> {
    let mut stream = TcpStream::connect(rt, at)?;
    stream.write_all(lines)?;
    stream.shutdown(Shutdown::Write)?;
    stream.read_to_end(told)?;
    Ok(())
}

/// A session that stays: it was told of a force.
fn stay<R: Net<Stream = TcpStream>>(rt: &R, at: SocketAddr) -> io::Result<TcpStream> {
    let mut stream = TcpStream::connect(rt, at)?;
    stream.write_all(b"0.1 force\n")?;
    let mut reply = [0u8; 5];
    stream.read_exact(&mut reply)?;
    Ok(stream)
}

/// Sixteen sessions that stay.
fn crowd<R: Net<Stream = TcpStream>>(
    rt: &R,
    alloc: Global,
    at: SocketAddr,
) -> io::Result<Vec<TcpStream>> {
    let mut streams = Vec::new(alloc);
    for _ in 0..16 {
        streams.push(stay(rt, at)?)?;
    }
    Ok(streams)
}

/// A seventeenth session beside sixteen: it is told nothing while they stay, and is served once one goes. What it hears then.
fn come_late<R: Net<Stream = TcpStream>>(
    rt: &R,
    alloc: Global,
    at: SocketAddr,
    told: &mut Vec<u8>,
) -> io::Result<()> {
    let mut streams = crowd(rt, alloc, at)?;
    let mut late = TcpStream::connect(rt, at)?;
    late.write_all(b"0.1 push\n")?;
    late.shutdown(Shutdown::Write)?;
    late.set_read_timeout(Some(Duration::from_millis(200)))?;
    if late.read_to_end(told).is_ok() {
        told.extend_from_slice(b"served too early\n")?;
    }
    late.set_read_timeout(None)?;
    drop(streams.pop());
    late.read_to_end(told)?;
    Ok(())
}

/// What all clients of a visit are told.
fn pay<R: Net<Stream = TcpStream>>(
    rt: &R,
    alloc: Global,
    at: SocketAddr,
    visit: Visit,
) -> io::Result<Vec<u8>> {
    let mut told = Vec::new(alloc);
    match visit {
        Visit::Two(first, second) => {
            ask(rt, at, first, &mut told)?;
            ask(rt, at, second, &mut told)?;
        }
        Visit::Leave(lines) => TcpStream::connect(rt, at)?.write_all(lines)?,
        Visit::Crowd => come_late(rt, alloc, at, &mut told)?,
    }
    Ok(told)
}

/// What the clients were told, why slots are still mounted, and what the end of the host found.
#[derive(Debug, Drop, PartialEq)]
struct Told {
    said: Vec<u8>,
    kept: [Option<Errno>; SLOTS],
    closed: Result<(), CloseFault>,
}

/// The first mount of a slot.
fn at(slot: Slot) -> MountRef {
    MountRef {
        slot,
        life: Life(1),
    }
}

/// A listener at a port of its own.
fn listen<R: Net<Listener = TcpListener, Stream = TcpStream>>(
    rt: &R,
) -> Result<TcpListener, Errno> {
    match TcpListener::bind(rt, "127.0.0.1:0") {
        Ok(listener) => Ok(listener),
        Err(_refused) => Err(Errno::NoDevice),
    }
}

/// The clients of a visit, in a thread of their own.
fn call_on<R: Net<Listener = TcpListener, Stream = TcpStream> + Threads + Copy + Send + 'static>(
    rt: R,
    alloc: Global,
    listener: &TcpListener,
    visit: Visit,
) -> Result<JoinHandle<io::Result<Vec<u8>>>, Errno> {
    let Ok(at) = listener.local_addr() else {
        return Err(Errno::NoDevice);
    };
    match thread::spawn(&rt, move || pay(&rt, alloc, at, visit)) {
        Ok(clients) => Ok(clients),
        Err(_refused) => Err(Errno::NoMemory),
    }
}

/// Serves the clients of a visit: what they are told.
fn serve_clients<
    H: House + Send + Sync + 'static,
    R: Net<Listener = TcpListener, Stream = TcpStream>
        + Threads
        + Wait
        + Clock
        + Copy
        + Send
        + 'static,
>(
    rt: R,
    alloc: Global,
    host: &Arc<Host<H>, Global>,
    service: &mut Service<H>,
    visit: Visit,
) -> Result<Vec<u8>, Errno>
    requires board { service.old.own.board.board ≡ (arc_value host.now).board }
    requires workers { All (λ worker. (worker.promise.0.value.seat.board.board ≡ (arc_value host.now).board) × (worker.promise.0.value.pass.queue ≡ arc_value (arc_value host.now).queue)) service.old.crew.workers.items }
    ensures board { service.new.own.board.board ≡ (arc_value host.now).board }
    ensures workers { All (λ worker. (worker.promise.0.value.seat.board.board ≡ (arc_value host.now).board) × (worker.promise.0.value.pass.queue ≡ arc_value (arc_value host.now).queue)) service.new.crew.workers.items }
{
    let listener = listen(&rt)?;
    let Ok(door) = Arc::new(alloc, Door::new()) else {
        return Err(Errno::NoMemory);
    };
    let clients = call_on(rt, alloc, &listener, visit)?;
    service.serve(
        rt,
        alloc,
        host,
        Listener::Tcp(&listener),
        u64::from(visit.sessions()),
        &Tidings::new(),
        &door,
    );
    match clients.join(&rt) {
        Ok(told) => Ok(told),
        Err(_fault) => Err(Errno::Io),
    }
}

/// Ends a service over the two mounts, and its host: what the end finds, with what clients were told.
fn finish<H: House, D: Stand<H, R>, R: Threads + Wait>(
    rt: &R,
    host: Arc<Host<H, D>, Global>,
    service: Service<H>,
    mounts: &[MountRef],
    said: Result<Vec<u8>, Errno>,
) -> Result<Told, Errno>
    requires board { service.own.board.board ≡ (arc_value host).board }
    requires workers { All (λ worker. (worker.promise.0.value.seat.board.board ≡ (arc_value host).board) × (worker.promise.0.value.pass.queue ≡ arc_value (arc_value host).queue)) service.crew.workers.items }
{
    let ServiceEnd {
        kept,
        seats,
        passes,
    } = service.end(rt, &host, mounts);
    let Some(host) = Arc::into_inner(host) else {
        return Err(Errno::Busy);
    };
    let closed = host.close(seats, passes);
    let said = said?;
    Ok(Told { said, kept, closed })
}

/// Serves a visit over a host with slots 0 and 1 mounted.
fn serve<
    H: House + Send + Sync + 'static,
    R: Net<Listener = TcpListener, Stream = TcpStream>
        + Threads
        + Wait
        + Clock
        + Copy
        + Send
        + 'static,
>(rt: R, alloc: Global, blanks: Blanks, visit: Visit) -> Result<Told, Errno>
    requires names { AreNamed H.names blanks }
    requires parts { AreCut H.all blanks }
    requires all { H.all ≡ 2 ^ 64 - 1 }
{
    let (slot, other) = two_slots()?;
    let devices = (in_memory(alloc)?, in_memory(alloc)?);
    let (host, own, passes) = mounted::<H, Slots<H>, R>(
        &rt,
        alloc,
        blanks,
        (slot, other),
        devices,
    )?;
    let Ok(host) = Arc::new(alloc, host) else {
        return Err(Errno::NoMemory);
    };
    let mut service = Service::start(rt, alloc, &host, own, passes)?;
    let said = serve_clients(rt, alloc, &host, &mut service, visit);
    finish(&rt, host, service, &[at(slot), at(other)], said)
}

/// The same over new ledgers.
fn serves<
    R: Net<Listener = TcpListener, Stream = TcpStream>
        + Threads
        + Wait
        + Clock
        + Copy
        + Send
        + 'static,
>(rt: R, alloc: Global, blanks: Blanks, visit: Visit) -> Result<Told, Errno>
    requires parts { AreCut (2 ^ 64 - 1) blanks }
{
    serve::<Brand, R>(rt, alloc, blanks, visit)
}

/// Asserts what the clients of a visit are told, with all given back at its end and the books in order.
fn is_told<
    R: Abort
        + Net<Listener = TcpListener, Stream = TcpStream>
        + Threads
        + Wait
        + Clock
        + Copy
        + Send
        + 'static,
>(rt: R, alloc: Global, visit: Visit, said: &[u8]) {
    let told = serves(rt, alloc, Blanks::new(), visit).expect(&rt, "a visit");
    assert_eq!(rt; told.said.as_slice(), said);
    assert_eq!(rt; told.kept, [None; SLOTS]);
    assert_eq!(rt; told.closed, Ok(()));
}

/// A transaction that is left changed shuts its mount, and no other; what is held of others is given back.
#[test]
fn a_change_that_is_left_over_tcp_shuts_its_mount_alone(rt: HostRuntime) {
    let first = b"0.1 alloc 176 1 plain\n0.1 read t1 7\n0.1 log t1 7 0 11\n".as_slice();
    let second = b"peek 0\n1.1 alloc 176 1 plain\n1.1 commit t1".as_slice();
    is_told(
        rt,
        rt.alloc(),
        Visit::Two(first, second),
        b"t1\nok\nok\nseen 1 CORRUPT_INCORE\nt1\nc0\n",
    );
}

/// A client that goes away leaves nothing: its mounts can be unmounted.
#[test]
fn a_client_that_goes_away_leaves_nothing(rt: HostRuntime) {
    let lines =
        b"0.1 alloc 1 1 plain\n0.1 get t1 9\n0.1 hold t1 9\n0.1 commit t1\n1.1 alloc 1 1 plain\n1.1 get t1".as_slice();
    is_told(rt, rt.alloc(), Visit::Leave(lines), b"");
}

/// A seventeenth client waits until one of sixteen goes.
#[test]
fn a_seventeenth_client_waits(rt: HostRuntime) {
    is_told(rt, rt.alloc(), Visit::Crowd, b"ok\n");
}
