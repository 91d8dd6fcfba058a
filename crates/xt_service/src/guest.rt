//! The stream of a session, which is given up once a door is shut and its client is silent.

use crate::door::Door;
use crate::stream::Stream;
use std::io::{self, ErrorKind, Read, Write};
use std::sync::atomic::{AtomicBool, Ordering};
use std::time::Duration;

/// After how long a client that says nothing, or takes no reply, is silent, in milliseconds.
const SILENCE_MILLIS: u64 = 100;

/// How often a session reads once the door is shut, where its client is not silent.
const LAST_READS: u32 = 100;

/// The stream of a client, and whether the client was sent away before its session began.
#[derive(Drop)]
pub struct Guest {
    stream: Stream,
    is_sent_away: AtomicBool,
}

impl Guest {
    /// One that is to be served.
    pub fn new(stream: Stream) -> Self {
        Guest {
            stream,
            is_sent_away: AtomicBool::new(false),
        }
    }

    /// Sends it away: nothing that it says is heard.
    pub fn send_away(&self) {
        self.is_sent_away.store(true, Ordering::SeqCst);
    }

    /// Has its stream pass on each reply at once, and tell of silence. One that can't waits for its client as before.
    pub fn prepare(&self) {
        self.stream.prepare(Duration::from_millis(SILENCE_MILLIS));
    }
}

/// What a fault of a stream is to its session: silence is none while the door is open, so the call is made again; then it is the end.
fn fault(error: io::Error, door: &Door) -> io::Error {
    if error.kind() != ErrorKind::WouldBlock {
        return error;
    }
    if door.is_shut() {
        io::Error::from(ErrorKind::TimedOut)
    } else {
        io::Error::from(ErrorKind::Interrupted)
    }
}

/// What a client says; nothing of one that was sent away, or that was silent for longer than the door bears. Once that is shut it is read until the client is
/// silent, and a hundred times at most.
#[derive(Drop)]
pub struct Hearing<'a> {
    guest: &'a Guest,
    door: &'a Door,
    last_reads: u32,
    /// For how many tenths of a second the client has been silent.
    silence: u64,
}

impl<'a> Hearing<'a> {
    /// What a client says, up to its silence once the door is shut.
    pub fn new(guest: &'a Guest, door: &'a Door) -> Self {
        Hearing {
            guest,
            door,
            last_reads: LAST_READS,
            silence: 0,
        }
    }

    /// Whether it is read again.
    fn goes_on(&mut self) -> bool {
        if self.guest.is_sent_away.load(Ordering::SeqCst) {
            return false;
        }
        if !self.door.is_shut() {
            return true;
        }
        let goes_on = self.last_reads > 0;
        self.last_reads = self.last_reads.saturating_sub(1);
        goes_on
    }
}

impl<'a> Read for Hearing<'a> {
    fn read(&mut self, buf: &mut [u8]) -> io::Result<usize> {
        if !self.goes_on() {
            return Err(io::Error::from(ErrorKind::TimedOut));
        }
        match self.guest.stream.hear(buf) {
            Ok(count) => {
                self.silence = 0;
                Ok(count)
            }
            Err(error) => {
                self.silence = self.silence.saturating_add(1);
                if self.door.bears(self.silence) {
                    Err(fault(error, self.door))
                } else {
                    Err(io::Error::from(ErrorKind::TimedOut))
                }
            }
        }
    }
}

/// What a client is told, up to its silence once the door is shut.
#[derive(Drop)]
pub struct Telling<'a> {
    guest: &'a Guest,
    door: &'a Door,
}

impl<'a> Telling<'a> {
    /// What a client is told.
    pub fn new(guest: &'a Guest, door: &'a Door) -> Self {
        Telling { guest, door }
    }
}

impl<'a> Write for Telling<'a> {
    fn write(&mut self, buf: &[u8]) -> io::Result<usize> {
        match self.guest.stream.tell(buf) {
            Ok(count) => Ok(count),
            Err(error) => Err(fault(error, self.door)),
        }
    }

    fn flush(&mut self) -> io::Result<()> {
        Ok(())
    }
}
