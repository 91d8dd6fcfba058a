//! What a service tells on standard error while it runs, by a thread of its own: a standard error that nobody reads holds up that thread, and
//! no session, no worker, and no stream that is to be accepted.

use std::io::{self, Eprint};
use std::sync::atomic::{AtomicBool, Ordering};
use std::sync::{Condvar, Mutex, Wait};
use std::thread;
use std::time::{Clock, Duration};

/// After how long at most it is looked again whether something is to be told; whoever notes something rings before.
const LOOK_SECONDS: u64 = 60;

/// How often the end of a service looks whether all was told, and how long it waits then, in milliseconds: a second in all.
const LAST_LOOKS: u32 = 100;

const LAST_LOOK_MILLIS: u64 = 10;

/// What is to be told, each thing once. To note something takes no memory, and waits for nobody who writes.
#[derive(Drop)]
pub struct Tidings {
    /// The first fault of a stream that could not be accepted.
    fault: Mutex<Option<io::Error>>,
    /// Whether a client was sent away, since its session could not have a thread.
    sent_away: AtomicBool,
    is_over: AtomicBool,
    is_told: AtomicBool,
    bell: Condvar,
}

/// What was told already.
#[derive(Drop)]
struct Told {
    fault: bool,
    sent_away: bool,
}

/// Whether something was noted that was not told: then it counts as told.
fn is_news(noted: &AtomicBool, told: &mut bool) -> bool {
    let is_news = !*told && noted.load(Ordering::SeqCst);
    *told = *told || is_news;
    is_news
}

impl Tidings {
    /// Nothing is to be told yet.
    pub fn new() -> Self {
        Tidings {
            fault: Mutex::new(None),
            sent_away: AtomicBool::new(false),
            is_over: AtomicBool::new(false),
            is_told: AtomicBool::new(false),
            bell: Condvar::new(),
        }
    }

    /// Notes something, and rings.
    fn note(&self, thing: &AtomicBool) {
        thing.store(true, Ordering::SeqCst);
        self.bell.notify_all();
    }

    /// Notes that a stream could not be accepted; of several faults the first.
    pub fn note_fault<R: Wait>(&self, rt: &R, error: io::Error) {
        let mut fault = self.fault.lock(rt);
        if fault.is_none() {
            *fault = Some(error);
        }
        drop(fault);
        self.bell.notify_all();
    }

    /// Notes that a client was sent away.
    pub fn note_sent_away(&self) {
        self.note(&self.sent_away);
    }

    /// Tells on standard error what was noted and not told. A standard error that fails changes nothing.
    fn tell_news<R: Wait + Eprint>(&self, rt: &R, told: &mut Told) {
        let fault = *self.fault.lock(rt);
        if let (Some(error), false) = (fault, told.fault) {
            told.fault = true;
            let _ = eprintln!(rt; "accept: {error}; it is tried again");
        }
        if is_news(&self.sent_away, &mut told.sent_away) {
            let _ = eprintln!(rt;
                "accept: no thread for a session; its client is sent away, and so are others until there is one"
            );
        }
    }

    /// Tells on standard error what is noted, until the service is over. It is for a thread of its own.
    pub fn tell<R: Wait + Eprint>(&self, rt: &R) {
        let mut told = Told {
            fault: false,
            sent_away: false,
        };
        for _ in rt.forever() {
            // what is noted from here on rings, so that it is not slept through
            let rung = self.bell.notifications();
            let is_last = self.is_over.load(Ordering::SeqCst);
            self.tell_news(rt, &mut told);
            if is_last {
                self.is_told.store(true, Ordering::SeqCst);
                return;
            }
            self.bell.sleep(rt, rung, Duration::from_secs(LOOK_SECONDS));
        }
        unreachable!()
    }

    /// Ends the telling, once all is told that was noted: it waits for that, but for a second at most.
    pub fn end<R: Clock>(&self, rt: &R) {
        self.note(&self.is_over);
        for _ in 0..LAST_LOOKS {
            if self.is_told.load(Ordering::SeqCst) {
                return;
            }
            thread::sleep(rt, Duration::from_millis(LAST_LOOK_MILLIS));
        }
    }
}
