//! Devices that wait for what another thread does, so that a test sees whether both go on at once.

ghost use Rattle.std.specs.Prelude.{◌≡◌, ◌+◌, [], true, IfSome, IsSomeAnd};

use crate::call::HomeCall;
use crate::copies::{piece_offer, read_call, write_call};
use crate::failures::Failures;
use crate::fault::DevFault;
use crate::home::HomeDevice;
use crate::log::LogDevice;
use crate::record::Record;
use std::alloc::Global;
use std::sync::Arc;
use std::sync::atomic::{AtomicBool, Ordering};
use std::thread;
use xt_base::names::Block;
use xt_base::steps::{HomeOffer, LogOffer};

/// After how many looks at a flag others are let run.
const LOOKS: u64 = 1_000;

/// A flag that is raised once, and seen by all who share it.
#[derive(Drop)]
pub struct Flag {
    is_raised: AtomicBool,
}

impl Flag {
    /// One that is not raised.
    pub fn new() -> Self {
        Flag {
            is_raised: AtomicBool::new(false),
        }
    }

    /// Raises it.
    pub fn raise(&self) {
        self.is_raised.store(true, Ordering::SeqCst);
    }

    /// Whether it is raised.
    pub fn is_raised(&self) -> bool {
        self.is_raised.load(Ordering::SeqCst)
    }

    /// Looks at it so many times at most, until it is raised: whether it was seen so. Now and then it lets others run.
    pub fn is_seen_within(&self, turns: u64) -> bool {
        for turn in 0..turns {
            if self.is_raised() {
                return true;
            }
            if turn % LOOKS == 0 {
                thread::yield_now();
            }
        }
        false
    }
}

/// What a gate does at a call: it raises one flag, and waits for the other.
#[derive(Drop)]
pub struct Meeting {
    /// Raised as soon as the gate is reached.
    pub reached: Arc<Flag, Global>,
    /// What the gate waits for.
    pub awaited: Arc<Flag, Global>,
    /// How often it looks for that.
    pub turns: u64,
}

impl Meeting {
    /// Raises its flag, and waits for the other: whether that was seen raised.
    fn is_kept(&self) -> bool {
        self.reached.raise();
        self.awaited.is_seen_within(self.turns)
    }
}

/// A log device over another one, whose appends wait at a gate. An append for which the gate waits in vain fails and is not
/// handed on; every other call is. It tells each call with its answer, those that failed at the gate among them, until a record
/// finds no memory.
#[derive(Drop)]
pub struct GateLog<D> {
    pub device: D,
    meeting: Meeting,
    alloc: Global,
    kept: Record<LogOffer>,
    failures: Failures,
}

impl<D: LogDevice> GateLog<D> {
    /// A gate before a log device.
    pub fn new(alloc: Global, device: D, meeting: Meeting) -> Self
        ensures device { result.device ≡ device }
        ensures tells { ⟦<GateLog<D> as LogDevice>⟧.log_tells result ≡ true }
        ensures taken { ⟦<GateLog<D> as LogDevice>⟧.log_taken result ≡ [] }
        ensures failures { ⟦<GateLog<D> as LogDevice>⟧.log_failures result ≡ D.log_failures device }
        ensures loses { ⟦<GateLog<D> as LogDevice>⟧.log_loses result ≡ D.log_loses device }
    {
        GateLog {
            device,
            meeting,
            alloc,
            kept: Record::new(alloc),
            failures: Failures::none(),
        }
    }

    /// Its calls, in order; None where it tells no more.
    pub fn taken(&self) -> Option<&[LogOffer]>
        ensures told { ⟦<GateLog<D> as LogDevice>⟧.log_tells self.now ≡ true → IsSomeAnd result (λ offers. offers.now ≡ ⟦<GateLog<D> as LogDevice>⟧.log_taken self.now) }
        ensures silent { IfSome result (λ _. ⟦<GateLog<D> as LogDevice>⟧.log_tells self.now ≡ true) }
    {
        self.kept.told()
    }
}

impl<D: LogDevice> LogDevice for GateLog<D> {
    ghost log_tells = { λ d. d.kept.tells };

    ghost log_taken = { λ d. d.kept.calls.items };

    ghost log_failures = { λ d. D.log_failures d.device + d.failures.count };

    ghost log_loses = { λ d. D.log_loses d.device };

    fn append(&mut self, piece: &[u8]) -> Result<(), DevFault> {
        let answer = if self.meeting.is_kept() {
            self.device.append(piece)
        } else {
            self.failures.answer(false)
        };
        let call = piece_offer(self.alloc, piece, answer.is_ok());
        self.kept.note(call);
        answer
    }

    fn sync(&mut self) -> Result<(), DevFault> {
        let answer = self.device.sync();
        let ok = answer.is_ok();
        self.kept.note(Some(LogOffer::Sync { ok }));
        answer
    }

    fn make_room(&mut self, bytes: u64) {
        self.device.make_room(bytes);
    }

    fn cut(&mut self, size: u32) {
        self.device.cut(size);
    }
}

/// A home device over another one, whose reads wait at a gate. A read for which the gate waits in vain fails and is not handed
/// on; every other call is. It tells each call with its answer, those that failed at the gate among them, until a record finds
/// no memory.
#[derive(Drop)]
pub struct GateHome<D> {
    pub device: D,
    meeting: Meeting,
    alloc: Global,
    kept: Record<HomeCall>,
    failures: Failures,
}

impl<D: HomeDevice> GateHome<D> {
    /// A gate before a home device.
    pub fn new(alloc: Global, device: D, meeting: Meeting) -> Self
        ensures device { result.device ≡ device }
        ensures tells { ⟦<GateHome<D> as HomeDevice>⟧.home_tells result ≡ true }
        ensures taken { ⟦<GateHome<D> as HomeDevice>⟧.home_taken result ≡ [] }
        ensures failures { ⟦<GateHome<D> as HomeDevice>⟧.home_failures result ≡ D.home_failures device }
    {
        GateHome {
            device,
            meeting,
            alloc,
            kept: Record::new(alloc),
            failures: Failures::none(),
        }
    }

    /// Its calls, in order; None where it tells no more.
    pub fn taken(&self) -> Option<&[HomeCall]>
        ensures told { ⟦<GateHome<D> as HomeDevice>⟧.home_tells self.now ≡ true → IsSomeAnd result (λ calls. calls.now ≡ ⟦<GateHome<D> as HomeDevice>⟧.home_taken self.now) }
        ensures silent { IfSome result (λ _. ⟦<GateHome<D> as HomeDevice>⟧.home_tells self.now ≡ true) }
    {
        self.kept.told()
    }
}

impl<D: HomeDevice> HomeDevice for GateHome<D> {
    ghost home_tells = { λ d. d.kept.tells };

    ghost home_taken = { λ d. d.kept.calls.items };

    ghost home_failures = { λ d. D.home_failures d.device + d.failures.count };

    fn read(&mut self, block: Block, into: &mut [u8]) -> Result<(), DevFault> {
        let answer = if self.meeting.is_kept() {
            self.device.read(block, into)
        } else {
            self.failures.answer(false)
        };
        let call = match answer {
            Ok(()) => read_call(self.alloc, block, into),
            Err(DevFault) => Some(HomeCall::Read {
                block,
                content: None,
            }),
        };
        self.kept.note(call);
        answer
    }

    fn write(&mut self, block: Block, content: &[u8]) -> Result<(), DevFault> {
        let answer = self.device.write(block, content);
        let call = write_call(self.alloc, block, content, answer.is_ok());
        self.kept.note(call);
        answer
    }

    fn sync(&mut self) -> Result<(), DevFault> {
        let answer = self.device.sync();
        let ok = answer.is_ok();
        self.kept
            .note(Some(HomeCall::Offer(HomeOffer::Sync { ok })));
        answer
    }
}
