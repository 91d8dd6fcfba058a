//! One cell with its devices, driven by a table of deeds.

ghost use Rattle.std.specs.Prelude.{◌≡◌, ◌<◌, Some, length, true};
ghost use Rattle.xt_base.specs.Form.{is_size};

use crate::tests::deeds::{Deed, Told, answer_of, request_of};
use crate::tests::opening::{Devices, Parts};
use crate::tests::replay::{Ended, are_of};
use std::alloc::{AllocError, Global};
use std::mem;
use std::process::Abort;
use std::sync::Wait;
use xt_base::names::{Block, JobName, Life, Slot, Worker};
use xt_base::steps::{Errno, Reply};
use xt_cell::{DoneJob, EndFault, House, MountRef, MountRefused};

/// A cell of slot 15, the devices while it has none, the name that was taken last and not begun, and the job that was run last
/// and not ended. A job must be ended, so a bench is closed or the test is given up.
pub struct Bench<H: House> {
    alloc: Global,
    parts: Parts<H>,
    slot: Slot,
    life: Life,
    worker: Worker,
    devices: Option<Devices>,
    name: Option<JobName>,
    done: Option<DoneJob>,
    ghost number: { slot ≡ 15 },
}

/// What a want of memory is told.
const NO_MEMORY: Told = Told::Refused(Errno::NoMemory);

impl<H: House> Bench<H> {
    /// A bench over devices.
    pub fn new(alloc: Global, parts: Parts<H>, devices: Devices) -> Self {
        let (Some(slot), Some(worker)) = (Slot::new(15), Worker::new(0)) else {
            unreachable!();
        };
        Bench {
            alloc,
            parts,
            slot,
            life: Life(0),
            worker,
            devices: Some(devices),
            name: None,
            done: None,
        }
    }

    /// How many receipts the seat has, and the number of the last one's entry.
    fn count(&self) -> Told {
        let receipts = self.parts.seat().receipts();
        Told::Counted {
            receipts: receipts.len(),
            last: receipts.last().map(|receipt| receipt.number),
        }
    }

    /// Mounts the slot over the devices that are at hand, with blocks of a size where one is said.
    fn mount<R: Wait>(&mut self, rt: &R, size: Option<u32>) -> Told {
        let Some(devices) = self.devices.take() else {
            return Told::Missing;
        };
        let outcome = self.parts.mount(rt, size, devices);
        match outcome {
            Ok(at) => self.live(at.life),
            Err(refused) => self.put_back(refused),
        }
    }

    /// A life begins.
    fn live(&mut self, life: Life) -> Told {
        self.life = life;
        Told::Life(life.0)
    }

    /// The last mount.
    fn at(&self) -> MountRef
        ensures slot { result.slot ≡ 15 }
    {
        MountRef {
            slot: self.slot,
            life: self.life,
        }
    }

    /// A mount was refused.
    fn put_back(&mut self, refused: MountRefused) -> Told {
        let MountRefused { errno, home, log } = refused;
        self.devices = Some((home, log));
        Told::Refused(errno)
    }

    /// Takes the devices back.
    fn unmount<R: Wait>(&mut self, rt: &R) -> Told {
        let at = self.at();
        match self.parts.unmount(rt, at) {
            Ok(devices) => {
                self.devices = Some(devices);
                Told::Okay
            }
            Err(errno) => Told::Refused(errno),
        }
    }

    /// Asks the mount what a deed asks.
    fn ask<R: Wait>(&mut self, rt: &R, deed: Deed) -> Told {
        let at = self.at();
        match request_of(self.alloc, deed) {
            Ok(request) => answer_of(&self.parts.ask(rt, at, request)),
            Err(AllocError) => NO_MEMORY,
        }
    }

    /// The name in hand, or else the next one.
    fn take<R: Wait>(&mut self, rt: &R) -> Option<JobName> {
        if self.name.is_none() {
            self.name = self.parts.take(rt);
        }
        self.name
    }

    /// A name stays in hand where its job was refused memory.
    fn keep(&mut self, name: JobName, reply: &Reply) {
        self.name = match reply {
            Reply::Refused(Errno::NoMemory) => Some(name),
            _ => None,
        };
    }

    /// Begins the next checkpoint, and runs it.
    fn begin<R: Abort + Wait>(&mut self, rt: &R) -> Told {
        let Some(name) = self.take(rt) else {
            return Told::Missing;
        };
        let Some((reply, done)) = self.parts.begin(rt, self.worker, &name) else {
            return Told::Missing;
        };
        self.keep(name, &reply);
        if let Some(done) = done {
            self.put_job(rt, done);
        }
        answer_of(&reply)
    }

    /// Keeps a job that was run. There is none yet.
    pub fn put_job<R: Abort>(&mut self, rt: &R, done: DoneJob) {
        if let Some(_other) = mem::replace(&mut self.done, Some(done)) {
            panic!(rt; "two jobs in one flight");
        }
    }

    /// Hands the job that was run out. There is one.
    pub fn take_job<R: Abort>(&mut self, rt: &R) -> DoneJob {
        let Some(done) = self.done.take() else {
            panic!(rt; "no job was run");
        };
        done
    }

    /// Runs the next flush.
    fn flush<R: Wait>(&mut self, rt: &R) -> Told {
        let Some(name) = self.take(rt) else {
            return Told::Missing;
        };
        let Some(reply) = self.parts.flush(rt, self.worker, &name) else {
            return Told::Missing;
        };
        self.keep(name, &reply);
        answer_of(&reply)
    }

    /// Ends a job, which may be another cell's: what it is told, and the job where it came back.
    pub fn end<R: Wait>(&mut self, rt: &R, done: DoneJob) -> (Told, Option<DoneJob>) {
        match self.parts.end(rt, done) {
            Ok(reply) => (answer_of(&reply), None),
            Err((back, EndFault::Stranger)) => (Told::Stranger, Some(back)),
            Err((back, EndFault::Memory)) => (NO_MEMORY, Some(back)),
        }
    }

    /// Ends the job that was run.
    fn end_own<R: Abort + Wait>(&mut self, rt: &R) -> Told {
        let Some(done) = self.done.take() else {
            return Told::Missing;
        };
        let (told, back) = self.end(rt, done);
        if let Some(back) = back {
            self.put_job(rt, back);
        }
        told
    }

    /// What the board shows of the slot.
    fn peek(&mut self) -> Told {
        let (life, shut) = self.parts.peek(self.slot);
        Told::Shown { life: life.0, shut }
    }

    /// Folds the book where it is at its limit; once more, for a fold that was refused memory: of one that was not, nothing is left
    /// to fold.
    fn fold(&mut self) -> Told {
        self.parts.fold();
        self.parts.fold();
        Told::Okay
    }

    /// The first byte of each of the first two chunks of a block, as the device at hand gives it.
    fn home(&mut self, block: u64, bytes: &mut [u8]) -> Told
        requires size { is_size (Some (length bytes.old)) ≡ true }
        requires chunks { 128 < length bytes.old }
    {
        let Some((home, _)) = &mut self.devices else {
            return Told::Missing;
        };
        if home.read(Block(block), bytes).is_err() {
            return Told::Missing;
        }
        Told::Bytes(bytes[0], bytes[128])
    }

    /// Does one thing.
    fn act<R: Abort + Wait>(&mut self, rt: &R, deed: Deed) -> Told {
        match deed {
            Deed::Mount => self.mount(rt, None),
            Deed::MountSized(size) => self.mount(rt, Some(size)),
            Deed::Unmount => self.unmount(rt),
            Deed::Begin => self.begin(rt),
            Deed::End => self.end_own(rt),
            Deed::Flush => self.flush(rt),
            Deed::Fold => self.fold(),
            Deed::Peek => self.peek(),
            Deed::Home(block) => self.home(block, &mut [0; 4096]),
            Deed::HomeSmall(block) => self.home(block, &mut [0; 512]),
            Deed::Count => self.count(),
            asked => self.ask(rt, asked),
        }
    }

    /// Does one thing, and the same again where it was refused memory. What is refused leaves the receipts as they were.
    fn act_again<R: Abort + Wait>(&mut self, rt: &R, deed: Deed) -> Told {
        let before = self.count();
        let told = self.act(rt, deed);
        if told != NO_MEMORY {
            return told;
        }
        if self.count() != before {
            return Told::Other;
        }
        self.act(rt, deed)
    }

    /// Does all deeds of a table; one that is told something else is the end of the test.
    pub fn act_all<R: Abort + Wait>(&mut self, rt: &R, table: &[(Deed, Told)]) {
        for (place, (deed, wanted)) in table.iter().enumerate() {
            let told = self.act_again(rt, *deed);
            if told != *wanted {
                panic!(rt; "deed {place}: {told:?}");
            }
        }
    }

    /// Gives a job of another cell to this one, which hands it back and books nothing.
    pub fn hands_back<R: Abort + Wait>(&mut self, rt: &R, done: DoneJob) -> DoneJob {
        let before = self.count();
        let (told, back) = self.end(rt, done);
        let Some(back) = back else {
            panic!(rt; "a stranger's job was taken");
        };
        if told != Told::Stranger || self.count() != before {
            panic!(rt; "a stranger's job was booked");
        }
        back
    }

    /// Closes the slot. There is no job that was run and not ended.
    pub fn close<R: Abort>(self, rt: &R) -> Ended {
        let Bench {
            alloc: _,
            mut parts,
            slot,
            life: _,
            worker: _,
            devices: _devices,
            name: _,
            done,
        } = self;
        if let Some(_job) = done {
            panic!(rt; "a job was not ended");
        }
        let (_, shut) = parts.peek(slot);
        let (account, seat) = parts.close();
        Ended {
            slot,
            shut,
            has_receipts: are_of(seat.caller(), seat.receipts(), &account),
            account,
        }
    }
}
