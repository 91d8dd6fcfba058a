//! One life of a mount over devices that crash: random steps, with a crash at random moments between them and within them.

ghost use Rattle.std.specs.Prelude.{◌<◌};
ghost use Rattle.xt_base.specs.declared.sizes.TheConstants.{WORKERS};

use crate::crash_home::CrashHome;
use crate::crash_log::{CrashLog, Left};
use crate::image::{BLOCKS, Image};
use crate::plain::Plain;
use crate::round::first_answers;
use crate::wreck::Wreck;
use std::alloc::{AllocError, Global};
use xt_base::content::{Content, Data};
use xt_base::form::Form;
use xt_base::names::{Block, JobKind, JobName, Life, Slot, TransNo, Worker};
use xt_base::outcomes::Turn;
use xt_base::sizes::FLUSH_BLOCKS;
use xt_base::steps::{Answer, Errno, HomeAnswers, LogAnswers, Reply, Request, Step};
use xt_core::HostCore;
use xt_core::host::TurnFault;
use xt_dev::home::HomeDevice;
use xt_trials::dice::Dice;
use xt_trials::guess::{Guess, log_request};

/// The bytes of a log, and of a leg.
const LOG_BYTES: u32 = 65_536;

const UNIT: u32 = 12_000;

/// In how many steps the free bytes of a log are found, each half of the one before: from the whole log to what an item costs.
const HALVINGS: u32 = 13;

/// How many flushes write all blocks home, and some more where one fails.
const FLUSHES: u32 = BLOCKS as u32 / FLUSH_BLOCKS as u32 + 2;

/// How many turns a life has at most, and how many once it is shut.
const TURNS: u32 = 400;

const LAST_TURNS: u32 = 20;

/// How many images wait at most for the text that was in flight with them.
const MOST_WAITING: usize = 4;

/// The one life that a host mounts.
const LIFE: Life = Life(1);

/// The jobs of a mount that a worker took, of each kind one at most.
#[derive(Clone, Copy, Default)]
struct Jobs {
    ckpt: Option<JobName>,
    /// The pieces of the checkpoint, once it began.
    pieces: Option<u32>,
    flush: Option<JobName>,
}

/// What was counted of lives.
#[derive(Clone, Copy, Default)]
pub struct CrashCounts {
    pub lives: u64,
    pub steps: u64,
    pub landed: u64,
    pub flushed: u64,
    pub crashes: u64,
    /// Crashes that left a part of a text, a whole one that no sync had made safe, and some of the home writes that none had.
    pub parts: u64,
    pub wholes: u64,
    pub torn: u64,
    /// Recoveries that were broken off, and run again.
    pub again: u64,
    /// How often the log lost old texts, and how often all.
    pub cuts: u64,
    pub emptied: u64,
    /// Crashes after which something was not recovered as it must be, and reads that were not answered so.
    pub wrong: u64,
}

/// Raises a count.
fn raise(count: &mut u64, by: u64) {
    *count = count.saturating_add(by);
}

/// A mount of a host of its own, its devices, and what it has committed.
#[derive(Drop)]
pub struct CrashLife {
    alloc: Global,
    form: Form,
    host: HostCore,
    guess: Guess,
    home: CrashHome,
    log: CrashLog,
    plain: Plain,
    jobs: Jobs,
    /// What crashes left of the home device while the checkpoint was in flight, whose text was not known then.
    waiting: Vec<Image>,
    /// It makes whole transactions alone, so that no locks and grants stay, and it lives long.
    is_quiet: bool,
    turns: u32,
    pub counts: CrashCounts,
}

/// The slot that is mounted.
fn slot() -> Slot {
    match Slot::new(0) {
        Some(slot) => slot,
        None => unreachable!(),
    }
}

/// A worker.
fn worker_of(number: u8) -> Worker
    requires { number < WORKERS }
{
    match Worker::new(number) {
        Some(worker) => worker,
        None => unreachable!(),
    }
}

/// The worker of a kind of job.
fn worker(kind: JobKind) -> Worker {
    match kind {
        JobKind::Ckpt => worker_of(0),
        JobKind::Flush => worker_of(1),
    }
}

/// A request to the mount.
fn call_of(request: Request, answer: Answer) -> Step {
    Step::Call {
        slot: slot(),
        life: LIFE,
        request,
        answer,
    }
}

/// Whether a mount is of little use after a step: it is shut, or empty.
fn is_last(step: &Step, reply: &Reply) -> bool {
    let ends = matches!(
        step,
        Step::Call {
            request: Request::Shutdown | Request::Unmount,
            ..
        }
    );
    match reply {
        Reply::Failed(_) | Reply::Refused(Errno::Io) => true,
        Reply::Okay => ends,
        _ => false,
    }
}

/// A change of a block of so many bytes by a transaction.
fn any_change(
    alloc: Global,
    dice: &mut Dice,
    trans: TransNo,
    block: Block,
    size: u32,
) -> Result<Request, AllocError> {
    match dice.below(16) {
        0 => Ok(Request::Inval { trans, block }),
        1 | 2 => Ok(
            match Data::of_repeated(alloc, dice.byte(), size as usize)? {
                Some(bytes) => Request::Log {
                    first: 0,
                    trans,
                    block,
                    bytes,
                },
                None => Request::Force,
            },
        ),
        _ => log_request(alloc, dice, trans, block, size),
    }
}

/// What the log device answers to so many pieces.
fn log_answers(dice: &mut Dice, pieces: u32) -> LogAnswers {
    if pieces > 0 && dice.is_one_in(40) {
        return LogAnswers {
            taken: dice.below(pieces),
            sync: None,
        };
    }
    LogAnswers {
        taken: pieces,
        sync: Some(!dice.is_one_in(40)),
    }
}

impl CrashLife {
    /// Mounts over what a home device has, in blocks of the size that is said, if one is, with an empty log.
    pub fn new(
        alloc: Global,
        size: Option<u32>,
        home: Image,
        counts: CrashCounts,
        dice: &mut Dice,
    ) -> Result<Self, AllocError> {
        let plain = Plain::new(alloc, &home)?;
        let mut life = CrashLife {
            alloc,
            form: home.form(),
            host: HostCore::new(alloc)?,
            guess: Guess::new(alloc, slot(), BLOCKS)?,
            home: CrashHome::over(alloc, home, u64::from(dice.below(u32::MAX))),
            log: CrashLog::new(alloc),
            plain,
            jobs: Jobs::default(),
            waiting: Vec::new(alloc),
            is_quiet: dice.is_one_in(2),
            turns: TURNS,
            counts,
        };
        raise(&mut life.counts.lives, 1);
        life.take(&Step::Mount {
            slot: slot(),
            log_bytes: LOG_BYTES,
            blocks: u64::from(BLOCKS),
            size,
        })?;
        Ok(life)
    }

    /// Takes a step; None where it may not come now.
    fn take(&mut self, step: &Step) -> Result<Option<Turn>, AllocError> {
        let turn = match self.host.tell(step) {
            Ok(turn) => turn,
            Err(TurnFault::Disorder) => return Ok(None),
            Err(TurnFault::Memory) => return Err(AllocError),
        };
        raise(&mut self.counts.steps, 1);
        self.guess.learn(step, &turn.reply);
        self.plain.learn(step, &turn.reply)?;
        if is_last(step, &turn.reply) {
            self.turns = self.turns.min(LAST_TURNS);
        }
        Ok(Some(turn))
    }

    /// Takes a random turn, and now and then crashes behind it. False where the life is over.
    pub fn turn(&mut self, dice: &mut Dice) -> Result<bool, AllocError> {
        if self.turns == 0 {
            return Ok(false);
        }
        self.turns -= 1;
        match dice.below(100) {
            0..=41 => self.transact(dice)?,
            42..=56 => self.ask(dice)?,
            57..=64 => self.call(dice, Request::Force)?,
            65..=70 => self.call(dice, Request::Push)?,
            71..=85 => self.checkpoint(dice)?,
            86..=94 => self.flush(dice)?,
            95..=97 => self.cut()?,
            _ => self.quiesce(dice)?,
        }
        if dice.is_one_in(4) {
            self.crash_here(dice)?;
        }
        Ok(true)
    }

    /// Asks the mount anything, where it is not quiet.
    fn ask(&mut self, dice: &mut Dice) -> Result<(), AllocError> {
        if self.is_quiet {
            return self.transact(dice);
        }
        let request = self.guess.request(self.alloc, dice)?;
        self.call(dice, request)
    }

    /// Opens a transaction of so many bytes of log.
    fn open(&mut self, unit: u32) -> Result<Option<TransNo>, AllocError> {
        let request = Request::Alloc {
            unit,
            count: 1,
            perm: false,
        };
        let Some(turn) = self.take(&call_of(request, Answer::None))? else {
            return Ok(None);
        };
        match &turn.reply {
            Reply::Trans(trans) => Ok(Some(*trans)),
            _ => Ok(None),
        }
    }

    /// A whole transaction, which changes some blocks.
    fn transact(&mut self, dice: &mut Dice) -> Result<(), AllocError> {
        let Some(trans) = self.open(UNIT)? else {
            return Ok(());
        };
        for _ in 0..dice.below(4) + 1 {
            let block = Block(u64::from(dice.below(u32::from(BLOCKS))));
            self.read(dice, trans, block)?;
            let change = any_change(self.alloc, dice, trans, block, self.form.size())?;
            self.call(dice, change)?;
        }
        self.call(dice, Request::Commit { trans })
    }

    /// Asks the mount something.
    fn call(&mut self, dice: &mut Dice, request: Request) -> Result<(), AllocError> {
        match request {
            Request::Read { trans, block } => self.read(dice, trans, block),
            request => {
                self.take(&call_of(request, Answer::None))?;
                Ok(())
            }
        }
    }

    /// Reads a block, with an answer of the home device where it is out of order with none.
    fn read(&mut self, dice: &mut Dice, trans: TransNo, block: Block) -> Result<(), AllocError> {
        let unasked = call_of(Request::Read { trans, block }, Answer::None);
        if self.take(&unasked)?.is_none() {
            let answer = self.answer(dice, block)?;
            self.take(&call_of(Request::Read { trans, block }, answer))?;
        }
        Ok(())
    }

    /// What the home device answers to a read.
    fn answer(&mut self, dice: &mut Dice, block: Block) -> Result<Answer, AllocError> {
        let mut bytes = vec![in self.alloc; 0u8; self.form.block_bytes()]?;
        if dice.is_one_in(400) || self.home.read(block, &mut bytes).is_err() {
            return Ok(Answer::Failed);
        }
        Ok(match Content::of_vec(self.alloc, bytes)? {
            Some(content) => Answer::Content(content),
            None => Answer::Failed,
        })
    }

    /// Posts a job of a kind, and lets its worker take it, where the mount owes one.
    fn post(&mut self, kind: JobKind) -> Result<Option<JobName>, AllocError> {
        let name = self.guess.next_name(kind);
        if self.take(&Step::Post(name))?.is_none() {
            return Ok(None);
        }
        let worker = worker(kind);
        self.take(&Step::Take { worker, name })?;
        Ok(Some(name))
    }

    /// How many bytes of its log a mount grants to one more transaction.
    fn free_log(&mut self) -> Result<u32, AllocError> {
        let mut free = 0u32;
        let mut more = LOG_BYTES;
        for _ in 0..HALVINGS {
            let unit = free.saturating_add(more);
            if let Some(trans) = self.open(unit)? {
                self.take(&call_of(Request::Cancel { trans }, Answer::None))?;
                free = unit;
            }
            more /= 2;
        }
        Ok(free)
    }

    /// The log loses its oldest texts, as far as the mount has their bytes free: what it grants may be written over.
    fn cut(&mut self) -> Result<(), AllocError> {
        let free = self.free_log()?;
        let used = LOG_BYTES.saturating_sub(free) as usize;
        if free > 0 && self.log.cut(used) {
            // what waits was left beside the texts that are gone
            self.waiting.clear();
            raise(&mut self.counts.cuts, 1);
            if self.log.is_empty() {
                raise(&mut self.counts.emptied, 1);
            }
        }
        Ok(())
    }

    /// Writes to the log and then home all that can be, after which the log may be of no use.
    fn quiesce(&mut self, dice: &mut Dice) -> Result<(), AllocError> {
        self.call(dice, Request::Force)?;
        self.whole_checkpoint(dice)?;
        for _ in 0..FLUSHES {
            self.call(dice, Request::Push)?;
            self.flush(dice)?;
            self.flush(dice)?;
        }
        self.cut()
    }

    /// Goes on with a checkpoint by a step, or to its end.
    fn checkpoint(&mut self, dice: &mut Dice) -> Result<(), AllocError> {
        if dice.is_one_in(2) {
            return self.whole_checkpoint(dice);
        }
        self.go_on(dice)
    }

    /// As many steps as a checkpoint has.
    fn whole_checkpoint(&mut self, dice: &mut Dice) -> Result<(), AllocError> {
        for _ in 0..3 {
            self.go_on(dice)?;
        }
        Ok(())
    }

    /// Goes on with a checkpoint by a step.
    fn go_on(&mut self, dice: &mut Dice) -> Result<(), AllocError> {
        match (self.jobs.ckpt, self.jobs.pieces) {
            (None, _) => {
                self.jobs.ckpt = self.post(JobKind::Ckpt)?;
                Ok(())
            }
            (Some(name), None) => self.begin(name),
            (Some(name), Some(pieces)) => self.end(dice, name, pieces),
        }
    }

    /// Begins a checkpoint.
    fn begin(&mut self, name: JobName) -> Result<(), AllocError> {
        let worker = worker(JobKind::Ckpt);
        match self.take(&Step::Begin { worker, name })? {
            Some(
                Turn {
                    reply: Reply::Begun { pieces, .. },
                    ..
                },
            ) => {
                self.jobs.pieces = Some(pieces);
                self.log.begin(pieces);
                self.plain.begin()
            }
            _ => {
                self.jobs.ckpt = None;
                Ok(())
            }
        }
    }

    /// Ends a checkpoint, with crashes while its text is appended.
    fn end(&mut self, dice: &mut Dice, name: JobName, pieces: u32) -> Result<(), AllocError> {
        let worker = worker(JobKind::Ckpt);
        let answers = log_answers(dice, pieces);
        let step = Step::End {
            worker,
            name,
            answers,
        };
        let Some(turn) = self.take(&step)? else {
            return Ok(());
        };
        self.jobs.ckpt = None;
        self.jobs.pieces = None;
        self.log.append_all(turn.offers.log())?;
        self.crash_in_flight(dice)?;
        self.log.sync_all(turn.offers.log())?;
        if let Reply::Landed(_) = turn.reply {
            raise(&mut self.counts.landed, 1);
            self.plain.land();
            if dice.is_one_in(2) {
                self.cut()?;
            }
        }
        Ok(())
    }

    /// Goes on with a flush, with answers to as many writes as there are.
    fn flush(&mut self, dice: &mut Dice) -> Result<(), AllocError> {
        let Some(name) = self.jobs.flush else {
            self.jobs.flush = self.post(JobKind::Flush)?;
            return Ok(());
        };
        let worker = worker(JobKind::Flush);
        let mut writes = [true; FLUSH_BLOCKS];
        for write in &mut writes {
            *write = !dice.is_one_in(40);
        }
        let sync = !dice.is_one_in(10);
        for count in 0..=FLUSH_BLOCKS as u8 {
            let answers = HomeAnswers {
                count,
                writes: first_answers(&writes, count),
                sync: sync && count > 0,
            };
            let step = Step::Flush {
                worker,
                name,
                answers,
            };
            if let Some(turn) = self.take(&step)? {
                self.jobs.flush = None;
                return self.write_home(dice, &turn);
            }
        }
        Ok(())
    }

    /// Hands what a flush offered to the home device, with crashes between.
    fn write_home(&mut self, dice: &mut Dice, turn: &Turn) -> Result<(), AllocError> {
        for offer in turn.offers.home() {
            self.home.take(offer)?;
            if dice.is_one_in(2) {
                self.crash_here(dice)?;
            }
        }
        if let Reply::Flushed(blocks) = turn.reply {
            raise(&mut self.counts.flushed, u64::from(blocks));
            if dice.is_one_in(2) {
                self.cut()?;
            }
        }
        Ok(())
    }

    /// What a crash leaves of the home device now.
    fn crashed_home(&mut self) -> Result<Image, AllocError> {
        if self.home.is_unsynced() {
            raise(&mut self.counts.torn, 1);
        }
        self.home.crashed()
    }

    /// Crashes, and goes on as if it had not. While a checkpoint is in flight, what is left of the home device waits for its text too.
    fn crash_here(&mut self, dice: &mut Dice) -> Result<(), AllocError> {
        let home = self.crashed_home()?;
        if self.jobs.pieces.is_some() && self.waiting.len() < MOST_WAITING {
            self.waiting.push(home.copy(self.alloc)?)?;
        }
        self.crash(dice, home)?;
        Ok(())
    }

    /// Crashes while the text of a checkpoint is appended, now and at the moments that wait.
    fn crash_in_flight(&mut self, dice: &mut Dice) -> Result<(), AllocError> {
        for _ in 0..=MOST_WAITING {
            let home = match self.waiting.pop() {
                Some(home) => home,
                None => self.crashed_home()?,
            };
            self.crash(dice, home)?;
        }
        Ok(())
    }

    /// Crashes for good: what recovery makes of the home device.
    pub fn end_by_crash(&mut self, dice: &mut Dice) -> Result<Image, AllocError> {
        let home = self.crashed_home()?;
        let recovered = self.crash(dice, home)?;
        raise(&mut self.counts.wrong, self.plain.wrong);
        Ok(recovered)
    }

    /// A crash that leaves this of the home device, and some of the log: what recovery makes of it, which is compared with what is
    /// committed.
    fn crash(&mut self, dice: &mut Dice, home: Image) -> Result<Image, AllocError> {
        let left = self.log.any_left(dice);
        self.count(left);
        let wreck = Wreck {
            home,
            log: self.log.crashed(left)?,
            rest: left.rest(),
        };
        let is_broken_off = dice.is_one_in(4);
        if is_broken_off {
            raise(&mut self.counts.again, 1);
        }
        let wanted = self.plain.wanted(left.is_whole);
        let (recovered, is_right) = wreck.recover(self.alloc, dice, is_broken_off, wanted)?;
        if !is_right {
            raise(&mut self.counts.wrong, 1);
        }
        Ok(recovered)
    }

    /// Counts a crash.
    fn count(&mut self, left: Left) {
        raise(&mut self.counts.crashes, 1);
        if left.is_whole {
            raise(&mut self.counts.wholes, 1);
        } else if left.bytes > 0 {
            raise(&mut self.counts.parts, 1);
        }
    }
}
