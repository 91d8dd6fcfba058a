//! A list of random steps, taken one by one by a host of sixteen tenants.

use crate::hunger::Hunger;
use crate::sizes::any_size;
use std::alloc::{AllocError, Global};
use std::collections::VecDeque;
use xt_base::content::{Content, Data};
use xt_base::names::{JobKind, JobName, Life, Slot, Worker};
use xt_base::sizes::{FLUSH_BLOCKS, SLOTS, WORKERS};
use xt_base::steps::{Answer, HomeAnswers, LogAnswers, Reply, Request, Step};
use xt_core::HostCore;
use xt_trials::dice::Dice;
use xt_trials::guess::{BLOCKS, Guess};

/// A size that no block may have.
const NO_SIZE: u32 = 600;

/// What a worker has in hand.
#[derive(Clone, Copy)]
enum Hand {
    Free,
    Took(JobName),
    Writes { name: JobName, pieces: u32 },
}

/// What was counted of a round.
#[derive(Clone, Copy, Default)]
pub struct Counts {
    /// Steps that were taken.
    pub steps: u64,
    /// Steps that were out of order, and changed nothing.
    pub disorder: u64,
    /// Steps that were answered ENOMEM, and changed nothing.
    pub refused: u64,
    /// Device calls that were said to fail.
    pub failed: u64,
    /// Contents of another size than the mount's that were taken as answers to reads.
    pub misfits: u64,
}

/// A host, the steps that it took with its replies, and what is guessed of it.
#[derive(Drop)]
pub struct Round {
    alloc: Global,
    host: HostCore,
    guesses: Vec<Guess>,
    posted: VecDeque<JobName>,
    hands: [Hand; WORKERS],
    pub steps: Vec<Step>,
    pub replies: Vec<Reply>,
    pub counts: Counts,
    hunger: Option<Hunger>,
}

impl Round {
    /// A new host, of which all slots are empty. Where it is hungry, memory is taken away now and then.
    pub fn new(alloc: Global, is_hungry: bool) -> Result<Self, AllocError> {
        let mut guesses = Vec::with_capacity(alloc, SLOTS)?;
        for index in 0..SLOTS as u8 {
            if let Some(slot) = Slot::new(index) {
                guesses.push(Guess::new(alloc, slot, BLOCKS)?)?;
            }
        }
        Ok(Round {
            alloc,
            host: HostCore::new(alloc)?,
            guesses,
            posted: VecDeque::new(alloc),
            hands: [Hand::Free; WORKERS],
            steps: Vec::new(alloc),
            replies: Vec::new(alloc),
            counts: Counts::default(),
            hunger: if is_hungry {
                Some(Hunger::new(alloc)?)
            } else {
                None
            },
        })
    }

    /// Hands a step to the host, now and then with no memory left: whether it was taken. What was taken is kept.
    fn attempt(&mut self, dice: &mut Dice, step: Step) -> Result<bool, AllocError> {
        let kept = step.copy(self.alloc)?;
        self.steps.reserve(1)?;
        self.replies.reserve(1)?;
        self.posted.reserve(1)?;
        let is_hungry = dice.is_one_in(60);
        if let Some(hunger) = &mut self.hunger {
            if is_hungry {
                hunger.take_all(dice);
            }
        }
        let answer = self.host.step(step);
        if let Some(hunger) = &mut self.hunger {
            hunger.give_back();
        }
        let Ok(reply) = answer else {
            self.counts.disorder = self.counts.disorder.saturating_add(1);
            return Ok(false);
        };
        if reply.is_no_memory() {
            self.counts.refused = self.counts.refused.saturating_add(1);
            return Ok(false);
        }
        self.keep(kept, reply)?;
        Ok(true)
    }

    /// Keeps a step that was taken, with its reply, and learns from it.
    fn keep(&mut self, step: Step, reply: Reply) -> Result<(), AllocError> {
        self.counts.steps = self.counts.steps.saturating_add(1);
        if let Some(guess) = self.guesses.get_mut(step.slot().index()) {
            guess.learn(&step, &reply);
        }
        match &step {
            Step::Post(name) => self.posted.push_back(*name)?,
            Step::Take { worker, name } => {
                self.posted.pop_front();
                self.hands[worker.index()] = Hand::Took(*name);
            }
            Step::Begin { worker, name } => {
                self.hands[worker.index()] = match &reply {
                    Reply::Begun { pieces, .. } => Hand::Writes {
                        name: *name,
                        pieces: *pieces,
                    },
                    _ => Hand::Free,
                };
            }
            Step::End { worker, .. } | Step::Flush { worker, .. } => {
                self.hands[worker.index()] = Hand::Free;
            }
            _ => {}
        }
        self.steps.push(step)?;
        self.replies.push(reply)?;
        Ok(())
    }

    /// Whether a device call fails this time.
    fn fails(&mut self, dice: &mut Dice) -> bool {
        let fails = dice.is_one_in(25);
        if fails {
            self.counts.failed = self.counts.failed.saturating_add(1);
        }
        fails
    }

    /// Tries steps, of which some may come.
    pub fn turn(&mut self, dice: &mut Dice) -> Result<(), AllocError> {
        match dice.below(100) {
            0..=54 => self.call(dice),
            55..=69 => self.post(dice),
            70..=97 => self.work(dice),
            _ => self.look(dice),
        }
    }

    /// A slot.
    fn slot(&self, dice: &mut Dice) -> Option<Slot> {
        Slot::new(dice.below(SLOTS as u32) as u8)
    }

    /// Tries a mount or a request, and the same with an answer of the home device where it is out of order with none.
    fn call(&mut self, dice: &mut Dice) -> Result<(), AllocError> {
        let Some(slot) = self.slot(dice) else {
            return Ok(());
        };
        let Some(guess) = self.guesses.get(slot.index()) else {
            return Ok(());
        };
        if guess.wants_mount(dice) {
            return self.mount(dice, slot);
        }
        let life = guess.life(dice);
        let request = guess.request(self.alloc, dice)?;
        let again = request.copy(self.alloc)?;
        let asked = Step::Call {
            slot,
            life,
            request,
            answer: Answer::None,
        };
        if self.attempt(dice, asked)? || !matches!(again, Request::Read { .. }) {
            return Ok(());
        }
        self.answered(dice, slot, life, again)
    }

    /// Tries a read with an answer of the home device, which now and then is a content of another size: then it must not come.
    fn answered(
        &mut self,
        dice: &mut Dice,
        slot: Slot,
        life: Life,
        request: Request,
    ) -> Result<(), AllocError> {
        let Some(guess) = self.guesses.get(slot.index()) else {
            return Ok(());
        };
        let size = guess.size();
        let is_misfit = dice.is_one_in(10);
        let given = if is_misfit { other_size(size) } else { size };
        let answer = self.answer(dice, given)?;
        let is_content = matches!(answer, Answer::Content(_));
        let step = Step::Call {
            slot,
            life,
            request,
            answer,
        };
        let is_taken = self.attempt(dice, step)?;
        if is_taken && is_content && is_misfit {
            self.counts.misfits = self.counts.misfits.saturating_add(1);
        }
        Ok(())
    }

    /// Tries a mount, now and then with a size that no block may have.
    fn mount(&mut self, dice: &mut Dice, slot: Slot) -> Result<(), AllocError> {
        let step = Step::Mount {
            slot,
            log_bytes: if dice.is_one_in(3) { 65_536 } else { 262_144 },
            blocks: u64::from(BLOCKS),
            size: if dice.is_one_in(20) {
                Some(NO_SIZE)
            } else {
                any_size(dice)
            },
        };
        self.attempt(dice, step)?;
        Ok(())
    }

    /// What the home device answers to a read: so many bytes, or that it failed.
    fn answer(&mut self, dice: &mut Dice, size: u32) -> Result<Answer, AllocError> {
        if self.fails(dice) {
            return Ok(Answer::Failed);
        }
        let bytes = vec![in self.alloc; dice.byte(); size as usize]?;
        Ok(match Content::of_vec(self.alloc, bytes)? {
            Some(content) => Answer::Content(content),
            None => Answer::Failed,
        })
    }

    /// Tries to post the next job of a slot.
    fn post(&mut self, dice: &mut Dice) -> Result<(), AllocError> {
        for kind in [JobKind::Ckpt, JobKind::Flush] {
            let Some(slot) = self.slot(dice) else {
                return Ok(());
            };
            if let Some(guess) = self.guesses.get(slot.index()) {
                let name = guess.next_name(kind);
                self.attempt(dice, Step::Post(name))?;
            }
        }
        Ok(())
    }

    /// Lets a worker take a name, or go on with what it took.
    fn work(&mut self, dice: &mut Dice) -> Result<(), AllocError> {
        let Some(worker) = Worker::new(dice.below(WORKERS as u32) as u8) else {
            return Ok(());
        };
        match self.hands[worker.index()] {
            Hand::Free => self.take(dice, worker),
            Hand::Took(name) => match name.kind {
                JobKind::Ckpt => {
                    self.attempt(dice, Step::Begin { worker, name })?;
                    Ok(())
                }
                JobKind::Flush => self.flush(dice, worker, name),
            },
            Hand::Writes { name, pieces } => self.end(dice, worker, name, pieces),
        }
    }

    /// Tries to take the name in front.
    fn take(&mut self, dice: &mut Dice, worker: Worker) -> Result<(), AllocError> {
        if let Some(name) = self.posted.front() {
            let name = *name;
            self.attempt(dice, Step::Take { worker, name })?;
        }
        Ok(())
    }

    /// Tries to flush, with answers to as many writes as there are.
    fn flush(&mut self, dice: &mut Dice, worker: Worker, name: JobName) -> Result<(), AllocError> {
        let mut writes = [true; FLUSH_BLOCKS];
        for write in &mut writes {
            *write = !dice.is_one_in(80);
        }
        let sync = !self.fails(dice);
        for count in 0..=FLUSH_BLOCKS as u8 {
            let answers = HomeAnswers {
                count,
                writes: first_answers(&writes, count),
                sync: sync && count > 0,
            };
            let step = Step::Flush {
                worker,
                name,
                answers,
            };
            if self.attempt(dice, step)? {
                return Ok(());
            }
        }
        Ok(())
    }

    /// Tries to end a checkpoint, whose log mostly takes all pieces.
    fn end(
        &mut self,
        dice: &mut Dice,
        worker: Worker,
        name: JobName,
        pieces: u32,
    ) -> Result<(), AllocError> {
        let taken = if pieces > 0 && self.fails(dice) {
            dice.below(pieces)
        } else {
            pieces
        };
        let sync = if taken == pieces {
            Some(!self.fails(dice))
        } else {
            None
        };
        let answers = LogAnswers { taken, sync };
        let step = Step::End {
            worker,
            name,
            answers,
        };
        self.attempt(dice, step)?;
        Ok(())
    }

    /// Looks at what the board shows of a slot, or shows it again.
    fn look(&mut self, dice: &mut Dice) -> Result<(), AllocError> {
        let Some(slot) = self.slot(dice) else {
            return Ok(());
        };
        let step = if dice.is_one_in(2) {
            Step::Peek(slot)
        } else {
            Step::Show(slot)
        };
        self.attempt(dice, step)?;
        Ok(())
    }
}

/// Another size that a block may have.
fn other_size(size: u32) -> u32 {
    if size == 512 { 1_024 } else { 512 }
}

/// The first answers; those behind them stand for no write, and say no.
pub fn first_answers(writes: &[bool; FLUSH_BLOCKS], count: u8) -> [bool; FLUSH_BLOCKS] {
    let mut answers = [false; FLUSH_BLOCKS];
    for (place, (answer, write)) in answers.iter_mut().zip(writes).enumerate() {
        *answer = *write && place < usize::from(count);
    }
    answers
}
