//! Whose turn it is: the queue of the posted names, and the names in the workers' hands.

ghost use Rattle.std.specs.Prelude.{◌≡◌, ◌++◌, ◌∷◌, ℕ, [], None, is_none, OnOk, OnErr};
ghost use Rattle.xt_base.specs.Order.{is_first, is_nothing};
ghost use Rattle.xt_core.specs.Turns.{hand_after, hand_of, held_in, keeps_turn, queue_left};

use std::alloc::{AllocError, Global};
use std::collections::VecDeque;
use std::marker::Model;
use xt_base::names::{JobName, Worker};
use xt_base::steps::{Reply, Step};

/// The names that were posted and not taken, in order, and what each of the eight workers took and has not finished.
#[derive(Debug, Drop)]
pub struct Turns {
    queue: VecDeque<JobName>,
    hands: [Option<JobName>; 8],
}

impl Model for Turns {
    ghost use Rattle.xt_core.specs.Turns.{InTurn};

    ghost Value = { InTurn };

    ghost view = { λ t. record { queue = t.queue.items; hands = t.hands } };
}

impl Turns {
    /// No name is posted, and all workers are free.
    pub fn new(alloc: Global) -> Self
        ensures queue { result.queue ≡ [] }
        ensures hands { (w : ℕ) → hand_of result w ≡ None }
    {
        Turns {
            queue: VecDeque::new(alloc),
            hands: [None; 8],
        }
    }

    /// Whether a name is in front of the queue.
    fn is_in_front(&self, name: &JobName) -> bool
        ensures { result ≡ is_first name.now self.now.queue }
    {
        match self.queue.front() {
            Some(first) => first.is_same(name),
            None => false,
        }
    }

    /// Whether a worker has a name in hand.
    fn has_in_hand(&self, worker: Worker, name: &JobName) -> bool
        ensures { result ≡ is_first name.now (held_in (hand_of self.now) worker) }
    {
        match &self.hands[worker.index()] {
            Some(held) => held.is_same(name),
            None => false,
        }
    }

    /// Whether a worker has nothing in hand.
    fn is_free(&self, worker: Worker) -> bool
        ensures { result ≡ is_none (hand_of self.now worker) }
    {
        self.hands[worker.index()].is_none()
    }

    /// Whether the queue and the hands let a step come: a take is of the name in front and by a free worker, a step of a job by
    /// the worker who has its name in hand.
    pub fn can_take(&self, step: &Step) -> bool
        ensures { result ≡ keeps_turn self.now.queue (hand_of self.now) step.now }
    {
        match step {
            Step::Take { worker, name } => self.is_in_front(name) && self.is_free(*worker),
            Step::Begin { worker, name } => self.has_in_hand(*worker, name),
            Step::End { worker, name, .. } => self.has_in_hand(*worker, name),
            Step::Flush { worker, name, .. } => self.has_in_hand(*worker, name),
            _ => true,
        }
    }

    /// Puts a posted name behind the others. The one error is want of memory, and then nothing changes.
    pub fn put(&mut self, name: JobName) -> Result<(), AllocError>
        ensures ok { OnOk result (self.new ≡ record self.old { queue = self.old.queue ++ name ∷ [] }) }
        ensures err { OnErr result (self.new ≡ self.old) }
    {
        self.queue.push_back(name)?;
        Ok(())
    }

    /// A step was taken, with this reply: a taken name goes from the front of the queue to its worker's hand, and a hand is
    /// free where its job has ended.
    pub fn pass_on(&mut self, step: &Step, reply: &Reply)
        ensures queue { self.new.queue ≡ queue_left step.now self.old.queue }
        ensures hands { (w : ℕ) → hand_of self.new w ≡ hand_after step.now reply.now w (hand_of self.old w) }
    {
        match step {
            Step::Take { worker, name } => {
                self.queue.pop_front();
                self.hands[worker.index()] = Some(*name);
            }
            Step::Begin { worker, .. } => {
                if is_nothing(reply) {
                    self.hands[worker.index()] = None;
                }
            }
            Step::End { worker, .. } => self.hands[worker.index()] = None,
            Step::Flush { worker, .. } => self.hands[worker.index()] = None,
            _ => {}
        }
    }
}

/// Whether a begin found nothing to do.
fn is_nothing(reply: &Reply) -> bool
    ensures { result ≡ is_nothing reply.now }
{
    matches!(reply, Reply::Nothing)
}
