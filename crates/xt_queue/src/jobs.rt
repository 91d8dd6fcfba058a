//! The queue of job names: each name posted goes to one worker, once, in its slot's order.

ghost use Rattle.std.specs.Prelude.{◌≡◌, ◌+◌, ◌-◌, ◌<◌, ◌≤◌, ◌++◌, [], ◌∷◌, IfOk, IfErr, OnOk, IfSome, MatchOption, MatchResult};
ghost use Rattle.crossbeam_queue.specs.Fifo.{Held};
ghost use Rattle.xt_base.specs.declared.steps.Errno.TheVariants.{NoMemory};
ghost use Rattle.xt_queue.specs.Names.{MayFollow, last_of, unposted};
ghost use Rattle.xt_queue.specs.Passes.{fresh_post, fresh_posts, fresh_work, fresh_works, of_post, of_work};
ghost use Rattle.xt_queue.specs.Queues.{Posts, Sees, Takes};

use crate::rule::{NextPass, OnceInOrder, Post, Take};
use crate::views::JobView;
use crossbeam_queue::{Pass, RuledArrayQueue};
use crossbeam_utils::sync::{EventCount, Key};
use std::alloc::{AllocError, Global};
use std::marker::Model;
use std::sync::Wait;
use xt_base::names::{JobName, Worker};
use xt_base::sizes::{QUEUE_PLACES, SLOTS, WORKERS};
use xt_base::steps::Errno;

/// The names of posted jobs that no worker has taken, 32 at most. A contract sees which queue it is.
#[derive(Drop)]
pub struct JobQueue {
    ring: RuledArrayQueue<JobName, JobView, OnceInOrder>,
    /// What workers sleep on: each post wakes one of them.
    posted: EventCount,
}

impl Model for JobQueue {
    ghost use Rattle.atomic_table.specs.Seated.{TableId, table_id_coded};
    ghost use Rattle.crossbeam_queue.specs.Passes.{ruled_capacity};
    ghost use Rattle.std.specs.Prelude.{◌≡◌};
    ghost use Rattle.xt_base.specs.declared.sizes.TheConstants.{QUEUE_PLACES};

    ghost Value = { TableId };

    ghost coded = { table_id_coded };

    ghost view = { λ q. q.ring.table.shared.table_id };

    ghost invariant = { λ q. ruled_capacity q.ring ≡ QUEUE_PLACES };
}

/// The right to post the names of one slot. A contract sees its queue, its slot, and the names posted through it, in order.
#[derive(Drop)]
pub struct PostPass {
    pass: Pass<JobName, JobView>,
}

impl Model for PostPass {
    ghost use Rattle.crossbeam_queue.specs.Passes.{view as known};
    ghost use Rattle.std.specs.Prelude.{◌-◌, ◌<◌, ◌≡◌, []};
    ghost use Rattle.xt_queue.specs.Passes.{PostView};

    ghost Value = { PostView };

    ghost view = { λ p. record { queue = p.pass.table_id; slot = (known p.pass).number - 1; posted = (known p.pass).names } };

    ghost invariant = { λ p. (p.pass.me.1 ≡ []) × ((known p.pass).made ≡ 0) × (0 < (known p.pass).number) × ((known p.pass).number < 17) };
}

/// The right to take names, one worker's. A contract sees its queue, its worker, and the names taken through it, in order.
#[derive(Drop)]
pub struct WorkPass {
    pass: Pass<JobName, JobView>,
    worker: Worker,
}

impl Model for WorkPass {
    ghost use Rattle.crossbeam_queue.specs.Passes.{view as known};
    ghost use Rattle.std.specs.Prelude.{◌+◌, ◌≡◌, []};
    ghost use Rattle.xt_queue.specs.Passes.{WorkView};

    ghost Value = { WorkView };

    ghost view = { λ p. record { queue = p.pass.table_id; worker = p.worker; taken = (known p.pass).names } };

    ghost invariant = { λ p. (p.pass.me.1 ≡ []) × ((known p.pass).made ≡ 0) × ((known p.pass).number ≡ p.worker + 17) };
}

impl WorkPass {
    /// The worker whose pass it is.
    pub fn worker(&self) -> Worker
        ensures { result ≡ self.now.worker }
    {
        self.worker
    }
}

/// Makes the passes of a queue, one after another.
#[derive(Drop)]
struct Maker {
    pass: Pass<JobName, JobView>,
}

impl Model for Maker {
    ghost use Rattle.crossbeam_queue.specs.Passes.{view as known};
    ghost use Rattle.std.specs.Prelude.{◌≡◌, []};
    ghost use Rattle.xt_queue.specs.Passes.{MakerView};
    ghost use Rattle.xt_queue.specs.Queues.{maker};

    ghost Value = { MakerView };

    ghost view = { λ m. record { queue = m.pass.table_id; made = (known m.pass).made } };

    ghost invariant = { λ m. (m.pass.me.1 ≡ []) × (known m.pass ≡ maker (known m.pass).made) };
}

/// All passes of a queue, none of which was used.
#[derive(Drop)]
pub struct Passes {
    /// One for each slot, 0 to 15 in order.
    pub posts: Vec<PostPass>,
    /// One for each worker, 0 to 7 in order.
    pub works: Vec<WorkPass>,
}

impl JobQueue {
    /// An empty queue with all its passes: sixteen to post with, one a slot, and eight to take with. The one error is `NoMemory`.
    pub fn new(alloc: Global) -> Result<(Self, Passes), Errno>
        ensures posts { IfOk result (λ made. made.1.posts.items ≡ fresh_posts made.0 SLOTS) }
        ensures works { IfOk result (λ made. made.1.works.items ≡ fresh_works made.0 WORKERS) }
        ensures memory { IfErr result (λ errno. errno ≡ NoMemory) }
    {
        Self::with_passes(alloc).map_err(|_| Errno::NoMemory)
    }

    /// The same with the allocator's own error.
    fn with_passes(alloc: Global) -> Result<(Self, Passes), AllocError>
        ensures posts { IfOk result (λ made. made.1.posts.items ≡ fresh_posts made.0 SLOTS) }
        ensures works { IfOk result (λ made. made.1.works.items ≡ fresh_works made.0 WORKERS) }
    {
        let (queue, mut maker) = Self::with_maker(alloc)?;
        let posts = queue.post_passes(alloc, &mut maker)?;
        let works = queue.work_passes(alloc, &mut maker)?;
        Ok((queue, Passes { posts, works }))
    }

    /// An empty queue, and the maker of its passes.
    fn with_maker(alloc: Global) -> Result<(Self, Maker), AllocError>
        ensures queue { IfOk result (λ made. made.1.queue ≡ made.0) }
        ensures none { IfOk result (λ made. made.1.made ≡ 0) }
    {
        let (ring, pass) = RuledArrayQueue::ruled(alloc, QUEUE_PLACES)?;
        let posted = EventCount::new();
        Ok((JobQueue { ring, posted }, Maker { pass }))
    }

    /// The passes of all slots, in order.
    fn post_passes(&self, alloc: Global, maker: &mut Maker) -> Result<Vec<PostPass>, AllocError>
        requires queue { maker.old.queue ≡ self.now }
        requires first { maker.old.made ≡ 0 }
        ensures queue { maker.new.queue ≡ maker.old.queue }
        ensures made { OnOk result (maker.new.made ≡ SLOTS) }
        ensures posts { IfOk result (λ posts. posts.items ≡ fresh_posts self.now SLOTS) }
    {
        let mut posts = Vec::with_capacity(alloc, SLOTS)?;
        for _slot in 0..SLOTS {
            posts.push(self.next_post(maker))?;
        }
        Ok(posts)
    }

    /// The passes of all workers, in order.
    fn work_passes(&self, alloc: Global, maker: &mut Maker) -> Result<Vec<WorkPass>, AllocError>
        requires queue { maker.old.queue ≡ self.now }
        requires slots { maker.old.made ≡ SLOTS }
        ensures works { IfOk result (λ works. works.items ≡ fresh_works self.now WORKERS) }
    {
        let mut works = Vec::with_capacity(alloc, WORKERS)?;
        for index in 0..WORKERS {
            let Some(worker) = Worker::new(index as u8) else {
                unreachable!()
            };
            works.push(self.next_work(maker, worker))?;
        }
        Ok(works)
    }

    /// The pass of the next slot.
    fn next_post(&self, maker: &mut Maker) -> PostPass
        requires queue { maker.old.queue ≡ self.now }
        requires slots { maker.old.made < SLOTS }
        ensures queue { maker.new.queue ≡ maker.old.queue }
        ensures made { maker.new.made ≡ maker.old.made + 1 }
        ensures pass { result ≡ fresh_post self.now maker.old.made }
    {
        PostPass {
            pass: self.ring.another::<NextPass>(&mut maker.pass),
        }
    }

    /// The pass of the next worker, which is this one.
    fn next_work(&self, maker: &mut Maker, worker: Worker) -> WorkPass
        requires queue { maker.old.queue ≡ self.now }
        requires worker { maker.old.made ≡ SLOTS + worker }
        ensures queue { maker.new.queue ≡ maker.old.queue }
        ensures made { maker.new.made ≡ maker.old.made + 1 }
        ensures pass { result ≡ fresh_work self.now worker }
    {
        WorkPass {
            pass: self.ring.another::<NextPass>(&mut maker.pass),
            worker,
        }
    }

    /// Adds a name at the back, and wakes a worker that rests. Where 32 names wait it comes back, and nothing has changed.
    #[tactic(auto, using(crate::proofs::NameLemmas::last_longer))]
    pub fn post<R: Wait>(&self, rt: &R, pass: &mut PostPass, name: JobName) -> Result<(), JobName>
        requires queue { pass.old.queue ≡ self.now }
        requires slot { pass.old.slot ≡ name.slot }
        requires next { MayFollow (last_of unposted pass.old.posted) name }
        ensures queue { pass.new.queue ≡ pass.old.queue }
        ensures slot { pass.new.slot ≡ pass.old.slot }
        ensures posted { OnOk result (pass.new.posted ≡ pass.old.posted ++ name ∷ []) }
        ensures back { IfErr result (λ back. (back ≡ name) × (pass.new.posted ≡ pass.old.posted)) }
        ensures last { OnOk result (last_of unposted pass.new.posted ≡ (name.life, name.serial)) }
        ensures rule { MatchResult result (λ _. Posts (of_post pass.old) name (of_post pass.new)) (λ _. Held QUEUE_PLACES (Sees (of_post pass.old))) }
    {
        let posted = self.ring.push_as::<Post, R>(rt, &mut pass.pass, name);
        if posted.is_ok() {
            self.posted.notify_one();
        }
        posted
    }

    /// Takes the name at the front; None only where no name waits.
    pub fn take<R: Wait>(&self, rt: &R, pass: &mut WorkPass) -> Option<JobName>
        requires queue { pass.old.queue ≡ self.now }
        ensures queue { pass.new.queue ≡ pass.old.queue }
        ensures worker { pass.new.worker ≡ pass.old.worker }
        ensures taken { MatchOption result (pass.new.taken ≡ pass.old.taken) (λ name. pass.new.taken ≡ pass.old.taken ++ name ∷ []) }
        ensures slot { IfSome result (λ name. name.slot < SLOTS) }
        ensures rule { MatchOption result (Held 0 (Sees (of_work pass.old))) (λ name. Takes (of_work pass.old) name (of_work pass.new)) }
    {
        self.ring.pop_as::<Take, R>(rt, &mut pass.pass)
    }

    /// Announces a rest. A worker that then finds no name waits on the key, until a name is posted or all are woken after the
    /// announcement; so no post is missed. To drop the key is to rest not.
    pub fn prepare_rest(&self) -> Key<'_> {
        self.posted.prepare_wait()
    }

    /// Ends the rest of all workers, and of those that have announced one.
    pub fn wake_all(&self) {
        self.posted.notify_all();
    }
}
