//! How a slot posts its jobs.

ghost use Rattle.std.specs.Prelude.{◌≡◌, ◌++◌, ◌∷◌, [], IfErr, OnOk, IsErr};
ghost use Rattle.std.specs.Arc.{arc_value};
ghost use Rattle.xt_queue.specs.Names.{MayFollow, last_of, unposted};
ghost use Rattle.xt_queue.specs.Passes.{of_post};
ghost use Rattle.xt_queue.specs.Queues.{WasFull};

use std::alloc::Global;
use std::marker::Model;
use std::sync::{Arc, Wait};
use xt_base::names::JobName;
use xt_queue::jobs::{JobQueue, PostPass};

/// The shared queue, and the right to post the names of slot S to it. A contract sees what the pass knows.
#[derive(Drop)]
pub struct Poster<const S: u8> {
    queue: Arc<JobQueue, Global>,
    pass: PostPass,
}

impl<const S: u8> Model for Poster<S> {
    ghost use Rattle.std.specs.Prelude.{◌≡◌};
    ghost use Rattle.std.specs.Arc.{arc_value};
    ghost use Rattle.xt_queue.specs.Passes.{PostView};

    ghost Value = { PostView };

    ghost view = { λ p. p.pass };

    ghost invariant = { λ p. (p.pass.queue ≡ arc_value p.queue) × (p.pass.slot ≡ S) };
}

impl<const S: u8> Poster<S> {
    /// The way of slot S to the queue that its pass is of.
    pub fn new(queue: Arc<JobQueue, Global>, pass: PostPass) -> Self
        requires queue { pass.queue ≡ arc_value queue }
        requires slot { pass.slot ≡ S }
        ensures { result ≡ pass }
    {
        Poster { queue, pass }
    }

    /// Posts a name; where 32 names wait it comes back, and nothing has changed.
    pub(crate) fn post<R: Wait>(&mut self, rt: &R, name: JobName) -> Result<(), JobName>
        requires slot { name.slot ≡ S }
        requires next { MayFollow (last_of unposted self.old.posted) name }
        ensures posted { OnOk result (self.new.posted ≡ self.old.posted ++ name ∷ []) }
        ensures back { IfErr result (λ back. (back ≡ name) × (self.new.posted ≡ self.old.posted)) }
        ensures last { OnOk result (last_of unposted self.new.posted ≡ (name.life, name.serial)) }
        ensures full { IsErr result → WasFull (of_post self.old) }
    {
        self.queue.post(rt, &mut self.pass, name)
    }
}
