//! The rules of the queue and of the board, and what each kind of step tells its caller.

use crate::views::{BoardView, JobView};
use atomic_table::{Play, TableRule};
use crossbeam_queue::protocol::{Lesson, Outcome, Protocol, Split};
use xt_base::names::JobName;

/// Each name is handed over once, and in its slot's order.
pub struct OnceInOrder;

impl Protocol<JobName, JobView> for OnceInOrder {
    ghost use Rattle.xt_queue.specs.Queues.{QueueRule, maker};

    ghost holds = { QueueRule };

    ghost first = { maker 0 };
}

/// A new pass, which the maker makes.
pub struct NextPass;

impl Split<JobView> for NextPass {
    ghost use Rattle.std.specs.Prelude.{◌+◌};
    ghost use Rattle.xt_queue.specs.Queues.{maker, unused};

    ghost left = { λ v. maker (v.made + 1) };

    ghost right = { λ v. unused (v.made + 1) };
}

/// A name joins at the back of the queue, or the queue is full.
pub struct Post;

impl Outcome<JobName, JobView> for Post {
    ghost use Rattle.xt_queue.specs.Queues.{Posts};

    ghost then = { Posts };
}

impl Lesson<JobName, JobView> for Post {
    ghost use Rattle.xt_queue.specs.Queues.{Sees};

    ghost fact = { Sees };
}

/// A name leaves at the front of the queue, or the queue is empty.
pub struct Take;

impl Outcome<JobName, JobView> for Take {
    ghost use Rattle.xt_queue.specs.Queues.{Takes};

    ghost then = { Takes };
}

impl Lesson<JobName, JobView> for Take {
    ghost use Rattle.xt_queue.specs.Queues.{Sees};

    ghost fact = { Sees };
}

/// No word goes down.
pub struct NeverDown;

impl TableRule<(), BoardView, ()> for NeverDown {
    ghost use Rattle.xt_queue.specs.Boards.{BoardRule, blank};

    ghost holds = { λ _ s. BoardRule s.words s.views };

    ghost first = { λ _. blank };
}

/// One load.
pub struct Peek;

impl Play<(), BoardView> for Peek {
    ghost use Rattle.std.specs.Prelude.{◌≡◌};
    ghost use Rattle.xt_queue.specs.Boards.{Peeks};

    ghost then = { λ s me found after. Peeks me.0 s.word found after.0 × (after.1 ≡ me.1) };
}

/// One `fetch_max`.
pub struct Show;

impl Play<(), BoardView> for Show {
    ghost use Rattle.std.specs.Prelude.{◌≡◌};
    ghost use Rattle.xt_queue.specs.Boards.{Shows};

    ghost then = { λ s me found after. Shows me.0 s.word s.first found after.0 × (after.1 ≡ me.1) };
}

/// A new seat, which has seen what the old one saw and shown nothing.
pub struct Beside;

impl Split<BoardView> for Beside {
    ghost use Rattle.std.specs.Prelude.{◌+◌};
    ghost use Rattle.xt_queue.specs.Boards.{blank_words, board_view, with_split};

    ghost left = { with_split };

    ghost right = { λ v. board_view blank_words v.seen 0 (v.rank + 1) };
}
