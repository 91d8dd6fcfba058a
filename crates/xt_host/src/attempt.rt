//! A request that is tried again and again, until its reply is not one that asks for that.

ghost use Rattle.std.specs.Prelude.{◌≡◌, true};
ghost use Rattle.xt_base.specs.Replies.{may_get};
ghost use Rattle.xt_host.specs.Tokens.{Served};
ghost use Rattle.xt_host.specs.Waiting.{AtLast, request_of};
ghost use Rattle.xt_queue.specs.Boards.{Rises};

use crate::host::Host;
use std::sync::Wait;
use xt_base::names::{Block, CkptNo, TransNo};
use xt_base::steps::{Reply, Request};
use xt_cell::house::House;
use xt_cell::mount_ref::MountRef;
use xt_cell::seat::HostSeat;
use xt_receipts::again::asks_again;
use xt_slots::desk::Desk;

/// What is tried: each try makes its request anew.
#[derive(Clone, Copy)]
pub enum Attempt {
    /// Opens a transaction.
    Alloc { unit: u32, count: u32, perm: bool },
    /// Locks a block, unread.
    Get { trans: TransNo, block: Block },
    /// Locks a block with its content.
    Read { trans: TransNo, block: Block },
    /// Commits a leg and goes on.
    Roll { trans: TransNo },
    /// Asks that a checkpoint reach the log.
    ForceTo { number: CkptNo },
}

impl Attempt {
    /// The request of one try.
    fn request(&self) -> Request
        ensures { result ≡ request_of self.now }
    {
        match *self {
            Attempt::Alloc { unit, count, perm } => Request::Alloc { unit, count, perm },
            Attempt::Get { trans, block } => Request::Get { trans, block },
            Attempt::Read { trans, block } => Request::Read { trans, block },
            Attempt::Roll { trans } => Request::Roll { trans },
            Attempt::ForceTo { number } => Request::ForceTo { number },
        }
    }
}

impl<H: House, D> Host<H, D> {
    /// Tries a request once; where its reply asks to try again, it comes after a change of the slot, or earlier for no reason.
    #[tactic(auto, using(crate::proofs::ServedLemmas::served_of))]
    fn attempt<R: Wait>(
        &self,
        rt: &R,
        seat: &mut HostSeat<H>,
        at: &MountRef,
        attempt: &Attempt,
    ) -> Reply
    where
        D: Desk<H, R>,
        requires board { seat.old.board.board ≡ self.now.board }
        ensures served { Served at.now (request_of attempt.now) result seat.old seat.new }
        ensures kind { may_get (request_of attempt.now) result ≡ true }
        ensures board { seat.new.board.board ≡ seat.old.board.board }
        ensures rises { Rises seat.old.board.seen seat.new.board.seen }
    {
        self.slots
            .ask(rt, seat, &self.board, *at, attempt.request(), true)
    }

    /// Tries a request until its reply is not one that asks to try again.
    pub(crate) fn ask_wait<R: Wait>(
        &self,
        rt: &R,
        seat: &mut HostSeat<H>,
        at: &MountRef,
        attempt: &Attempt,
    ) -> Reply
    where
        D: Desk<H, R>,
        requires board { seat.old.board.board ≡ self.now.board }
        ensures served { AtLast at.now (request_of attempt.now) result seat.old seat.new }
        ensures kind { may_get (request_of attempt.now) result ≡ true }
        ensures board { seat.new.board.board ≡ seat.old.board.board }
        ensures rises { Rises seat.old.board.seen seat.new.board.seen }
    {
        for _ in rt.forever() {
            let reply = self.attempt(rt, seat, at, attempt);
            if !asks_again(&reply) {
                return reply;
            }
        }
        unreachable!()
    }
}
