//! The end of a transaction, or of one of its legs.

ghost use Rattle.std.specs.Prelude.{◌≡◌, IfErr, IfOk};
ghost use Rattle.xt_base.specs.Calls.{committed_of, held_of, okay_of};
ghost use Rattle.xt_base.specs.declared.steps.Reply.TheVariants as AReply;
ghost use Rattle.xt_base.specs.declared.steps.Request.TheVariants as ARequest;
ghost use Rattle.xt_host.specs.Tokens.{NotCommitted, NotRolled, Served};
ghost use Rattle.xt_queue.specs.Boards.{Rises};

use crate::host::Host;
use crate::outcomes::{CommitFault, RollFault};
use crate::tokens::{HeldList, Trans};
use crate::told::{LegFault, cancelled, ended, over};
use std::sync::Wait;
use xt_base::names::CkptNo;
use xt_base::steps::{Errno, Request};
use xt_cell::house::House;
use xt_cell::seat::HostSeat;
use xt_slots::desk::Desk;

impl<H: House, D> Host<H, D> {
    /// Ends the transaction and commits its leg: the number of the checkpoint that the leg goes into, 0 for a clean leg, and the buffers
    /// that stay held. EIO on a shut mount where the leg changed something: then the leg is given up, and the transaction is over too.
    /// Any other refusal changes nothing: ENOMEM where memory is refused; EINVAL, ENODEV and ESTALE where there is no such transaction.
    pub fn commit<R: Wait>(
        &self,
        rt: &R,
        seat: &mut HostSeat<H>,
        trans: Trans,
    ) -> Result<(CkptNo, HeldList), CommitFault>
    where
        D: Desk<H, R>,
        requires board { seat.old.board.board ≡ self.now.board }
        ensures at { IfOk result (λ done. done.1.at ≡ trans.at) }
        ensures committed { IfOk result (λ done. Served trans.at (ARequest.Commit trans.number) (committed_of done.0 (held_of done.1.blocks)) seat.old seat.new) }
        ensures fault { IfErr result (λ fault. NotCommitted trans seat.old seat.new fault) }
        ensures board { seat.new.board.board ≡ seat.old.board.board }
        ensures rises { Rises seat.old.board.seen seat.new.board.seen }
    {
        let request = Request::Commit {
            trans: trans.number(),
        };
        match ended(trans.at(), self.ask(rt, seat, trans.at(), request)) {
            Ok((number, held)) => {
                over(trans);
                Ok((number, held))
            }
            Err(LegFault::Aborted(held)) => {
                over(trans);
                Err(CommitFault::Aborted(held))
            }
            Err(LegFault::Refused(errno)) => Err(CommitFault::Back(trans, errno)),
        }
    }

    /// Commits the leg and goes on with a clean one: as `commit`, and the transaction comes back. EINVAL where it may not roll; EIO on a
    /// shut mount: then the leg is given up, and the transaction is still to be cancelled; EAGAIN where its last leg finds no log space
    /// for another: then nothing is committed.
    pub fn roll<R: Wait>(
        &self,
        rt: &R,
        seat: &mut HostSeat<H>,
        trans: Trans,
    ) -> Result<(CkptNo, HeldList, Trans), RollFault>
    where
        D: Desk<H, R>,
        requires board { seat.old.board.board ≡ self.now.board }
        ensures at { IfOk result (λ done. done.1.at ≡ trans.at) }
        ensures trans { IfOk result (λ done. done.2 ≡ trans) }
        ensures committed { IfOk result (λ done. Served trans.at (ARequest.Roll trans.number) (committed_of done.0 (held_of done.1.blocks)) seat.old seat.new) }
        ensures fault { IfErr result (λ fault. NotRolled trans seat.old seat.new fault) }
        ensures board { seat.new.board.board ≡ seat.old.board.board }
        ensures rises { Rises seat.old.board.seen seat.new.board.seen }
    {
        let request = Request::Roll {
            trans: trans.number(),
        };
        match ended(trans.at(), self.ask(rt, seat, trans.at(), request)) {
            Ok((number, held)) => Ok((number, held, trans)),
            Err(LegFault::Aborted(held)) => Err(RollFault::Aborted(trans, held)),
            Err(LegFault::Refused(errno)) => Err(RollFault::Back(trans, errno)),
        }
    }

    /// Gives the leg up and ends the transaction: the buffers that stay held. Where the leg changed something, this shuts the mount. It
    /// is refused only where memory is, or where there is no such transaction; then it comes back.
    pub fn cancel<R: Wait>(
        &self,
        rt: &R,
        seat: &mut HostSeat<H>,
        trans: Trans,
    ) -> Result<HeldList, (Trans, Errno)>
    where
        D: Desk<H, R>,
        requires board { seat.old.board.board ≡ self.now.board }
        ensures at { IfOk result (λ held. held.at ≡ trans.at) }
        ensures cancelled { IfOk result (λ held. Served trans.at (ARequest.Cancel trans.number) (okay_of (held_of held.blocks)) seat.old seat.new) }
        ensures back { IfErr result (λ back. back.0 ≡ trans) }
        ensures refused { IfErr result (λ back. Served trans.at (ARequest.Cancel trans.number) (AReply.Refused back.1) seat.old seat.new) }
        ensures board { seat.new.board.board ≡ seat.old.board.board }
        ensures rises { Rises seat.old.board.seen seat.new.board.seen }
    {
        let request = Request::Cancel {
            trans: trans.number(),
        };
        match cancelled(trans.at(), self.ask(rt, seat, trans.at(), request)) {
            Ok(held) => {
                over(trans);
                Ok(held)
            }
            Err(errno) => Err((trans, errno)),
        }
    }
}
