//! Calls that wait: each tries again while its reply asks for that, and sleeps until the slot has changed.

ghost use Rattle.std.specs.Prelude.{◌≡◌, IfErr, IfOk, OnOk};
ghost use Rattle.xt_base.specs.Calls.{committed_of, held_of};
ghost use Rattle.xt_base.specs.declared.steps.Reply.TheVariants as AReply;
ghost use Rattle.xt_base.specs.declared.steps.Request.TheVariants as ARequest;
ghost use Rattle.xt_host.specs.Waiting.{AtLast, NotRolledAtLast};
ghost use Rattle.xt_queue.specs.Boards.{Rises};

use crate::attempt::Attempt;
use crate::host::Host;
use crate::outcomes::{Forced, RollFault};
use crate::tokens::{HeldList, Trans};
use crate::told::{LegFault, ended, force, okay, opened};
use std::sync::Wait;
use xt_base::names::{Block, CkptNo};
use xt_base::steps::Errno;
use xt_cell::house::House;
use xt_cell::mount_ref::MountRef;
use xt_cell::seat::HostSeat;
use xt_slots::desk::Desk;

impl<H: House, D> Host<H, D> {
    /// Opens a transaction, as `begin_trans`, and waits where that answers EAGAIN: while the mount is frozen, beside 32 open
    /// transactions, and until there is log space. Each try is a call of its own, with its receipt. Any other refusal ends it, ENOMEM too.
    pub fn begin_trans_wait<R: Wait>(
        &self,
        rt: &R,
        seat: &mut HostSeat<H>,
        at: MountRef,
        unit: u32,
        count: u32,
        perm: bool,
    ) -> Result<Trans, Errno>
    where
        D: Desk<H, R>,
        requires board { seat.old.board.board ≡ self.now.board }
        ensures at { IfOk result (λ trans. trans.at ≡ at) }
        ensures opened { IfOk result (λ trans. AtLast at (ARequest.Alloc unit count perm) (AReply.Trans trans.number) seat.old seat.new) }
        ensures refused { IfErr result (λ errno. AtLast at (ARequest.Alloc unit count perm) (AReply.Refused errno) seat.old seat.new) }
        ensures board { seat.new.board.board ≡ seat.old.board.board }
        ensures rises { Rises seat.old.board.seen seat.new.board.seen }
    {
        let mount = &at;
        let attempt = Attempt::Alloc { unit, count, perm };
        opened(*mount, self.ask_wait(rt, seat, mount, &attempt))
    }

    /// Locks a block for the transaction, unread, as `get`, and waits while it is locked elsewhere. Each try is a call of its own, with
    /// its receipt. Any other refusal ends it, ENOMEM too.
    pub fn get_wait<R: Wait>(
        &self,
        rt: &R,
        seat: &mut HostSeat<H>,
        trans: &mut Trans,
        block: Block,
    ) -> Result<(), Errno>
    where
        D: Desk<H, R>,
        requires board { seat.old.board.board ≡ self.now.board }
        ensures trans { trans.new ≡ trans.old }
        ensures locked { OnOk result (AtLast trans.old.at (ARequest.Get trans.old.number block) AReply.Okay seat.old seat.new) }
        ensures refused { IfErr result (λ errno. AtLast trans.old.at (ARequest.Get trans.old.number block) (AReply.Refused errno) seat.old seat.new) }
        ensures board { seat.new.board.board ≡ seat.old.board.board }
        ensures rises { Rises seat.old.board.seen seat.new.board.seen }
    {
        let attempt = Attempt::Get {
            trans: trans.number(),
            block,
        };
        okay(self.ask_wait(rt, seat, &trans.at(), &attempt))
    }

    /// Locks a block for the transaction with its content, as `read`, and waits while it is locked elsewhere. Each try is a call of its
    /// own, with its receipt. Any other refusal ends it, ENOMEM too.
    pub fn read_wait<R: Wait>(
        &self,
        rt: &R,
        seat: &mut HostSeat<H>,
        trans: &mut Trans,
        block: Block,
    ) -> Result<(), Errno>
    where
        D: Desk<H, R>,
        requires board { seat.old.board.board ≡ self.now.board }
        ensures trans { trans.new ≡ trans.old }
        ensures locked { OnOk result (AtLast trans.old.at (ARequest.Read trans.old.number block) AReply.Okay seat.old seat.new) }
        ensures refused { IfErr result (λ errno. AtLast trans.old.at (ARequest.Read trans.old.number block) (AReply.Refused errno) seat.old seat.new) }
        ensures board { seat.new.board.board ≡ seat.old.board.board }
        ensures rises { Rises seat.old.board.seen seat.new.board.seen }
    {
        let attempt = Attempt::Read {
            trans: trans.number(),
            block,
        };
        okay(self.ask_wait(rt, seat, &trans.at(), &attempt))
    }

    /// Commits the leg and goes on with a clean one, as `roll`, and waits where its last leg finds no log space for another. Each try is
    /// a call of its own, with its receipt. Any other refusal ends it, ENOMEM too, so `RollFault::Back` never has EAGAIN.
    pub fn roll_wait<R: Wait>(
        &self,
        rt: &R,
        seat: &mut HostSeat<H>,
        trans: Trans,
    ) -> Result<(CkptNo, HeldList, Trans), RollFault>
    where
        D: Desk<H, R>,
        requires board { seat.old.board.board ≡ self.now.board }
        ensures at { IfOk result (λ done. done.1.at ≡ trans.at) }
        ensures trans { IfOk result (λ done. done.2 ≡ trans) }
        ensures committed { IfOk result (λ done. AtLast trans.at (ARequest.Roll trans.number) (committed_of done.0 (held_of done.1.blocks)) seat.old seat.new) }
        ensures fault { IfErr result (λ fault. NotRolledAtLast trans seat.old seat.new fault) }
        ensures board { seat.new.board.board ≡ seat.old.board.board }
        ensures rises { Rises seat.old.board.seen seat.new.board.seen }
    {
        let attempt = Attempt::Roll {
            trans: trans.number(),
        };
        match ended(trans.at(), self.ask_wait(rt, seat, &trans.at(), &attempt)) {
            Ok((number, held)) => Ok((number, held, trans)),
            Err(LegFault::Aborted(held)) => Err(RollFault::Aborted(trans, held)),
            Err(LegFault::Refused(errno)) => Err(RollFault::Back(trans, errno)),
        }
    }

    /// Forces a checkpoint, as `force_to`, and waits until it is in the log: for that a worker has to write it. Each try is a call of its
    /// own, with its receipt. A refusal ends it, ENOMEM too.
    pub fn force_wait<R: Wait>(
        &self,
        rt: &R,
        seat: &mut HostSeat<H>,
        at: MountRef,
        number: CkptNo,
    ) -> Result<(), Errno>
    where
        D: Desk<H, R>,
        requires board { seat.old.board.board ≡ self.now.board }
        ensures done { OnOk result (AtLast at (ARequest.ForceTo number) AReply.Done seat.old seat.new) }
        ensures refused { IfErr result (λ errno. AtLast at (ARequest.ForceTo number) (AReply.Refused errno) seat.old seat.new) }
        ensures board { seat.new.board.board ≡ seat.old.board.board }
        ensures rises { Rises seat.old.board.seen seat.new.board.seen }
    {
        match force(self.ask_wait(rt, seat, &at, &Attempt::ForceTo { number }))? {
            Forced::Done => Ok(()),
            Forced::Wait(_) => unreachable!(),
        }
    }
}
