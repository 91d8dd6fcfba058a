//! Transactions of a mount: how one is opened, and what is done in it.

ghost use Rattle.std.specs.Prelude.{◌≡◌, IfErr, IfOk, OnOk};
ghost use Rattle.xt_base.specs.declared.steps.Reply.TheVariants as AReply;
ghost use Rattle.xt_base.specs.declared.steps.Request.TheVariants as ARequest;
ghost use Rattle.xt_host.specs.Tokens.{Served, released};
ghost use Rattle.xt_queue.specs.Boards.{Rises};

use crate::host::Host;
use crate::outcomes::Relse;
use crate::tokens::Trans;
use crate::told::{okay, opened, relse, viewed};
use std::sync::Wait;
use xt_base::content::{Content, Data};
use xt_base::names::Block;
use xt_base::steps::{Errno, Request};
use xt_cell::house::House;
use xt_cell::mount_ref::MountRef;
use xt_cell::seat::HostSeat;
use xt_slots::desk::Desk;

impl<H: House, D> Host<H, D> {
    /// Opens a transaction: log bytes for a leg, how many legs are reserved at once, 1 to 8, and whether it may roll. EINVAL where these
    /// do not fit together or the log, EIO on a shut mount, EAGAIN on a frozen one, beside 32 open transactions, and where no log space
    /// is left, ENOSPC where the numbers end; ENODEV and ESTALE where that mount is gone; ENOMEM where memory is refused.
    pub fn begin_trans<R: Wait>(
        &self,
        rt: &R,
        seat: &mut HostSeat<H>,
        at: MountRef,
        unit: u32,
        count: u32,
        perm: bool,
    ) -> Result<Trans, Errno>
    where
        D: Desk<H, R>,
        requires board { seat.old.board.board ≡ self.now.board }
        ensures at { IfOk result (λ trans. trans.at ≡ at) }
        ensures opened { IfOk result (λ trans. Served at (ARequest.Alloc unit count perm) (AReply.Trans trans.number) seat.old seat.new) }
        ensures refused { IfErr result (λ errno. Served at (ARequest.Alloc unit count perm) (AReply.Refused errno) seat.old seat.new) }
        ensures board { seat.new.board.board ≡ seat.old.board.board }
        ensures rises { Rises seat.old.board.seen seat.new.board.seen }
    {
        let mount = &at;
        let request = Request::Alloc { unit, count, perm };
        opened(*mount, self.ask(rt, seat, *mount, request))
    }

    /// Locks a block for the transaction, unread: a block that is not resident shows zeros until it is written whole. EINVAL past the
    /// end of the device, EIO on a shut mount, EAGAIN where it is locked elsewhere, ENOBUFS beside 64 busy blocks.
    pub fn get<R: Wait>(
        &self,
        rt: &R,
        seat: &mut HostSeat<H>,
        trans: &mut Trans,
        block: Block,
    ) -> Result<(), Errno>
    where
        D: Desk<H, R>,
        requires board { seat.old.board.board ≡ self.now.board }
        ensures trans { trans.new ≡ trans.old }
        ensures locked { OnOk result (Served trans.old.at (ARequest.Get trans.old.number block) AReply.Okay seat.old seat.new) }
        ensures refused { IfErr result (λ errno. Served trans.old.at (ARequest.Get trans.old.number block) (AReply.Refused errno) seat.old seat.new) }
        ensures board { seat.new.board.board ≡ seat.old.board.board }
        ensures rises { Rises seat.old.board.seen seat.new.board.seen }
    {
        let request = Request::Get {
            trans: trans.number(),
            block,
        };
        okay(self.ask(rt, seat, trans.at(), request))
    }

    /// Locks a block for the transaction with its content, which the home device is asked for where the block is not resident. EINVAL
    /// past the end of the device and for a block that the transaction has without a content, EIO on a shut mount and where the device
    /// failed, which shuts the mount if the transaction changed something; EAGAIN and ENOBUFS as `get`.
    pub fn read<R: Wait>(
        &self,
        rt: &R,
        seat: &mut HostSeat<H>,
        trans: &mut Trans,
        block: Block,
    ) -> Result<(), Errno>
    where
        D: Desk<H, R>,
        requires board { seat.old.board.board ≡ self.now.board }
        ensures trans { trans.new ≡ trans.old }
        ensures locked { OnOk result (Served trans.old.at (ARequest.Read trans.old.number block) AReply.Okay seat.old seat.new) }
        ensures refused { IfErr result (λ errno. Served trans.old.at (ARequest.Read trans.old.number block) (AReply.Refused errno) seat.old seat.new) }
        ensures board { seat.new.board.board ≡ seat.old.board.board }
        ensures rises { Rises seat.old.board.seen seat.new.board.seen }
    {
        let request = Request::Read {
            trans: trans.number(),
            block,
        };
        okay(self.ask(rt, seat, trans.at(), request))
    }

    /// What the transaction sees of a block that it has. EINVAL where it does not have it.
    pub fn view<R: Wait>(
        &self,
        rt: &R,
        seat: &mut HostSeat<H>,
        trans: &mut Trans,
        block: Block,
    ) -> Result<Content, Errno>
    where
        D: Desk<H, R>,
        requires board { seat.old.board.board ≡ self.now.board }
        ensures trans { trans.new ≡ trans.old }
        ensures viewed { IfOk result (λ content. Served trans.old.at (ARequest.View trans.old.number block) (AReply.Data content) seat.old seat.new) }
        ensures refused { IfErr result (λ errno. Served trans.old.at (ARequest.View trans.old.number block) (AReply.Refused errno) seat.old seat.new) }
        ensures board { seat.new.board.board ≡ seat.old.board.board }
        ensures rises { Rises seat.old.board.seen seat.new.board.seen }
    {
        let request = Request::View {
            trans: trans.number(),
            block,
        };
        viewed(self.ask(rt, seat, trans.at(), request))
    }

    /// Writes bytes of a block from `first` on. EINVAL for a block that the transaction does not have, no bytes or bytes past the end of
    /// the block, and a block without a content that is not written whole; ENOSPC where the leg's log bytes do not suffice.
    pub fn log<R: Wait>(
        &self,
        rt: &R,
        seat: &mut HostSeat<H>,
        trans: &mut Trans,
        block: Block,
        first: u32,
        bytes: Data,
    ) -> Result<(), Errno>
    where
        D: Desk<H, R>,
        requires board { seat.old.board.board ≡ self.now.board }
        ensures trans { trans.new ≡ trans.old }
        ensures logged { OnOk result (Served trans.old.at (ARequest.Log first trans.old.number block bytes) AReply.Okay seat.old seat.new) }
        ensures refused { IfErr result (λ errno. Served trans.old.at (ARequest.Log first trans.old.number block bytes) (AReply.Refused errno) seat.old seat.new) }
        ensures board { seat.new.board.board ≡ seat.old.board.board }
        ensures rises { Rises seat.old.board.seen seat.new.board.seen }
    {
        let request = Request::Log {
            first,
            trans: trans.number(),
            block,
            bytes,
        };
        okay(self.ask(rt, seat, trans.at(), request))
    }

    /// Marks a block to stay locked when the leg ends. EINVAL for a block that the transaction does not have, or gave up for good.
    pub fn hold<R: Wait>(
        &self,
        rt: &R,
        seat: &mut HostSeat<H>,
        trans: &mut Trans,
        block: Block,
    ) -> Result<(), Errno>
    where
        D: Desk<H, R>,
        requires board { seat.old.board.board ≡ self.now.board }
        ensures trans { trans.new ≡ trans.old }
        ensures marked { OnOk result (Served trans.old.at (ARequest.Hold trans.old.number block) AReply.Okay seat.old seat.new) }
        ensures refused { IfErr result (λ errno. Served trans.old.at (ARequest.Hold trans.old.number block) (AReply.Refused errno) seat.old seat.new) }
        ensures board { seat.new.board.board ≡ seat.old.board.board }
        ensures rises { Rises seat.old.board.seen seat.new.board.seen }
    {
        let request = Request::Hold {
            trans: trans.number(),
            block,
        };
        okay(self.ask(rt, seat, trans.at(), request))
    }

    /// Takes that mark away. EINVAL where there is none.
    pub fn hold_release<R: Wait>(
        &self,
        rt: &R,
        seat: &mut HostSeat<H>,
        trans: &mut Trans,
        block: Block,
    ) -> Result<(), Errno>
    where
        D: Desk<H, R>,
        requires board { seat.old.board.board ≡ self.now.board }
        ensures trans { trans.new ≡ trans.old }
        ensures unmarked { OnOk result (Served trans.old.at (ARequest.Unhold trans.old.number block) AReply.Okay seat.old seat.new) }
        ensures refused { IfErr result (λ errno. Served trans.old.at (ARequest.Unhold trans.old.number block) (AReply.Refused errno) seat.old seat.new) }
        ensures board { seat.new.board.board ≡ seat.old.board.board }
        ensures rises { Rises seat.old.board.seen seat.new.board.seen }
    {
        let request = Request::Unhold {
            trans: trans.number(),
            block,
        };
        okay(self.ask(rt, seat, trans.at(), request))
    }

    /// Gives back one lock of a block. EINVAL for a block that the transaction does not have.
    pub fn relse<R: Wait>(
        &self,
        rt: &R,
        seat: &mut HostSeat<H>,
        trans: &mut Trans,
        block: Block,
    ) -> Result<Relse, Errno>
    where
        D: Desk<H, R>,
        requires board { seat.old.board.board ≡ self.now.board }
        ensures trans { trans.new ≡ trans.old }
        ensures released { IfOk result (λ what. Served trans.old.at (ARequest.Relse trans.old.number block) (released what) seat.old seat.new) }
        ensures refused { IfErr result (λ errno. Served trans.old.at (ARequest.Relse trans.old.number block) (AReply.Refused errno) seat.old seat.new) }
        ensures board { seat.new.board.board ≡ seat.old.board.board }
        ensures rises { Rises seat.old.board.seen seat.new.board.seen }
    {
        let request = Request::Relse {
            trans: trans.number(),
            block,
        };
        relse(self.ask(rt, seat, trans.at(), request))
    }

    /// Gives a block up for good: it stays locked until a checkpoint that says so has landed. EINVAL for a block that the transaction
    /// does not have, ENOSPC where the leg's log bytes do not suffice.
    pub fn binval<R: Wait>(
        &self,
        rt: &R,
        seat: &mut HostSeat<H>,
        trans: &mut Trans,
        block: Block,
    ) -> Result<(), Errno>
    where
        D: Desk<H, R>,
        requires board { seat.old.board.board ≡ self.now.board }
        ensures trans { trans.new ≡ trans.old }
        ensures gone { OnOk result (Served trans.old.at (ARequest.Inval trans.old.number block) AReply.Okay seat.old seat.new) }
        ensures refused { IfErr result (λ errno. Served trans.old.at (ARequest.Inval trans.old.number block) (AReply.Refused errno) seat.old seat.new) }
        ensures board { seat.new.board.board ≡ seat.old.board.board }
        ensures rises { Rises seat.old.board.seen seat.new.board.seen }
    {
        let request = Request::Inval {
            trans: trans.number(),
            block,
        };
        okay(self.ask(rt, seat, trans.at(), request))
    }
}
