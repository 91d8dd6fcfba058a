//! Calls to a mount as a whole: its log forced, its blocks written home, its administration, and what it tells of itself.

ghost use Rattle.std.specs.Prelude.{◌≡◌, ◌<◌, IfErr, IfOk, None, OnOk, slice_index};
ghost use Rattle.xt_base.specs.declared.steps.Reply.TheVariants as AReply;
ghost use Rattle.xt_base.specs.declared.steps.Request.TheVariants as ARequest;
ghost use Rattle.xt_host.specs.Tokens.{Served, forced};
ghost use Rattle.xt_queue.specs.Boards.{Rises};
ghost use Rattle.xt_queue.specs.Words.{word_of};

use crate::host::Host;
use crate::outcomes::Forced;
use crate::told::{force, okay, stat};
use std::sync::Wait;
use xt_base::names::CkptNo;
use xt_base::stat::Stat;
use xt_base::steps::{Errno, Request};
use xt_cell::house::House;
use xt_cell::mount_ref::MountRef;
use xt_cell::seat::HostSeat;
use xt_slots::desk::Desk;

impl<H: House, D> Host<H, D> {
    /// Asks that all that is committed reach the log. EIO on a shut mount, ENODEV and ESTALE where that mount is gone.
    pub fn force<R: Wait>(
        &self,
        rt: &R,
        seat: &mut HostSeat<H>,
        at: MountRef,
    ) -> Result<Forced, Errno>
    where
        D: Desk<H, R>,
        requires board { seat.old.board.board ≡ self.now.board }
        ensures forced { IfOk result (λ what. Served at ARequest.Force (forced what) seat.old seat.new) }
        ensures refused { IfErr result (λ errno. Served at ARequest.Force (AReply.Refused errno) seat.old seat.new) }
        ensures board { seat.new.board.board ≡ seat.old.board.board }
        ensures rises { Rises seat.old.board.seen seat.new.board.seen }
    {
        force(self.ask(rt, seat, at, Request::Force))
    }

    /// Asks that a checkpoint reach the log. EINVAL for number 0 and for one that is not open yet; else as `force`.
    pub fn force_to<R: Wait>(
        &self,
        rt: &R,
        seat: &mut HostSeat<H>,
        at: MountRef,
        number: CkptNo,
    ) -> Result<Forced, Errno>
    where
        D: Desk<H, R>,
        requires board { seat.old.board.board ≡ self.now.board }
        ensures forced { IfOk result (λ what. Served at (ARequest.ForceTo number) (forced what) seat.old seat.new) }
        ensures refused { IfErr result (λ errno. Served at (ARequest.ForceTo number) (AReply.Refused errno) seat.old seat.new) }
        ensures board { seat.new.board.board ≡ seat.old.board.board }
        ensures rises { Rises seat.old.board.seen seat.new.board.seen }
    {
        force(self.ask(rt, seat, at, Request::ForceTo { number }))
    }

    /// Asks that blocks be written home. EIO on a shut mount, ENODEV and ESTALE where that mount is gone.
    pub fn push<R: Wait>(&self, rt: &R, seat: &mut HostSeat<H>, at: MountRef) -> Result<(), Errno>
    where
        D: Desk<H, R>,
        requires board { seat.old.board.board ≡ self.now.board }
        ensures asked { OnOk result (Served at ARequest.Push AReply.Okay seat.old seat.new) }
        ensures refused { IfErr result (λ errno. Served at ARequest.Push (AReply.Refused errno) seat.old seat.new) }
        ensures board { seat.new.board.board ≡ seat.old.board.board }
        ensures rises { Rises seat.old.board.seen seat.new.board.seen }
    {
        okay(self.ask(rt, seat, at, Request::Push))
    }

    /// Shuts a mount, and shows that on the board: from then on this seat sees that life shut, or a later one. ENODEV and ESTALE where
    /// that mount is gone.
    pub fn shutdown<R: Wait>(
        &self,
        rt: &R,
        seat: &mut HostSeat<H>,
        at: MountRef,
    ) -> Result<(), Errno>
    where
        D: Desk<H, R>,
        requires board { seat.old.board.board ≡ self.now.board }
        ensures shut { OnOk result (Served at ARequest.Shutdown AReply.Okay seat.old seat.new) }
        ensures seen { OnOk result (word_of at.life None < slice_index seat.new.board.seen at.slot) }
        ensures refused { IfErr result (λ errno. Served at ARequest.Shutdown (AReply.Refused errno) seat.old seat.new) }
        ensures board { seat.new.board.board ≡ seat.old.board.board }
        ensures rises { Rises seat.old.board.seen seat.new.board.seen }
    {
        okay(self.ask(rt, seat, at, Request::Shutdown))
    }

    /// Opens no transaction from here on; those that are open go on. EIO on a shut mount, EBUSY on a frozen one, ENODEV and ESTALE where
    /// that mount is gone.
    pub fn freeze<R: Wait>(&self, rt: &R, seat: &mut HostSeat<H>, at: MountRef) -> Result<(), Errno>
    where
        D: Desk<H, R>,
        requires board { seat.old.board.board ≡ self.now.board }
        ensures frozen { OnOk result (Served at ARequest.Freeze AReply.Okay seat.old seat.new) }
        ensures refused { IfErr result (λ errno. Served at ARequest.Freeze (AReply.Refused errno) seat.old seat.new) }
        ensures board { seat.new.board.board ≡ seat.old.board.board }
        ensures rises { Rises seat.old.board.seen seat.new.board.seen }
    {
        okay(self.ask(rt, seat, at, Request::Freeze))
    }

    /// Opens transactions again. EINVAL where the mount is not frozen, ENODEV and ESTALE where it is gone.
    pub fn thaw<R: Wait>(&self, rt: &R, seat: &mut HostSeat<H>, at: MountRef) -> Result<(), Errno>
    where
        D: Desk<H, R>,
        requires board { seat.old.board.board ≡ self.now.board }
        ensures thawed { OnOk result (Served at ARequest.Thaw AReply.Okay seat.old seat.new) }
        ensures refused { IfErr result (λ errno. Served at ARequest.Thaw (AReply.Refused errno) seat.old seat.new) }
        ensures board { seat.new.board.board ≡ seat.old.board.board }
        ensures rises { Rises seat.old.board.seen seat.new.board.seen }
    {
        okay(self.ask(rt, seat, at, Request::Thaw))
    }

    /// What a mount tells of itself, live or shut: how many transactions are open, how full its log and its lists are, and what it owes. It
    /// changes nothing and asks no device. Sizes are in bytes; 0 is no checkpoint's number. ENODEV and ESTALE where that mount is gone.
    pub fn stat<R: Wait>(&self, rt: &R, seat: &mut HostSeat<H>, at: MountRef) -> Result<Stat, Errno>
    where
        D: Desk<H, R>,
        requires board { seat.old.board.board ≡ self.now.board }
        ensures told { IfOk result (λ told. Served at ARequest.Stat (AReply.Stat told) seat.old seat.new) }
        ensures refused { IfErr result (λ errno. Served at ARequest.Stat (AReply.Refused errno) seat.old seat.new) }
        ensures board { seat.new.board.board ≡ seat.old.board.board }
        ensures rises { Rises seat.old.board.seen seat.new.board.seen }
    {
        stat(self.ask(rt, seat, at, Request::Stat))
    }
}
