//! Buffers that a leg left held: joined to a transaction, or released.

ghost use Rattle.std.specs.Prelude.{◌≡◌, IfErr, OnOk};
ghost use Rattle.xt_base.specs.declared.steps.Reply.TheVariants as AReply;
ghost use Rattle.xt_base.specs.declared.steps.Request.TheVariants as ARequest;
ghost use Rattle.xt_host.specs.Tokens.{Served};
ghost use Rattle.xt_queue.specs.Boards.{Rises};

use crate::host::Host;
use crate::tokens::{HeldBuf, Trans};
use crate::told::{let_go, okay};
use std::sync::Wait;
use xt_base::steps::{Errno, Request};
use xt_cell::house::House;
use xt_cell::seat::HostSeat;
use xt_slots::desk::Desk;

impl<H: House, D> Host<H, D> {
    /// Hands a held buffer to a transaction of its mount, which has its block from then on. Where it is refused the buffer comes back:
    /// EIO on a shut mount, ENODEV and ESTALE where that mount is gone.
    pub fn join<R: Wait>(
        &self,
        rt: &R,
        seat: &mut HostSeat<H>,
        trans: &mut Trans,
        held: HeldBuf,
    ) -> Result<(), (HeldBuf, Errno)>
    where
        D: Desk<H, R>,
        requires board { seat.old.board.board ≡ self.now.board }
        requires mount { held.at ≡ trans.old.at }
        ensures trans { trans.new ≡ trans.old }
        ensures joined { OnOk result (Served trans.old.at (ARequest.Join trans.old.number held.block) AReply.Okay seat.old seat.new) }
        ensures back { IfErr result (λ back. back.0 ≡ held) }
        ensures refused { IfErr result (λ back. Served trans.old.at (ARequest.Join trans.old.number held.block) (AReply.Refused back.1) seat.old seat.new) }
        ensures board { seat.new.board.board ≡ seat.old.board.board }
        ensures rises { Rises seat.old.board.seen seat.new.board.seen }
    {
        let request = Request::Join {
            trans: trans.number(),
            block: held.block(),
        };
        match okay(self.ask(rt, seat, trans.at(), request)) {
            Ok(()) => {
                let_go(held);
                Ok(())
            }
            Err(errno) => Err((held, errno)),
        }
    }

    /// Gives a held buffer up: its block is free. Where it is refused the buffer comes back: ENODEV and ESTALE where its mount is gone.
    pub fn release_held<R: Wait>(
        &self,
        rt: &R,
        seat: &mut HostSeat<H>,
        held: HeldBuf,
    ) -> Result<(), (HeldBuf, Errno)>
    where
        D: Desk<H, R>,
        requires board { seat.old.board.board ≡ self.now.board }
        ensures released { OnOk result (Served held.at (ARequest.Release held.block) AReply.Okay seat.old seat.new) }
        ensures back { IfErr result (λ back. back.0 ≡ held) }
        ensures refused { IfErr result (λ back. Served held.at (ARequest.Release held.block) (AReply.Refused back.1) seat.old seat.new) }
        ensures board { seat.new.board.board ≡ seat.old.board.board }
        ensures rises { Rises seat.old.board.seen seat.new.board.seen }
    {
        let request = Request::Release {
            block: held.block(),
        };
        match okay(self.ask(rt, seat, held.at(), request)) {
            Ok(()) => {
                let_go(held);
                Ok(())
            }
            Err(errno) => Err((held, errno)),
        }
    }
}
