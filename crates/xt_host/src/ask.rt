//! A request to a mount, with what is known of its reply and of the seat by the request.

ghost use Rattle.std.specs.Prelude.{◌≡◌, ◌<◌, None, false, slice_index, true};
ghost use Rattle.xt_base.specs.Calls.{is_unmount};
ghost use Rattle.xt_base.specs.Replies.{may_get};
ghost use Rattle.xt_base.specs.declared.steps.Reply.TheVariants.{Okay};
ghost use Rattle.xt_base.specs.declared.steps.Request.TheVariants as ARequest;
ghost use Rattle.xt_host.specs.Tokens.{Served};
ghost use Rattle.xt_queue.specs.Boards.{Rises};
ghost use Rattle.xt_queue.specs.Words.{word_of};

use crate::host::Host;
use std::sync::Wait;
use xt_base::steps::{Reply, Request};
use xt_cell::house::House;
use xt_cell::mount_ref::MountRef;
use xt_cell::seat::HostSeat;
use xt_slots::desk::Desk;

impl<H: House, D> Host<H, D> {
    /// Asks a mount: its reply, which is one that the request may get.
    #[tactic(auto, using(crate::proofs::ServedLemmas::served_of))]
    pub(crate) fn ask<R: Wait>(
        &self,
        rt: &R,
        seat: &mut HostSeat<H>,
        at: MountRef,
        request: Request,
    ) -> Reply
    where
        D: Desk<H, R>,
        requires board { seat.old.board.board ≡ self.now.board }
        requires kind { is_unmount request ≡ false }
        ensures served { Served at request result seat.old seat.new }
        ensures kind { may_get request result ≡ true }
        ensures shut { request ≡ ARequest.Shutdown → result ≡ Okay → word_of at.life None < slice_index seat.new.board.seen at.slot }
        ensures board { seat.new.board.board ≡ seat.old.board.board }
        ensures rises { Rises seat.old.board.seen seat.new.board.seen }
    {
        self.call(rt, seat, at, request)
    }
}
