//! The object that answers the lines of a session over a host that others use too.

ghost use Rattle.std.specs.Prelude.{◌≡◌, [], false};
ghost use Rattle.xt_base.specs.Calls.{is_unmount};
ghost use Rattle.xt_service.specs.HostCalls.{Answers, Ends, IsCalled};

use crate::holding::Holding;
use std::alloc::Global;
use std::sync::Wait;
use xt_base::steps::{Reply, Request, Step};
use xt_cell::house::House;
use xt_cell::mount_ref::MountRef;
use xt_cell::seat::HostSeat;
use xt_host::desk::{Desk, Slots};
use xt_host::host::Host;
use xt_session::calls::Calls;
use xt_text::line::Line;

/// What answers the lines of one session over a host that others use too: it has a seat of its own, and the names of the
/// transactions and of the held buffers that are the session's.
#[derive(Drop)]
pub struct HostCalls<'a, H: House, T: Wait, D = Slots<H>> {
    rt: &'a T,
    host: &'a Host<H, D>,
    holding: Holding<H>,
    ghost tied: { holding.seat.board.board ≡ host.now.board },
}

impl<'a, H: House, T: Wait, D: Desk<H, T>> HostCalls<'a, H, T, D> {
    /// A session that holds nothing. It takes no memory. The seat is its own from here on.
    pub fn new(rt: &'a T, alloc: Global, host: &'a Host<H, D>, seat: HostSeat<H>) -> Self
        requires board { seat.board.board ≡ host.now.board }
        ensures seat { result.holding.seat ≡ seat }
        ensures trans { result.holding.trans ≡ [] }
        ensures held { result.holding.held ≡ [] }
    {
        HostCalls {
            rt,
            host,
            holding: Holding::new(alloc, seat),
        }
    }

    /// Its seat, which may serve another session, or be handed to the end of the host. What the session still holds, before its end, is
    /// lost.
    pub fn into_seat(self) -> HostSeat<H>
        ensures { result ≡ self.entry.holding.seat }
    {
        self.holding.into_seat()
    }

    /// Answers a request.
    fn serve(&mut self, at: &MountRef, request: Request) -> Reply
        requires kind { is_unmount request ≡ false }
        ensures { IsCalled at.now request result self.old.holding self.new.holding }
    {
        self.holding.serve(self.rt, self.host, at, request)
    }
}

impl<'a, H: House, T: Wait, D: Desk<H, T>> Calls for HostCalls<'a, H, T, D> {
    ghost answers = { λ old line reply new. Answers old.holding line reply new.holding };

    ghost ends = { λ old new. Ends old.holding new.holding };

    fn call(&mut self, line: Line) -> Reply {
        let Line(step) = line;
        match step {
            Step::Call {
                slot,
                life,
                request,
                answer: _,
            } => self.serve(&MountRef { slot, life }, request),
            Step::Peek(slot) => self.holding.peek(self.host, slot),
            _ => unreachable!(),
        }
    }

    /// Cancels its transactions, ascending by slot, life and number, and then releases its held buffers, ascending by slot, life and
    /// block. Either is tried again while it is ENOMEM.
    fn end(&mut self) {
        self.holding.give_back(self.rt, self.host);
    }
}
