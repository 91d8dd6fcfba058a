//! A whole session over a host that others use too.

ghost use Rattle.std.specs.Prelude.{◌≡◌};
ghost use Rattle.xt_service.specs.HostSession.{IsHostSession};
ghost use Rattle.xt_service.specs.Seats.{IsUsed};

use crate::host_calls::HostCalls;
use std::alloc::Global;
use std::io::{Read, Write};
use std::sync::Wait;
use xt_cell::house::House;
use xt_cell::seat::HostSeat;
use xt_host::desk::Desk;
use xt_host::host::Host;
use xt_session::session::session;
use xt_session::session_end::SessionEnd;

/// Serves one session over a host, from its first line to its end: how it ended, and its seat, which holds nothing and may serve
/// another session, or be handed to the end of the host.
pub fn host_session<H: House, D: Desk<H, T>, T: Wait, R: Read, W: Write>(
    rt: &T,
    alloc: Global,
    host: &Host<H, D>,
    seat: HostSeat<H>,
    reader: &mut R,
    writer: &mut W,
) -> (HostSeat<H>, SessionEnd)
    requires board { seat.board.board ≡ host.now.board }
    ensures session { IsHostSession seat result.0 (R.remaining reader.old) (R.remaining reader.new) (W.contents writer.old) (W.contents writer.new) result.1 }
    ensures used { IsUsed seat result.0 }
    ensures board { result.0.board.board ≡ host.now.board }
{
    let mut calls = HostCalls::new(rt, alloc, host, seat);
    let end = session(alloc, reader, writer, &mut calls);
    (calls.into_seat(), end)
}
