//! A host driven by lines of the line language.

ghost use Rattle.std.specs.Prelude.{◌≡◌};

use crate::tests::place::Place;
use std::alloc::{AllocError, Global};
use std::process::Abort;
use std::sync::Wait;
use xt_base::names::Block;
use xt_base::steps::{Reply, Request, Step};
use xt_cell::house::House;
use xt_cell::mount_ref::MountRef;
use xt_cell::seat::HostSeat;
use xt_dev::home::HomeDevice;
use xt_dev::mem_home::MemHome;
use xt_host::host::Host;
use xt_text::print_reply::print_reply;
use xt_text::{Text, parse_line};

/// A line, and what it is told, with no slot in front.
pub type Line = (&'static str, &'static str);

/// Lines of slot 0, which is mounted over a home device that has these blocks, each full of one byte.
#[derive(Clone, Copy)]
pub struct Script {
    pub blocks: &'static [(u64, u8)],
    pub lines: &'static [Line],
}

/// A home device in memory with these blocks.
pub fn home_of(alloc: Global, blocks: &[(u64, u8)]) -> Result<MemHome, AllocError> {
    let mut home = MemHome::new(alloc);
    for (block, byte) in blocks {
        let Ok(()) = home.write(Block(*block), &[*byte; 4096]) else {
            return Err(AllocError);
        };
    }
    Ok(home)
}

/// Asks a mount something, or unmounts it.
pub fn ask<H: House, D: Place<H, R>, R: Abort + Wait>(
    rt: &R,
    host: &Host<H, D>,
    seat: &mut HostSeat<H>,
    at: MountRef,
    request: Request,
) -> Reply
    requires board { seat.old.board.board ≡ host.now.board }
    ensures board { seat.new.board.board ≡ seat.old.board.board }
{
    if request != Request::Unmount {
        return host.call(rt, seat, at, request);
    }
    match D::unmount(rt, host, seat, at) {
        Ok(()) => Reply::Okay,
        Err(errno) => Reply::Refused(errno),
    }
}

/// The reply to a step, where that is a call or a look at the board.
fn reply_to<H: House, D: Place<H, R>, R: Abort + Wait>(
    rt: &R,
    host: &Host<H, D>,
    seat: &mut HostSeat<H>,
    step: Step,
) -> Option<Reply>
    requires board { seat.old.board.board ≡ host.now.board }
    ensures board { seat.new.board.board ≡ seat.old.board.board }
{
    match step {
        Step::Call {
            slot,
            life,
            request,
            answer: _,
        } => Some(ask(rt, host, seat, MountRef { slot, life }, request)),
        Step::Peek(slot) => {
            let (life, reason) = host.seen_shut(seat, slot);
            Some(Reply::Seen { life, reason })
        }
        _ => None,
    }
}

/// Whether a reply is spelled so.
fn is_spelled(alloc: Global, reply: &Reply, wanted: &str) -> bool {
    let Ok(mut text) = Text::new(alloc) else {
        return false;
    };
    print_reply(reply, &mut text);
    text.holds(wanted.as_bytes())
}

/// Whether a line is told what is wanted.
pub fn is_told<H: House, D: Place<H, R>, R: Abort + Wait>(
    rt: &R,
    alloc: Global,
    host: &Host<H, D>,
    seat: &mut HostSeat<H>,
    line: Line,
) -> bool
    requires board { seat.old.board.board ≡ host.now.board }
    ensures board { seat.new.board.board ≡ seat.old.board.board }
{
    let Ok(step) = parse_line(alloc, line.0.as_bytes()) else {
        return false;
    };
    match reply_to(rt, host, seat, step) {
        Some(reply) => is_spelled(alloc, &reply, line.1),
        None => false,
    }
}

/// The first line that is told something else, counted from 0.
pub fn first_wrong<H: House, D: Place<H, R>, R: Abort + Wait>(
    rt: &R,
    alloc: Global,
    host: &Host<H, D>,
    seat: &mut HostSeat<H>,
    lines: &[Line],
) -> Option<usize>
    requires board { seat.old.board.board ≡ host.now.board }
    ensures board { seat.new.board.board ≡ seat.old.board.board }
{
    for (place, line) in lines.iter().enumerate() {
        if !is_told(rt, alloc, host, seat, *line) {
            return Some(place);
        }
    }
    None
}
