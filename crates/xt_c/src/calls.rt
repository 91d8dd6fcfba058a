//! Requests to a mount.

ghost use Rattle.std.specs.Prelude.{◌≡◌, ◌==◌, ◌&&◌, Some, None, false, true, length, IfNone, IfSome};
ghost use Rattle.xt_base.specs.Alone.{is_okay};
ghost use Rattle.xt_base.specs.Calls.{asks, is_unmount};
ghost use Rattle.xt_base.specs.Order.{has_size, is_there};
ghost use Rattle.xt_base.specs.declared.steps.Answer.TheVariants as Answered;
ghost use Rattle.xt_c.specs.Calling.{IsAsJudged, IsCalled, Serves, carries, has_room, judged, seen, seen_after, spelled, verdict};
ghost use Rattle.xt_c.specs.Holding.{held};
ghost use Rattle.xt_c.specs.Requests.{answer_of, request_of};
ghost use Rattle.xt_c.specs.Verdicts.{verdict_of};

use crate::handle::Handle;
use crate::replies::{put_content, put_reply};
use crate::requests::{answer_of, request_of};
use crate::status::{refusal, status_of};
use crate::words::{ReplyWords, RequestWords};
use std::alloc::Global;
use xt_base::content::Content;
use xt_base::form::Form;
use xt_base::steps::{Answer, Errno, Reply, Request};
use xt_mount::mount::Mount;

/// What a call returns where the home device must be asked.
pub(crate) const ASKS: i32 = 1;

/// Why a request is not served yet.
enum Unserved {
    /// It, or its answer, is barred.
    Barred(Errno),
    /// The home device must be asked for the block of this number.
    Asks(u64),
}

/// Whether a room is as long as the content that a request may fill it with, of a mount of this form.
fn has_room(form: Form, room: usize, request: &Request) -> bool
    ensures { result ≡ has_room form.size room request.now }
{
    match request {
        Request::View { trans: _, block: _ } => room == form.block_bytes(),
        _ => true,
    }
}

/// Whether a content is as long as a block of a mount of this form.
fn is_whole(form: Form, content: &Content) -> bool
    ensures { result ≡ (length content.now == form.size) }
{
    content.bytes().len() == form.block_bytes()
}

/// Why a request that comes with an answer is not served, if it isn't.
fn why_unserved(mount: &Mount, request: &Request, answer: &Answer, room: usize) -> Option<Unserved>
    ensures served { IfNone result (judged room mount.now request.now answer.now ≡ Serves request.now answer.now) }
    ensures there { IfNone result (is_there (asks request.now mount.now) answer.now ≡ true) }
    ensures size { IfNone result (has_size answer.now (Some mount.now) ≡ true) }
    ensures why { IfSome result (λ why. judged room mount.now request.now answer.now ≡ verdict_of why) }
{
    if !has_room(mount.form(), room, request) {
        return Some(Unserved::Barred(Errno::Invalid));
    }
    match (mount.needs(request), answer) {
        (Some(block), Answer::None) => Some(Unserved::Asks(block.0)),
        (Some(_), Answer::Content(content)) => {
            if is_whole(mount.form(), content) {
                None
            } else {
                Some(Unserved::Barred(Errno::Invalid))
            }
        }
        (None, Answer::Content(_)) | (None, Answer::Failed) => {
            Some(Unserved::Barred(Errno::Invalid))
        }
        _ => None,
    }
}

/// Whether the mount is gone: an unmount was answered ok.
fn is_gone(request: &Request, told: &Reply) -> bool
    ensures { result ≡ (is_unmount request.now && is_okay told.now) }
{
    matches!(request, Request::Unmount) && matches!(told, Reply::Okay)
}

/// What a call returns, and whether its mount is gone.
#[derive(Clone, Copy)]
struct Called {
    status: i32,
    gone: bool,
}

/// A call that leaves the mount.
fn stays(status: i32) -> Called
    ensures { result ≡ record { status = status; gone = false } }
{
    Called {
        status,
        gone: false,
    }
}

/// Serves a request, or says why it isn't.
fn serve(
    mount: &mut Mount,
    request: &Request,
    answer: &Answer,
    reply: &mut ReplyWords,
    room: &mut [u8],
) -> Called
    ensures judged { IsAsJudged (judged (length room.old) mount.old request.now answer.now) result.status (seen_after reply.new room.new result.gone mount.new) (seen_after reply.old room.old false mount.old) }
    ensures slot { mount.new.slot ≡ mount.old.slot }
{
    match answer {
        Answer::None => serve_unanswered(mount, request, reply, room),
        _ => serve_answered(mount, request, answer, reply, room),
    }
}

/// The same with an answer of the home device, where the mount must ask it.
#[inline(never)]
fn serve_answered(
    mount: &mut Mount,
    request: &Request,
    answer: &Answer,
    reply: &mut ReplyWords,
    room: &mut [u8],
) -> Called
    ensures judged { IsAsJudged (judged (length room.old) mount.old request.now answer.now) result.status (seen_after reply.new room.new result.gone mount.new) (seen_after reply.old room.old false mount.old) }
    ensures slot { mount.new.slot ≡ mount.old.slot }
{
    match why_unserved(mount, request, answer, room.len()) {
        Some(Unserved::Barred(errno)) => stays(refusal(errno)),
        Some(Unserved::Asks(block)) => {
            reply.number = block;
            stays(ASKS)
        }
        None => {
            let told = mount.serve(request, answer);
            put_reply(reply, &told);
            put_content(room, &told);
            Called {
                status: status_of(&told),
                gone: is_gone(request, &told),
            }
        }
    }
}

/// The same with no answer: whether the home device must be asked is found as the request is served.
fn serve_unanswered(
    mount: &mut Mount,
    request: &Request,
    reply: &mut ReplyWords,
    room: &mut [u8],
) -> Called
    ensures judged { IsAsJudged (judged (length room.old) mount.old request.now Answered.None) result.status (seen_after reply.new room.new result.gone mount.new) (seen_after reply.old room.old false mount.old) }
    ensures slot { mount.new.slot ≡ mount.old.slot }
{
    if !has_room(mount.form(), room.len(), request) {
        return stays(refusal(Errno::Invalid));
    }
    match mount.try_serve(request) {
        Ok(told) => {
            put_reply(reply, &told);
            put_content(room, &told);
            Called {
                status: status_of(&told),
                gone: is_gone(request, &told),
            }
        }
        Err(block) => {
            reply.number = block.0;
            stays(ASKS)
        }
    }
}

/// Reads the words of a request and of an answer, and serves it.
fn call(
    alloc: Global,
    mount: &mut Mount,
    request: &RequestWords,
    bytes: &[u8],
    answered: u32,
    content: &[u8],
    reply: &mut ReplyWords,
    room: &mut [u8],
) -> Called
    ensures called { IsCalled (carries request.now answered) (spelled (length room.old) mount.old (request_of request.now bytes.now) (answer_of answered content.now)) result.status (seen_after reply.new room.new result.gone mount.new) (seen_after reply.old room.old false mount.old) }
    ensures slot { mount.new.slot ≡ mount.old.slot }
{
    let request = match request_of(alloc, *request, bytes) {
        Ok(request) => request,
        Err(errno) => return stays(refusal(errno)),
    };
    let answer = match answer_of(alloc, answered, content) {
        Ok(answer) => answer,
        Err(errno) => return stays(refusal(errno)),
    };
    serve(mount, &request, &answer, reply, room)
}

/// Serves a request. 0: the reply is written. 1: the home device must be asked for the block that is the reply's number, and the call
/// made again with its answer. Else an errno, negative: with the reply written where the mount refused it, and with nothing changed
/// where the words spell no request, an answer has come that was not asked for, or there was no memory.
#[unsafe(no_mangle)]
pub extern "C" fn refskold_abi_call(
    alloc: Global,
    handle: &mut Handle,
    request: &RequestWords,
    bytes: &[u8],
    answered: u32,
    content: &[u8],
    reply: &mut ReplyWords,
    room: &mut [u8],
) -> i32
    ensures { IsCalled (carries request.now answered) (verdict (length room.old) (held handle.old) (request_of request.now bytes.now) (answer_of answered content.now)) result (seen reply.new room.new (held handle.new)) (seen reply.old room.old (held handle.old)) }
{
    let Some(mut mount) = handle.take(alloc) else {
        return refusal(Errno::NoDevice);
    };
    let called = call(
        alloc, &mut mount, request, bytes, answered, content, reply, room,
    );
    if !called.gone {
        handle.put(mount);
    }
    called.status
}
