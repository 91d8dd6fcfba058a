//! What an event says, twice: for the book of its slot and for the receipt of its seat.

ghost use Rattle.std.specs.Prelude.{◌≡◌, IfOk, IfSome, false};
ghost use Rattle.xt_base.specs.Alone.{carries_content, names_held};
ghost use Rattle.xt_base.specs.declared.steps.Step.{Step as AStep};

use crate::kept::Kept;
use std::alloc::{AllocError, Global};
use xt_base::names::{JobName, Life, Slot, Worker};
use xt_base::steps::{Answer, HomeAnswers, LogAnswers, Reply, Request, Step};

/// One value twice.
#[derive(Drop)]
pub(crate) struct Twin<T: Drop> {
    pub booked: Kept<T>,
    pub handed: Kept<T>,
    ghost same: { handed ≡ booked },
}

impl<T: Drop> Twin<T> {
    /// A value that both share. The one error is want of memory.
    pub fn shared(alloc: Global, value: T) -> Result<Self, AllocError>
        ensures { IfOk result (λ twin. twin.booked ≡ value) }
    {
        let (booked, handed) = Kept::two(alloc, value)?;
        Ok(Twin { booked, handed })
    }

    /// A small value, made twice.
    #[inline(always)]
    pub fn of(first: T, second: T) -> Self
        requires { first ≡ second }
        ensures { result.booked ≡ first }
    {
        Twin {
            booked: Kept::own(first),
            handed: Kept::own(second),
        }
    }
}

/// A copy of a request, whose bytes both share. It takes no memory; None where they have as many owners as can be counted.
fn request_copy(request: &Request) -> Option<Request>
    ensures { IfSome result (λ copy. copy ≡ request.now) }
{
    let copy = match *request {
        Request::Alloc { unit, count, perm } => Request::Alloc { unit, count, perm },
        Request::Get { trans, block } => Request::Get { trans, block },
        Request::Read { trans, block } => Request::Read { trans, block },
        Request::View { trans, block } => Request::View { trans, block },
        Request::Log {
            first,
            trans,
            block,
            ref bytes,
        } => Request::Log {
            first,
            trans,
            block,
            bytes: bytes.share().ok()?,
        },
        Request::Hold { trans, block } => Request::Hold { trans, block },
        Request::Unhold { trans, block } => Request::Unhold { trans, block },
        Request::Relse { trans, block } => Request::Relse { trans, block },
        Request::Join { trans, block } => Request::Join { trans, block },
        Request::Release { block } => Request::Release { block },
        Request::Inval { trans, block } => Request::Inval { trans, block },
        Request::Commit { trans } => Request::Commit { trans },
        Request::Roll { trans } => Request::Roll { trans },
        Request::Cancel { trans } => Request::Cancel { trans },
        Request::Force => Request::Force,
        Request::ForceTo { number } => Request::ForceTo { number },
        Request::Push => Request::Push,
        Request::Shutdown => Request::Shutdown,
        Request::Freeze => Request::Freeze,
        Request::Thaw => Request::Thaw,
        Request::Stat => Request::Stat,
        Request::Unmount => Request::Unmount,
    };
    Some(copy)
}

/// A copy of the step of a call that carries no content; bytes that it carries are shared. It takes no memory; None where it carries a
/// content, or bytes with as many owners as can be counted.
pub(crate) fn call_copy(slot: Slot, life: Life, request: &Request, answer: &Answer) -> Option<Step>
    ensures { IfSome result (λ copy. copy ≡ AStep.Call slot life request.now answer.now) }
{
    let answer = match answer {
        Answer::None => Answer::None,
        Answer::Failed => Answer::Failed,
        Answer::Content(_) => return None,
    };
    let request = request_copy(request)?;
    Some(Step::Call {
        slot,
        life,
        request,
        answer,
    })
}

/// The step of a mount, twice.
pub(crate) fn mount_twin(slot: Slot, log_bytes: u32, blocks: u64, size: Option<u32>) -> Twin<Step>
    ensures { result.booked ≡ AStep.Mount slot log_bytes blocks size }
{
    let first = Step::Mount {
        slot,
        log_bytes,
        blocks,
        size,
    };
    Twin::of(
        first,
        Step::Mount {
            slot,
            log_bytes,
            blocks,
            size,
        },
    )
}

/// The step of a begin, twice.
pub(crate) fn begin_twin(worker: Worker, name: &JobName) -> Twin<Step>
    ensures { result.booked ≡ AStep.Begin worker name.now }
{
    let first = Step::Begin {
        worker,
        name: *name,
    };
    Twin::of(
        first,
        Step::Begin {
            worker,
            name: *name,
        },
    )
}

/// The step of an end, twice.
pub(crate) fn end_twin(worker: Worker, name: &JobName, answers: &LogAnswers) -> Twin<Step>
    ensures { result.booked ≡ AStep.End worker name.now answers.now }
{
    let first = Step::End {
        worker,
        name: *name,
        answers: *answers,
    };
    Twin::of(
        first,
        Step::End {
            worker,
            name: *name,
            answers: *answers,
        },
    )
}

/// The step of a flush, twice.
pub(crate) fn flush_twin(worker: Worker, name: &JobName, answers: &HomeAnswers) -> Twin<Step>
    ensures { result.booked ≡ AStep.Flush worker name.now answers.now }
{
    let first = Step::Flush {
        worker,
        name: *name,
        answers: *answers,
    };
    Twin::of(
        first,
        Step::Flush {
            worker,
            name: *name,
            answers: *answers,
        },
    )
}

/// A reply twice, where it carries no content and names no held blocks; else None. It takes no memory.
pub(crate) fn twin_if_plain(reply: &Reply) -> Option<Twin<Reply>>
    ensures { IfSome result (λ twin. twin.booked ≡ reply.now) }
{
    let twin = match *reply {
        Reply::Okay => Twin::of(Reply::Okay, Reply::Okay),
        Reply::Life(life) => Twin::of(Reply::Life(life), Reply::Life(life)),
        Reply::Trans(trans) => Twin::of(Reply::Trans(trans), Reply::Trans(trans)),
        Reply::Committed(number) => { Twin::of(Reply::Committed(number), Reply::Committed(number)) }
        Reply::Wait(number) => Twin::of(Reply::Wait(number), Reply::Wait(number)),
        Reply::Done => Twin::of(Reply::Done, Reply::Done),
        Reply::Kept => Twin::of(Reply::Kept, Reply::Kept),
        Reply::Free => Twin::of(Reply::Free, Reply::Free),
        Reply::Nothing => Twin::of(Reply::Nothing, Reply::Nothing),
        Reply::Begun { number, pieces } => Twin::of(
            Reply::Begun { number, pieces },
            Reply::Begun { number, pieces },
        ),
        Reply::Landed(number) => Twin::of(Reply::Landed(number), Reply::Landed(number)),
        Reply::Failed(number) => Twin::of(Reply::Failed(number), Reply::Failed(number)),
        Reply::Flushed(count) => Twin::of(Reply::Flushed(count), Reply::Flushed(count)),
        Reply::Seen { life, reason } => {
            Twin::of(Reply::Seen { life, reason }, Reply::Seen { life, reason })
        }
        Reply::Stat(stat) => Twin::of(Reply::Stat(stat), Reply::Stat(stat)),
        Reply::Refused(errno) => Twin::of(Reply::Refused(errno), Reply::Refused(errno)),
        Reply::OkayHeld(_) | Reply::CommittedHeld { .. } => return None,
        Reply::Aborted(_) | Reply::Data(_) => return None,
    };
    Some(twin)
}

/// A reply that carries neither a content nor held blocks, twice.
pub(crate) fn plain_twin(reply: &Reply) -> Twin<Reply>
    requires content { carries_content reply.now ≡ false }
    requires held { names_held reply.now ≡ false }
    ensures { result.booked ≡ reply.now }
{
    Twin::of(reply.copy_into(None), reply.copy_into(None))
}
