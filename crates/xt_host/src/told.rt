//! What a reply says, by the kind of request that it is of. Tokens are made and spent here alone, each by the reply that opens or ends what
//! it stands for. Only the calls of a host reach this module, so nobody else can make a second token, or let one go.

ghost use Rattle.std.specs.Prelude.{◌≡◌, ◌||◌, IfErr, IfOk, OnOk, true};
ghost use Rattle.xt_base.specs.Alone.{carries_content, is_okay, is_refusal};
ghost use Rattle.xt_base.specs.Calls.{committed_of, held_of, okay_of};
ghost use Rattle.xt_base.specs.Replies.{is_cancel, is_commit, is_force, is_release, is_told, is_trans};
ghost use Rattle.xt_base.specs.declared.steps.Reply.TheVariants as AReply;
ghost use Rattle.xt_host.specs.Tokens.{IsNotEnded, forced, released};

use crate::outcomes::{Forced, Relse};
use crate::tokens::{HeldBuf, HeldList, Trans};
use xt_base::content::{Content, HeldBlocks};
use xt_base::names::CkptNo;
use xt_base::stat::Stat;
use xt_base::steps::{Errno, Reply};
use xt_cell::mount_ref::MountRef;

/// Why a leg was not committed.
pub enum LegFault {
    /// It did not end.
    Refused(Errno),
    /// EIO: it was given up, and these buffers stay held.
    Aborted(HeldList),
}

/// Of a request that is told no more than ok.
pub(crate) fn okay(reply: Reply) -> Result<(), Errno>
    requires kind { (is_refusal reply || is_okay reply) ≡ true }
    ensures okay { OnOk result (reply ≡ AReply.Okay) }
    ensures refused { IfErr result (λ errno. reply ≡ AReply.Refused errno) }
{
    match reply {
        Reply::Okay => Ok(()),
        Reply::Refused(errno) => Err(errno),
        _ => unreachable!(),
    }
}

/// Of an alloc of a mount: the new transaction.
pub(crate) fn opened(at: MountRef, reply: Reply) -> Result<Trans, Errno>
    requires kind { (is_refusal reply || is_trans reply) ≡ true }
    ensures at { IfOk result (λ trans. trans.at ≡ at) }
    ensures opened { IfOk result (λ trans. reply ≡ AReply.Trans trans.number) }
    ensures refused { IfErr result (λ errno. reply ≡ AReply.Refused errno) }
{
    match reply {
        Reply::Trans(number) => Ok(Trans::new(at, number)),
        Reply::Refused(errno) => Err(errno),
        _ => unreachable!(),
    }
}

/// Of a view: what the transaction sees.
pub(crate) fn viewed(reply: Reply) -> Result<Content, Errno>
    requires kind { (is_refusal reply || carries_content reply) ≡ true }
    ensures viewed { IfOk result (λ content. reply ≡ AReply.Data content) }
    ensures refused { IfErr result (λ errno. reply ≡ AReply.Refused errno) }
{
    match reply {
        Reply::Data(content) => Ok(content),
        Reply::Refused(errno) => Err(errno),
        _ => unreachable!(),
    }
}

/// Of a lock that was given back.
pub(crate) fn relse(reply: Reply) -> Result<Relse, Errno>
    requires kind { (is_refusal reply || is_release reply) ≡ true }
    ensures released { IfOk result (λ what. reply ≡ released what) }
    ensures refused { IfErr result (λ errno. reply ≡ AReply.Refused errno) }
{
    match reply {
        Reply::Kept => Ok(Relse::Kept),
        Reply::Free => Ok(Relse::Free),
        Reply::Refused(errno) => Err(errno),
        _ => unreachable!(),
    }
}

/// Of a force.
pub(crate) fn force(reply: Reply) -> Result<Forced, Errno>
    requires kind { (is_refusal reply || is_force reply) ≡ true }
    ensures forced { IfOk result (λ what. reply ≡ forced what) }
    ensures refused { IfErr result (λ errno. reply ≡ AReply.Refused errno) }
{
    match reply {
        Reply::Done => Ok(Forced::Done),
        Reply::Wait(number) => Ok(Forced::Wait(number)),
        Reply::Refused(errno) => Err(errno),
        _ => unreachable!(),
    }
}

/// Of a request for what a mount tells of itself.
pub(crate) fn stat(reply: Reply) -> Result<Stat, Errno>
    requires kind { (is_refusal reply || is_told reply) ≡ true }
    ensures told { IfOk result (λ told. reply ≡ AReply.Stat told) }
    ensures refused { IfErr result (λ errno. reply ≡ AReply.Refused errno) }
{
    match reply {
        Reply::Stat(told) => Ok(told),
        Reply::Refused(errno) => Err(errno),
        _ => unreachable!(),
    }
}

/// A checkpoint's number, with the buffers that its leg left held.
fn committed(at: MountRef, number: CkptNo, held: Option<HeldBlocks>) -> (CkptNo, HeldList)
    ensures number { result.0 ≡ number }
    ensures at { result.1.at ≡ at }
    ensures held { held_of result.1.blocks ≡ held }
{
    (number, HeldList::of(at, held))
}

/// A leg that was refused: EIO gave it up, with no buffer that stays held.
fn not_ended(at: MountRef, errno: Errno) -> LegFault
    ensures { IsNotEnded at (AReply.Refused errno) result }
{
    match errno {
        Errno::Io => LegFault::Aborted(HeldList::of(at, None)),
        errno => LegFault::Refused(errno),
    }
}

/// Of a commit or a roll of a mount.
pub(crate) fn ended(at: MountRef, reply: Reply) -> Result<(CkptNo, HeldList), LegFault>
    requires kind { (is_refusal reply || is_commit reply) ≡ true }
    ensures at { IfOk result (λ done. done.1.at ≡ at) }
    ensures committed { IfOk result (λ done. reply ≡ committed_of done.0 (held_of done.1.blocks)) }
    ensures fault { IfErr result (λ fault. IsNotEnded at reply fault) }
{
    match reply {
        Reply::Committed(number) => Ok(committed(at, number, None)),
        Reply::CommittedHeld { number, held } => Ok(committed(at, number, Some(held))),
        Reply::Aborted(held) => Err(LegFault::Aborted(HeldList::of(at, Some(held)))),
        Reply::Refused(errno) => Err(not_ended(at, errno)),
        _ => unreachable!(),
    }
}

/// Of a cancel of a mount.
pub(crate) fn cancelled(at: MountRef, reply: Reply) -> Result<HeldList, Errno>
    requires kind { (is_refusal reply || is_cancel reply) ≡ true }
    ensures at { IfOk result (λ held. held.at ≡ at) }
    ensures cancelled { IfOk result (λ held. reply ≡ okay_of (held_of held.blocks)) }
    ensures refused { IfErr result (λ errno. reply ≡ AReply.Refused errno) }
{
    match reply {
        Reply::Okay => Ok(HeldList::of(at, None)),
        Reply::OkayHeld(held) => Ok(HeldList::of(at, Some(held))),
        Reply::Refused(errno) => Err(errno),
        _ => unreachable!(),
    }
}

/// A transaction that was ended is over.
pub(crate) fn over(trans: Trans) {
    trans.spend();
}

/// A held buffer that was joined or released is held no more.
pub(crate) fn let_go(held: HeldBuf) {
    held.spend();
}
