//! What a request names of what a session holds, and what becomes of that.

ghost use Rattle.std.specs.Prelude.{◌≡◌, ◌≤◌, ◌<◌, ◌+◌, length, vec_capacity, vec_len};
ghost use Rattle.xt_base.specs.declared.sizes.TheConstants.{BUSY_BLOCKS};
ghost use Rattle.xt_service.specs.Holding.{blocks_held, buffer_of, effect_of, has_named, held_left, trans_left, trans_more, trans_of};
ghost use Rattle.xt_service.specs.Names.{with_blocks};

use crate::names::{Name, insert, insert_blocks, remove};
use xt_base::names::{Block, TransNo};
use xt_base::steps::{Reply, Request};
use xt_cell::mount_ref::MountRef;

/// What becomes of what a request names, once it is served.
#[derive(Clone, Copy, Debug)]
pub enum Effect {
    /// The transaction is over.
    Ends(TransNo),
    /// The held buffer goes to a transaction, if the reply is ok.
    Joins(Block),
    /// The held buffer is released.
    Releases(Block),
    /// All stays.
    Leaves,
}

/// What becomes of what a request names.
pub(crate) fn effect_of(request: &Request) -> Effect
    ensures { result ≡ effect_of request.now }
{
    match request {
        Request::Commit { trans } | Request::Cancel { trans } => Effect::Ends(*trans),
        Request::Join { block, .. } => Effect::Joins(*block),
        Request::Release { block } => Effect::Releases(*block),
        _ => Effect::Leaves,
    }
}

/// The number of the transaction that a request names.
pub(crate) fn trans_of(request: &Request) -> Option<u64>
    ensures { result ≡ trans_of request.now }
{
    match request {
        Request::Get { trans, .. }
        | Request::Read { trans, .. }
        | Request::View { trans, .. }
        | Request::Log { trans, .. }
        | Request::Hold { trans, .. }
        | Request::Unhold { trans, .. }
        | Request::Relse { trans, .. }
        | Request::Join { trans, .. }
        | Request::Inval { trans, .. }
        | Request::Commit { trans }
        | Request::Roll { trans }
        | Request::Cancel { trans } => Some(trans.0),
        _ => None,
    }
}

/// The block of the held buffer that a request names.
pub(crate) fn buffer_of(request: &Request) -> Option<u64>
    ensures { result ≡ buffer_of request.now }
{
    match request {
        Request::Join { block, .. } | Request::Release { block } => Some(block.0),
        _ => None,
    }
}

/// Takes the transaction away that a request ended.
pub(crate) fn close_ended(trans: &mut Vec<Name>, at: &MountRef, effect: &Effect)
    ensures names { trans.new.items ≡ trans_left at.now effect.now trans.old.items }
    ensures len { vec_len trans.new ≤ vec_len trans.old }
    ensures room { vec_capacity trans.old ≤ vec_capacity trans.new }
{
    if let Effect::Ends(number) = effect {
        remove(trans, at, number.0);
    }
}

/// Puts the transaction in that a reply opened, in room that was made before.
pub(crate) fn keep_opened(trans: &mut Vec<Name>, at: &MountRef, reply: &Reply)
    requires room { vec_len trans.old < vec_capacity trans.old }
    ensures { trans.new.items ≡ trans_more at.now reply.now trans.old.items }
{
    if let Reply::Trans(number) = reply {
        insert(trans, at, number.0);
    }
}

/// Takes the held buffer away that a request released, or handed to a transaction.
pub(crate) fn drop_given(held: &mut Vec<Name>, at: &MountRef, effect: &Effect, reply: &Reply)
    ensures names { held.new.items ≡ held_left at.now effect.now reply.now held.old.items }
    ensures len { vec_len held.new ≤ vec_len held.old }
    ensures room { vec_capacity held.old ≤ vec_capacity held.new }
{
    match effect {
        Effect::Releases(block) => remove(held, at, block.0),
        Effect::Joins(block) => {
            if matches!(reply, Reply::Okay) {
                remove(held, at, block.0);
            }
        }
        _ => {}
    }
}

/// The blocks that a reply says stay held.
fn blocks_held(reply: &Reply) -> &[Block]
    ensures value { result.now ≡ blocks_held reply.now }
    ensures few { length result.now ≤ BUSY_BLOCKS }
{
    match reply {
        Reply::OkayHeld(held) | Reply::Aborted(held) => held.blocks(),
        Reply::CommittedHeld { held, .. } => held.blocks(),
        _ => &[],
    }
}

/// Puts the buffers in that a reply says stay held, in room that was made before.
pub(crate) fn keep_held(held: &mut Vec<Name>, at: &MountRef, reply: &Reply)
    requires room { vec_len held.old + BUSY_BLOCKS ≤ vec_capacity held.old }
    ensures { held.new.items ≡ with_blocks at.now (blocks_held reply.now) held.old.items }
{
    insert_blocks(held, at, blocks_held(reply));
}
