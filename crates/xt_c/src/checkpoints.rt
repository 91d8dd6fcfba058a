//! Checkpoints: their pieces, and what the log answered.

ghost use Rattle.std.specs.Prelude.{◌≡◌, ◌≤◌, IfSome, None, Some, length, option_copied, slice_get, true};
ghost use Rattle.xt_base.specs.Alone.{has_begun};
ghost use Rattle.xt_base.specs.Jobs.{fits_pieces, flight_pieces};
ghost use Rattle.xt_c.specs.Holding.{held};
ghost use Rattle.xt_c.specs.Working.{IsPiece, IsPieceOf, IsWorked, begin_of, end_of, log_answers, wants_none, worked};

use crate::handle::Handle;
use crate::jobs::{begun, waiting};
use crate::replies::put_reply;
use crate::status::{refusal, status_of};
use crate::words::ReplyWords;
use bytes::Bytes;
use std::alloc::Global;
use xt_base::names::JobKind;
use xt_base::sizes::PIECE_BYTES;
use xt_base::steps::{Errno, LogAnswers};
use xt_mount::mount::Mount;

/// Begins a checkpoint that waits.
fn begin(mount: &mut Mount, serial: u64, reply: &mut ReplyWords) -> i32
    requires { mount.old.slot ≡ 0 }
    ensures begun { IsWorked has_begun (begin_of serial) (Some mount.old) result (worked reply.new (Some mount.new)) (worked reply.old (Some mount.old)) }
    ensures slot { mount.new.slot ≡ 0 }
{
    let Some(name) = waiting(mount, JobKind::Ckpt, serial) else {
        return refusal(Errno::Invalid);
    };
    let told = mount.begin(name);
    put_reply(reply, &told);
    status_of(&told)
}

/// Begins a checkpoint that was taken, and writes its reply; else EINVAL, and nothing is changed.
#[unsafe(no_mangle)]
pub extern "C" fn refskold_abi_begin(
    alloc: Global,
    handle: &mut Handle,
    serial: u64,
    reply: &mut ReplyWords,
) -> i32
    ensures { IsWorked has_begun (begin_of serial) (held handle.old) result (worked reply.new (held handle.new)) (worked reply.old (held handle.old)) }
{
    let Some(mut mount) = handle.take(alloc) else {
        return refusal(Errno::NoDevice);
    };
    let status = begin(&mut mount, serial, reply);
    handle.put(mount);
    status
}

/// The piece at a place.
fn piece_at(pieces: &[Bytes], index: usize) -> Option<&Bytes>
    ensures { option_copied result ≡ slice_get pieces.now index }
{
    pieces.get(index)
}

/// Copies a piece to the front of a room where it fits: its length.
fn put_piece(piece: &[u8], room: &mut [u8]) -> i32
    requires { length piece.now ≤ PIECE_BYTES }
    ensures { IsPiece (Some piece.now) result room.new room.old }
{
    if room.len() < piece.len() {
        return refusal(Errno::Invalid);
    }
    room[..piece.len()].copy_from_slice(piece);
    piece.len() as i32
}

/// Copies a piece of the checkpoint in flight to the front of a room: its length.
fn piece(mount: &Mount, index: u32, room: &mut [u8]) -> i32
    ensures { IsPieceOf index (Some mount.now) result room.new room.old }
{
    match piece_at(mount.pieces(), index as usize) {
        Some(piece) => put_piece(piece.as_slice(), room),
        None => refusal(Errno::Invalid),
    }
}

/// Copies a piece of the checkpoint in flight to the front of the room: its length, 1 to 4,096. EINVAL where there is none, or it does
/// not fit, and nothing is written.
#[unsafe(no_mangle)]
pub extern "C" fn refskold_abi_piece(
    alloc: Global,
    handle: &mut Handle,
    index: u32,
    room: &mut [u8],
) -> i32
    ensures piece { IsPieceOf index (held handle.old) result room.new room.old }
    ensures same { held handle.new ≡ held handle.old }
{
    let Some(mount) = handle.take(alloc) else {
        return refusal(Errno::NoDevice);
    };
    let status = piece(&mount, index, room);
    handle.put(mount);
    status
}

/// What the log answered: how many pieces it took, and where that is all of them, whether the sync was good.
fn log_answers(taken: u32, synced: u32, pieces: usize) -> Option<LogAnswers>
    ensures value { result ≡ log_answers taken synced pieces }
    ensures fits { IfSome result (λ answers. fits_pieces answers pieces ≡ true) }
{
    if taken as usize == pieces {
        let sync = Some(synced != 0);
        return Some(LogAnswers { taken, sync });
    }
    if (taken as usize) < pieces {
        return Some(LogAnswers { taken, sync: None });
    }
    None
}

/// Ends the checkpoint that is begun.
fn end(mount: &mut Mount, serial: u64, taken: u32, synced: u32, reply: &mut ReplyWords) -> i32
    requires { mount.old.slot ≡ 0 }
    ensures ended { IsWorked wants_none (end_of serial taken synced) (Some mount.old) result (worked reply.new (Some mount.new)) (worked reply.old (Some mount.old)) }
    ensures slot { mount.new.slot ≡ 0 }
{
    let Some(name) = begun(mount, serial) else {
        return refusal(Errno::Invalid);
    };
    let Some(answers) = log_answers(taken, synced, mount.pieces().len()) else {
        return refusal(Errno::Invalid);
    };
    let told = mount.end(name, answers);
    put_reply(reply, &told);
    status_of(&told)
}

/// Ends the checkpoint in flight by what the log answered, and writes its reply; else EINVAL, and nothing is changed.
#[unsafe(no_mangle)]
pub extern "C" fn refskold_abi_end(
    alloc: Global,
    handle: &mut Handle,
    serial: u64,
    taken: u32,
    synced: u32,
    reply: &mut ReplyWords,
) -> i32
    ensures { IsWorked wants_none (end_of serial taken synced) (held handle.old) result (worked reply.new (held handle.new)) (worked reply.old (held handle.old)) }
{
    let Some(mut mount) = handle.take(alloc) else {
        return refusal(Errno::NoDevice);
    };
    let status = end(&mut mount, serial, taken, synced, reply);
    handle.put(mount);
    status
}
