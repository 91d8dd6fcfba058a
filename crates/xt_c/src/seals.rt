//! Seals of checkpoints, for a log that is sealed.

ghost use Rattle.std.specs.List.{concat};
ghost use Rattle.std.specs.Prelude.{◌≡◌, drop, length, take};
ghost use Rattle.xt_c.specs.Holding.{held};
ghost use Rattle.xt_c.specs.Sealing.{IsSealed, IsSealedOf, with_seal};
ghost use Rattle.xt_seal.specs.Seal.{text_seal};

use crate::handle::Handle;
use crate::status::refusal;
use bytes::Bytes;
use std::alloc::Global;
use xt_base::steps::Errno;
use xt_seal::{HEAD_BYTES, HEADER_BYTES, SEAL_BYTES, Sealer};

/// The seal of a text that comes in these pieces, behind the head of a log and the seal before it.
fn seal_of(pieces: &[Bytes], head: &[u8], before: &[u8]) -> [u8; SEAL_BYTES]
    ensures seal { result ≡ text_seal head.now before.now (concat pieces.now) }
    ensures length { length result ≡ 8 }
{
    let mut sealer = Sealer::behind(head, before);
    for piece in pieces {
        sealer.note(piece.as_slice());
    }
    sealer.seal()
}

/// The same, where the head and the seal before it stand together.
fn seal_behind(pieces: &[Bytes], log: &[u8]) -> [u8; SEAL_BYTES]
    requires whole { length log.now ≡ 64 }
    ensures seal { result ≡ text_seal (take 56 log.now) (drop 56 log.now) (concat pieces.now) }
    ensures length { length result ≡ 8 }
{
    seal_of(pieces, &log[..HEAD_BYTES], &log[HEAD_BYTES..])
}

/// Puts the seal of a text that comes in these pieces in the place of the one before it.
fn put_behind(pieces: &[Bytes], log: &mut [u8])
    requires whole { length log.old ≡ 64 }
    ensures { log.new ≡ with_seal (concat pieces.now) log.old }
{
    let seal = seal_behind(pieces, log);
    log[HEAD_BYTES..].copy_from_slice(&seal);
}

/// The same, where there are pieces, and the log is what it must be.
fn put_seal(pieces: &[Bytes], log: &mut [u8]) -> i32
    ensures { IsSealed pieces.now result log.new log.old }
{
    if log.len() != HEADER_BYTES || pieces.is_empty() {
        return refusal(Errno::Invalid);
    }
    put_behind(pieces, log);
    0
}

/// The seal of the checkpoint in flight, to stand behind its last piece. `log` is the head of the log's file, of 56 bytes, and the last seal of that
/// file, of 8, in whose place the new one is put. EINVAL where no checkpoint is in flight, or `log` has another length, and nothing is written.
#[unsafe(no_mangle)]
pub extern "C" fn refskold_abi_seal(alloc: Global, handle: &mut Handle, log: &mut [u8]) -> i32
    ensures sealed { IsSealedOf (held handle.old) result log.new log.old }
    ensures same { held handle.new ≡ held handle.old }
{
    let Some(mount) = handle.take(alloc) else {
        return refusal(Errno::NoDevice);
    };
    let status = put_seal(mount.pieces(), log);
    handle.put(mount);
    status
}
