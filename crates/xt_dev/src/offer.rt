//! What is offered to a log device, and what it answered.

ghost use Rattle.std.specs.Prelude.{◌≡◌, ◌≤◌, ◌<◌, ◌^◌, ◌++◌, ◌-◌, ◌==◌, All, length, min, sum_by, take, drop, true, false};
ghost use Rattle.xt_base.specs.Jobs.{fits_pieces, is_ok};
ghost use Rattle.xt_base.specs.Text.{log_offers_of, offered};
ghost use Rattle.xt_dev.specs.Devices.{Tells, failures_after};

use crate::log::LogDevice;
use bytes::Bytes;
use xt_base::sizes::PIECE_BYTES;
use xt_base::steps::LogAnswers;

/// Tells the log how many bytes come, then offers the pieces of a checkpoint in order up to the first failure, and one sync only if
/// none failed; says what was answered. Each piece has at most 4,096 bytes. It takes no memory.
pub fn offer(log: &mut dyn LogDevice, pieces: &[Bytes]) -> LogAnswers
    requires count { length pieces.now < 2 ^ 32 }
    requires short { All (λ piece. length piece ≤ PIECE_BYTES) pieces.now }
    // All pieces were taken and the sync was answered, or one piece was not taken.
    ensures shape { fits_pieces result (length pieces.now) ≡ true }
    // The log was offered just what a checkpoint job with these answers offers.
    ensures offers { Tells (log_tells log.old) (log_taken log.old) (log_offers_of result pieces.now) (log_tells log.new) (log_taken log.new) }
    // One call failed, or none where the sync was answered Ok.
    ensures failures { log_failures log.new ≡ failures_after (is_ok result.sync) (log_failures log.old) }
    // It was not cut.
    ensures cuts { log_cuts log.new ≡ log_cuts log.old }
    // It may lose what it could lose before.
    ensures loses { log_loses log.new ≡ log_loses log.old }
{
    log.make_room(length_of(pieces));
    let taken = append_all(log, pieces);
    let sync = if (taken as usize) < pieces.len() {
        None
    } else {
        Some(log.sync().is_ok())
    };
    LogAnswers { taken, sync }
}

/// How many bytes pieces have together; 2^64 - 1 where they have more.
fn length_of(pieces: &[Bytes]) -> u64
    ensures { result ≡ min (sum_by length pieces.now) (2 ^ 64 - 1) }
{
    let mut total: u64 = 0;
    for piece in pieces {
        total = total.saturating_add(piece.len() as u64);
    }
    total
}

/// Offers the pieces in order up to the first failure, and says how many were answered Ok.
fn append_all(log: &mut dyn LogDevice, pieces: &[Bytes]) -> u32
    requires count { length pieces.now < 2 ^ 32 }
    requires short { All (λ piece. length piece ≤ PIECE_BYTES) pieces.now }
    ensures range { result ≤ length pieces.now }
    ensures offers { Tells (log_tells log.old) (log_taken log.old) (offered true (take result pieces.now) ++ offered false (take 1 (drop result pieces.now))) (log_tells log.new) (log_taken log.new) }
    ensures failures { log_failures log.new ≡ failures_after (result == length pieces.now) (log_failures log.old) }
    ensures cuts { log_cuts log.new ≡ log_cuts log.old }
    ensures loses { log_loses log.new ≡ log_loses log.old }
{
    for (i, piece) in pieces.iter().enumerate() {
        if log.append(piece.as_slice()).is_err() {
            return i as u32;
        }
    }
    pieces.len() as u32
}
