//! Log devices.

ghost use Rattle.std.specs.Prelude.{◌≡◌, ◌≤◌, ◌∷◌, [], Bool, List, None, Option, ℕ, is_ok, length};
ghost use Rattle.xt_base.specs.declared.steps.LogOffer.{LogOffer};
ghost use Rattle.xt_dev.specs.Devices.{IsCut, Tells, failures_after};
ghost use Rattle.xt_dev.specs.declared.cut.LogCut.{LogCut};

use crate::fault::DevFault;
use xt_base::sizes::PIECE_BYTES;

/// A device to which a log is appended. What a device does is said of five things that only
/// proofs see: whether it still tells what it was offered, its calls so far with their answers,
/// how often it failed, where it was cut, and which texts it may lose. Of a device that no longer tells nothing is said but its failures,
/// its cuts and what it may lose.
pub trait LogDevice: Drop {
    /// Whether it says what it was offered.
    ghost log_tells: { Self → Bool };

    /// Its calls with their answers, in order, as long as it tells.
    ghost log_taken: { Self → List LogOffer };

    /// In how many of its calls it failed.
    ghost log_failures: { Self → ℕ };

    /// The cuts that it made, in order; a cut is no call with an answer.
    ghost log_cuts: { Self → List LogCut } = { λ _. [] };

    /// How many bytes the log of a mount has at most: the device may lose its older texts once the texts behind them have more bytes
    /// than that. None where it loses none. No call changes it.
    ghost log_loses: { Self → Option ℕ } = { λ _. None };

    /// Puts a piece of at most 4,096 bytes behind what is there. `DevFault` comes only in a
    /// call that raised its failures; what is there then is the device's to say.
    fn append(&mut self, piece: &[u8]) -> Result<(), DevFault>
        requires short { length piece.now ≤ PIECE_BYTES }
        ensures told { Tells (log_tells self.old) (log_taken self.old) (LogOffer.Piece piece.now (is_ok result) ∷ []) (log_tells self.new) (log_taken self.new) }
        ensures failures { log_failures self.new ≡ failures_after (is_ok result) (log_failures self.old) }
        ensures cuts { log_cuts self.new ≡ log_cuts self.old }
        ensures loses { log_loses self.new ≡ log_loses self.old };

    /// Makes what was appended safe. `DevFault` comes only in a call that raised its failures.
    fn sync(&mut self) -> Result<(), DevFault>
        ensures told { Tells (log_tells self.old) (log_taken self.old) (LogOffer.Sync (is_ok result) ∷ []) (log_tells self.new) (log_taken self.new) }
        ensures failures { log_failures self.new ≡ failures_after (is_ok result) (log_failures self.old) }
        ensures cuts { log_cuts self.new ≡ log_cuts self.old }
        ensures loses { log_loses self.new ≡ log_loses self.old };

    /// Says that a text of so many bytes comes next, before its first piece, so that a device may make room for it, as one does
    /// that is written into two files by turns. It may also leave the call undone, as this body does. It has no answer: what
    /// fails here shows in a later call.
    fn make_room(&mut self, bytes: u64)
        ensures tells { log_tells self.new ≡ log_tells self.old }
        ensures taken { log_taken self.new ≡ log_taken self.old }
        ensures failures { log_failures self.new ≡ log_failures self.old }
        ensures cuts { log_cuts self.new ≡ log_cuts self.old }
        ensures loses { log_loses self.new ≡ log_loses self.old }
    {
        let _bytes = bytes;
    }

    /// Says that nothing which the log has is of use any more: what its texts log is home, and synced there. `size` is how many
    /// bytes the log of the mount has; a device may empty itself where it has grown far beyond that. It may also leave the
    /// call undone, as this body does. It has no answer: what fails here shows in a later call.
    fn cut(&mut self, size: u32)
        ensures tells { log_tells self.new ≡ log_tells self.old }
        ensures taken { log_taken self.new ≡ log_taken self.old }
        ensures failures { log_failures self.new ≡ log_failures self.old }
        ensures cuts { IsCut size (log_taken self.old) (log_cuts self.old) (log_cuts self.new) }
        ensures loses { log_loses self.new ≡ log_loses self.old }
    {
        let _size = size;
    }
}
