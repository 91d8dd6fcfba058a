//! Home devices.

ghost use Rattle.std.specs.Prelude.{◌≡◌, ◌∷◌, [], Bool, List, Some, None, true, ℕ, is_ok, length, if◌then◌else◌};
ghost use Rattle.xt_base.specs.Form.{is_size};
ghost use Rattle.xt_base.specs.declared.steps.HomeOffer.{HomeOffer};
ghost use Rattle.xt_dev.specs.Devices.{Tells, failures_after};
ghost use Rattle.xt_dev.specs.declared.call.HomeCall.{HomeCall};

use crate::fault::DevFault;
use xt_base::names::Block;

/// A device of blocks, each of which is read and written whole. A block has as many bytes as
/// the slice that is lent: 512, 1,024, 2,048 or 4,096. What a device does is said of three things that only proofs see: whether it still tells what it was
/// asked, its calls so far with their answers, and how often it failed. Of a device that no
/// longer tells nothing is said but its failures.
pub trait HomeDevice: Drop {
    /// Whether it says what it was asked.
    ghost home_tells: { Self → Bool };

    /// Its calls with their answers, in order, as long as it tells.
    ghost home_taken: { Self → List HomeCall };

    /// In how many of its calls it failed.
    ghost home_failures: { Self → ℕ };

    /// Reads a block into as many bytes as it has. `DevFault` comes only in a call that raised its
    /// failures; what the bytes are then is the device's to say.
    fn read(&mut self, block: Block, into: &mut [u8]) -> Result<(), DevFault>
        requires whole { is_size (Some (length into.old)) ≡ true }
        ensures told { Tells (home_tells self.old) (home_taken self.old) (HomeCall.Read block (if is_ok result then Some into.new else None) ∷ []) (home_tells self.new) (home_taken self.new) }
        ensures failures { home_failures self.new ≡ failures_after (is_ok result) (home_failures self.old) };

    /// Writes the bytes of a block. `DevFault` comes only in a call that raised its
    /// failures; what the block has then is the device's to say.
    fn write(&mut self, block: Block, content: &[u8]) -> Result<(), DevFault>
        requires whole { is_size (Some (length content.now)) ≡ true }
        ensures told { Tells (home_tells self.old) (home_taken self.old) (HomeCall.Offer (HomeOffer.Write block content.now (is_ok result)) ∷ []) (home_tells self.new) (home_taken self.new) }
        ensures failures { home_failures self.new ≡ failures_after (is_ok result) (home_failures self.old) };

    /// Makes what was written safe. `DevFault` comes only in a call that raised its failures.
    fn sync(&mut self) -> Result<(), DevFault>
        ensures told { Tells (home_tells self.old) (home_taken self.old) (HomeCall.Offer (HomeOffer.Sync (is_ok result)) ∷ []) (home_tells self.new) (home_taken self.new) }
        ensures failures { home_failures self.new ≡ failures_after (is_ok result) (home_failures self.old) };
}
