//! What was gathered, written over a home device.

ghost use Rattle.std.specs.Prelude.{◌≡◌, ◌∷◌, [], None, OnErr, OnOk, Some, length, true};
ghost use Rattle.xt_base.specs.Form.{is_size};
ghost use Rattle.xt_dev.specs.Devices.{Tells};
ghost use Rattle.xt_dev.specs.declared.call.HomeCall.{HomeCall};
ghost use Rattle.xt_recover.specs.Overlaid.{overlaid};
ghost use Rattle.xt_recover.specs.Sizes.{block_size};
ghost use Rattle.xt_recover.specs.Writing.{TellsBlock, TellsStopped, TellsWritten};

use crate::overlay::Overlay;
use crate::places::copy_chunks;
use thiserror::Error;
use xt_base::content::Content;
use xt_base::names::Block;
use xt_dev::fault::DevFault;
use xt_dev::home::HomeDevice;

/// Why a home device was not written to its end.
#[derive(Clone, Copy, Debug, PartialEq, Eq, Error)]
pub enum WriteFault {
    /// The device failed. Recovery can be run again, over what it left.
    #[error("the home device failed")]
    Home,
    /// Memory was refused, before the device was asked anything.
    #[error("out of memory")]
    Memory,
}

impl Overlay {
    /// Writes what was gathered over a home device, block by block, and makes it safe: each block is read into a room, and written
    /// whole. It takes no memory.
    pub(crate) fn write_over<H: HomeDevice>(
        &self,
        room: &mut [u8],
        home: &mut H,
    ) -> Result<(), DevFault>
        requires whole { length room.old ≡ block_size (overlaid self.now).size }
        ensures written { OnOk result (TellsWritten (overlaid self.now) (H.home_tells home.old) (H.home_taken home.old) (H.home_tells home.new) (H.home_taken home.new)) }
        ensures stopped { OnErr result (TellsStopped (overlaid self.now) (H.home_tells home.old) (H.home_taken home.old) (H.home_tells home.new) (H.home_taken home.new)) }
    {
        for (block, content) in self.contents.iter() {
            self.write_block(*block, content, room, home)?;
        }
        match home.sync() {
            Ok(()) => Ok(()),
            Err(fault) => Err(fault),
        }
    }

    /// Writes one block.
    #[tactic(auto, using(crate::proofs::WriteLemmas::stopped_read, crate::proofs::WriteLemmas::stopped_write))]
    fn write_block<H: HomeDevice>(
        &self,
        block: u64,
        content: &Content,
        room: &mut [u8],
        home: &mut H,
    ) -> Result<(), DevFault>
        requires whole { length room.old ≡ block_size (overlaid self.now).size }
        requires own { length content.now ≡ block_size (overlaid self.now).size }
        ensures written { OnOk result (TellsBlock (overlaid self.now) (block, content.now) (H.home_tells home.old) (H.home_taken home.old) (H.home_tells home.new) (H.home_taken home.new)) }
        ensures stopped { OnErr result (TellsStopped (overlaid self.now) (H.home_tells home.old) (H.home_taken home.old) (H.home_tells home.new) (H.home_taken home.new)) }
    {
        read_block(block, room, home)?;
        copy_chunks(room, self.chunks_of(block), content);
        match home.write(Block(block), room) {
            Ok(()) => Ok(()),
            Err(DevFault) => Err(DevFault),
        }
    }
}

/// Reads a block.
fn read_block<H: HomeDevice>(block: u64, room: &mut [u8], home: &mut H) -> Result<(), DevFault>
    requires whole { is_size (Some (length room.old)) ≡ true }
    ensures told { OnOk result (Tells (H.home_tells home.old) (H.home_taken home.old) (HomeCall.Read block (Some room.new) ∷ []) (H.home_tells home.new) (H.home_taken home.new)) }
    ensures stopped { OnErr result (Tells (H.home_tells home.old) (H.home_taken home.old) (HomeCall.Read block None ∷ []) (H.home_tells home.new) (H.home_taken home.new)) }
{
    home.read(Block(block), room)
}
