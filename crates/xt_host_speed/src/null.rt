//! Devices that take everything and keep nothing.

ghost use Rattle.std.specs.Prelude.{[], false};

use xt_base::names::Block;
use xt_dev::fault::DevFault;
use xt_dev::home::HomeDevice;
use xt_dev::log::LogDevice;

/// The bytes of a log.
pub const LOG_BYTES: u32 = 16_777_216;

/// The blocks of a home device.
pub const HOME_BLOCKS: u64 = 1_024;

/// A log device that takes each piece and forgets it. It never fails, and tells nothing.
#[derive(Drop)]
pub struct NullLog;

impl LogDevice for NullLog {
    ghost log_tells = { λ _. false };

    ghost log_taken = { λ _. [] };

    ghost log_failures = { λ _. 0 };

    fn append(&mut self, _piece: &[u8]) -> Result<(), DevFault> {
        Ok(())
    }

    fn sync(&mut self) -> Result<(), DevFault> {
        Ok(())
    }
}

/// A home device that takes each block and forgets it: what is read is zeros. It never fails, and tells nothing.
#[derive(Drop)]
pub struct NullHome;

impl HomeDevice for NullHome {
    ghost home_tells = { λ _. false };

    ghost home_taken = { λ _. [] };

    ghost home_failures = { λ _. 0 };

    fn read(&mut self, _block: Block, into: &mut [u8]) -> Result<(), DevFault> {
        into.fill(0);
        Ok(())
    }

    fn write(&mut self, _block: Block, _content: &[u8]) -> Result<(), DevFault> {
        Ok(())
    }

    fn sync(&mut self) -> Result<(), DevFault> {
        Ok(())
    }
}
