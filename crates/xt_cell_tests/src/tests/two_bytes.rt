//! A home device that takes no memory.

ghost use Rattle.std.specs.Prelude.{◌<◌, [], false};

use std::alloc::{AllocError, Global};
use xt_base::names::Block;
use xt_base::sizes::BLOCK_BYTES;
use xt_dev::fail_at::FailAt;
use xt_dev::fault::DevFault;
use xt_dev::home::HomeDevice;
use xt_dev::mem_home::MemHome;

/// A home device that keeps, of the block that was written last, the first byte of each of its first two chunks, and gives
/// that for every block. It tells nothing, and never fails.
#[derive(Drop)]
struct TwoBytes {
    first: u8,
    second: u8,
}

impl HomeDevice for TwoBytes {
    ghost home_tells = { λ _. false };

    ghost home_taken = { λ _. [] };

    ghost home_failures = { λ _. 0 };

    fn read(&mut self, _block: Block, into: &mut [u8]) -> Result<(), DevFault> {
        into.fill(0);
        into[0] = self.first;
        into[128] = self.second;
        Ok(())
    }

    fn write(&mut self, _block: Block, content: &[u8]) -> Result<(), DevFault> {
        self.first = content[0];
        self.second = content[128];
        Ok(())
    }

    fn sync(&mut self) -> Result<(), DevFault> {
        Ok(())
    }
}

/// In what a home device keeps what is written.
#[derive(Clone, Copy)]
pub enum Keeper {
    /// Memory, and a write for which there is none fails.
    Memory,
    /// The same, where block 7 has sevens.
    Sevens,
    /// Two bytes of its own.
    TwoBytes,
}

/// A home device in memory, in whose block 7 each byte is 7.
fn sevens(alloc: Global) -> Result<MemHome, AllocError> {
    let mut home = MemHome::new(alloc);
    match home.write(Block(7), &[7; BLOCK_BYTES]) {
        Ok(()) => Ok(home),
        Err(_) => Err(AllocError),
    }
}

/// A home device, which fails one call, counted from 1.
pub fn home_of(
    alloc: Global,
    keeper: Keeper,
    at: u64,
) -> Result<Box<dyn HomeDevice + Send>, AllocError>
    requires { 0 < at }
{
    match keeper {
        Keeper::Memory => Ok(Box::new(alloc, FailAt::over_home(alloc, MemHome::new(alloc), at))?),
        Keeper::Sevens => Ok(Box::new(alloc, FailAt::over_home(alloc, sevens(alloc)?, at))?),
        Keeper::TwoBytes => {
            let device = TwoBytes {
                first: 0,
                second: 0,
            };
            Ok(Box::new(alloc, FailAt::over_home(alloc, device, at))?)
        }
    }
}
