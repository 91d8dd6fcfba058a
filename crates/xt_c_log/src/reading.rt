//! Checkpoints, read.

ghost use Rattle.std.specs.Prelude.{◌≡◌, unwrap_or};
ghost use Rattle.xt_c_log.specs.Found.{IsFound, IsRead};

use crate::status::NO_MEMORY;
use crate::words::FoundWords;
use std::alloc::Global;
use xt_ckpt::reading::{Checkpoint, ReadFault, read_checkpoint};

/// What a reading returns where a checkpoint was found.
const FOUND: i32 = 1;

/// What it returns where a field breaks its rule.
const BROKEN: i32 = 2;

/// The size of a block that texts say; 0 where they say none.
pub fn size_of(size: Option<u32>) -> u64
    ensures { result ≡ unwrap_or size 0 }
{
    match size {
        Some(size) => u64::from(size),
        None => 0,
    }
}

/// Writes what was found.
fn put_found(to: &mut FoundWords, checkpoint: &Checkpoint, bytes: usize)
    ensures { IsFound checkpoint.now bytes to.new }
{
    to.number = checkpoint.no.0;
    to.bytes = bytes as u64;
    to.items = checkpoint.items.len() as u64;
    to.size = size_of(checkpoint.size);
}

/// Reads the checkpoint whose text begins the input. 1: found, and what is told of it is written. 0: the input ends before the text does. 2: the
/// field at the byte that is written breaks its rule. ENOMEM.
#[unsafe(no_mangle)]
pub extern "C" fn refskold_abi_read_checkpoint(
    alloc: Global,
    input: &[u8],
    found: &mut FoundWords,
) -> i32
    ensures { IsRead input.now result found.new found.old }
{
    match read_checkpoint(alloc, input) {
        Ok(Some((checkpoint, bytes))) => {
            put_found(found, &checkpoint, bytes);
            FOUND
        }
        Ok(None) => 0,
        Err(ReadFault::Ckpt(fault)) => {
            found.bytes = fault.at as u64;
            BROKEN
        }
        Err(ReadFault::Memory) => NO_MEMORY,
    }
}
