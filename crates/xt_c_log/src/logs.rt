//! A log's texts, laid over the blocks of a home device.

ghost use Rattle.std.specs.Prelude.{◌≡◌, None};
ghost use Rattle.xt_c_log.specs.Holding.{held};
ghost use Rattle.xt_c_log.specs.Logs.{texts_of};
ghost use Rattle.xt_c_log.specs.Told.{IsBlockOf, IsEnded, IsFed, IsGathering, IsLaid, IsOpened, IsOpenedFiles, IsTurned};

use crate::handle::Handle;
use crate::held_log::HeldLog;
use crate::status::{BUSY, NO_DEVICE, NO_MEMORY};
use crate::words::LogWords;
use std::alloc::Global;

/// Gathers the texts of a log, which a handle that holds nothing then holds.
fn open(alloc: Global, handle: &mut Handle, log: &[u8], told: &mut LogWords) -> i32
    requires closed { held handle.old ≡ None }
    ensures { IsGathering log.now result told.new told.old (held handle.new) (held handle.old) }
{
    match HeldLog::of_texts(alloc, log, told) {
        Ok(read) => {
            handle.put(read);
            0
        }
        Err(status) => status,
    }
}

/// Gathers what the texts of a whole log say, which a handle that holds nothing then holds. 0: the counts are written. 1: the field at the byte that is
/// written breaks its rule, which no crash leaves. 2: the text that begins there is of blocks of another size. Else an errno, negative.
#[unsafe(no_mangle)]
pub extern "C" fn refskold_abi_log_open(
    alloc: Global,
    handle: &mut Handle,
    log: &[u8],
    told: &mut LogWords,
) -> i32
    ensures { IsOpened result log.now told.new told.old (held handle.new) (held handle.old) }
{
    if let Some(held) = handle.take(alloc) {
        handle.put(held);
        return BUSY;
    }
    open(alloc, handle, log, told)
}

/// The same of the texts of a log in two files, which need not be whole. 3: the texts of the file that is told end at the byte that is written, and not as a loss of
/// power leaves them. 4: the two files are no log.
#[unsafe(no_mangle)]
pub extern "C" fn refskold_abi_log_open_files(
    alloc: Global,
    handle: &mut Handle,
    one: &[u8],
    other: &[u8],
    told: &mut LogWords,
) -> i32
    ensures { IsOpenedFiles result one.now other.now told.new told.old (held handle.new) (held handle.old) }
{
    if let Some(held) = handle.take(alloc) {
        handle.put(held);
        return BUSY;
    }
    match HeldLog::of_files(alloc, one, other, told) {
        Ok(read) => {
            handle.put(read);
            0
        }
        Err(status) => status,
    }
}

/// Takes a piece of a log of any length, behind those that the handle holds. EBUSY where it holds what a log's texts say.
#[unsafe(no_mangle)]
pub extern "C" fn refskold_abi_log_feed(alloc: Global, handle: &mut Handle, piece: &[u8]) -> i32
    ensures { IsFed piece.now result (held handle.new) (held handle.old) }
{
    if let Some(mut held) = handle.take(alloc) {
        let status = held.feed(piece);
        handle.put(held);
        return status;
    }
    match HeldLog::of_bytes(alloc, piece) {
        Ok(begun) => {
            handle.put(begun);
            0
        }
        Err(_) => NO_MEMORY,
    }
}

/// What comes of a log in pieces from here on is of its other file. EBUSY where it is already, or the handle holds what a log's texts say.
#[unsafe(no_mangle)]
pub extern "C" fn refskold_abi_log_other(alloc: Global, handle: &mut Handle) -> i32
    ensures { IsTurned result (held handle.new) (held handle.old) }
{
    if let Some(mut held) = handle.take(alloc) {
        let status = held.turn(alloc);
        handle.put(held);
        return status;
    }
    match HeldLog::of_nothing(alloc) {
        Ok(begun) => {
            handle.put(begun);
            0
        }
        Err(_) => NO_MEMORY,
    }
}

/// Gathers what the texts of the log say that came in pieces, in place of its bytes. It returns and writes what `refskold_abi_log_open` does of the
/// log whole; but for 0 the handle holds what it held.
#[unsafe(no_mangle)]
pub extern "C" fn refskold_abi_log_end(
    alloc: Global,
    handle: &mut Handle,
    told: &mut LogWords,
) -> i32
    ensures { IsEnded (held handle.old) result told.new told.old (held handle.new) }
{
    if let Some(mut held) = handle.take(alloc) {
        let status = held.end(alloc, told);
        handle.put(held);
        return status;
    }
    // a log without bytes has no pieces
    open(alloc, handle, &[], told)
}

/// Gives the memory of what it holds back; the handle then holds nothing.
#[unsafe(no_mangle)]
pub extern "C" fn refskold_abi_log_close(alloc: Global, handle: &mut Handle)
    ensures { held handle.new ≡ None }
{
    let _held = handle.take(alloc);
}

/// The block at a place, from 0, of those of which the texts say something, ascending; else EINVAL.
#[unsafe(no_mangle)]
pub extern "C" fn refskold_abi_log_block(
    alloc: Global,
    handle: &mut Handle,
    index: u64,
    block: &mut u64,
) -> i32
    ensures block { IsBlockOf index (texts_of (held handle.old)) result block.new block.old }
    ensures same { held handle.new ≡ held handle.old }
{
    let Some(held) = handle.take(alloc) else {
        return NO_DEVICE;
    };
    let status = held.block(index, block);
    handle.put(held);
    status
}

/// Lays what the texts say of a block over the bytes that the home device has of it, in place; where they say nothing, these stay. EINVAL where these
/// are not as many as a block has by the texts.
#[unsafe(no_mangle)]
pub extern "C" fn refskold_abi_log_lay(
    alloc: Global,
    handle: &mut Handle,
    block: u64,
    content: &mut [u8],
) -> i32
    ensures laid { IsLaid block (texts_of (held handle.old)) result content.new content.old }
    ensures same { held handle.new ≡ held handle.old }
{
    let Some(held) = handle.take(alloc) else {
        return NO_DEVICE;
    };
    let status = held.lay(block, content);
    handle.put(held);
    status
}
