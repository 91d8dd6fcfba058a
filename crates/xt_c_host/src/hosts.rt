//! A host made, asked and ended.

ghost use Rattle.std.specs.Prelude.{◌≡◌, None};
ghost use Rattle.xt_c_host.specs.Holding.{held};
ghost use Rattle.xt_c_host.specs.Stepping.{IsOfferOf, IsOpened, IsStep, IsTextOf};

use crate::handle::Handle;
use crate::status::{BUSY, NO_DEVICE, NO_MEMORY};
use crate::told::ToldHost;
use std::alloc::Global;

/// Makes a host of which no slot was mounted, which a handle that holds none then holds.
#[unsafe(no_mangle)]
pub extern "C" fn refskold_abi_host_open(alloc: Global, handle: &mut Handle) -> i32
    ensures { IsOpened result (held handle.new) (held handle.old) }
{
    if let Some(host) = handle.take(alloc) {
        handle.put(host);
        return BUSY;
    }
    let Ok(host) = ToldHost::new(alloc) else {
        return NO_MEMORY;
    };
    match Box::new(alloc, host) {
        Ok(host) => {
            handle.put(host);
            0
        }
        Err(_) => NO_MEMORY,
    }
}

/// Ends a host, whatever is left in its slots; the handle then holds none.
#[unsafe(no_mangle)]
pub extern "C" fn refskold_abi_host_close(alloc: Global, handle: &mut Handle)
    ensures { held handle.new ≡ None }
{
    let _host = handle.take(alloc);
}

/// Takes the step that a line spells, without its newline. 0: it was taken, and `refskold_abi_host_reply` has what it said. EPROTO: it may not come now.
/// EINVAL: the line spells no step. But for 0 nothing is changed.
#[unsafe(no_mangle)]
pub extern "C" fn refskold_abi_host_step(alloc: Global, handle: &mut Handle, line: &[u8]) -> i32
    ensures { IsStep line.now result (held handle.new) (held handle.old) }
{
    let Some(mut host) = handle.take(alloc) else {
        return NO_DEVICE;
    };
    let status = host.take(alloc, line);
    handle.put(host);
    status
}

/// Copies the line of the last step's reply to the front of a room, and writes its length; EINVAL where there was no step, or the room is too short.
#[unsafe(no_mangle)]
pub extern "C" fn refskold_abi_host_reply(
    alloc: Global,
    handle: &mut Handle,
    length: &mut usize,
    room: &mut [u8],
) -> i32
    ensures reply { IsTextOf (held handle.old) result length.new length.old room.new room.old }
    ensures same { held handle.new ≡ held handle.old }
{
    let Some(mut host) = handle.take(alloc) else {
        return NO_DEVICE;
    };
    let status = host.reply(length, room);
    handle.put(host);
    status
}

/// Copies the line of the last step's offer at a place, from 0, to the front of a room, and writes its length; EINVAL where there is no such offer, or
/// the room is too short.
#[unsafe(no_mangle)]
pub extern "C" fn refskold_abi_host_offer(
    alloc: Global,
    handle: &mut Handle,
    index: u32,
    length: &mut usize,
    room: &mut [u8],
) -> i32
    ensures offer { IsOfferOf index (held handle.old) result length.new length.old room.new room.old }
    ensures same { held handle.new ≡ held handle.old }
{
    let Some(mut host) = handle.take(alloc) else {
        return NO_DEVICE;
    };
    let status = host.offer(index as usize, length, room);
    handle.put(host);
    status
}
