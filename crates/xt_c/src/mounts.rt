//! Mounts made and ended.

ghost use Rattle.std.specs.Prelude.{◌≡◌, ◌+◌, ◌⊎◌, IfErr, IfOk, None, Some, pos};
ghost use Rattle.xt_base.specs.Calls.{first_of};
ghost use Rattle.xt_base.specs.Form.{form_of};
ghost use Rattle.xt_base.specs.State.{mount_of};
ghost use Rattle.xt_base.specs.declared.steps.Errno.TheVariants.{NoMemory};
ghost use Rattle.xt_c.specs.Calling.{IsOpened, needed_status, reason_status, shut_status, spent_status};
ghost use Rattle.xt_c.specs.Holding.{held};
ghost use Rattle.xt_frames.specs.Shares.{no_contents};
ghost use Rattle.xt_mount.specs.Come.{new_refusals, spent_log};

use crate::handle::Handle;
use crate::status::refusal;
use std::alloc::Global;
use xt_base::names::{Life, Slot};
use xt_base::steps::{Errno, Reason};
use xt_frames::share::FrameShare;
use xt_frames::table::FrameTable;
use xt_mount::mount::Mount;

/// What an export of this library promises: it goes up with each change of what C sees.
const VERSION: u32 = 5;

/// The version of what C sees.
#[unsafe(no_mangle)]
pub extern "C" fn refskold_abi_version() -> u32
    ensures { result ≡ VERSION }
{
    VERSION
}

/// The first slot.
pub fn first_slot() -> Slot
    ensures { result ≡ 0 }
{
    match Slot::new(0) {
        Some(slot) => slot,
        None => unreachable!(),
    }
}

/// The frames of a mount, without contents. The one error is `NoMemory`.
fn share_of_one(alloc: Global) -> Result<FrameShare, Errno>
    ensures ok { IfOk result (λ share. share ≡ no_contents 0) }
    ensures err { IfErr result (λ errno. errno ≡ NoMemory) }
{
    let Ok(mut table) = FrameTable::new(alloc, 1) else {
        return Err(Errno::NoMemory);
    };
    match table.take_share(first_slot()) {
        Some(share) => Ok(share),
        None => unreachable!(),
    }
}

/// A new mount of the life after `last`, with blocks of a size where one is said.
pub fn new_mount(
    alloc: Global,
    last: u32,
    log_bytes: u32,
    blocks: u64,
    size: Option<u32>,
) -> Result<Box<Mount>, Errno>
    ensures ok { IfOk result (λ mount. (first_of (new_refusals last log_bytes blocks size) ≡ None) × (mount.value ≡ mount_of 0 (last + 1) log_bytes blocks (form_of size))) }
    ensures err { IfErr result (λ errno. (first_of (new_refusals last log_bytes blocks size) ≡ Some errno) ⊎ ((first_of (new_refusals last log_bytes blocks size) ≡ None) × (errno ≡ NoMemory))) }
{
    // before any memory is asked for, so that no refusal hides behind want of it
    if let Some(errno) = Mount::refusal(Life(last), log_bytes, blocks, size) {
        return Err(errno);
    }
    let share = share_of_one(alloc)?;
    match Mount::new(alloc, share, Life(last), log_bytes, blocks, size) {
        Ok(mount) => match Box::new(alloc, mount) {
            Ok(mount) => Ok(mount),
            Err(_) => Err(Errno::NoMemory),
        },
        Err((errno, _share)) => Err(errno),
    }
}

/// Makes a mount, with blocks of a size where one is said, which a handle that holds none then holds.
fn open(
    alloc: Global,
    handle: &mut Handle,
    last: u32,
    log_bytes: u32,
    blocks: u64,
    size: Option<u32>,
) -> i32
    ensures { IsOpened last log_bytes blocks size result (held handle.new) (held handle.old) }
{
    if let Some(mount) = handle.take(alloc) {
        handle.put(mount);
        return refusal(Errno::Busy);
    }
    match new_mount(alloc, last, log_bytes, blocks, size) {
        Ok(mount) => {
            handle.put(mount);
            0
        }
        Err(errno) => refusal(errno),
    }
}

/// Makes a mount with blocks of 4,096 bytes, whose checkpoints do not say so, which a handle that holds none then holds; or an errno,
/// and nothing is changed.
#[unsafe(no_mangle)]
pub extern "C" fn refskold_abi_open(
    alloc: Global,
    handle: &mut Handle,
    last: u32,
    log_bytes: u32,
    blocks: u64,
) -> i32
    ensures { IsOpened last log_bytes blocks None result (held handle.new) (held handle.old) }
{
    open(alloc, handle, last, log_bytes, blocks, None)
}

/// The same with blocks of a size, 512, 1,024, 2,048 or 4,096 bytes, which its checkpoints say.
#[unsafe(no_mangle)]
pub extern "C" fn refskold_abi_open_sized(
    alloc: Global,
    handle: &mut Handle,
    last: u32,
    log_bytes: u32,
    blocks: u64,
    size: u32,
) -> i32
    ensures { IsOpened last log_bytes blocks (Some size) result (held handle.new) (held handle.old) }
{
    open(alloc, handle, last, log_bytes, blocks, Some(size))
}

/// Ends a mount, whatever is left of it, and gives its memory back; the handle then holds none.
#[unsafe(no_mangle)]
pub extern "C" fn refskold_abi_close(alloc: Global, handle: &mut Handle)
    ensures { held handle.new ≡ None }
{
    let _mount = handle.take(alloc);
}

/// The number of the reason why a mount is shut, from 1; 0 of a live one.
fn reason_status(reason: Option<Reason>) -> i32
    ensures { result ≡ reason_status reason }
{
    match reason {
        None => 0,
        Some(Reason::MetaIoError) => 1,
        Some(Reason::LogIoError) => 2,
        Some(Reason::ForceUmount) => 3,
        Some(Reason::CorruptIncore) => 4,
    }
}

/// Why the mount is shut, from 1; 0 while it is live.
#[unsafe(no_mangle)]
pub extern "C" fn refskold_abi_shut(alloc: Global, handle: &mut Handle) -> i32
    ensures status { result ≡ shut_status (held handle.old) }
    ensures same { held handle.new ≡ held handle.old }
{
    let Some(mount) = handle.take(alloc) else {
        return refusal(Errno::NoDevice);
    };
    let status = reason_status(mount.shut());
    handle.put(mount);
    status
}

/// Whether the log of a mount may have a text that is of use: 1, or 0.
fn log_needed(mount: &Mount) -> i32
    ensures { result ≡ spent_status (spent_log mount.now) }
{
    match mount.spent_log() {
        Some(_) => 0,
        None => 1,
    }
}

/// Whether a text on the log may still be needed: 0 where the mount is live, no checkpoint is in flight, and no block waits to be written
/// home; else 1.
#[unsafe(no_mangle)]
pub extern "C" fn refskold_abi_log_needed(alloc: Global, handle: &mut Handle) -> i32
    ensures status { result ≡ needed_status (held handle.old) }
    ensures same { held handle.new ≡ held handle.old }
{
    let Some(mount) = handle.take(alloc) else {
        return refusal(Errno::NoDevice);
    };
    let status = log_needed(&mount);
    handle.put(mount);
    status
}
