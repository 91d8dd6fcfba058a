//! The calls of which a change is made, by their own arguments: what they tell goes by their status, and no words of a request or a reply
//! are written and read for them.

ghost use Rattle.std.specs.Prelude.{◌≡◌, ◌==◌, Some, not};
ghost use Rattle.xt_base.specs.declared.steps.Request.TheVariants.{Alloc, Commit, Read};
ghost use Rattle.xt_c.specs.Changing.{IsAllocated, IsAsked, IsAskedOf, logging};
ghost use Rattle.xt_c.specs.Holding.{held};

use crate::calls::ASKS;
use crate::handle::Handle;
use crate::status::{refusal, status_of};
use std::alloc::Global;
use xt_base::data_ref::DataRef;
use xt_base::names::{Block, TransNo};
use xt_base::steps::{Errno, Reply};
use xt_mount::mount::Mount;

/// Opens a transaction, and writes its number where it is open.
fn open_trans(mount: &mut Mount, unit: u32, count: u32, perm: bool, trans: &mut u64) -> i32
    ensures allocated { IsAllocated (Alloc unit count perm) result trans.new trans.old (Some mount.new) (Some mount.old) }
    ensures slot { mount.new.slot ≡ mount.old.slot }
{
    match mount.alloc(unit, count, perm) {
        Reply::Trans(number) => {
            *trans = number.0;
            0
        }
        told => status_of(&told),
    }
}

/// Opens a transaction of `count` legs of `unit` log bytes, which may roll where `perm` is not 0: 0, and its number is written; else an errno, and it is
/// not.
#[unsafe(no_mangle)]
pub extern "C" fn refskold_abi_alloc(
    alloc: Global,
    handle: &mut Handle,
    unit: u32,
    count: u32,
    perm: u32,
    trans: &mut u64,
) -> i32
    ensures { IsAllocated (Alloc unit count (not (perm == 0))) result trans.new trans.old (held handle.new) (held handle.old) }
{
    let Some(mut mount) = handle.take(alloc) else {
        return refusal(Errno::NoDevice);
    };
    let status = open_trans(&mut mount, unit, count, perm != 0, trans);
    handle.put(mount);
    status
}

/// Locks a block with its content, where that does not ask the home device.
fn read(mount: &mut Mount, trans: TransNo, block: Block) -> i32
    ensures asked { IsAsked (Read trans block) result (Some mount.new) (Some mount.old) }
    ensures slot { mount.new.slot ≡ mount.old.slot }
{
    match mount.try_read(trans, block) {
        Ok(told) => status_of(&told),
        Err(_) => ASKS,
    }
}

/// Locks a block with its content for a transaction: 0. 1: the home device must be asked for it, nothing is changed, and the read is to be
/// asked again with the answer. Else an errno.
#[unsafe(no_mangle)]
pub extern "C" fn refskold_abi_read(
    alloc: Global,
    handle: &mut Handle,
    trans: u64,
    block: u64,
) -> i32
    ensures { IsAsked (Read trans block) result (held handle.new) (held handle.old) }
{
    let Some(mut mount) = handle.take(alloc) else {
        return refusal(Errno::NoDevice);
    };
    let status = read(&mut mount, TransNo(trans), Block(block));
    handle.put(mount);
    status
}

/// Writes bytes in a block of a transaction.
fn log(mount: &mut Mount, trans: TransNo, block: Block, first: u32, bytes: &[u8]) -> i32
    ensures logged { IsAskedOf (logging trans block first bytes.now) result (Some mount.new) (Some mount.old) }
    ensures slot { mount.new.slot ≡ mount.old.slot }
{
    match DataRef::of(bytes) {
        Some(bytes) => status_of(&mount.log(trans, block, first, &bytes)),
        None => refusal(Errno::Invalid),
    }
}

/// Writes bytes in a block of a transaction, from `first` on. They are copied once, to where they are kept. EINVAL also where they are more than
/// 4,096, and nothing is changed.
#[unsafe(no_mangle)]
pub extern "C" fn refskold_abi_log(
    alloc: Global,
    handle: &mut Handle,
    trans: u64,
    block: u64,
    first: u32,
    bytes: &[u8],
) -> i32
    ensures { IsAskedOf (logging trans block first bytes.now) result (held handle.new) (held handle.old) }
{
    let Some(mut mount) = handle.take(alloc) else {
        return refusal(Errno::NoDevice);
    };
    let status = log(&mut mount, TransNo(trans), Block(block), first, bytes);
    handle.put(mount);
    status
}

/// Commits a transaction.
fn commit(mount: &mut Mount, trans: TransNo) -> i32
    ensures asked { IsAsked (Commit trans) result (Some mount.new) (Some mount.old) }
    ensures slot { mount.new.slot ≡ mount.old.slot }
{
    status_of(&mount.commit(trans))
}

/// Ends a transaction, and commits its changes: 0, or an errno.
#[unsafe(no_mangle)]
pub extern "C" fn refskold_abi_commit(alloc: Global, handle: &mut Handle, trans: u64) -> i32
    ensures { IsAsked (Commit trans) result (held handle.new) (held handle.old) }
{
    let Some(mut mount) = handle.take(alloc) else {
        return refusal(Errno::NoDevice);
    };
    let status = commit(&mut mount, TransNo(trans));
    handle.put(mount);
    status
}
