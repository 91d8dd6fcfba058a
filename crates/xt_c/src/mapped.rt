//! Flushes to a home device that lies in memory: what is written of a block is copied straight to its own place, and into no room before.

ghost use Rattle.std.specs.Prelude.{◌≡◌, ◌<◌, ◌*◌, ◌/◌, All, Some, length, true};
ghost use Rattle.xt_base.specs.Maps.{is_in};
ghost use Rattle.xt_c.specs.Holding.{held};
ghost use Rattle.xt_c.specs.Working.{AreMappedHomesOf, IsWorked, flush_into, lie_below, wants_none, with_home, with_homes, worked, written_into};
ghost use Rattle.xt_mount.specs.Accounts.{IsUnchanged};

use crate::flushes::{content_of, home_answers, put_content_at, put_plan};
use crate::handle::Handle;
use crate::jobs::waiting;
use crate::replies::put_reply;
use crate::status::{refusal, status_of};
use crate::words::{PlanWords, ReplyWords};
use std::alloc::Global;
use xt_base::names::{Block, JobKind};
use xt_base::steps::Errno;
use xt_mount::mount::Mount;

/// Whether blocks all have numbers below a count.
fn lie_below(count: usize, blocks: &[Block]) -> bool
    ensures { result ≡ lie_below count blocks.now }
{
    blocks.iter().all(|block| (block.0 as usize) < count)
}

/// Copies the content of a block to its own place in a device.
fn put_home(mount: &Mount, block: Block, device: &mut [u8])
    requires unchanged { IsUnchanged block mount.now.transactions }
    requires committed { is_in block mount.now.frames.committed ≡ true }
    requires within { block < length device.old / mount.now.form.size }
    ensures put { device.new ≡ with_home mount.now device.old block }
    ensures same { length device.new ≡ length device.old }
{
    let first = block.0 as usize * mount.form().block_bytes();
    put_content_at(content_of(mount, block), first, device);
}

/// Copies the contents of blocks, each to its own place in a device.
fn put_homes(mount: &Mount, blocks: &[Block], device: &mut [u8])
    requires unchanged { All (λ b. IsUnchanged b mount.now.transactions) blocks.now }
    requires committed { All (λ b. is_in b mount.now.frames.committed ≡ true) blocks.now }
    requires within { lie_below (length device.old / mount.now.form.size) blocks.now ≡ true }
    ensures { device.new ≡ with_homes mount.now blocks.now device.old }
{
    for k in 0..blocks.len() {
        put_home(mount, blocks[k], device);
    }
}

/// Writes the blocks of a plan, and copies their contents, each to its own place in a device.
fn homes_mapped(mount: &Mount, plan: &mut PlanWords, device: &mut [u8]) -> i32
    ensures { AreMappedHomesOf (Some mount.now) result plan.new plan.old device.new device.old }
{
    let Ok(now) = mount.flush_plan() else {
        unreachable!();
    };
    // counted in blocks, since the end in bytes of a block far behind the device may be too great for a number
    let count = device.len() / mount.form().block_bytes();
    // before anything is written, so that a plan comes home whole or not at all
    if !lie_below(count, now.blocks()) {
        return refusal(Errno::Invalid);
    }
    put_plan(&now, plan);
    put_homes(mount, now.blocks(), device);
    i32::from(now.count())
}

/// The blocks that a flush writes home now, in the order of their writes, and how many, 0 to 8; what is written of each is copied to its own place
/// in the home device, which lies in memory. EINVAL where the device is too short for one of them, and nothing is written.
#[unsafe(no_mangle)]
pub extern "C" fn refskold_abi_homes_mapped(
    alloc: Global,
    handle: &mut Handle,
    plan: &mut PlanWords,
    device: &mut [u8],
) -> i32
    ensures homes { AreMappedHomesOf (held handle.old) result plan.new plan.old device.new device.old }
    ensures same { held handle.new ≡ held handle.old }
{
    let Some(mount) = handle.take(alloc) else {
        return refusal(Errno::NoDevice);
    };
    let status = homes_mapped(&mount, plan, device);
    handle.put(mount);
    status
}

/// Every write of a flush was good: a bit for each.
const ALL_WRITTEN: u32 = 255;

/// Ends a flush that waits: the contents of its blocks are copied each to its own place in a device, and each write was good.
fn flush_into(mount: &mut Mount, serial: u64, device: &mut [u8], reply: &mut ReplyWords) -> i32
    requires { mount.old.slot ≡ 0 }
    ensures flushed { IsWorked wants_none (flush_into serial (length device.old)) (Some mount.old) result (worked reply.new (Some mount.new)) (worked reply.old (Some mount.old)) }
    ensures device { device.new ≡ written_into serial (Some mount.old) device.old }
    ensures slot { mount.new.slot ≡ 0 }
{
    let Some(name) = waiting(mount, JobKind::Flush, serial) else {
        return refusal(Errno::Invalid);
    };
    let Ok(plan) = mount.flush_plan() else {
        unreachable!();
    };
    let count = device.len() / mount.form().block_bytes();
    if !lie_below(count, plan.blocks()) {
        return refusal(Errno::Invalid);
    }
    put_homes(mount, plan.blocks(), device);
    let told = mount.flush_planned(name, &plan, home_answers(plan.count(), ALL_WRITTEN, 1));
    put_reply(reply, &told);
    status_of(&told)
}

/// Ends a flush of a home device that lies in memory and needs no sync: what is written of each block is copied to its own place, and the reply is
/// written. EINVAL where no such flush waits, or the device is too short for one of its blocks, and nothing is changed.
#[unsafe(no_mangle)]
pub extern "C" fn refskold_abi_flush_mapped(
    alloc: Global,
    handle: &mut Handle,
    serial: u64,
    device: &mut [u8],
    reply: &mut ReplyWords,
) -> i32
    ensures flushed { IsWorked wants_none (flush_into serial (length device.old)) (held handle.old) result (worked reply.new (held handle.new)) (worked reply.old (held handle.old)) }
    ensures device { device.new ≡ written_into serial (held handle.old) device.old }
{
    let Some(mut mount) = handle.take(alloc) else {
        return refusal(Errno::NoDevice);
    };
    let status = flush_into(&mut mount, serial, device, reply);
    handle.put(mount);
    status
}
