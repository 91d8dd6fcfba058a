//! Flushes: which blocks are written home, and what the home device answered.

ghost use Rattle.std.specs.Prelude.{◌≡◌, ◌==◌, ◌≤◌, ◌+◌, ◌*◌, ◌++◌, All, MatchBool, Some, drop, flat_map, length, pos, slice_get, take, true};
ghost use Rattle.xt_base.specs.Jobs.{flush_plan};
ghost use Rattle.xt_base.specs.Maps.{is_in};
ghost use Rattle.xt_base.specs.declared.steps.Errno.TheVariants.{Invalid};
ghost use Rattle.xt_c.specs.Holding.{held};
ghost use Rattle.xt_c.specs.Status.{refusal};
ghost use Rattle.xt_c.specs.Working.{AreHomesOf, IsFlushed, IsHome, IsHomeOf, IsPlanOf, ShowsPlan, content_in, flush_status, has_bit, home_answers, worked};
ghost use Rattle.xt_mount.specs.Accounts.{IsUnchanged};

use crate::handle::Handle;
use crate::jobs::waiting;
use crate::replies::{put_blocks, put_reply};
use crate::status::{refusal, status_of};
use crate::words::{PlanWords, ReplyWords};
use std::alloc::Global;
use xt_base::names::{Block, JobKind};
use xt_base::steps::{Errno, HomeAnswers, Reply};
use xt_items::plan::FlushPlan;
use xt_mount::mount::Mount;

/// The blocks that a flush of a mount writes home now.
fn plan_of(mount: &Mount) -> FlushPlan
    ensures value { result ≡ flush_plan mount.now }
{
    match mount.flush_plan() {
        Ok(plan) => plan,
        Err(_) => unreachable!(),
    }
}

/// Writes the blocks of a plan.
pub fn put_plan(plan: &FlushPlan, to: &mut PlanWords)
    ensures { ShowsPlan plan.now to.new }
{
    to.count = u32::from(plan.count());
    put_blocks(&mut to.blocks, plan.blocks());
}

/// The blocks that a flush writes home now, in the order of their writes, and how many, 0 to 8.
#[unsafe(no_mangle)]
pub extern "C" fn refskold_abi_plan(alloc: Global, handle: &mut Handle, plan: &mut PlanWords) -> i32
    ensures plan { IsPlanOf (held handle.old) result plan.new plan.old }
    ensures same { held handle.new ≡ held handle.old }
{
    let Some(mount) = handle.take(alloc) else {
        return refusal(Errno::NoDevice);
    };
    let now = plan_of(&mount);
    put_plan(&now, plan);
    handle.put(mount);
    i32::from(now.count())
}

/// The block at a place.
fn block_at(blocks: &[Block], index: usize) -> Option<Block>
    ensures { result ≡ slice_get blocks.now index }
{
    blocks.get(index).copied()
}

/// Copies a content into a room of its length.
fn put_home(content: &[u8], room: &mut [u8]) -> i32
    ensures { MatchBool (length room.old == length content.now) ((result ≡ pos 0) × (room.new ≡ content.now)) ((result ≡ refusal Invalid) × (room.new ≡ room.old)) }
{
    if room.len() != content.len() {
        return refusal(Errno::Invalid);
    }
    room.copy_from_slice(content);
    0
}

/// Copies the content of a block of the plan into a room of the mount's size.
fn home_of(mount: &Mount, block: Block, room: &mut [u8]) -> i32
    requires unchanged { IsUnchanged block mount.now.transactions }
    requires committed { is_in block mount.now.frames.committed ≡ true }
    ensures { IsHome (Some block) mount.now result room.new room.old }
{
    match mount.committed(block) {
        Some(content) => put_home(content, room),
        None => unreachable!(),
    }
}

/// Copies the content of the block at a place of the plan into a room of the mount's size.
fn home(mount: &Mount, index: u32, room: &mut [u8]) -> i32
    ensures { IsHomeOf index (Some mount.now) result room.new room.old }
{
    let Ok(plan) = mount.flush_plan() else {
        unreachable!();
    };
    match block_at(plan.blocks(), index as usize) {
        Some(block) => home_of(mount, block, room),
        None => refusal(Errno::Invalid),
    }
}

/// Copies what is written home of the block at a place of the plan into a room of the mount's size; else EINVAL, and nothing is
/// written.
#[unsafe(no_mangle)]
pub extern "C" fn refskold_abi_home(
    alloc: Global,
    handle: &mut Handle,
    index: u32,
    room: &mut [u8],
) -> i32
    ensures home { IsHomeOf index (held handle.old) result room.new room.old }
    ensures same { held handle.new ≡ held handle.old }
{
    let Some(mount) = handle.take(alloc) else {
        return refusal(Errno::NoDevice);
    };
    let status = home(&mount, index, room);
    handle.put(mount);
    status
}

/// The committed content of a block.
pub fn content_of(mount: &Mount, block: Block) -> &[u8]
    requires unchanged { IsUnchanged block mount.now.transactions }
    requires committed { is_in block mount.now.frames.committed ≡ true }
    ensures value { result.now ≡ content_in mount.now block }
    ensures whole { length result.now ≡ mount.now.form.size }
{
    match mount.committed(block) {
        Some(content) => content,
        None => unreachable!(),
    }
}

/// Copies a content into a room from `first` on.
pub fn put_content_at(content: &[u8], first: usize, room: &mut [u8])
    requires room { first + length content.now ≤ length room.old }
    ensures put { room.new ≡ take first room.old ++ content.now ++ drop (first + length content.now) room.old }
    ensures same { length room.new ≡ length room.old }
{
    room[first..first + content.len()].copy_from_slice(content);
}

/// Copies the contents of blocks to the front of a room, one after another.
fn put_contents(mount: &Mount, blocks: &[Block], room: &mut [u8])
    requires unchanged { All (λ b. IsUnchanged b mount.now.transactions) blocks.now }
    requires committed { All (λ b. is_in b mount.now.frames.committed ≡ true) blocks.now }
    requires room { length blocks.now * mount.now.form.size ≤ length room.old }
    ensures { room.new ≡ flat_map (content_in mount.now) blocks.now ++ drop (length blocks.now * mount.now.form.size) room.old }
{
    let size = mount.form().block_bytes();
    for k in 0..blocks.len() {
        put_content_at(content_of(mount, blocks[k]), k * size, room);
    }
}

/// Writes the blocks of a plan, and copies their contents to the front of a room, one after another.
fn homes(mount: &Mount, plan: &mut PlanWords, room: &mut [u8]) -> i32
    ensures { AreHomesOf (Some mount.now) result plan.new plan.old room.new room.old }
{
    let Ok(now) = mount.flush_plan() else {
        unreachable!();
    };
    if room.len() < usize::from(now.count()) * mount.form().block_bytes() {
        return refusal(Errno::Invalid);
    }
    put_plan(&now, plan);
    put_contents(mount, now.blocks(), room);
    i32::from(now.count())
}

/// The blocks that a flush writes home now, in the order of their writes, and how many, 0 to 8; what is written of each is copied to the front of
/// the room, one after another. EINVAL where the room is too short, and nothing is written.
#[unsafe(no_mangle)]
pub extern "C" fn refskold_abi_homes(
    alloc: Global,
    handle: &mut Handle,
    plan: &mut PlanWords,
    room: &mut [u8],
) -> i32
    ensures homes { AreHomesOf (held handle.old) result plan.new plan.old room.new room.old }
    ensures same { held handle.new ≡ held handle.old }
{
    let Some(mount) = handle.take(alloc) else {
        return refusal(Errno::NoDevice);
    };
    let status = homes(&mount, plan, room);
    handle.put(mount);
    status
}

/// Whether the bit of a number is set.
fn has_bit(bits: u32, bit: u32) -> bool
    ensures { result ≡ has_bit bits bit }
{
    bits & bit != 0
}

/// What the home device answered to so many writes: bit k for the write k, and to the sync.
pub fn home_answers(count: u8, written: u32, synced: u32) -> HomeAnswers
    ensures { result ≡ home_answers count written synced }
{
    HomeAnswers {
        count,
        writes: [
            has_bit(written, 1),
            has_bit(written, 2),
            has_bit(written, 4),
            has_bit(written, 8),
            has_bit(written, 16),
            has_bit(written, 32),
            has_bit(written, 64),
            has_bit(written, 128),
        ],
        sync: synced != 0,
    }
}

/// What a flush of so many blocks returns: an I/O error where it did not bring all of them home.
fn flush_status(count: u32, told: &Reply) -> i32
    ensures { result ≡ flush_status count told.now }
{
    match told {
        Reply::Flushed(home) => {
            if *home == count {
                0
            } else {
                refusal(Errno::Io)
            }
        }
        _ => status_of(told),
    }
}

/// Ends a flush that waits, where its plan has so many blocks.
fn flush(
    mount: &mut Mount,
    serial: u64,
    count: u32,
    written: u32,
    synced: u32,
    reply: &mut ReplyWords,
) -> i32
    requires { mount.old.slot ≡ 0 }
    ensures flushed { IsFlushed serial count written synced (Some mount.old) result (worked reply.new (Some mount.new)) (worked reply.old (Some mount.old)) }
    ensures slot { mount.new.slot ≡ 0 }
{
    let Some(name) = waiting(mount, JobKind::Flush, serial) else {
        return refusal(Errno::Invalid);
    };
    let plan = plan_of(mount);
    let planned = plan.count();
    if count != u32::from(planned) {
        return refusal(Errno::Invalid);
    }
    let told = mount.flush_planned(name, &plan, home_answers(planned, written, synced));
    put_reply(reply, &told);
    flush_status(count, &told)
}

/// Ends a flush by what the home device answered to the writes of its plan, of so many blocks, and writes its reply: 0 where all of them are
/// home, else EIO. Where no such flush waits EINVAL, and nothing is changed.
#[unsafe(no_mangle)]
pub extern "C" fn refskold_abi_flush(
    alloc: Global,
    handle: &mut Handle,
    serial: u64,
    count: u32,
    written: u32,
    synced: u32,
    reply: &mut ReplyWords,
) -> i32
    ensures { IsFlushed serial count written synced (held handle.old) result (worked reply.new (held handle.new)) (worked reply.old (held handle.old)) }
{
    let Some(mut mount) = handle.take(alloc) else {
        return refusal(Errno::NoDevice);
    };
    let status = flush(&mut mount, serial, count, written, synced, reply);
    handle.put(mount);
    status
}
