//! What a slot's home device is asked, and what it answered.

ghost use Rattle.std.specs.Prelude.{◌≡◌, ◌<◌, ◌≤◌, ◌+◌, ◌-◌, ◌∷◌, ◌++◌, All, [], Option, Some, true, length, map, take, drop, replicate, false, is_ok, IfOk};
ghost use Rattle.xt_base.specs.Form.{is_size};
ghost use Rattle.xt_base.specs.Jobs.{fits_plan, sync_offer, write_answers, writes};
ghost use Rattle.xt_base.specs.Maps.{is_in};
ghost use Rattle.xt_base.specs.Order.{has_size, is_answer};
ghost use Rattle.xt_base.specs.State.{State};
ghost use Rattle.xt_base.specs.declared.sizes.TheConstants.{FLUSH_BLOCKS as MOST_WRITES};
ghost use Rattle.xt_cell.specs.Asking.{committed_write, failed_reads, flush_calls, nearest, read_calls};
ghost use Rattle.xt_dev.specs.Devices.{Tells};
ghost use Rattle.xt_dev.specs.Flushes.{contents, failed_answers};
ghost use Rattle.xt_mount.specs.Slots.{IsUnchangedIn, contents_in, form_in, plan_in};

use std::alloc::{AllocError, Global};
use xt_base::content::Content;
use xt_base::form::Form;
use xt_base::names::Block;
use xt_base::sizes::FLUSH_BLOCKS;
use xt_base::steps::{Answer, HomeAnswers};
use xt_dev::home::HomeDevice;
use xt_dev::offer_home::offer_home;
use xt_items::plan::FlushPlan;
use xt_mount::slot::MountSlot;

/// The place of a block that is going to be read, as long as a mount's form says. The one error is want of memory.
pub fn place(alloc: Global, form: Form) -> Result<Box<Vec<u8>>, AllocError>
    ensures size { IfOk result (λ bytes. length bytes.value.items ≡ form.size) }
    ensures one_of { IfOk result (λ bytes. is_size (Some (length bytes.value.items)) ≡ true) }
{
    let bytes = vec![in alloc; 0u8; form.block_bytes()]?;
    Ok(Box::new(alloc, bytes)?)
}

/// Asks the home device for a block, once. A content that it answers is as long as the place.
pub fn read(home: &mut dyn HomeDevice, block: Block, bytes: Box<Vec<u8>>) -> Answer
    requires whole { is_size (Some (length bytes.value.items)) ≡ true }
    ensures answer { is_answer result ≡ true }
    ensures size { (mounted : Option State) → length bytes.value.items ≡ (form_in mounted).size → has_size result mounted ≡ true }
    ensures asked { Tells (home_tells home.old) (home_taken home.old) (read_calls (Some block) result) (home_tells home.new) (home_taken home.new) }
    ensures failures { home_failures home.new ≡ home_failures home.old + failed_reads result }
{
    let mut bytes = bytes;
    if home.read(block, bytes.as_mut_slice()).is_err() {
        return Answer::Failed;
    }
    match Content::of_boxed(bytes) {
        Some(content) => Answer::Content(content),
        None => unreachable!(),
    }
}

/// What a flush writes now of the block at a place of its plan; of the last one, where the plan has fewer.
fn write_at<'a>(slot: &'a MountSlot, blocks: &[Block], place: usize) -> (Block, &'a [u8])
    requires some { 0 < length blocks.now }
    requires committed { All (λ b. is_in b (contents_in slot.now.mounted) ≡ true) blocks.now }
    requires unchanged { All (λ b. IsUnchangedIn b slot.now.mounted) blocks.now }
    ensures write { (result.0, result.1.now) ≡ committed_write slot.now.mounted (nearest blocks.now place) }
    ensures whole { is_size (Some (length result.1.now)) ≡ true }
{
    let block = blocks[place.min(blocks.len() - 1)];
    match slot.committed(block) {
        Some(content) => (block, content),
        None => unreachable!(),
    }
}

/// The writes of a plan in its order: the first places, as many as it has blocks.
fn writes_of<'a>(slot: &'a MountSlot, blocks: &[Block]) -> [(Block, &'a [u8]); FLUSH_BLOCKS]
    requires some { 0 < length blocks.now }
    requires few { length blocks.now ≤ FLUSH_BLOCKS }
    requires committed { All (λ b. is_in b (contents_in slot.now.mounted) ≡ true) blocks.now }
    requires unchanged { All (λ b. IsUnchangedIn b slot.now.mounted) blocks.now }
    ensures writes { contents (take (length blocks.now) result) ≡ map (committed_write slot.now.mounted) blocks.now }
    ensures whole { All (λ w. is_size (Some (length w.1.now)) ≡ true) (take (length blocks.now) result) }
{
    [
        write_at(slot, blocks, 0),
        write_at(slot, blocks, 1),
        write_at(slot, blocks, 2),
        write_at(slot, blocks, 3),
        write_at(slot, blocks, 4),
        write_at(slot, blocks, 5),
        write_at(slot, blocks, 6),
        write_at(slot, blocks, 7),
    ]
}

/// Offers the home device what a flush of this plan, the one that stands now, writes: each block once in its order, and then the sync. It
/// takes no memory.
pub fn flush(home: &mut dyn HomeDevice, slot: &MountSlot, plan: &FlushPlan) -> HomeAnswers
    requires planned { plan.now ≡ plan_in slot.now.mounted }
    requires committed { All (λ b. is_in b (contents_in slot.now.mounted) ≡ true) plan.now }
    requires unchanged { All (λ b. IsUnchangedIn b slot.now.mounted) plan.now }
    ensures fits { fits_plan result plan.now ≡ true }
    ensures offered { Tells (home_tells home.old) (home_taken home.old) (flush_calls result slot.now.mounted) (home_tells home.new) (home_taken home.new) }
    ensures failures { home_failures home.new ≡ home_failures home.old + failed_answers result }
{
    let blocks = plan.blocks();
    if blocks.is_empty() {
        return offer_home(home, &[]);
    }
    let writes = writes_of(slot, blocks);
    offer_home(home, &writes[..blocks.len()])
}
