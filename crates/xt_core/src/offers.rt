//! What the end of a checkpoint offered to the log device, and what a flush offered to the home device.

ghost use Rattle.std.specs.Prelude.{◌≡◌, ◌≤◌, ◌++◌, All, true, length, IfOk};
ghost use Rattle.xt_base.specs.Jobs.{fits_pieces, fits_plan, sync_offer, write_answers, writes};
ghost use Rattle.xt_base.specs.Maps.{is_in};
ghost use Rattle.xt_base.specs.Text.{content_at, log_offers_of, offered};
ghost use Rattle.xt_base.specs.declared.steps.HomeOffer.{HomeOffer as AHomeOffer};
ghost use Rattle.xt_base.specs.declared.steps.LogOffer.{LogOffer as AnOffer};
ghost use Rattle.xt_mount.specs.Slots.{IsUnchangedIn, contents_in, form_in, plan_in};

use bytes::Bytes;
use std::alloc::{AllocError, Global};
use xt_base::content::{Content, Data};
use xt_base::names::Block;
use xt_base::sizes::PIECE_BYTES;
use xt_base::steps::{HomeAnswers, HomeOffer, LogAnswers, LogOffer};
use xt_mount::slot::MountSlot;

/// The offer of a piece, which is copied.
fn piece_offer(alloc: Global, piece: &Bytes, ok: bool) -> Result<LogOffer, AllocError>
    requires { length piece.now ≤ PIECE_BYTES }
    ensures { IfOk result (λ offer. offer ≡ AnOffer.Piece piece.now ok) }
{
    match Data::of(alloc, piece.as_slice())? {
        Some(bytes) => Ok(LogOffer::Piece { bytes, ok }),
        None => unreachable!(),
    }
}

/// The offers of pieces that were taken, with room for one more.
fn taken_offers(alloc: Global, pieces: &[Bytes]) -> Result<Vec<LogOffer>, AllocError>
    requires { All (λ p. length p ≤ PIECE_BYTES) pieces.now }
    ensures { IfOk result (λ offers. offers.items ≡ offered true pieces.now) }
{
    let mut offers = Vec::with_capacity(alloc, pieces.len() + 1)?;
    for piece in pieces {
        offers.push(piece_offer(alloc, piece, true)?)?;
    }
    Ok(offers)
}

/// What was offered of the pieces of a checkpoint, by the log device's answers: the pieces that it took, and then
/// the sync, or the piece that it did not take. The pieces are copied; the one error is want of memory.
pub fn log_offers(
    alloc: Global,
    answers: &LogAnswers,
    pieces: &[Bytes],
) -> Result<Vec<LogOffer>, AllocError>
    requires short { All (λ p. length p ≤ PIECE_BYTES) pieces.now }
    requires fits { fits_pieces answers.now (length pieces.now) ≡ true }
    ensures { IfOk result (λ offers. offers.items ≡ log_offers_of answers.now pieces.now) }
{
    let taken = answers.taken as usize;
    let mut offers = taken_offers(alloc, &pieces[..taken])?;
    let last = match answers.sync {
        Some(ok) => LogOffer::Sync { ok },
        None => piece_offer(alloc, &pieces[taken], false)?,
    };
    offers.push(last)?;
    Ok(offers)
}

/// A copy of what a slot's mount has committed of a block that no open transaction has changed.
fn committed_copy(alloc: Global, slot: &MountSlot, block: Block) -> Result<Content, AllocError>
    requires there { is_in block (contents_in slot.now.mounted) ≡ true }
    requires unchanged { IsUnchangedIn block slot.now.mounted }
    ensures { IfOk result (λ content. content ≡ content_at (form_in slot.now.mounted).size block (contents_in slot.now.mounted)) }
{
    let Some(bytes) = slot.committed(block) else {
        unreachable!();
    };
    match Content::of(alloc, bytes)? {
        Some(content) => Ok(content),
        None => unreachable!(),
    }
}

/// The offer of a write, with its answer.
fn write_offer(
    alloc: Global,
    slot: &MountSlot,
    block: Block,
    ok: bool,
) -> Result<HomeOffer, AllocError>
    requires there { is_in block (contents_in slot.now.mounted) ≡ true }
    requires unchanged { IsUnchangedIn block slot.now.mounted }
    ensures { IfOk result (λ offer. offer ≡ AHomeOffer.Write block (content_at (form_in slot.now.mounted).size block (contents_in slot.now.mounted)) ok) }
{
    let content = committed_copy(alloc, slot, block)?;
    Ok(HomeOffer::Write { block, content, ok })
}

/// The offers of writes of these blocks, each with its answer, whatever the answers before it were.
fn write_offers(
    alloc: Global,
    slot: &MountSlot,
    blocks: &[Block],
    answers: &[bool],
) -> Result<Vec<HomeOffer>, AllocError>
    requires answered { length answers.now ≡ length blocks.now }
    requires committed { All (λ b. is_in b (contents_in slot.now.mounted) ≡ true) blocks.now }
    requires unchanged { All (λ b. IsUnchangedIn b slot.now.mounted) blocks.now }
    ensures { IfOk result (λ offers. offers.items ≡ writes (form_in slot.now.mounted).size (contents_in slot.now.mounted) blocks.now answers.now) }
{
    let mut offers = Vec::new(alloc);
    for (i, block) in blocks.iter().enumerate() {
        offers.push(write_offer(alloc, slot, *block, answers[i])?)?;
    }
    Ok(offers)
}

/// What a flush offered to the home device, by its answers: each write of its plan with the block's committed content, and then,
/// where something was written, the sync. The contents are copied; the one error is want of memory.
pub fn home_offers(
    alloc: Global,
    answers: &HomeAnswers,
    slot: &MountSlot,
) -> Result<Vec<HomeOffer>, AllocError>
    requires { fits_plan answers.now (plan_in slot.now.mounted) ≡ true }
    ensures { IfOk result (λ offers. offers.items ≡ writes (form_in slot.now.mounted).size (contents_in slot.now.mounted) (plan_in slot.now.mounted) (write_answers answers.now) ++ sync_offer answers.now) }
{
    let plan = slot.flush_plan();
    let count = plan.blocks().len();
    let mut offers = write_offers(alloc, slot, plan.blocks(), &answers.writes[..count])?;
    if count > 0 {
        offers.push(HomeOffer::Sync { ok: answers.sync })?;
    }
    Ok(offers)
}
