//! Calls as a record says them: copies of what was asked, with the answer.

ghost use Rattle.std.specs.Prelude.{◌≡◌, ◌≤◌, length, IfSome, Some, true};
ghost use Rattle.xt_base.specs.Form.{is_size};
ghost use Rattle.xt_base.specs.declared.steps.HomeOffer.{HomeOffer};
ghost use Rattle.xt_base.specs.declared.steps.LogOffer.{LogOffer};
ghost use Rattle.xt_dev.specs.declared.call.HomeCall.{HomeCall};

use crate::call::HomeCall;
use std::alloc::Global;
use xt_base::content::{Content, Data};
use xt_base::names::Block;
use xt_base::sizes::PIECE_BYTES;
use xt_base::steps::{HomeOffer, LogOffer};

/// A piece as a record says it; None where there is no memory for it.
pub(crate) fn piece_offer(alloc: Global, piece: &[u8], ok: bool) -> Option<LogOffer>
    requires short { length piece.now ≤ PIECE_BYTES }
    ensures { IfSome result (λ offer. offer ≡ LogOffer.Piece piece.now ok) }
{
    let bytes = Data::of(alloc, piece).ok()??;
    Some(LogOffer::Piece { bytes, ok })
}

/// A copy of the content of a block; None where there is no memory for it.
pub(crate) fn content_of(alloc: Global, content: &[u8]) -> Option<Content>
    requires whole { is_size (Some (length content.now)) ≡ true }
    ensures { IfSome result (λ copy. copy ≡ content.now) }
{
    Content::of(alloc, content).ok()?
}

/// A read that did not fail, as a record says it; None where there is no memory for it.
pub(crate) fn read_call(alloc: Global, block: Block, content: &[u8]) -> Option<HomeCall>
    requires whole { is_size (Some (length content.now)) ≡ true }
    ensures { IfSome result (λ call. call ≡ HomeCall.Read block (Some content.now)) }
{
    let content = content_of(alloc, content)?;
    Some(HomeCall::Read {
        block,
        content: Some(content),
    })
}

/// A write as a record says it; None where there is no memory for it.
pub(crate) fn write_call(alloc: Global, block: Block, content: &[u8], ok: bool) -> Option<HomeCall>
    requires whole { is_size (Some (length content.now)) ≡ true }
    ensures { IfSome result (λ call. call ≡ HomeCall.Offer (HomeOffer.Write block content.now ok)) }
{
    let content = content_of(alloc, content)?;
    Some(HomeCall::Offer(HomeOffer::Write { block, content, ok }))
}
