//! The writer: the text of a checkpoint in pieces.

ghost use Rattle.std.specs.Prelude.{◌≡◌, ◌≤◌, None, All, Some, true, length, IfOk, IfErr};
ghost use Rattle.std.specs.List.{concat, flat_map};
ghost use Rattle.xt_base.specs.Form.{is_size};
ghost use Rattle.xt_base.specs.Sized.{IsWithin};
ghost use Rattle.xt_base.specs.Text.{pieces as pieces_of, text_in};
ghost use Rattle.xt_base.specs.declared.steps.Errno.TheVariants.{NoMemory};
ghost use Rattle.xt_ckpt.specs.Entries.{EntriesRise, Fits, IsStored, IsWhole, entries_text, entry_bytes};
ghost use Rattle.xt_ckpt.specs.Grammar.{Entry, IsText, IsTextIn, entries};
ghost use Rattle.xt_ckpt.specs.Items.{checkpoint_text, checkpoint_text_in, FitsSize, HasForm, BlocksRise};

use crate::costs::{checkpoint_len, size_len};
use crate::item::Item;
use crate::piece_writer::PieceWriter;
use crate::source::ItemSource;
use bytes::Bytes;
use std::alloc::{AllocError, Global};
use xt_base::form::Form;
use xt_base::names::CkptNo;
use xt_base::sizes::{BUSY_BLOCKS, PIECE_BYTES, TEXT_PIECES};
use xt_base::steps::Errno;

/// The block of each item is one of 64 bits, and its set that of a word of 32: the types
/// say so.
fn are_stored<S: ItemSource>(items: &S)
    ensures { All IsStored (S.entries items.now) }
{
    for index in 0..items.item_count() {
        let _block = items.block_at(index);
        let _word = items.chunks_at(index).word();
    }
}

/// Forms the pieces one by one, of a text that says the size of a block where one is given.
fn write_pieces<S: ItemSource>(
    alloc: Global,
    no: CkptNo,
    size: Option<u32>,
    items: &S,
) -> Result<Vec<Bytes>, AllocError>
    requires size { is_size size ≡ true }
    requires fits { All (Fits size) (S.entries items.now) }
    requires number { 1 ≤ no }
    requires count { (1 ≤ length (S.entries items.now)) × (length (S.entries items.now) ≤ BUSY_BLOCKS) }
    requires form { All IsWhole (S.entries items.now) }
    requires rising { EntriesRise (S.entries items.now) }
    ensures text { IfOk result (λ pieces. pieces.items ≡ pieces_of (entries_text size no (S.entries items.now))) }
    ensures grammar { IfOk result (λ pieces. IsTextIn size (concat pieces.items) no (S.entries items.now)) }
    ensures few { IfOk result (λ pieces. length pieces.items ≤ TEXT_PIECES) }
{
    are_stored(items);
    let count = (checkpoint_len(items) + size_len(size)).div_ceil(PIECE_BYTES);
    let mut pieces = Vec::with_capacity(alloc, count)?;
    let mut writer = PieceWriter::at_front(no, size, items.item_count() as u32);
    while let Some(piece) = writer.try_next(alloc, items)? {
        pieces.push(piece)?;
    }
    Ok(pieces)
}

/// The text of a checkpoint, cut every 4,096 bytes, the last piece shorter or whole. No text
/// longer than a piece is ever joined. The one error is `NoMemory`.
pub fn write_checkpoint(alloc: Global, no: CkptNo, items: &[Item]) -> Result<Vec<Bytes>, Errno>
    requires number { 1 ≤ no }
    requires count { (1 ≤ length items.now) × (length items.now ≤ BUSY_BLOCKS) }
    requires form { All HasForm items.now }
    requires rising { BlocksRise items.now }
    ensures text { IfOk result (λ pieces. pieces.items ≡ pieces_of (checkpoint_text no items.now)) }
    // The pieces together are a text of the grammar, which `read_checkpoint` reads again, whatever follows it.
    ensures grammar { IfOk result (λ pieces. IsText (concat pieces.items) no (entries items.now)) }
    ensures few { IfOk result (λ pieces. length pieces.items ≤ TEXT_PIECES) }
    ensures memory { IfErr result (λ e. e ≡ NoMemory) }
{
    are_stored(&items);
    write_pieces(alloc, no, None, &items).map_err(|_| Errno::NoMemory)
}

/// The same of a text that says the size of a block: 512, 1,024, 2,048 or 4,096 bytes. No item may log a chunk that such a block lacks.
pub fn write_checkpoint2(
    alloc: Global,
    no: CkptNo,
    size: u32,
    items: &[Item],
) -> Result<Vec<Bytes>, Errno>
    requires size { is_size (Some size) ≡ true }
    requires fits { All (FitsSize (Some size)) items.now }
    requires number { 1 ≤ no }
    requires count { (1 ≤ length items.now) × (length items.now ≤ BUSY_BLOCKS) }
    requires form { All HasForm items.now }
    requires rising { BlocksRise items.now }
    ensures text { IfOk result (λ pieces. pieces.items ≡ pieces_of (checkpoint_text_in (Some size) no items.now)) }
    // The pieces together are a text of the grammar, which `read_checkpoint` reads again, whatever follows it.
    ensures grammar { IfOk result (λ pieces. IsTextIn (Some size) (concat pieces.items) no (entries items.now)) }
    ensures few { IfOk result (λ pieces. length pieces.items ≤ TEXT_PIECES) }
    ensures memory { IfErr result (λ e. e ≡ NoMemory) }
{
    write_pieces(alloc, no, Some(size), &items).map_err(|_| Errno::NoMemory)
}

/// The text that a mount of this form writes: it says the size of a block, or does not. No item may log a chunk that a block of the mount
/// lacks. The items are read where they lie. The one error is want of memory.
pub fn write_checkpoint_in<S: ItemSource>(
    alloc: Global,
    form: Form,
    no: CkptNo,
    items: &S,
) -> Result<Vec<Bytes>, AllocError>
    requires within { All (λ (e : Entry). IsWithin form.size e.chunks) (S.entries items.now) }
    requires number { 1 ≤ no }
    requires count { (1 ≤ length (S.entries items.now)) × (length (S.entries items.now) ≤ BUSY_BLOCKS) }
    requires form { All IsWhole (S.entries items.now) }
    requires rising { EntriesRise (S.entries items.now) }
    ensures text { IfOk result (λ pieces. pieces.items ≡ pieces_of (text_in form no (length (S.entries items.now)) (flat_map entry_bytes (S.entries items.now)))) }
    ensures few { IfOk result (λ pieces. length pieces.items ≤ TEXT_PIECES) }
{
    are_stored(items);
    if form.is_sized() {
        write_pieces(alloc, no, Some(form.size()), items)
    } else {
        write_pieces(alloc, no, None, items)
    }
}
