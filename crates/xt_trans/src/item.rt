//! One entry of a leg, what it did to one block, and what becomes of it.

ghost use Rattle.std.specs.Prelude.{◌≡◌, ◌+◌, ◌≤◌, [], Some, None, false, true, length, option_copied, unwrap_or, is_some};
ghost use Rattle.xt_base.specs.Calls.{overwritten};
ghost use Rattle.xt_base.specs.Chunks.{union as either};
ghost use Rattle.xt_base.specs.Marks.{marks_of, no_marks};
ghost use Rattle.xt_trans.specs.LegItems.{blank, change_in, no_change};
ghost use Rattle.xt_vectors.specs.Edits.{is_in_place, own_edit};

use xt_base::chunks::Chunks;
use xt_base::content::Content;
use xt_base::data_ref::DataRef;
use xt_base::marks::ItemMarks;
use xt_vectors::edit::Edit;

/// What a leg did to one block, after `xfs_buf_log_item`: its marks, the bytes, if it was changed, the chunks marked, and
/// the chunks charged.
#[derive(Debug, Drop)]
pub(crate) struct BufItem {
    pub(crate) marks: ItemMarks,
    pub(crate) edit: Option<Edit>,
    pub(crate) chunks: Chunks,
    pub(crate) charged: Chunks,
}

/// The leg's own bytes in an edit, if there are some.
pub(crate) fn content_of(edit: &Option<Edit>) -> Option<&Content>
    ensures { option_copied result ≡ own_edit edit.now }
{
    match edit {
        Some(edit) => edit.content(),
        None => None,
    }
}

/// Whether there is an edit without bytes of its own.
pub(crate) fn has_no_content(edit: &Option<Edit>) -> bool
    ensures { result ≡ is_in_place edit.now }
{
    match edit {
        Some(edit) => edit.content().is_none(),
        None => false,
    }
}

/// An entry that says nothing.
pub(crate) fn blank_item() -> BufItem
    ensures { result ≡ blank }
{
    BufItem {
        marks: ItemMarks::none(),
        edit: None,
        chunks: Chunks::none(),
        charged: Chunks::none(),
    }
}

/// An entry of a block that is held and not changed.
pub(crate) fn hold_alone() -> BufItem
    ensures marks { marks_of result.marks ≡ record no_marks { hold = true } }
    ensures change { change_in result ≡ no_change }
{
    BufItem {
        marks: ItemMarks::none().with(ItemMarks::HOLD),
        edit: None,
        chunks: Chunks::none(),
        charged: Chunks::none(),
    }
}

/// An entry whose block stays locked when the leg ends.
pub(crate) fn held(mut item: BufItem) -> BufItem
    ensures marks { marks_of result.marks ≡ record (marks_of item.marks) { hold = true } }
    ensures change { change_in result ≡ change_in item }
{
    item.marks = item.marks.with(ItemMarks::HOLD);
    item
}

/// An entry without its hold mark.
pub(crate) fn released(mut item: BufItem) -> BufItem
    ensures marks { marks_of result.marks ≡ record (marks_of item.marks) { hold = false } }
    ensures change { change_in result ≡ change_in item }
{
    item.marks = item.marks.without(ItemMarks::HOLD);
    item
}

/// An entry whose block has these bytes, and these chunks are marked and charged too.
pub(crate) fn logged(item: BufItem, edit: Edit, marked: Chunks) -> BufItem
    ensures marks { marks_of result.marks ≡ record (marks_of item.marks) { stale = false; dirty = true } }
    ensures change { change_in result ≡ record { edit = Some edit; marks = either item.chunks marked; charged = either item.charged marked } }
{
    BufItem {
        marks: item.marks.with(ItemMarks::DIRTY).without(ItemMarks::STALE),
        edit: Some(edit),
        chunks: item.chunks.union(marked),
        charged: item.charged.union(marked),
    }
}

/// An entry of a block of which these chunks are marked and charged too.
pub(crate) fn marked_too(mut item: BufItem, marked: Chunks) -> BufItem
    ensures marks { marks_of result.marks ≡ record (marks_of item.marks) { stale = false; dirty = true } }
    ensures change { change_in result ≡ record { edit = item.edit; marks = either item.chunks marked; charged = either item.charged marked } }
{
    item.marks = item.marks.with(ItemMarks::DIRTY).without(ItemMarks::STALE);
    item.chunks = item.chunks.union(marked);
    item.charged = item.charged.union(marked);
    item
}

/// An entry over whose own bytes others are written from `first` on.
pub(crate) fn written(mut item: BufItem, first: usize, bytes: &DataRef<'_>) -> BufItem
    requires own { is_some (own_edit item.edit) ≡ true }
    requires within { first + length bytes.now ≤ length (unwrap_or item.edit []) }
    ensures marks { result.marks ≡ item.marks }
    ensures change { change_in result ≡ record (change_in item) { edit = Some (overwritten first bytes.now (unwrap_or item.edit [])) } }
{
    if let Some(edit) = &mut item.edit {
        edit.write(first, bytes);
    }
    item
}

/// An entry whose block is invalidated.
pub(crate) fn invalidated(item: BufItem) -> BufItem
    ensures marks { marks_of result.marks ≡ record (marks_of item.marks) { hold = false; stale = true; dirty = true } }
    ensures change { change_in result ≡ record { edit = None; marks = []; charged = item.charged } }
{
    let marks = item.marks.without(ItemMarks::HOLD);
    let charged = item.charged;
    BufItem {
        marks: marks.with(ItemMarks::DIRTY).with(ItemMarks::STALE),
        edit: None,
        chunks: Chunks::none(),
        charged,
    }
}
