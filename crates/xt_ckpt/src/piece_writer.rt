//! The pieces of a checkpoint one by one, each formed straight from the items.

ghost use Rattle.std.specs.Prelude.{◌≡◌, ◌++◌, ◌≤◌, ◌↔◌, [], All, List, length, min, IfOk, IfErr, IfSome, IsNone, OnErr};
ghost use Rattle.xt_base.specs.declared.steps.Errno.TheVariants.{NoMemory};
ghost use Rattle.xt_ckpt.specs.Entries.{IsWhole, entries_text};
ghost use Rattle.xt_ckpt.specs.Grammar.{Entry};
ghost use Rattle.xt_ckpt.specs.Items.{HasForm, checkpoint_text_in};
ghost use Rattle.xt_ckpt.specs.Pieces.{IsFor, IsOf, given_bytes, left_of, to_come};
ghost use Rattle.xt_ckpt.specs.declared.item.Item.{Item as AnItem};

use crate::item::Item;
use crate::place::{Ends, Place};
use crate::source::ItemSource;
use bytes::Bytes;
use std::alloc::{AllocError, Global};
use xt_base::names::CkptNo;
use xt_base::sizes::{BUSY_BLOCKS, PIECE_BYTES};
use xt_base::steps::Errno;

/// The text of a checkpoint, of which the pieces are formed one by one. No more than one
/// piece of it is in memory at a time.
#[derive(Debug, Drop)]
pub struct PieceWriter {
    ends: Ends,
    place: Place,
}

impl PieceWriter {
    /// A writer of the text of this number and of `count` items, of which nothing is given yet. The text says the size of a block
    /// in bytes, where there is one.
    pub fn new(number: CkptNo, size: Option<u32>, count: u32) -> Self
        ensures of { (items : List AnItem) → length items ≡ count → IsOf items result }
        ensures text { (items : List AnItem) → length items ≡ count → to_come items result ≡ checkpoint_text_in size number items }
    {
        PieceWriter::at_front(number, size, count)
    }

    /// The same, of entries wherever they lie.
    pub(crate) fn at_front(number: CkptNo, size: Option<u32>, count: u32) -> Self
        ensures of { (es : List Entry) → length es ≡ count → IsFor es result }
        ensures text { (es : List Entry) → length es ≡ count → left_of es result ≡ entries_text size number es }
    {
        PieceWriter {
            ends: Ends {
                number,
                size,
                count,
            },
            place: Place::front(),
        }
    }

    /// The next piece. After an error nothing has changed, and the same call may be made again.
    pub(crate) fn try_next<S: ItemSource>(
        &mut self,
        alloc: Global,
        items: &S,
    ) -> Result<Option<Bytes>, AllocError>
        requires same { IsFor (S.entries items.now) self.old }
        requires few { length (S.entries items.now) ≤ BUSY_BLOCKS }
        requires form { All IsWhole (S.entries items.now) }
        ensures bytes { IfOk result (λ given. left_of (S.entries items.now) self.old ≡ given_bytes given ++ left_of (S.entries items.now) self.new) }
        ensures size { IfOk result (λ given. length (given_bytes given) ≡ min PIECE_BYTES (length (left_of (S.entries items.now) self.old))) }
        ensures none { IfOk result (λ given. IsNone given ↔ (left_of (S.entries items.now) self.old ≡ [])) }
        ensures same { IsFor (S.entries items.now) self.new }
        ensures memory { OnErr result (self.new ≡ self.old) }
    {
        let room = self.place.room(&self.ends, items);
        if room == 0 {
            return Ok(None);
        }
        let mut piece = Vec::with_capacity(alloc, room)?;
        let place = self.place.fill(&mut piece, room, &self.ends, items)?;
        let piece = Bytes::from_vec(piece)?;
        self.place = place;
        Ok(Some(piece))
    }

    /// The next piece of the text: 4,096 bytes, the last as many as are left; None once all
    /// were given. The items must be the same at each call, as many as was said at the making,
    /// each with 128 bytes for each chunk. The one error is `NoMemory`: then nothing has
    /// changed, and the same call may be made again.
    pub fn next(&mut self, alloc: Global, items: &[Item]) -> Result<Option<Bytes>, Errno>
        requires same { IsOf items.now self.old }
        requires few { length items.now ≤ BUSY_BLOCKS }
        requires form { All HasForm items.now }
        // What was to come is this piece, followed by what is to come now.
        ensures bytes { IfOk result (λ given. to_come items.now self.old ≡ given_bytes given ++ to_come items.now self.new) }
        ensures size { IfOk result (λ given. length (given_bytes given) ≡ min PIECE_BYTES (length (to_come items.now self.old))) }
        ensures none { IfOk result (λ given. IsNone given ↔ (to_come items.now self.old ≡ [])) }
        ensures same { IsOf items.now self.new }
        ensures memory { IfErr result (λ e. e ≡ NoMemory) }
        ensures unchanged { OnErr result (self.new ≡ self.old) }
    {
        self.try_next(alloc, &items).map_err(|_| Errno::NoMemory)
    }
}
