//! Marks of a block in a transaction.

ghost use Rattle.std.specs.Prelude.{⊤, ◌≡◌, ◌∷◌, [], codes};
ghost use Rattle.xt_base.specs.Marks.{and_marks, but_marks, marks_of, no_marks};

use bitflags::{Flag, Flags, bitflag_items};

/// Marks of a block in a transaction, after the item flags `XFS_BLI_*` of `xfs_buf_item.h`. Clauses see
/// by `marks_of` which are set.
#[derive(Clone, Copy, Debug, PartialEq, Eq)]
pub struct ItemMarks(u8);

bitflag_items! {
    impl ItemMarks: u8 {
        /// The block stays locked when the leg ends.
        const HOLD = 1;
        /// The leg invalidated the block.
        const STALE = 2;
        /// The leg changed or invalidated the block.
        const DIRTY = 4;
        /// The block shows zeros until it is written whole.
        const FRESH = 8;
    }
}

impl Flags for ItemMarks {
    type Bits = u8;

    ghost exact = { ⊤ };

    ghost table = { (codes "HOLD", 1) ∷ (codes "STALE", 2) ∷ (codes "DIRTY", 4) ∷ (codes "FRESH", 8) ∷ [] };

    ghost set_of = { λ m. m.0 };

    fn flags<'a>() -> &'a [Flag<ItemMarks>] {
        ItemMarks::FLAGS
    }

    fn bits(&self) -> u8 {
        self.0
    }

    fn from_bits_retain(bits: u8) -> ItemMarks {
        ItemMarks(bits)
    }
}

impl ItemMarks {
    /// No mark.
    pub fn none() -> Self
        ensures bits { result.0 ≡ 0 }
        ensures marks { marks_of result ≡ no_marks }
    {
        ItemMarks(0)
    }

    /// These marks, and those of `mark`.
    pub fn with(self, mark: ItemMarks) -> Self
        ensures { marks_of result ≡ and_marks (marks_of mark) (marks_of self) }
    {
        self.union(mark)
    }

    /// These marks without those of `mark`.
    pub fn without(self, mark: ItemMarks) -> Self
        ensures { marks_of result ≡ but_marks (marks_of mark) (marks_of self) }
    {
        let less = mark.bits();
        self.difference(ItemMarks(less))
    }

    /// Whether `HOLD` is set.
    pub fn is_held(self) -> bool
        ensures { result ≡ (marks_of self).hold }
    {
        self.contains(ItemMarks::HOLD)
    }

    /// Whether `STALE` is set.
    pub fn is_stale(self) -> bool
        ensures { result ≡ (marks_of self).stale }
    {
        self.contains(ItemMarks::STALE)
    }

    /// Whether `DIRTY` is set.
    pub fn is_dirty(self) -> bool
        ensures { result ≡ (marks_of self).dirty }
    {
        self.contains(ItemMarks::DIRTY)
    }

    /// Whether `FRESH` is set.
    pub fn is_fresh(self) -> bool
        ensures { result ≡ (marks_of self).fresh }
    {
        self.contains(ItemMarks::FRESH)
    }
}
