//! Laws of the grammar. Each function does nothing: its clause is the law.

ghost use Rattle.std.specs.Prelude.{◌≡◌, ◌++◌, ◌+◌, ◌<◌, ◌≤◌, ◌↔◌, [], ℕ, List, Option, Some, All, length, slice_index_or};
ghost use Rattle.std.specs.List.{concat};
ghost use Rattle.xt_base.specs.Text.{pieces};
ghost use Rattle.xt_base.specs.declared.sizes.TheConstants.{PIECE_BYTES};
ghost use Rattle.xt_ckpt.specs.Fields.{IsFaultAt, IsUnfinished};
ghost use Rattle.xt_ckpt.specs.Grammar.{Entry, IsTextIn};
ghost use Rattle.xt_ckpt.specs.Items.{HasForm, checkpoint_len, checkpoint_text, checkpoint_text_in};
ghost use Rattle.xt_ckpt.specs.declared.format.TheConstants.{SIZE_BYTES};
ghost use Rattle.xt_ckpt.specs.declared.item.Item.{Item as AnItem};
ghost use Rattle.xt_ckpt.specs.Laws.{AreBytes, ReadsText};

/// A number and a list of items have one text that says a size, and one that says none.
pub fn one_text()
    ensures { (size : Option ℕ) (a b : List ℕ) (number : ℕ) (items : List Entry) → IsTextIn size a number items → IsTextIn size b number items → a ≡ b }
{}

/// No text begins another, whether or not they say the size of a block: of two texts that begin
/// the same bytes, each is the other, and they say the same.
pub fn no_text_begins_another()
    ensures { (f g : Option ℕ) (a b x y : List ℕ) (m n : ℕ) (is js : List Entry) → IsTextIn f a m is → IsTextIn g b n js → a ++ x ≡ b ++ y
        → (a ≡ b) × (f ≡ g) × (m ≡ n) × (is ≡ js) }
{}

/// The rules of the fields, one after another, make up the grammar.
pub fn fields_make_texts()
    ensures { (size : Option ℕ) (bytes : List ℕ) (number : ℕ) (items : List Entry) → AreBytes bytes → (ReadsText size bytes number items ↔ IsTextIn size bytes number items) }
{}

/// An input has at most one first field that breaks its rule, and does not end within a
/// field before it.
pub fn one_fault()
    ensures same { (a b : ℕ) (input : List ℕ) → IsFaultAt a input → IsFaultAt b input → a ≡ b }
    ensures only { (a : ℕ) (input : List ℕ) → IsFaultAt a input → IsUnfinished input → ⊥ }
{}

/// The length of a text is the cost of its items, and 4 more where it says the size of a block.
pub fn text_length()
    ensures plain { (number : ℕ) (items : List AnItem) → All HasForm items → length (checkpoint_text number items) ≡ checkpoint_len items }
    ensures sized { (size number : ℕ) (items : List AnItem) → All HasForm items → length (checkpoint_text_in (Some size) number items) ≡ checkpoint_len items + SIZE_BYTES }
{}

/// The pieces of a text together are the text, and each but the last has 4,096 bytes; the
/// last has 1 to 4,096.
pub fn pieces_of_a_text()
    ensures joined { (text : List ℕ) → concat (pieces text) ≡ text }
    ensures whole { (text : List ℕ) (k : ℕ) → k + 1 < length (pieces text) → length (slice_index_or (pieces text) k []) ≡ PIECE_BYTES }
    ensures last { (text : List ℕ) (k : ℕ) → k + 1 ≡ length (pieces text) → (1 ≤ length (slice_index_or (pieces text) k [])) × (length (slice_index_or (pieces text) k []) ≤ PIECE_BYTES) }
{}
