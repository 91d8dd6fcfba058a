//! What differs from mount to mount in its sizes.

ghost use Rattle.std.specs.Prelude.{◌≡◌, ◌≤◌, ◌↔◌, Some, IfSome, IsSome, true};
ghost use Rattle.xt_base.specs.Form.{form_of, form_one, is_size};
ghost use Rattle.xt_base.specs.declared.sizes.TheConstants.{BLOCK_BYTES, MOST_ENDS};

use crate::sizes::{self, ENDS};
use std::marker::Model;

/// Whether a block may have so many bytes: 512, 1,024, 2,048 or 4,096.
pub fn is_block_size(bytes: usize) -> bool
    ensures { result ≡ is_size (Some bytes) }
{
    bytes == 512 || bytes == 1024 || bytes == 2048 || bytes == sizes::BLOCK_BYTES
}

/// The form of a mount: the bytes of a block, the bytes that the text of a checkpoint has beside its items, and whether
/// a text says the size of a block. One value of a mount and of its layers.
#[derive(Clone, Copy, Debug)]
pub struct Form {
    size: u32,
    ends: u32,
    sized: bool,
}

impl Model for Form {
    ghost use Rattle.xt_base.specs.Form.{Form as FormValue, IsForm};

    ghost Value = { FormValue };

    ghost view = { λ f. record { size = f.size; ends = f.ends; sized = f.sized } };

    ghost invariant = { λ f. IsForm (record { size = f.size; ends = f.ends; sized = f.sized }) };

    ghost inverse = { λ v. record { size = v.size; ends = v.ends; sized = v.sized } };
}

impl Form {
    /// The form of a mount with no size said: blocks of 4,096 bytes, and texts that do not say so.
    pub fn one() -> Self
        ensures { result ≡ form_one }
    {
        Form {
            size: sizes::BLOCK_BYTES as u32,
            ends: ENDS,
            sized: false,
        }
    }

    /// The form of a mount: where a size is said, blocks of that size, and texts that say it. None where a block may not have so
    /// many bytes.
    pub fn of(size: Option<u32>) -> Option<Self>
        ensures one_of { IsSome result ↔ (is_size size ≡ true) }
        ensures value { IfSome result (λ form. form ≡ form_of size) }
    {
        match size {
            None => Some(Form::one()),
            Some(size) if is_block_size(size as usize) => Some(Form {
                size,
                ends: sizes::MOST_ENDS,
                sized: true,
            }),
            Some(_) => None,
        }
    }

    /// Whether the text of a checkpoint says the size of a block.
    pub fn is_sized(self) -> bool
        ensures { result ≡ self.sized }
    {
        self.sized
    }

    /// The bytes of a block, at most 4,096.
    pub fn size(self) -> u32
        ensures value { result ≡ self.size }
        ensures range { result ≤ BLOCK_BYTES }
    {
        self.size
    }

    /// The bytes of a block, as many as a content of the mount has: 512, 1,024, 2,048 or 4,096.
    pub fn block_bytes(self) -> usize
        ensures value { result ≡ self.size }
        ensures one_of { is_size (Some result) ≡ true }
        ensures short { result ≤ BLOCK_BYTES }
    {
        self.size as usize
    }

    /// The bytes that the text of a checkpoint has beside its items: 1 to 36.
    pub fn ends(self) -> u32
        ensures value { result ≡ self.ends }
        ensures least { 1 ≤ result }
        ensures most { result ≤ MOST_ENDS }
    {
        self.ends
    }
}
