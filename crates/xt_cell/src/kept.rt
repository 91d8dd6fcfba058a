//! Values that the book of a slot and a seat's receipt both keep.

ghost use Rattle.std.specs.Prelude.{◌≡◌, IfOk};

use std::alloc::{AllocError, Global};
use std::marker::Model;
use std::sync::Arc;

/// Who owns a value that is kept.
#[derive(Drop)]
enum Owner<T: Drop> {
    /// It is small, and was made for this place.
    Own(T),
    /// It has other owners too.
    Shared(Arc<T, Global>),
}

/// A value that is kept and only read. A contract sees the value.
#[derive(Drop)]
pub struct Kept<T: Drop> {
    owner: Owner<T>,
}

impl<T: Drop> Model for Kept<T> {
    ghost use Rattle.xt_cell.specs.Keeping.{value_of};

    ghost Value = { T };

    ghost view = { λ k. value_of k.owner };
}

impl<T: Drop> Kept<T> {
    /// A small value, made for this place.
    #[inline(always)]
    pub(crate) fn own(value: T) -> Self
        ensures { result ≡ value }
    {
        Kept {
            owner: Owner::Own(value),
        }
    }

    /// A value with two owners. The one error is want of memory.
    pub(crate) fn two(alloc: Global, value: T) -> Result<(Self, Self), AllocError>
        ensures first { IfOk result (λ two. two.0 ≡ value) }
        ensures second { IfOk result (λ two. two.1 ≡ value) }
    {
        let first = Arc::new(alloc, value)?;
        let second = Arc::try_clone(&first)?;
        Ok((
            Kept {
                owner: Owner::Shared(first),
            },
            Kept {
                owner: Owner::Shared(second),
            },
        ))
    }

    /// The value.
    pub fn get(&self) -> &T
        ensures { result.now ≡ self.now }
    {
        match &self.owner {
            Owner::Own(value) => value,
            Owner::Shared(shared) => shared,
        }
    }
}
