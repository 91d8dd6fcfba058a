//! Why a line gives no step.

ghost use Rattle.std.specs.Prelude.{◌≡◌};
ghost use Rattle.xt_text.specs.declared.bad_line.BadLine.TheVariants.{Memory};

use std::alloc::AllocError;
use thiserror::Error;

/// Why a line gives no step.
#[derive(Clone, Copy, Debug, PartialEq, Eq, Error)]
pub enum BadLine {
    /// It is not the spelling of any step.
    #[error("not the spelling of any step")]
    Spelling,
    /// A growth was refused.
    #[error("out of memory")]
    Memory,
}

impl From<AllocError> for BadLine {
    ghost from_gives = { λ _ e. e ≡ Memory };

    fn from(_refused: AllocError) -> BadLine {
        BadLine::Memory
    }
}
