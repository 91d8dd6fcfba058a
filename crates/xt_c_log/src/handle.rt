//! What a caller holds of a log.

ghost use Rattle.xt_c_log.specs.Logs.{Log};

use std::alloc::Global;
use std::marker::{Model, Send};

/// What a caller holds of a log, or nothing. All zeros hold nothing.
#[repr(C)]
pub struct Handle {
    pub(crate) at: *mut u8,
    /// 0 where it holds nothing, and then the pointer says nothing.
    pub(crate) holds: u64,
    pub(crate) alloc: Global,
    pub ghost value: { Log },
}

impl Model for Handle {
    ghost use Rattle.std.specs.Box.Ownership.{box_owns};
    ghost use Rattle.std.specs.Prelude.{◌==◌};
    ghost use Rattle.std.specs.contracts.impls.GlobalAllocator.TheImpl.{ghosts};
    ghost use Rattle.xt_c_log.specs.Owning.{owned_unless};
    ghost use Rattle.xt_c_log.specs.contracts.held_log.HeldLog.{the_row};

    ghost also_owns = { λ h. owned_unless (h.holds == 0) (box_owns (ghosts.dealloc_token h.alloc) the_row h.at h.value) };
}

// A handle owns all that it points to, which may go to another thread.
unsafe impl Send for Handle {}
