//! What a caller holds of a mount.

ghost use Rattle.std.specs.Prelude.{◌≡◌};
ghost use Rattle.xt_base.specs.State.{State};

use std::alloc::Global;
use std::marker::{Model, Send};

/// A mount that a caller holds, or none. All zeros hold none.
#[repr(C)]
pub struct Handle {
    pub(crate) at: *mut u8,
    /// 0 where it holds none, and then the pointer says nothing.
    pub(crate) holds: u64,
    pub(crate) alloc: Global,
    pub ghost value: { State },
    /// A handle's mount is of the first slot: a caller that has several numbers them itself.
    pub ghost of_slot: { value.slot ≡ 0 },
}

impl Model for Handle {
    ghost use Rattle.std.specs.Box.Ownership.{box_owns};
    ghost use Rattle.std.specs.Prelude.{◌==◌};
    ghost use Rattle.std.specs.contracts.impls.GlobalAllocator.TheImpl.{ghosts};
    ghost use Rattle.xt_c.specs.Owning.{owned_unless};
    ghost use Rattle.xt_mount.specs.contracts.mount.Mount.{the_row};

    ghost also_owns = { λ h. owned_unless (h.holds == 0) (box_owns (ghosts.dealloc_token h.alloc) the_row h.at h.value) };
}

// A handle owns all that it points to, which may go to another thread.
unsafe impl Send for Handle {}
