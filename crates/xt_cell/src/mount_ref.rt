//! Which mount is meant.

use xt_base::names::{Life, Slot};

/// One mount of the host: a slot, and which of its lives. It may be copied, and outlives its mount: a call of another life is `ESTALE`.
#[derive(Clone, Copy, Debug, PartialEq, Eq)]
pub struct MountRef {
    pub slot: Slot,
    pub life: Life,
}
