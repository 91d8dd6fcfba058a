//! The frames of one slot.

ghost use Rattle.std.specs.Prelude.{◌≡◌, [], IfOk};
ghost use Rattle.xt_frames.specs.Shares.{no_contents};

use crate::busy::BusyFrames;
use crate::idle::IdleList;
use std::alloc::{AllocError, Global};
use xt_base::names::Slot;

/// The frames of one slot, for all its lives: room for the contents of 128 busy blocks (a mount has at most 64) and of 64 idle
/// ones, the most recent first. A share names its slot, and owns its frames: what one slot does is never seen in the share of another.
#[derive(Debug, Drop)]
pub struct FrameShare {
    pub(crate) slot: Slot,
    pub(crate) busy: BusyFrames,
    pub(crate) idle: IdleList,
}

impl FrameShare {
    /// The share of a slot, without contents. The one error is want of memory.
    pub(crate) fn new(alloc: Global, slot: Slot) -> Result<Self, AllocError>
        ensures { IfOk result (λ share. share ≡ no_contents slot) }
    {
        let busy = BusyFrames::new(alloc)?;
        let idle = IdleList::new(alloc)?;
        Ok(FrameShare { slot, busy, idle })
    }

    /// The slot whose frames these are.
    pub fn slot(&self) -> Slot
        ensures { result ≡ self.now.slot }
    {
        self.slot
    }

    /// How many clean contents were dropped for want of memory: none, since the share has room for each that it keeps.
    pub fn drops(&self) -> u64
        ensures { result ≡ 0 }
    {
        0
    }
}
