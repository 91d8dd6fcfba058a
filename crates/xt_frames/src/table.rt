//! The frames of all slots, made at once.

ghost use Rattle.std.specs.Prelude.{◌≡◌, ◌<◌, ◌≤◌, ◌+◌, None, Some, length, slice_set, IfOk, IfSome};
ghost use Rattle.xt_base.specs.declared.sizes.TheConstants.{SLOTS};
ghost use Rattle.xt_frames.specs.Shares.{share_at, AreThere};

use crate::share::FrameShare;
use std::alloc::{AllocError, Global};
use std::marker::Model;
use std::mem;
use xt_base::names::Slot;

/// The frames of some slots, made at once: a share for each. A share that was taken is not there until it is given back, so
/// it is in one hand alone. Clauses see at each slot's place its share, if it is there.
#[derive(Debug, Drop)]
pub struct FrameTable {
    shares: Vec<Option<FrameShare>>,
}

impl Model for FrameTable {
    ghost use Rattle.std.specs.Prelude.{List, Option};
    ghost use Rattle.xt_frames.specs.declared.share.FrameShare.{FrameShare as AShare};

    ghost Value = { List (Option AShare) };

    ghost use Rattle.xt_frames.specs.Shares.{AreOwn};

    ghost view = { λ t. t.shares.items };

    ghost invariant = { λ t. AreOwn t.shares.items };
}

/// The slot of a number below sixteen.
fn slot_at(number: u8) -> Slot
    requires { number < SLOTS }
    ensures { result ≡ number }
{
    match Slot::new(number) {
        Some(slot) => slot,
        None => unreachable!(),
    }
}

/// The shares of so many slots, without contents. The one error is want of memory.
fn empty_shares(alloc: Global, mounts: u8) -> Result<Vec<Option<FrameShare>>, AllocError>
    requires { mounts ≤ SLOTS }
    ensures count { IfOk result (λ shares. length shares.items ≡ mounts) }
    ensures there { IfOk result (λ shares. AreThere 0 mounts shares.items) }
{
    let mut shares = Vec::with_capacity(alloc, mounts as usize)?;
    for number in 0..mounts {
        shares.push(Some(FrameShare::new(alloc, slot_at(number))?))?;
    }
    Ok(shares)
}

impl FrameTable {
    /// The shares of the slots from 0 on, 16 at most, without contents. The one error is want of memory.
    pub fn new(alloc: Global, mounts: u8) -> Result<Self, AllocError>
        requires { mounts ≤ SLOTS }
        ensures count { IfOk result (λ table. length table ≡ mounts) }
        ensures there { IfOk result (λ table. AreThere 0 mounts table) }
    {
        let shares = empty_shares(alloc, mounts)?;
        Ok(FrameTable { shares })
    }

    /// Takes the share of a slot; None where it was taken and not given back, or never made.
    pub fn take_share(&mut self, slot: Slot) -> Option<FrameShare>
        ensures value { result ≡ share_at slot self.old }
        ensures own { IfSome result (λ share. share.slot ≡ slot) }
        ensures rest { self.new ≡ slice_set self.old slot None }
    {
        let index = slot.index();
        if index < self.shares.len() {
            mem::replace(&mut self.shares[index], None)
        } else {
            None
        }
    }

    /// Puts a share back at its slot's place.
    pub fn give_back(&mut self, share: FrameShare)
        requires { share.slot < length self.old }
        ensures { self.new ≡ slice_set self.old share.slot (Some share) }
    {
        let index = share.slot().index();
        self.shares[index] = Some(share);
    }
}
