//! What a caller holds of a mount: open transactions, and buffers that a leg left held. Each must be spent, and none can be copied.

ghost use Rattle.std.specs.Prelude.{◌≡◌, ◌∷◌, [], MatchOption};
ghost use Rattle.xt_base.specs.Calls.{held_of};

use std::marker::Model;
use xt_base::content::HeldBlocks;
use xt_base::names::{Block, TransNo};
use xt_cell::mount_ref::MountRef;

/// An open transaction. It must be committed or cancelled; a thread that has it may hand it to another.
#[derive(Debug)]
pub struct Trans {
    at: MountRef,
    number: TransNo,
}

impl Trans {
    /// The transaction that an alloc opened.
    pub(crate) fn new(at: MountRef, number: TransNo) -> Self
        ensures at { result.at ≡ at }
        ensures number { result.number ≡ number }
    {
        Trans { at, number }
    }

    /// Spends it: the transaction is over.
    pub(crate) fn spend(self) {
        let Trans { at: _, number: _ } = self;
    }

    /// The mount that it is of.
    pub fn at(&self) -> MountRef
        ensures { result ≡ self.now.at }
    {
        self.at
    }

    /// Its number in that life of the mount.
    pub fn number(&self) -> TransNo
        ensures { result ≡ self.now.number }
    {
        self.number
    }
}

/// A buffer that stayed locked when its leg ended. It must be joined to a transaction, or released.
#[derive(Debug)]
pub struct HeldBuf {
    at: MountRef,
    block: Block,
}

impl HeldBuf {
    /// Spends it: the buffer is another's, or free.
    pub(crate) fn spend(self) {
        let HeldBuf { at: _, block: _ } = self;
    }

    /// The mount that it is of.
    pub fn at(&self) -> MountRef
        ensures { result ≡ self.now.at }
    {
        self.at
    }

    /// The block that it holds.
    pub fn block(&self) -> Block
        ensures { result ≡ self.now.block }
    {
        self.block
    }
}

/// The buffers that a leg left held, ascending by block. They must be taken out one by one; the list is spent when it is empty.
#[derive(Debug)]
pub struct HeldList {
    at: MountRef,
    held: Option<HeldBlocks>,
    /// How many were taken out.
    taken: usize,
}

impl Model for HeldList {
    ghost use Rattle.xt_host.specs.Held.{HeldView, blocks_left};

    ghost Value = { HeldView };

    ghost view = { λ l. record { at = l.at; blocks = blocks_left l.held l.taken } };
}

impl HeldList {
    /// The buffers of the blocks that a reply named, if it named any.
    pub(crate) fn of(at: MountRef, held: Option<HeldBlocks>) -> Self
        ensures at { result.at ≡ at }
        ensures blocks { held_of result.blocks ≡ held }
    {
        HeldList { at, held, taken: 0 }
    }

    /// The first buffer and the rest; None where there is none left.
    pub fn next(self) -> Option<(HeldBuf, HeldList)>
        ensures blocks { MatchOption result (self.blocks ≡ []) (λ split. self.blocks ≡ split.0.block ∷ split.1.blocks) }
        ensures at { MatchOption result (self.blocks ≡ []) (λ split. (split.0.at ≡ self.at) × (split.1.at ≡ self.at)) }
    {
        let HeldList { at, held, taken } = self;
        let held = held?;
        let block = *held.blocks().get(taken)?;
        let rest = HeldList {
            at,
            held: Some(held),
            taken: taken + 1,
        };
        Some((HeldBuf { at, block }, rest))
    }
}
