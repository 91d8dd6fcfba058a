//! Whether each block stays busy, or each but one, where a leg was committed or a checkpoint has landed, so that little settles.

ghost use Rattle.std.specs.Prelude.{◌≡◌, is_none, false, not, true, IfSome};
ghost use Rattle.xt_base.specs.Legs.{is_dirty, owned_by};
ghost use Rattle.xt_base.specs.Maps.{at};
ghost use Rattle.xt_base.specs.Space.{flight_items};
ghost use Rattle.xt_mount.specs.Machines.{state_of};
ghost use Rattle.xt_mount.specs.Settling.{OfRest, has_cancel, has_unchanged, has_unchanged_beside};

use crate::machine::Machine;
use crate::opened::LegSeen;
use crate::settle::MayRest;
use xt_base::chunks::Chunks;
use xt_base::names::{Block, TransNo};
use xt_base::steps::Owner;
use xt_locks::locks::Locks;

/// Whether an owner is this transaction.
fn is_of(owner: &Owner, trans: TransNo) -> bool
    ensures { result ≡ owned_by trans owner.now }
{
    matches!(owner, Owner::Trans { number, .. } if number.0 == trans.0)
}

/// Whether a transaction has a block that its leg did not change: it settles where the leg is committed, unless it is listed or held.
fn has_unchanged(locks: &Locks, trans: TransNo, leg: &LegSeen<'_>) -> bool
    ensures { result ≡ has_unchanged trans leg.now locks.now }
{
    locks.owners().iter().any(|(block, owner)| is_of(owner, trans) && !leg.is_changed(*block))
}

/// A block that a transaction has and that its leg did not change, if there is one.
fn some_unchanged(locks: &Locks, trans: TransNo, leg: &LegSeen<'_>) -> Option<u64> {
    for (block, owner) in locks.owners() {
        if is_of(owner, trans) && !leg.is_changed(*block) {
            return Some(*block);
        }
    }
    None
}

/// Whether a transaction has a block beside this one that its leg did not change.
fn has_unchanged_beside(locks: &Locks, trans: TransNo, leg: &LegSeen<'_>, block: u64) -> bool
    ensures { result ≡ has_unchanged_beside block trans leg.now locks.now }
{
    locks.owners().iter().any(|(other, owner)| {
        is_of(owner, trans) && !leg.is_changed(*other) && *other != block
    })
}

/// Whether an item cancels its block: it settles where the checkpoint has landed.
fn has_cancel(items: &[(u64, Chunks)]) -> bool
    ensures { result ≡ has_cancel items.now }
{
    items.iter().any(|(_, chunks)| chunks.is_empty())
}

impl Machine {
    /// Which blocks of a transaction may be free once its leg is committed: its leg changed the others that it has, and those are listed then.
    #[inline(always)]
    pub fn only_unchanged(&self, trans: TransNo) -> MayRest
        ensures { OfRest result (λ block. IfSome (at trans self.now.accounts.transactions) (λ t. has_unchanged_beside block trans t.leg self.now.locks ≡ false)) }
    {
        let Some(opened) = self.accounts.get(trans.0) else {
            return MayRest::Each;
        };
        let leg = opened.leg();
        if !has_unchanged(&self.locks, trans, &leg) {
            return MayRest::Nothing;
        }
        let Some(block) = some_unchanged(&self.locks, trans, &leg) else {
            return MayRest::Each;
        };
        if has_unchanged_beside(&self.locks, trans, &leg, block) {
            return MayRest::Each;
        }
        MayRest::One(Block(block))
    }

    /// Which blocks of a transaction may be free once its leg is given up, where that is clean: it has no other. Each where the leg is dirty.
    pub fn only_clean(&self, trans: TransNo) -> MayRest
        ensures clean { OfRest result (λ _. IfSome (at trans self.now.accounts.transactions) (λ t. is_dirty t.leg ≡ false)) }
        ensures others { OfRest result (λ block. IfSome (at trans self.now.accounts.transactions) (λ t. has_unchanged_beside block trans t.leg self.now.locks ≡ false)) }
    {
        let Some(opened) = self.accounts.get(trans.0) else {
            return MayRest::Each;
        };
        if opened.leg().is_dirty() {
            return MayRest::Each;
        }
        self.only_unchanged(trans)
    }

    /// Whether the mount is live and has a flight that cancels no block.
    pub fn lands_plainly(&self) -> bool
        ensures live { result ≡ true → is_none (state_of self.now).shut ≡ true }
        ensures plain { result ≡ true → has_cancel (flight_items (state_of self.now).items.flight) ≡ false }
    {
        let Some(items) = self.accounts.flight_items() else {
            return false;
        };
        !self.is_shut() && !has_cancel(items)
    }
}
