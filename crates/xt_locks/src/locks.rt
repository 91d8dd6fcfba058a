//! The owners of blocks.

ghost use Rattle.std.specs.Prelude.{ℕ, ◌≡◌, ◌+◌, ◌<◌, if◌then◌else◌, ◌≤◌, ◌==◌, ◌∷◌, ◌++◌, Option, [], Some, None, false, true, filter, filter_map, is_none, is_some, length, not, slice_get, take, drop, IfOk, IfErr, IfSome, IsOk, ◌↔◌};
ghost use Rattle.std.specs.List.{list_any};
ghost use Rattle.xt_base.specs.Calls.{at_end, is_held};
ghost use Rattle.xt_base.specs.Jobs.{waits_on};
ghost use Rattle.xt_base.specs.Legs.{own_count, owned_by};
ghost use Rattle.xt_base.specs.Maps.{at, is_in, put, without};
ghost use Rattle.xt_base.specs.declared.steps.Errno.TheVariants.{Again as IsAgain, Invalid as IsInvalid};
ghost use Rattle.xt_base.specs.declared.steps.Owner.{Owner as Holder};
ghost use Rattle.xt_base.specs.declared.steps.Owner.TheVariants.{Trans as OwnedBy};
ghost use Rattle.xt_locks.specs.Locking.{counted_down, counted_up, first_locked, joined, passed, IsPassedAt};

use std::alloc::{AllocError, Global};
use std::marker::Model;
use xt_base::map::NumberMap;
use xt_base::names::{Block, CkptNo, TransNo};
use xt_base::sizes::ROOM;
use xt_base::steps::{Errno, Owner};

/// The owners of blocks: a finite map, which clauses see as the list of its entries by rising block.
/// A block that is not there is unlocked. It has room for 128, and a mount has at most 64 busy blocks.
#[derive(Debug, Drop)]
pub struct Locks {
    owners: NumberMap<Owner>,
}

impl Model for Locks {
    ghost use Rattle.xt_locks.specs.Locking.{Owners};

    ghost Value = { Owners };

    ghost view = { λ l. l.owners };
}

impl Locks {
    /// No block is owned. The one error is want of memory; no other call takes memory.
    pub fn new(alloc: Global) -> Result<Self, AllocError>
        ensures { IfOk result (λ locks. locks ≡ []) }
    {
        let owners = NumberMap::new(alloc)?;
        Ok(Locks { owners })
    }

    /// The owned blocks with their owners, by rising block.
    pub fn owners(&self) -> &[(u64, Owner)]
        ensures value { result.now ≡ self.now }
        ensures small { length result.now ≤ ROOM }
    {
        self.owners.entries()
    }

    /// Who owns a block.
    pub fn owner(&self, block: Block) -> Option<Owner>
        ensures { result ≡ at block self.now }
    {
        self.owners.get(block.0).copied()
    }

    /// Whether somebody owns a block.
    pub fn is_locked(&self, block: Block) -> bool
        ensures { result ≡ is_in block self.now }
    {
        self.owners.contains(block.0)
    }

    /// Whether a block is held: a leg that ended left it locked, and no transaction has it.
    pub fn is_held(&self, block: Block) -> bool
        ensures { result ≡ is_held (at block self.now) }
    {
        matches!(self.owners.get(block.0), Some(Owner::Held))
    }

    /// Whether some block is held.
    pub fn has_held(&self) -> bool
        ensures { result ≡ list_any (λ e. is_held (Some e.1)) self.now }
    {
        self.owners
            .entries()
            .iter()
            .any(|e| matches!(e.1, Owner::Held))
    }

    /// The recursion count of a block that a transaction owns: 0 after its first lock.
    pub fn own_count(&self, trans: TransNo, block: Block) -> Option<u32>
        ensures { result ≡ own_count trans (at block self.now) }
    {
        match self.owner(block) {
            Some(owner) => count_of(owner, trans),
            None => None,
        }
    }

    /// A first lock of a block (`xfs_trans_get_buf`). `Again` exactly where the block has an owner, and then nothing changes.
    /// A block that the transaction owns is locked once more by `again`.
    pub fn try_lock(&mut self, trans: TransNo, block: Block) -> Result<(), Errno>
        requires strange { own_count trans (at block self.old) ≡ None }
        requires room { is_in block self.old ≡ false → length self.old < ROOM }
        ensures map { self.new ≡ first_locked trans block self.old }
        ensures ok { IsOk result ↔ (is_in block self.old ≡ false) }
        ensures err { IfErr result (λ errno. errno ≡ IsAgain) }
    {
        if self.is_locked(block) {
            return Err(Errno::Again);
        }
        self.owners.put(
            block.0,
            Owner::Trans {
                number: trans,
                count: 0,
            },
        );
        Ok(())
    }

    /// One lock more of a block that the transaction owns (its recursion count in `xfs_trans_get_buf`). `Invalid` where it does
    /// not own the block, or its count is at its end (4,294,967,295); then nothing changes.
    pub fn again(&mut self, trans: TransNo, block: Block) -> Result<(), Errno>
        ensures map { self.new ≡ counted_up trans block (own_count trans (at block self.old)) self.old }
        ensures ok { IsOk result ↔ ((is_some (own_count trans (at block self.old)) ≡ true) × (at_end (own_count trans (at block self.old)) ≡ false)) }
        ensures err { IfErr result (λ errno. errno ≡ IsInvalid) }
    {
        match self.own_count(trans, block) {
            Some(count) if count < u32::MAX => {
                self.keep(trans, block, count + 1);
                Ok(())
            }
            _ => Err(Errno::Invalid),
        }
    }

    /// One lock less of a block that the transaction locked again; a first lock stays.
    pub fn lower(&mut self, trans: TransNo, block: Block)
        ensures { self.new ≡ counted_down trans block (own_count trans (at block self.old)) self.old }
    {
        if let Some(count) = self.own_count(trans, block) {
            if count > 0 {
                self.keep(trans, block, count - 1);
            }
        }
    }

    /// A block that has an owner is the transaction's, with this count.
    fn keep(&mut self, trans: TransNo, block: Block, count: u32)
        requires { is_in block self.old ≡ true }
        ensures { self.new ≡ put block (OwnedBy trans count) self.old }
    {
        self.owners.put(
            block.0,
            Owner::Trans {
                number: trans,
                count,
            },
        );
    }

    /// A block has no owner any more.
    pub fn unlock(&mut self, block: Block)
        ensures { self.new ≡ without block self.old }
    {
        let _owner = self.owners.remove(block.0);
    }

    /// A held block is taken over by a transaction (`xfs_trans_bjoin`), with a first lock. `Invalid` exactly where the block is not held,
    /// and then nothing changes.
    pub fn join(&mut self, trans: TransNo, block: Block) -> Result<(), Errno>
        ensures map { self.new ≡ joined trans block self.old }
        ensures ok { IsOk result ↔ (is_held (at block self.old) ≡ true) }
        ensures err { IfErr result (λ errno. errno ≡ IsInvalid) }
    {
        if !self.is_held(block) {
            return Err(Errno::Invalid);
        }
        self.keep(trans, block, 0);
        Ok(())
    }

    /// The entry at a place.
    fn entry_at(&self, index: usize) -> (u64, Owner)
        requires { index < length self.now }
        ensures { slice_get self.now index ≡ Some result }
    {
        self.owners.entries()[index]
    }

    /// The entry at a place, after its transaction's leg where it is the transaction's; whether it is still there.
    fn pass_at<F: Fn(u64) -> Option<Owner>>(
        &mut self,
        index: usize,
        trans: TransNo,
        next: &F,
    ) -> bool
        requires place { index < length self.old }
        requires call { F.IsAlwaysCallable next.now }
        ensures count { length self.new + (if result then 0 else 1) ≡ length self.old }
        ensures entry { (f : ℕ → Option Holder) → ((b : ℕ) → (o : Option Holder) → F.post next.now b o → o ≡ f b) → IfSome (slice_get self.old index) (λ e. IsPassedAt index (passed trans f e) result self.new self.old) }
    {
        let entry = self.entry_at(index);
        if !is_owned_by(entry.1, trans) {
            return true;
        }
        match next(entry.0) {
            Some(owner) => {
                self.owners.replace_at(index, owner);
                true
            }
            None => {
                self.owners.remove_at(index);
                false
            }
        }
    }

    /// The end of a transaction's leg: each of its blocks is passed on to the owner that `next` names, or is free.
    pub fn end_leg<F: Fn(u64) -> Option<Owner>>(&mut self, trans: TransNo, next: F)
        requires { F.IsAlwaysCallable next }
        ensures { (f : ℕ → Option Holder) → ((b : ℕ) → (o : Option Holder) → F.post next b o → o ≡ f b) → self.new ≡ filter_map (passed trans f) self.old }
    {
        let mut index = 0;
        while index < self.owners.len() {
            if self.pass_at(index, trans, &next) {
                index += 1;
            }
        }
    }

    /// The blocks that wait for this checkpoint are free.
    pub fn free_stale(&mut self, number: CkptNo)
        ensures { self.new ≡ filter (λ e. not (waits_on number e.1)) self.old }
    {
        self.free_waiting(number.0);
    }

    /// The same by the checkpoint's number.
    fn free_waiting(&mut self, number: u64)
        ensures { self.new ≡ filter (λ e. not (waits_on number e.1)) self.old }
    {
        let mut index = 0;
        while index < self.owners.len() {
            if is_waiting_for(self.owners.entries()[index].1, number) {
                self.owners.remove_at(index);
            } else {
                index += 1;
            }
        }
    }
}

/// The recursion count, where the owner is the transaction.
fn count_of(owner: Owner, trans: TransNo) -> Option<u32>
    ensures { result ≡ own_count trans (Some owner) }
{
    match owner {
        Owner::Trans { number, count } => { if number == trans { Some(count) } else { None } }
        _ => None,
    }
}

/// Whether an owner is the transaction.
fn is_owned_by(owner: Owner, trans: TransNo) -> bool
    ensures { result ≡ owned_by trans owner }
{
    match owner {
        Owner::Trans { number, .. } => number == trans,
        _ => false,
    }
}

/// Whether an owner waits for a checkpoint.
fn is_waiting_for(owner: Owner, number: u64) -> bool
    ensures { result ≡ waits_on number owner }
{
    match owner {
        Owner::Stale(ckpt) => ckpt.0 == number,
        _ => false,
    }
}
