//! The end of a leg: its blocks pass on, and its changes are committed or given up.

ghost use Rattle.std.specs.Prelude.{◌≡◌, ◌&&◌, false, is_none, is_some, filter_map, IfSome, true};
ghost use Rattle.xt_base.specs.Calls.{closed, is_no_room, legs_after, with_legs};
ghost use Rattle.xt_base.specs.Legs.{aborted, ended, is_dirty, owner_aborted, owner_after};
ghost use Rattle.xt_base.specs.Maps.{at, is_in};
ghost use Rattle.xt_base.specs.Sized.{IsSized};
ghost use Rattle.xt_base.specs.Sound.{IsSound};
ghost use Rattle.xt_mount.specs.Ending.{owner_kept, owner_left};
ghost use Rattle.xt_mount.specs.Machines.{state_of};

use crate::machine::Machine;
use crate::opened::LegSeen;
use xt_base::names::{CkptNo, TransNo};
use xt_base::steps::Owner;
use xt_locks::locks::Locks;

impl Machine {
    /// A transaction ends, and its leg is committed. It takes no memory.
    #[inline(always)]
    pub fn close(&mut self, trans: TransNo)
        requires sound { IsSound (state_of self.old) }
        requires sized { IsSized (state_of self.old) }
        requires there { is_in trans self.old.accounts.transactions ≡ true }
        requires kept { IfSome (at trans self.old.accounts.transactions) (λ t. (is_dirty t.leg && is_some self.old.accounts.shut) ≡ false) }
        ensures { IfSome (at trans self.old.accounts.transactions) (λ t. state_of self.new ≡ closed trans (ended trans t.leg (state_of self.old))) }
    {
        let Some(opened) = self.accounts.get(trans.0) else {
            unreachable!();
        };
        pass_on(
            &mut self.locks,
            trans,
            &opened.leg(),
            self.accounts.open_number(),
        );
        self.accounts.commit(trans.0);
    }

    /// A leg is committed, and the next one of its transaction begins. It takes no memory.
    pub fn next_leg(&mut self, trans: TransNo)
        requires sound { IsSound (state_of self.old) }
        requires sized { IsSized (state_of self.old) }
        requires there { is_in trans self.old.accounts.transactions ≡ true }
        requires live { is_none self.old.accounts.shut ≡ true }
        requires room { IfSome (at trans self.old.accounts.transactions) (λ t. is_no_room trans t (state_of self.old) ≡ false) }
        ensures { IfSome (at trans self.old.accounts.transactions) (λ t. state_of self.new ≡ with_legs trans (legs_after t.legs) t (ended trans t.leg (state_of self.old))) }
    {
        let Some(opened) = self.accounts.get(trans.0) else {
            unreachable!();
        };
        pass_on(
            &mut self.locks,
            trans,
            &opened.leg(),
            self.accounts.open_number(),
        );
        self.accounts.roll(trans.0);
    }

    /// A transaction ends, and its leg is given up, on a live mount only a clean one. It takes no memory.
    pub fn close_aborted(&mut self, trans: TransNo)
        requires sound { IsSound (state_of self.old) }
        requires there { is_in trans self.old.accounts.transactions ≡ true }
        requires kept { IfSome (at trans self.old.accounts.transactions) (λ t. (is_dirty t.leg && is_none self.old.accounts.shut) ≡ false) }
        ensures { IfSome (at trans self.old.accounts.transactions) (λ t. state_of self.new ≡ closed trans (aborted trans t.leg (state_of self.old))) }
    {
        let Some(opened) = self.accounts.get(trans.0) else {
            unreachable!();
        };
        pass_held(&mut self.locks, trans, &opened.leg());
        self.accounts.cancel(trans.0);
    }

    /// A leg of a shut mount is given up, and its transaction stays with no leg left. It takes no memory.
    pub fn give_up_leg(&mut self, trans: TransNo)
        requires sound { IsSound (state_of self.old) }
        requires there { is_in trans self.old.accounts.transactions ≡ true }
        requires shut { is_some self.old.accounts.shut ≡ true }
        ensures { IfSome (at trans self.old.accounts.transactions) (λ t. state_of self.new ≡ with_legs trans 0 t (aborted trans t.leg (state_of self.old))) }
    {
        let Some(opened) = self.accounts.get(trans.0) else {
            unreachable!();
        };
        pass_held(&mut self.locks, trans, &opened.leg());
        self.accounts.give_up(trans.0);
    }
}

/// Who has a block of a leg that was committed: an invalidated one waits for the open checkpoint, one with the hold mark is
/// held, another is free.
fn owner_left(leg: &LegSeen<'_>, number: CkptNo, block: u64) -> Option<Owner>
    ensures { result ≡ owner_left leg.now number block }
{
    if leg.is_stale(block) {
        Some(Owner::Stale(number))
    } else {
        owner_kept(leg, block)
    }
}

/// Who has a block of a leg that was given up: one with the hold mark is held, another is free.
fn owner_kept(leg: &LegSeen<'_>, block: u64) -> Option<Owner>
    ensures { result ≡ owner_kept leg.now block }
{
    let stays = leg.is_held(block);
    if stays { Some(Owner::Held) } else { None }
}

/// The blocks of a leg that was committed pass on.
#[inline(always)]
fn pass_on(locks: &mut Locks, trans: TransNo, leg: &LegSeen<'_>, number: CkptNo)
    ensures { locks.new ≡ filter_map (owner_after trans leg.now number) locks.old }
{
    locks.end_leg(trans, |block| owner_left(leg, number, block));
}

/// The blocks of a leg that was given up pass on.
fn pass_held(locks: &mut Locks, trans: TransNo, leg: &LegSeen<'_>)
    ensures { locks.new ≡ filter_map (owner_aborted trans leg.now) locks.old }
{
    locks.end_leg(trans, |block| owner_kept(leg, block));
}
