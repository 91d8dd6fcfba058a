//! A mount as a plain value: its layers, copied one by one.

ghost use Rattle.std.specs.Prelude.{◌≡◌, ◌++◌, IfOk};
ghost use Rattle.xt_mount.specs.Machines.{state_of};

use crate::accounts::Accounts;
use crate::ckpt::shared_pieces;
use crate::machine::Machine;
use crate::opened::Opened;
use crate::state::{FlightState, FramesState, ItemsState, State, TransState};
use std::alloc::{AllocError, Global};

impl Machine {
    /// The mount as a plain value. The one error is want of memory.
    pub fn snapshot(&self) -> Result<State, AllocError>
        ensures { IfOk result (λ state. state ≡ state_of self.now) }
    {
        let frames = frames_copy(self.alloc, &self.accounts)?;
        let owners = copies_of(self.alloc, self.locks.owners())?;
        let transactions = transactions_copy(self.alloc, &self.accounts)?;
        let items = items_copy(self.alloc, &self.accounts)?;
        Ok(State {
            log_bytes: self.accounts.log_bytes(),
            blocks: self.blocks,
            form: self.accounts.form(),
            frames,
            owners,
            transactions,
            last_trans: self.last_trans,
            items,
            jobs: self.jobs.copy(),
            frozen: self.frozen,
            shut: self.accounts.shut(),
        })
    }
}

/// Some values, copied. The one error is want of memory.
fn copies_of<T: Copy>(alloc: Global, values: &[T]) -> Result<Vec<T>, AllocError>
    ensures { IfOk result (λ copies. copies.items ≡ values.now) }
{
    let mut copies = Vec::with_capacity(alloc, values.len())?;
    copies.extend_from_slice(values)?;
    Ok(copies)
}

/// The contents that a mount keeps, copied. The one error is want of memory.
fn frames_copy(alloc: Global, accounts: &Accounts) -> Result<FramesState, AllocError>
    ensures { IfOk result (λ copy. copy ≡ accounts.now.frames) }
{
    let committed = accounts.committed_copies(alloc)?;
    let fresh = accounts.fresh_copies(alloc)?;
    let idle = accounts.idle_copies(alloc)?;
    Ok(FramesState {
        committed,
        fresh,
        idle,
    })
}

/// An open transaction, copied. The one error is want of memory.
fn trans_copy(alloc: Global, opened: &Opened<'_>) -> Result<TransState, AllocError>
    ensures { IfOk result (λ copy. copy ≡ opened.now) }
{
    let changes = opened.leg().changes(alloc)?;
    let holds = opened.leg().holds(alloc)?;
    Ok(TransState {
        unit: opened.unit(),
        legs: opened.legs(),
        perm: opened.perm(),
        changes,
        holds,
    })
}

/// The open transactions, copied. The one error is want of memory.
fn transactions_copy(
    alloc: Global,
    accounts: &Accounts,
) -> Result<Vec<(u64, TransState)>, AllocError>
    ensures { IfOk result (λ copies. copies.items ≡ accounts.now.transactions) }
{
    let mut copies = Vec::new(alloc);
    let mut index = 0;
    while let Some((number, opened)) = accounts.opened_at(index) {
        copies.push((number, trans_copy(alloc, &opened)?))?;
        index += 1;
    }
    Ok(copies)
}

/// The checkpoint in flight, if there is one, copied; its pieces are shared. The one error is want of memory.
fn flight_copy(alloc: Global, accounts: &Accounts) -> Result<Option<FlightState>, AllocError>
    ensures { IfOk result (λ copy. copy ≡ accounts.now.items.flight) }
{
    let (Some(items), Some(number)) = (accounts.flight_items(), accounts.flight_number()) else {
        return Ok(None);
    };
    let items = copies_of(alloc, items)?;
    let pieces = shared_pieces(alloc, accounts.pieces())?;
    Ok(Some(FlightState {
        number: number.0,
        items,
        pieces,
    }))
}

/// What landed checkpoints cost, copied. The one error is want of memory.
fn landed_copy(alloc: Global, accounts: &Accounts) -> Result<Vec<(u64, u64)>, AllocError>
    ensures { IfOk result (λ copies. copies.items ≡ accounts.now.items.landed) }
{
    let (older, younger) = accounts.landed();
    let mut copies = copies_of(alloc, older)?;
    copies.extend_from_slice(younger)?;
    Ok(copies)
}

/// The item lists of a mount, copied. The one error is want of memory.
fn items_copy(alloc: Global, accounts: &Accounts) -> Result<ItemsState, AllocError>
    ensures { IfOk result (λ copy. copy ≡ accounts.now.items) }
{
    let cil = copies_of(alloc, accounts.cil())?;
    let flight = flight_copy(alloc, accounts)?;
    let ail = copies_of(alloc, accounts.ail())?;
    let landed = landed_copy(alloc, accounts)?;
    Ok(ItemsState {
        open_number: accounts.open_number().0,
        cil,
        flight,
        ail,
        landed,
    })
}
