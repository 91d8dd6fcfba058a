//! What a mount and a slot are, as plain values: copies that stand still where the mount goes on.

ghost use Rattle.std.specs.Prelude.{◌≡◌};
ghost use Rattle.xt_mount.specs.Slots.{unused};

use bytes::Bytes;
use std::marker::Model;
use xt_base::chunks::Chunks;
use xt_base::content::Content;
use xt_base::form::Form;
use xt_base::names::{Block, Life, Slot};
use xt_base::steps::{Owner, Reason};
use xt_jobs::table::JobTable;
use xt_trans::trans::ChangeState;

/// The contents that a mount keeps: the committed ones of busy blocks, by rising block; the blocks with the fresh mark; and
/// the contents of idle blocks, the most recent first.
#[derive(Debug, Drop)]
pub struct FramesState {
    pub committed: Vec<(u64, Content)>,
    pub fresh: Vec<u64>,
    pub idle: Vec<(u64, Content)>,
}

impl Model for FramesState {
    ghost use Rattle.xt_base.specs.State.{Frames};

    ghost Value = { Frames };

    ghost view = { λ f. record { committed = f.committed.items; fresh = f.fresh.items; idle = f.idle.items } };
}

/// An open transaction: the log bytes of a leg, the legs left, whether it may roll, what its present leg did to the blocks that it
/// changed or invalidated, and the blocks with the hold mark.
#[derive(Debug, Drop)]
pub struct TransState {
    pub unit: u32,
    pub legs: u32,
    pub perm: bool,
    pub changes: Vec<(u64, ChangeState)>,
    pub holds: Vec<Block>,
}

impl Model for TransState {
    ghost use Rattle.xt_base.specs.State.{Transaction};

    ghost Value = { Transaction };

    ghost view = { λ t. record { unit = t.unit; legs = t.legs; perm = t.perm; leg = record { changes = t.changes.items; holds = t.holds.items } } };
}

/// A checkpoint that is being written: its number, its items, and the pieces of its text, which are shared with the mount.
#[derive(Debug, Drop)]
pub struct FlightState {
    pub number: u64,
    pub items: Vec<(u64, Chunks)>,
    pub pieces: Vec<Bytes>,
}

impl Model for FlightState {
    ghost use Rattle.xt_base.specs.State.{Flight};

    ghost Value = { Flight };

    ghost view = { λ f. record { number = f.number; items = f.items.items; pieces = f.pieces.items } };
}

/// The item lists of a mount: the number of the open checkpoint, the commit list, the checkpoint in flight, the active list, and
/// what each landed checkpoint costs that still counts.
#[derive(Debug, Drop)]
pub struct ItemsState {
    pub open_number: u64,
    pub cil: Vec<(u64, Chunks)>,
    pub flight: Option<FlightState>,
    pub ail: Vec<(u64, u64)>,
    pub landed: Vec<(u64, u64)>,
}

impl Model for ItemsState {
    ghost use Rattle.xt_base.specs.State.{Items};

    ghost Value = { Items };

    ghost view = { λ i. record { open_number = i.open_number; cil = i.cil.items; flight = i.flight; ail = i.ail.items; landed = i.landed.items } };
}

/// One life of a slot as a plain value, with its jobs, which say the slot and the life. Clauses see the same state that they see of
/// a mount.
#[derive(Debug, Drop)]
pub struct State {
    pub log_bytes: u32,
    pub blocks: u64,
    pub form: Form,
    pub frames: FramesState,
    pub owners: Vec<(u64, Owner)>,
    pub transactions: Vec<(u64, TransState)>,
    pub last_trans: u64,
    pub items: ItemsState,
    pub jobs: JobTable,
    pub frozen: bool,
    pub shut: Option<Reason>,
}

impl Model for State {
    ghost use Rattle.xt_base.specs.State.{State as MountState};

    ghost Value = { MountState };

    ghost view = { λ s. record {
      slot = s.jobs.slot;
      life = s.jobs.life;
      log_bytes = s.log_bytes;
      blocks = s.blocks;
      form = s.form;
      frames = s.frames;
      owners = s.owners.items;
      transactions = s.transactions.items;
      last_trans = s.last_trans;
      items = s.items;
      jobs = s.jobs.jobs;
      frozen = s.frozen;
      shut = s.shut;
    } };
}

/// A slot as a plain value: its number, the last life given, 0 where none was, and its mount, if there is one. Clauses see the same
/// as of a `MountSlot`.
#[derive(Debug, Drop)]
pub struct SlotState {
    pub slot: Slot,
    pub last_life: Life,
    pub mount: Option<State>,
}

impl Model for SlotState {
    ghost use Rattle.xt_mount.specs.Slots.{SlotState as SlotValue};

    ghost Value = { SlotValue };

    ghost view = { λ s. record { slot = s.slot; last_life = s.last_life; mounted = s.mount } };
}

impl SlotState {
    /// A slot that was never mounted. It takes no memory.
    pub fn empty(slot: Slot) -> Self
        ensures { result ≡ unused slot }
    {
        SlotState {
            slot,
            last_life: Life(0),
            mount: None,
        }
    }

    /// Its number.
    pub fn slot(&self) -> Slot
        ensures { result ≡ self.now.slot }
    {
        self.slot
    }
}
