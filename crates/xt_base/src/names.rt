//! Names and numbers: slots, workers, lives, blocks, transactions, checkpoints, jobs.

ghost use Rattle.std.specs.Prelude.{◌≡◌, ◌<◌, ◌↔◌, IsSome, IfSome};

use crate::sizes::{SLOTS, WORKERS};
use std::marker::Model;

/// A slot of the host, 0 to 15. One volume may be mounted in each.
#[derive(Clone, Copy, Debug, PartialEq, Eq, PartialOrd, Ord)]
pub struct Slot(u8);

impl Model for Slot {
    ghost use Rattle.std.specs.Prelude.{◌<◌, ℕ};
    ghost use Rattle.xt_base.specs.declared.sizes.TheConstants.{SLOTS};

    ghost Value = { ℕ };

    ghost view = { λ s. s.0 };

    ghost invariant = { λ s. s.0 < SLOTS };

    ghost inverse = { λ n. record { 0 = n } };
}

impl Slot {
    /// The slot of an index below 16; else None.
    pub fn new(index: u8) -> Option<Self>
        ensures valid { IsSome result ↔ (index < SLOTS) }
        ensures value { IfSome result (λ slot. slot ≡ index) }
    {
        if (index as usize) < SLOTS {
            Some(Slot(index))
        } else {
            None
        }
    }

    /// Its index, 0 to 15.
    pub fn index(self) -> usize
        ensures value { result ≡ self }
        ensures range { result < SLOTS }
    {
        self.0 as usize
    }
}

/// A worker of the host's pool, 0 to 7.
#[derive(Clone, Copy, Debug, PartialEq, Eq, PartialOrd, Ord)]
pub struct Worker(u8);

impl Model for Worker {
    ghost use Rattle.std.specs.Prelude.{◌<◌, ℕ};
    ghost use Rattle.xt_base.specs.declared.sizes.TheConstants.{WORKERS};

    ghost Value = { ℕ };

    ghost view = { λ w. w.0 };

    ghost invariant = { λ w. w.0 < WORKERS };

    ghost inverse = { λ n. record { 0 = n } };
}

impl Worker {
    /// The worker of an index below 8; else None.
    pub fn new(index: u8) -> Option<Self>
        ensures valid { IsSome result ↔ (index < WORKERS) }
        ensures value { IfSome result (λ worker. worker ≡ index) }
    {
        if (index as usize) < WORKERS {
            Some(Worker(index))
        } else {
            None
        }
    }

    /// Its index, 0 to 7.
    pub fn index(self) -> usize
        ensures value { result ≡ self }
        ensures range { result < WORKERS }
    {
        self.0 as usize
    }
}

/// The life of a mount: how often its slot was mounted, counted from 1.
#[derive(Clone, Copy, Debug, PartialEq, Eq, PartialOrd, Ord)]
pub struct Life(pub u32);

impl Model for Life {
    ghost use Rattle.std.specs.Prelude.{◌<◌, ◌^◌, ℕ};

    ghost Value = { ℕ };

    ghost view = { λ x. x.0 };

    ghost invariant = { λ x. x.0 < 2 ^ 32 };

    ghost inverse = { λ n. record { 0 = n } };
}

/// A block of a home device, counted from 0. How long it is its mount says.
#[derive(Clone, Copy, Debug, PartialEq, Eq, PartialOrd, Ord)]
pub struct Block(pub u64);

impl Model for Block {
    ghost use Rattle.std.specs.Prelude.{◌<◌, ◌^◌, ℕ};

    ghost Value = { ℕ };

    ghost view = { λ x. x.0 };

    ghost invariant = { λ x. x.0 < 2 ^ 64 };

    ghost inverse = { λ n. record { 0 = n } };
}

/// The number of a transaction, counted from 1 in each life of a mount.
#[derive(Clone, Copy, Debug, PartialEq, Eq, PartialOrd, Ord)]
pub struct TransNo(pub u64);

impl Model for TransNo {
    ghost use Rattle.std.specs.Prelude.{◌<◌, ◌^◌, ℕ};

    ghost Value = { ℕ };

    ghost view = { λ x. x.0 };

    ghost invariant = { λ x. x.0 < 2 ^ 64 };

    ghost inverse = { λ n. record { 0 = n } };
}

/// The number of a checkpoint, counted from 1 in each life of a mount; 0 stands for none.
#[derive(Clone, Copy, Debug, PartialEq, Eq, PartialOrd, Ord)]
pub struct CkptNo(pub u64);

impl Model for CkptNo {
    ghost use Rattle.std.specs.Prelude.{◌<◌, ◌^◌, ℕ};

    ghost Value = { ℕ };

    ghost view = { λ x. x.0 };

    ghost invariant = { λ x. x.0 < 2 ^ 64 };

    ghost inverse = { λ n. record { 0 = n } };
}

/// Who calls: the number of a seat, counted from 1 for the whole host.
#[derive(Clone, Copy, Debug, PartialEq, Eq, PartialOrd, Ord)]
pub struct Caller(pub u64);

impl Model for Caller {
    ghost use Rattle.std.specs.Prelude.{◌<◌, ◌^◌, ℕ};

    ghost Value = { ℕ };

    ghost view = { λ x. x.0 };

    ghost invariant = { λ x. x.0 < 2 ^ 64 };

    ghost inverse = { λ n. record { 0 = n } };
}

/// What a job does: write a checkpoint to the log, or write blocks home.
#[derive(Clone, Copy, Debug, PartialEq, Eq)]
pub enum JobKind {
    Ckpt,
    Flush,
}

/// The name of a job. Serials count both kinds together, from 1 in each life of a mount.
#[derive(Clone, Copy, Debug, PartialEq, Eq)]
pub struct JobName {
    pub slot: Slot,
    pub life: Life,
    pub kind: JobKind,
    /// Any u64, so that every spelled name is one.
    pub serial: u64,
}
