//! The parts of a mount, and what several requests ask of them.

ghost use Rattle.std.specs.Prelude.{◌≡◌, ◌≤◌, false, is_some, nat_le, IfErr, IfOk};
ghost use Rattle.xt_base.specs.Calls.{asks_ckpt, asks_flush, is_elsewhere, is_own, shut_down};
ghost use Rattle.xt_base.specs.Legs.{own_count};
ghost use Rattle.xt_base.specs.Maps.{at};
ghost use Rattle.xt_base.specs.Space.{busy_count, is_busy};
ghost use Rattle.xt_base.specs.State.{mount_of};
ghost use Rattle.xt_frames.specs.Shares.{no_contents};
ghost use Rattle.xt_mount.specs.Machines.{state_of};

use crate::accounts::Accounts;
use crate::busy::{beside_ail, beside_cil, beside_flight, most_busy};
use std::alloc::Global;
use xt_base::form::Form;
use xt_base::names::{Block, JobKind, Life, TransNo};
use xt_base::sizes::{BUSY_BLOCKS, MOST_LOG};
use xt_base::steps::Reason;
use xt_frames::share::FrameShare;
use xt_jobs::table::JobTable;
use xt_locks::locks::Locks;

/// One life of a slot: the layers side by side.
#[derive(Debug, Drop)]
pub struct Machine {
    pub alloc: Global,
    pub blocks: u64,
    pub locks: Locks,
    pub accounts: Accounts,
    pub last_trans: u64,
    pub jobs: JobTable,
    /// Whether new transactions are refused.
    pub frozen: bool,
}

impl Machine {
    /// A new mount of a form, with the frames of a share that has no contents. Where memory is refused the share is handed back.
    pub fn new(
        alloc: Global,
        form: Form,
        share: FrameShare,
        life: Life,
        log_bytes: u32,
        blocks: u64,
    ) -> Result<Self, FrameShare>
        requires log { log_bytes ≤ MOST_LOG }
        requires empty { share ≡ no_contents share.slot }
        ensures ok { IfOk result (λ machine. state_of machine ≡ mount_of share.slot life log_bytes blocks form) }
        ensures back { IfErr result (λ back. back ≡ share) }
    {
        let slot = share.slot();
        let Ok(locks) = Locks::new(alloc) else {
            return Err(share);
        };
        match Accounts::over(alloc, form, log_bytes, share) {
            Ok(accounts) => Ok(Machine {
                alloc,
                blocks,
                locks,
                accounts,
                last_trans: 0,
                jobs: JobTable::new(slot, life),
                frozen: false,
            }),
            Err(share) => Err(share),
        }
    }

    /// Ends the mount: the share of its slot, without contents. It takes no memory.
    pub fn into_share(self) -> FrameShare
        ensures { result ≡ no_contents (state_of self).slot }
    {
        let Machine { accounts, jobs, .. } = self;
        accounts.into_share(jobs.slot())
    }

    /// Whether the mount is shut.
    pub fn is_shut(&self) -> bool
        ensures { result ≡ is_some (state_of self.now).shut }
    {
        self.accounts.shut().is_some()
    }

    /// Whether a block is locked, held or on a list.
    pub fn is_busy(&self, block: Block) -> bool
        ensures { result ≡ is_busy (state_of self.now) block }
    {
        self.locks.is_locked(block) || self.accounts.is_listed(block.0)
    }

    /// How many blocks are busy.
    pub fn busy_count(&self) -> usize
        ensures { result ≡ busy_count (state_of self.now) }
    {
        self.locks.owners().len()
            + beside_cil(&self.locks, &self.accounts)
            + beside_flight(&self.locks, &self.accounts)
            + beside_ail(&self.locks, &self.accounts)
    }

    /// Whether there may be no room for one more busy block. Where all lists together are short there is, and nothing is counted.
    pub fn may_be_full(&self) -> bool
        ensures { result ≡ false → nat_le BUSY_BLOCKS (busy_count (state_of self.now)) ≡ false }
    {
        most_busy(&self.locks, &self.accounts) >= BUSY_BLOCKS
    }

    /// Whether there is no room for one more busy block.
    pub fn is_full(&self) -> bool
        ensures { result ≡ nat_le BUSY_BLOCKS (busy_count (state_of self.now)) }
    {
        self.may_be_full() && self.busy_count() >= BUSY_BLOCKS
    }

    /// The recursion count of a block that a transaction has.
    pub fn own_count(&self, trans: TransNo, block: Block) -> Option<u32>
        ensures { result ≡ own_count trans (at block self.now.locks) }
    {
        self.locks.own_count(trans, block)
    }

    /// Whether a transaction has a block.
    pub fn is_own(&self, trans: TransNo, block: Block) -> bool
        ensures { result ≡ is_own (state_of self.now) trans block }
    {
        self.own_count(trans, block).is_some()
    }

    /// Whether somebody else has a block.
    pub fn is_elsewhere(&self, trans: TransNo, block: Block) -> bool
        ensures { result ≡ is_elsewhere (state_of self.now) trans block }
    {
        self.locks.is_locked(block) && !self.is_own(trans, block)
    }

    /// A flush is asked.
    pub fn ask_flush(&mut self)
        ensures { state_of self.new ≡ asks_flush (state_of self.old) }
    {
        self.jobs.ask(JobKind::Flush);
    }

    /// Shuts the mount, for this reason if it was live.
    pub fn shut_down(&mut self, reason: Reason)
        ensures { state_of self.new ≡ shut_down reason (state_of self.old) }
    {
        self.accounts.shut_down(reason);
    }

    /// A checkpoint is asked, if there is something to write.
    pub fn ask_ckpt(&mut self)
        ensures { state_of self.new ≡ asks_ckpt (state_of self.old) }
    {
        if !self.accounts.cil().is_empty() {
            self.jobs.ask(JobKind::Ckpt);
        }
    }

    /// A checkpoint, if there is something to write, and a flush are asked.
    pub fn ask_space(&mut self)
        ensures { state_of self.new ≡ asks_flush (asks_ckpt (state_of self.old)) }
    {
        self.ask_ckpt();
        self.ask_flush();
    }
}
