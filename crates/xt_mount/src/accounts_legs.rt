//! The legs in the accounts of a mount: begun and written, and ended, with what their tickets are granted.

ghost use Rattle.std.specs.Prelude.{◌≡◌, ◌+◌, ◌*◌, ◌≤◌, ◌<◌, ◌&&◌, [], false, true, is_none, length, nat_lt, IfOk, IfSome, OnOk, OnErr};
ghost use Rattle.xt_base.specs.Calls.{edited, invalidated, legs_after, logged_leg, new_trans, seen, without_hold};
ghost use Rattle.xt_base.specs.Chunks.{marks};
ghost use Rattle.xt_base.specs.Legs.{clean_leg, is_dirty, with_marks};
ghost use Rattle.xt_base.specs.Maps.{at, has, is_in, with_member};
ghost use Rattle.xt_base.specs.Sound.{IsRising};
ghost use Rattle.xt_base.specs.Space.{charge, cost};
ghost use Rattle.xt_mount.specs.Accounts.{AreAlone, IsAlone, closed_in, kept_in, legs_in, lost_in, opened_in, releg, used_in};
ghost use Rattle.xt_journal.specs.Keeping.{HaveChunks};
ghost use Rattle.xt_resv.specs.Ledgers.{is_invalid, is_no_room};
ghost use Rattle.xt_resv.specs.Mounts.{grant_of, ledger};

use crate::accounts::Accounts;
use crate::open_trans::OpenTrans;
use std::alloc::{AllocError, Global};
use xt_base::data_ref::DataRef;
use xt_base::sizes::{BLOCK_BYTES, ROOM};
use xt_trans::trans::TransRec;

impl Accounts {
    /// Opens a transaction of `count` legs of `unit` log bytes under a number above those that are open. The one error is want
    /// of memory, and then nothing changes.
    #[inline(always)]
    pub fn begin(
        &mut self,
        alloc: Global,
        trans: u64,
        unit: u32,
        count: u32,
        perm: bool,
    ) -> Result<(), AllocError>
        requires valid { is_invalid unit count perm self.old.log_bytes ≡ false }
        requires space { nat_lt self.old.log_bytes (used_in self.old + unit * count) ≡ false }
        requires rising { IsRising self.old.transactions }
        requires free { is_in trans self.old.transactions ≡ false }
        requires few { length self.old.transactions < ROOM }
        ensures ok { OnOk result (self.new ≡ opened_in trans (new_trans unit count perm) self.old) }
        ensures err { OnErr result (self.new ≡ self.old) }
    {
        let leg = clean_leg_of(&mut self.spare, alloc)?;
        match self.space.grant(unit, count, perm) {
            Ok(ticket) => self
                .transactions
                .put_new(trans, OpenTrans::new(ticket, leg)),
            Err(_) => unreachable!(),
        }
        Ok(())
    }

    /// Writes bytes in the leg of a transaction, from `first` on, and marks and charges their chunks. The room for the log vector that
    /// a commit makes of them is taken here, so that a commit takes none. The one error is want of memory, and then nothing changes.
    pub fn log(
        &mut self,
        alloc: Global,
        trans: u64,
        block: u64,
        first: u32,
        bytes: &DataRef<'_>,
    ) -> Result<(), AllocError>
        requires there { is_in trans self.old.transactions ≡ true }
        requires rising { IsRising self.old.transactions }
        requires alone { IsAlone trans block self.old.transactions }
        requires some { 0 < length bytes.now }
        requires within { first + length bytes.now ≤ BLOCK_BYTES }
        requires seen { IfSome (at trans self.old.transactions) (λ t. first + length bytes.now ≤ length (seen self.old.form.size block t.leg self.old.frames)) }
        requires few { IfSome (at trans self.old.transactions) (λ t. is_in block t.leg.changes ≡ false → length t.leg.changes + length t.leg.holds < ROOM) }
        requires fits { IfSome (at trans self.old.transactions) (λ t. charge self.old.form.ends (edited block [] (marks first (length bytes.now)) t.leg).changes ≤ t.unit) }
        ensures ok { OnOk result (IfSome (at trans self.old.transactions) (λ t. self.new ≡ releg trans t (logged_leg self.old.form.size block first bytes.now self.old.frames t.leg) self.old)) }
        ensures err { OnErr result (self.new ≡ self.old) }
    {
        let opened = self.transactions.value_mut(trans);
        opened.log(&mut self.journal, alloc, block, first, bytes)?;
        Ok(())
    }

    /// The leg of a transaction invalidates a block. It takes no memory.
    pub fn inval(&mut self, trans: u64, block: u64)
        requires there { is_in trans self.old.transactions ≡ true }
        requires rising { IsRising self.old.transactions }
        requires few { IfSome (at trans self.old.transactions) (λ t. is_in block t.leg.changes ≡ false → length t.leg.changes + length t.leg.holds < ROOM) }
        requires alone { IsAlone trans block self.old.transactions }
        requires fits { IfSome (at trans self.old.transactions) (λ t. charge self.old.form.ends (invalidated block t.leg).changes ≤ t.unit) }
        ensures { IfSome (at trans self.old.transactions) (λ t. self.new ≡ releg trans t (invalidated block t.leg) self.old) }
    {
        let opened = self.transactions.value_mut(trans);
        opened.inval(&mut self.journal, block);
    }

    /// A block has the hold mark in the leg of a transaction. It takes no memory.
    pub fn hold(&mut self, trans: u64, block: u64)
        requires there { is_in trans self.old.transactions ≡ true }
        requires rising { IsRising self.old.transactions }
        requires few { IfSome (at trans self.old.transactions) (λ t. has t.leg.holds block ≡ false → length t.leg.changes + length t.leg.holds < ROOM) }
        ensures { IfSome (at trans self.old.transactions) (λ t. self.new ≡ releg trans t (record t.leg { holds = with_member block t.leg.holds }) self.old) }
    {
        let opened = self.transactions.value_mut(trans);
        opened.hold(block);
    }

    /// A block has no hold mark in the leg of a transaction. It takes no memory.
    pub fn unhold(&mut self, trans: u64, block: u64)
        requires there { is_in trans self.old.transactions ≡ true }
        requires rising { IsRising self.old.transactions }
        ensures { IfSome (at trans self.old.transactions) (λ t. self.new ≡ releg trans t (without_hold block t.leg) self.old) }
    {
        let opened = self.transactions.value_mut(trans);
        opened.unhold(block);
    }

    // ---- ends of legs
    /// A transaction ends, and its leg is committed: its edits are the committed contents, and its marks are joined to the
    /// commit list; these are of chunks that its contents have. It takes no memory.
    pub fn commit(&mut self, trans: u64)
        requires there { is_in trans self.old.transactions ≡ true }
        requires alone { IfSome (at trans self.old.transactions) (λ t. AreAlone trans t.leg.changes self.old.transactions) }
        requires contents { IfSome (at trans self.old.transactions) (λ t. length self.old.frames.committed + length t.leg.changes ≤ ROOM) }
        requires list { IfSome (at trans self.old.transactions) (λ t. length self.old.items.cil + length t.leg.changes ≤ ROOM) }
        requires chunks { IfSome (at trans self.old.transactions) (λ t. HaveChunks self.old.items.cil t.leg.changes) }
        requires paid { IfSome (at trans self.old.transactions) (λ t. cost self.old.form.ends (with_marks t.leg.changes self.old.items.cil) ≤ cost self.old.form.ends self.old.items.cil + t.unit * t.legs) }
        ensures { IfSome (at trans self.old.transactions) (λ t. self.new ≡ closed_in trans (kept_in t self.old)) }
    {
        let _rise = self.transactions.entries();
        let Some(opened) = self.transactions.remove(trans) else {
            unreachable!();
        };
        let (ticket, mut leg) = opened.into_parts();
        leg.changes_rise();
        self.journal.keep_changes(&mut leg);
        self.spare = Some(leg);
        self.space.commit(ticket, self.journal.cil_cost());
    }

    /// A leg is committed, and the next one of its transaction begins. It takes no memory.
    pub fn roll(&mut self, trans: u64)
        requires there { is_in trans self.old.transactions ≡ true }
        requires alone { IfSome (at trans self.old.transactions) (λ t. AreAlone trans t.leg.changes self.old.transactions) }
        requires rising { IsRising self.old.transactions }
        requires contents { IfSome (at trans self.old.transactions) (λ t. length self.old.frames.committed + length t.leg.changes ≤ ROOM) }
        requires list { IfSome (at trans self.old.transactions) (λ t. length self.old.items.cil + length t.leg.changes ≤ ROOM) }
        requires chunks { IfSome (at trans self.old.transactions) (λ t. HaveChunks self.old.items.cil t.leg.changes) }
        requires legs { IfSome (at trans self.old.transactions) (λ t. 1 ≤ t.legs) }
        requires paid { IfSome (at trans self.old.transactions) (λ t. cost self.old.form.ends (with_marks t.leg.changes self.old.items.cil) ≤ cost self.old.form.ends self.old.items.cil + t.unit) }
        requires room { IfSome (at trans self.old.transactions) (λ t. is_no_room (grant_of t) (cost self.old.form.ends (with_marks t.leg.changes self.old.items.cil)) (ledger self.old.form.ends self.old.log_bytes self.old.transactions self.old.items) ≡ false) }
        ensures { IfSome (at trans self.old.transactions) (λ t. self.new ≡ legs_in trans (legs_after t.legs) t (kept_in t self.old)) }
    {
        let opened = self.transactions.value_mut(trans);
        opened.roll(&mut self.journal, &mut self.space);
    }

    /// A transaction ends, and its leg is given up, on a live mount only a clean one. It takes no memory.
    pub fn cancel(&mut self, trans: u64)
        requires there { is_in trans self.old.transactions ≡ true }
        requires alone { IfSome (at trans self.old.transactions) (λ t. AreAlone trans t.leg.changes self.old.transactions) }
        requires kept { IfSome (at trans self.old.transactions) (λ t. (is_dirty t.leg && is_none self.old.shut) ≡ false) }
        requires fresh { IfSome (at trans self.old.transactions) (λ t. length self.old.frames.fresh + length t.leg.changes ≤ ROOM) }
        ensures { IfSome (at trans self.old.transactions) (λ t. self.new ≡ closed_in trans (lost_in t self.old)) }
    {
        let _rise = self.transactions.entries();
        let Some(opened) = self.transactions.remove(trans) else {
            unreachable!();
        };
        let (ticket, mut leg) = opened.into_parts();
        self.journal.lose_leg(&mut leg);
        self.spare = Some(leg);
        self.space.give_back(ticket);
    }

    /// A leg is given up, on a live mount only a clean one, and its transaction stays with no leg left. It takes no memory.
    pub fn give_up(&mut self, trans: u64)
        requires there { is_in trans self.old.transactions ≡ true }
        requires alone { IfSome (at trans self.old.transactions) (λ t. AreAlone trans t.leg.changes self.old.transactions) }
        requires kept { IfSome (at trans self.old.transactions) (λ t. (is_dirty t.leg && is_none self.old.shut) ≡ false) }
        requires rising { IsRising self.old.transactions }
        requires fresh { IfSome (at trans self.old.transactions) (λ t. length self.old.frames.fresh + length t.leg.changes ≤ ROOM) }
        ensures { IfSome (at trans self.old.transactions) (λ t. self.new ≡ legs_in trans 0 t (lost_in t self.old)) }
    {
        let opened = self.transactions.value_mut(trans);
        opened.give_up(&mut self.journal, &mut self.space);
    }
}

/// A leg that did nothing: the spare one, or a new one. The one error is want of memory.
fn clean_leg_of(spare: &mut Option<TransRec>, alloc: Global) -> Result<TransRec, AllocError>
    ensures { IfOk result (λ leg. leg ≡ clean_leg) }
{
    match spare.take() {
        Some(mut leg) => {
            leg.next_leg();
            Ok(leg)
        }
        None => TransRec::new(alloc),
    }
}
