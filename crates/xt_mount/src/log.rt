//! Writing bytes in the leg of a transaction.

ghost use Rattle.std.specs.Prelude.{◌≡◌, ◌+◌, ◌<◌, ◌≤◌, ◌||◌, [], None, false, true, length, IfOk, OnErr, OnOk, IfSome};
ghost use Rattle.xt_base.specs.Alone.{is_refusal};
ghost use Rattle.xt_base.specs.Calls.{edited, first_of, gives, is_fresh, is_own, log as log_step, log_refusals, logged_leg, not_fresh, seen, with_leg, with_trans};
ghost use Rattle.xt_base.specs.Chunks.{marks};
ghost use Rattle.xt_base.specs.Legs.{is_stale};
ghost use Rattle.xt_base.specs.Maps.{at, is_in};
ghost use Rattle.xt_base.specs.Sized.{IsSized};
ghost use Rattle.xt_base.specs.Sound.{IsRising, IsSound};
ghost use Rattle.xt_base.specs.Space.{charge};
ghost use Rattle.xt_mount.specs.Accounts.{IsAlone};
ghost use Rattle.xt_mount.specs.Machines.{state_of};

use crate::machine::Machine;
use crate::opened::{LegSeen, Opened};
use std::alloc::AllocError;
use xt_base::chunks::Chunks;
use xt_base::data_ref::DataRef;
use xt_base::names::{Block, TransNo};
use xt_base::sizes::{BLOCK_BYTES, ROOM};
use xt_base::steps::{Errno, Reply};

impl Machine {
    /// Whether a block shows zeros until it is written whole.
    fn is_unread(&self, leg: &LegSeen<'_>, block: Block) -> bool
        ensures { result ≡ (is_fresh (state_of self.now) block || is_stale block leg.now) }
    {
        self.accounts.is_fresh(block.0) || leg.is_stale(block.0)
    }

    /// What refuses a log request.
    #[inline(always)]
    fn log_refusal(
        &self,
        opened: &Opened<'_>,
        trans: TransNo,
        block: Block,
        first: u32,
        bytes: &DataRef<'_>,
    ) -> Option<Errno>
        ensures refusal { result ≡ first_of (log_refusals trans block first bytes.now opened.now (state_of self.now)) }
        ensures some { result ≡ None → 0 < length bytes.now }
        ensures room { result ≡ None → first + length bytes.now ≤ BLOCK_BYTES }
        ensures size { result ≡ None → first + length bytes.now ≤ self.now.accounts.form.size }
        ensures own { result ≡ None → is_own (state_of self.now) trans block ≡ true }
        ensures fits { result ≡ None → charge self.now.accounts.form.ends (edited block [] (marks first (length bytes.now)) opened.now.leg).changes ≤ opened.now.unit }
    {
        if !self.is_own(trans, block) {
            return Some(Errno::Invalid);
        }
        let len = bytes.len();
        let size = self.accounts.form().size() as usize;
        if len == 0 || first as usize + len > size {
            return Some(Errno::Invalid);
        }
        if self.is_unread(&opened.leg(), block) && !(first == 0 && len == size) {
            return Some(Errno::Invalid);
        }
        let marked = Chunks::mark(first, len as u32);
        if !opened.fits_logged(self.accounts.form(), block, marked) {
            return Some(Errno::NoSpace);
        }
        None
    }

    /// Bytes are written in a transaction's leg of a block, which is fresh no more. The one error is want of memory, and then nothing
    /// changes.
    #[inline(always)]
    fn keep_edit(
        &mut self,
        trans: TransNo,
        block: Block,
        first: u32,
        bytes: &DataRef<'_>,
    ) -> Result<(), AllocError>
        requires there { is_in trans self.old.accounts.transactions ≡ true }
        requires rising { IsRising self.old.accounts.transactions }
        requires alone { IsAlone trans block self.old.accounts.transactions }
        requires some { 0 < length bytes.now }
        requires within { first + length bytes.now ≤ BLOCK_BYTES }
        requires seen { IfSome (at trans self.old.accounts.transactions) (λ t. first + length bytes.now ≤ length (seen self.old.accounts.form.size block t.leg self.old.accounts.frames)) }
        requires few { IfSome (at trans self.old.accounts.transactions) (λ t. is_in block t.leg.changes ≡ false → length t.leg.changes + length t.leg.holds < ROOM) }
        requires fits { IfSome (at trans self.old.accounts.transactions) (λ t. charge self.old.accounts.form.ends (edited block [] (marks first (length bytes.now)) t.leg).changes ≤ t.unit) }
        ensures ok { OnOk result (IfSome (at trans self.old.accounts.transactions) (λ t. state_of self.new ≡ not_fresh block (with_leg trans t (logged_leg self.old.accounts.form.size block first bytes.now self.old.accounts.frames t.leg) (state_of self.old)))) }
        ensures err { OnErr result (state_of self.new ≡ state_of self.old) }
    {
        self.accounts
            .log(self.alloc, trans.0, block.0, first, bytes)?;
        self.accounts.leave_fresh(block.0);
        Ok(())
    }

    /// Writes bytes in the leg of a transaction, from `first` on, and marks their chunks. The room for the log vector that a commit makes of
    /// them is taken here, so that a commit takes none.
    #[inline(always)]
    pub fn log(
        &mut self,
        trans: TransNo,
        block: Block,
        first: u32,
        bytes: &DataRef<'_>,
    ) -> Result<Reply, AllocError>
        requires sound { IsSound (state_of self.old) }
        requires sized { IsSized (state_of self.old) }
        ensures ok { IfOk result (λ reply. gives reply (state_of self.new) ≡ with_trans (at trans self.old.accounts.transactions) (state_of self.old) (log_step trans block first bytes.now (state_of self.old))) }
        ensures err { OnErr result (state_of self.new ≡ state_of self.old) }
        ensures want { OnErr result (is_refusal (with_trans (at trans self.old.accounts.transactions) (state_of self.old) (log_step trans block first bytes.now (state_of self.old))).reply ≡ false) }
    {
        let Some(opened) = self.accounts.get(trans.0) else {
            return Ok(Reply::Refused(Errno::Invalid));
        };
        if let Some(errno) = self.log_refusal(&opened, trans, block, first, bytes) {
            return Ok(Reply::Refused(errno));
        }
        self.keep_edit(trans, block, first, bytes)?;
        Ok(Reply::Okay)
    }
}
