//! Opening a transaction.

ghost use Rattle.std.specs.Prelude.{◌≡◌, ◌<◌, None, false, length, IfOk, OnErr};
ghost use Rattle.xt_base.specs.Alone.{is_refusal};
ghost use Rattle.xt_base.specs.Calls.{alloc as alloc_step, alloc_refusals, first_of, gives};
ghost use Rattle.xt_base.specs.Sound.{IsSound};
ghost use Rattle.xt_mount.specs.Machines.{state_of};
ghost use Rattle.xt_resv.specs.Ledgers.{is_invalid};

use crate::machine::Machine;
use std::alloc::AllocError;
use xt_base::names::TransNo;
use xt_base::sizes::OPEN_TRANSACTIONS;
use xt_base::steps::{Errno, Reply};

impl Machine {
    /// What refuses an alloc before the space does.
    fn alloc_refusal(&self, unit: u32, count: u32, perm: bool) -> Option<Errno>
        ensures refusal { result ≡ first_of (alloc_refusals unit count perm (state_of self.now)) }
        ensures valid { result ≡ None → is_invalid unit count perm self.now.accounts.log_bytes ≡ false }
        ensures number { result ≡ None → self.now.last_trans < 18446744073709551615 }
        ensures few { result ≡ None → length self.now.accounts.transactions < OPEN_TRANSACTIONS }
    {
        if self.accounts.is_invalid(unit, count, perm) {
            return Some(Errno::Invalid);
        }
        if self.is_shut() {
            return Some(Errno::Io);
        }
        if self.frozen {
            return Some(Errno::Again);
        }
        if self.last_trans == u64::MAX {
            return Some(Errno::NoSpace);
        }
        if self.accounts.open_count() >= OPEN_TRANSACTIONS {
            return Some(Errno::Again);
        }
        None
    }

    /// Opens a transaction of `count` legs of `unit` log bytes. Where no space is left, a checkpoint and a
    /// flush are asked.
    #[inline(always)]
    pub fn alloc(&mut self, unit: u32, count: u32, perm: bool) -> Result<Reply, AllocError>
        requires { IsSound (state_of self.old) }
        ensures ok { IfOk result (λ reply. gives reply (state_of self.new) ≡ alloc_step unit count perm (state_of self.old)) }
        ensures err { OnErr result (state_of self.new ≡ state_of self.old) }
        ensures want { OnErr result (is_refusal (alloc_step unit count perm (state_of self.old)).reply ≡ false) }
    {
        if let Some(errno) = self.alloc_refusal(unit, count, perm) {
            return Ok(Reply::Refused(errno));
        }
        if !self.accounts.has_room(unit, count) {
            self.ask_space();
            return Ok(Reply::Refused(Errno::Again));
        }
        let trans = TransNo(self.last_trans + 1);
        self.accounts.begin(self.alloc, trans.0, unit, count, perm)?;
        self.last_trans = trans.0;
        Ok(Reply::Trans(trans))
    }
}
