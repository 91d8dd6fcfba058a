//! What a mount tells of itself.

ghost use Rattle.std.specs.Prelude.{◌≡◌, ◌≤◌};
ghost use Rattle.xt_base.specs.Sound.{IsSound};
ghost use Rattle.xt_base.specs.Stat.{number_in_flight, one_if, outstanding_count, owed_count, stat_of};
ghost use Rattle.xt_mount.specs.Machines.{state_of};

use crate::machine::Machine;
use xt_base::names::JobKind;
use xt_base::stat::Stat;

impl Machine {
    /// How many kinds of jobs are owed: 0 to 2.
    fn owed_count(&self) -> u8
        ensures { result ≡ owed_count (state_of self.now) }
    {
        one_if(self.is_owed(JobKind::Ckpt)) + one_if(self.is_owed(JobKind::Flush))
    }

    /// How many jobs were posted and not finished: 0 to 2.
    fn outstanding_count(&self) -> u8
        ensures { result ≡ outstanding_count (state_of self.now).jobs }
    {
        one_if(self.jobs.outstanding(JobKind::Ckpt).is_some())
            + one_if(self.jobs.outstanding(JobKind::Flush).is_some())
    }

    /// The number of the checkpoint in flight; 0 where nothing is in flight.
    fn number_in_flight(&self) -> u64
        ensures { result ≡ number_in_flight (state_of self.now).items.flight }
    {
        match self.accounts.flight_number() {
            Some(number) => number.0,
            None => 0,
        }
    }

    /// What the mount tells of itself. It takes no memory.
    pub fn stat(&self) -> Stat
        requires { IsSound (state_of self.now) }
        ensures { result ≡ stat_of (state_of self.now) }
    {
        let used = self.accounts.used() as u32;
        Stat {
            transactions: self.accounts.open_count() as u8,
            busy: self.busy_count() as u8,
            idle: self.accounts.idle_count() as u8,
            committed: self.accounts.cil().len() as u8,
            active: self.accounts.ail().len() as u8,
            owed: self.owed_count(),
            outstanding: self.outstanding_count(),
            frozen: self.frozen,
            cost: self.accounts.cil_cost() as u32,
            granted: self.accounts.granted(),
            used,
            free: self.accounts.log_bytes() - used,
            flight: self.number_in_flight(),
            least: self.accounts.least().unwrap_or(0),
        }
    }
}

/// 1 for what holds, else 0.
fn one_if(holds: bool) -> u8
    ensures value { result ≡ one_if holds }
    ensures range { result ≤ 1 }
{
    if holds { 1 } else { 0 }
}
