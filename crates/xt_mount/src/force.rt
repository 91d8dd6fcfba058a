//! What a force waits for.

ghost use Rattle.std.specs.Prelude.{◌≡◌, ◌&&◌, ◌==◌};
ghost use Rattle.xt_base.specs.Calls.{first_of, force as force_step, force_to as force_to_step, force_to_refusals, gives, is_flight};
ghost use Rattle.xt_mount.specs.Machines.{state_of};

use crate::machine::Machine;
use xt_base::names::CkptNo;
use xt_base::steps::{Errno, Reply};

impl Machine {
    /// What is to be waited for so that all that is committed is on the log.
    pub fn force(&mut self) -> Reply
        ensures { gives result (state_of self.new) ≡ force_step (state_of self.old) }
    {
        if self.is_shut() {
            return Reply::Refused(Errno::Io);
        }
        if !self.accounts.cil().is_empty() {
            self.ask_ckpt();
            return Reply::Wait(self.accounts.open_number());
        }
        match self.accounts.flight_number() {
            Some(number) => Reply::Wait(number),
            None => Reply::Done,
        }
    }

    /// What refuses a force to a number.
    fn force_to_refusal(&self, number: CkptNo) -> Option<Errno>
        ensures { result ≡ first_of (force_to_refusals number (state_of self.now)) }
    {
        if number.0 == 0 || number.0 > self.accounts.open_number().0 {
            return Some(Errno::Invalid);
        }
        if self.is_shut() {
            return Some(Errno::Io);
        }
        None
    }

    /// Whether this checkpoint is in flight.
    fn is_flight(&self, number: CkptNo) -> bool
        ensures { result ≡ is_flight number (state_of self.now).items.flight }
    {
        match self.accounts.flight_number() {
            Some(flying) => flying == number,
            None => false,
        }
    }

    /// What is to be waited for so that one checkpoint is on the log.
    pub fn force_to(&mut self, number: CkptNo) -> Reply
        ensures { gives result (state_of self.new) ≡ force_to_step number (state_of self.old) }
    {
        if let Some(errno) = self.force_to_refusal(number) {
            return Reply::Refused(errno);
        }
        if number == self.accounts.open_number() && !self.accounts.cil().is_empty() {
            self.ask_ckpt();
            return Reply::Wait(number);
        }
        if self.is_flight(number) {
            Reply::Wait(number)
        } else {
            Reply::Done
        }
    }
}
