//! How often a device failed: a count for proofs alone.

ghost use Rattle.std.specs.Prelude.{◌≡◌, ℕ, ◌+◌, is_ok};
ghost use Rattle.std.specs.Borrow.{ftrue};
ghost use Rattle.xt_dev.specs.Devices.{failures_after};

use crate::fault::DevFault;
use std::marker::Model;

/// How often a device failed. It takes no bytes: a count in a fixed number of bytes has a
/// greatest value, and this one has none.
#[derive(Drop)]
pub(crate) struct Failures {
    pub(crate) ghost count: { ℕ },
}

impl Model for Failures {
    ghost also_owns = { λ _. ftrue };
}

// It owns nothing.
unsafe impl Send for Failures {}

impl Failures {
    /// None so far.
    pub(crate) fn none() -> Failures
        ensures { result.count ≡ 0 }
    {
        Failures {}
    }

    /// One more.
    pub(crate) fn one_more(&self) -> Failures
        ensures { result.count ≡ self.now.count + 1 }
    {
        Failures {}
    }

    /// What is answered to a call that succeeded or failed; a failure is counted.
    pub(crate) fn answer(&mut self, succeeded: bool) -> Result<(), DevFault>
        ensures ok { is_ok result ≡ succeeded }
        ensures count { self.new.count ≡ failures_after succeeded self.old.count }
    {
        if succeeded {
            Ok(())
        } else {
            *self = self.one_more();
            Err(DevFault)
        }
    }
}
