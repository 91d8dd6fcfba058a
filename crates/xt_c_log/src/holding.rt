//! What a handle holds, taken out and put in.

ghost use Rattle.std.specs.Prelude.{◌≡◌, ◌==◌, not, false, Some, None, IfSome, IfNone};
ghost use Rattle.xt_c_log.specs.Holding.{held};

use crate::handle::Handle;
use crate::held_log::HeldLog;
use crate::loose::Loose;
use std::alloc::Global;

impl Handle {
    /// Whether it holds something.
    fn is_open(&mut self) -> bool
        ensures holds { result ≡ not (self.old.holds == 0) }
        ensures same { self.new ≡ self.old }
    {
        self.holds != 0
    }

    /// What it holds, in a box again.
    fn take_box(&mut self, alloc: Global) -> Box<HeldLog>
        requires { (self.old.holds == 0) ≡ false }
        ensures taken { Some result.value ≡ held self.old }
        ensures left { held self.new ≡ None }
    {
        self.holds = 0;
        unsafe { Box::from_raw(alloc, self.at as *mut HeldLog) }
    }

    /// Keeps what is given.
    fn keep(&mut self, log: Loose<HeldLog, Global>)
        ensures { held self.new ≡ Some log.value }
    {
        let Loose { at, alloc: _alloc } = log;
        self.at = at as *mut u8;
        self.holds = 1;
    }

    /// What it holds, and then holds no more; None where it holds nothing.
    pub fn take(&mut self, alloc: Global) -> Option<Box<HeldLog>>
        ensures taken { IfSome result (λ log. held self.old ≡ Some log.value) }
        ensures left { held self.new ≡ None }
        ensures none { IfNone result (held self.old ≡ None) }
    {
        if self.is_open() {
            Some(self.take_box(alloc))
        } else {
            None
        }
    }

    /// Puts something in.
    pub fn put(&mut self, log: Box<HeldLog>)
        ensures { held self.new ≡ Some log.value }
    {
        self.keep(Loose::of(log));
    }
}
