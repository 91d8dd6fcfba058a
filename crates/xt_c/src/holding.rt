//! The mount of a handle, taken out and put in.

ghost use Rattle.std.specs.Prelude.{◌≡◌, ◌==◌, not, false, Some, None, IfSome, IsNone, OnErr, IfNone};
ghost use Rattle.xt_c.specs.Holding.{held};

use crate::handle::Handle;
use crate::loose::Loose;
use std::alloc::Global;
use xt_mount::mount::Mount;

impl Handle {
    /// Whether it holds a mount.
    fn is_open(&mut self) -> bool
        ensures holds { result ≡ not (self.old.holds == 0) }
        ensures same { self.new ≡ self.old }
    {
        self.holds != 0
    }

    /// Its mount, in a box again.
    fn take_box(&mut self, alloc: Global) -> Box<Mount>
        requires { (self.old.holds == 0) ≡ false }
        ensures taken { Some result.value ≡ held self.old }
        ensures slot { result.value.slot ≡ 0 }
        ensures left { held self.new ≡ None }
    {
        self.holds = 0;
        unsafe { Box::from_raw(alloc, self.at as *mut Mount) }
    }

    /// Keeps a mount.
    fn keep(&mut self, mount: Loose<Mount, Global>)
        requires { mount.value.slot ≡ 0 }
        ensures { held self.new ≡ Some mount.value }
    {
        let Loose { at, alloc: _alloc } = mount;
        self.at = at as *mut u8;
        self.holds = 1;
    }

    /// Its mount, which it holds no more; None where it holds none.
    pub fn take(&mut self, alloc: Global) -> Option<Box<Mount>>
        ensures taken { IfSome result (λ mount. held self.old ≡ Some mount.value) }
        ensures slot { IfSome result (λ mount. mount.value.slot ≡ 0) }
        ensures left { held self.new ≡ None }
        ensures none { IfNone result (held self.old ≡ None) }
    {
        if self.is_open() {
            Some(self.take_box(alloc))
        } else {
            None
        }
    }

    /// Puts a mount in.
    pub fn put(&mut self, mount: Box<Mount>)
        requires { mount.value.slot ≡ 0 }
        ensures { held self.new ≡ Some mount.value }
    {
        self.keep(Loose::of(mount));
    }
}
