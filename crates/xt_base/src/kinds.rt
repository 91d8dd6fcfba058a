//! Kinds and names of jobs, compared.

ghost use Rattle.std.specs.Prelude.{◌≡◌};
ghost use Rattle.xt_base.specs.Jobs.{is_ckpt};
ghost use Rattle.xt_base.specs.Order.{same_kind, same_name};

use crate::names::{JobKind, JobName};

impl JobKind {
    /// Whether it is a checkpoint.
    pub fn is_ckpt(self) -> bool
        ensures { result ≡ is_ckpt self }
    {
        match self {
            JobKind::Ckpt => true,
            JobKind::Flush => false,
        }
    }

    /// Whether it is the same kind as another.
    pub fn is_same(self, other: JobKind) -> bool
        ensures { result ≡ same_kind self other }
    {
        match self {
            JobKind::Ckpt => other.is_ckpt(),
            JobKind::Flush => !other.is_ckpt(),
        }
    }
}

impl JobName {
    /// Whether it is the same name as another: of the same slot, life, kind and serial.
    pub fn is_same(&self, other: &JobName) -> bool
        ensures { result ≡ same_name self.now other.now }
    {
        self.slot == other.slot
            && self.life == other.life
            && self.kind.is_same(other.kind)
            && self.serial == other.serial
    }
}
