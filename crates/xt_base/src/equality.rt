//! Equality that decides: for each word of a step and of a reply, whether two are the same value.

ghost use Rattle.std.specs.Prelude.{◌≡◌, ◌↔◌};
ghost use Rattle.std.specs.Bool.{IsTrue};

use crate::content::{Content, Data, HeldBlocks};
use crate::names::JobName;
use crate::steps::{Answer, HomeAnswers, LogAnswers, Reply, Request, Step};

impl PartialEq for Content {
    ghost use Rattle.std.specs.Prelude.{◌==◌};
    ghost use Rattle.std.specs.Cmp.Lexicographic.{pointwise};
    ghost use Rattle.std.specs.Cmp.Rules.{comparing};
    ghost use Rattle.std.proofs.Common.{rules};

    ghost eq = { pointwise ◌==◌ };

    ghost laws = { Prim.search (comparing, rules) };

    fn eq(&self, other: &Content) -> bool {
        self.bytes() == other.bytes()
    }
}

impl PartialEq for Data {
    ghost use Rattle.std.specs.Prelude.{◌==◌};
    ghost use Rattle.std.specs.Cmp.Lexicographic.{pointwise};
    ghost use Rattle.std.specs.Cmp.Rules.{comparing};
    ghost use Rattle.std.proofs.Common.{rules};

    ghost eq = { pointwise ◌==◌ };

    ghost laws = { Prim.search (comparing, rules) };

    fn eq(&self, other: &Data) -> bool {
        self.is(other)
    }
}

impl PartialEq for HeldBlocks {
    ghost use Rattle.std.specs.Prelude.{◌==◌};
    ghost use Rattle.std.specs.Cmp.Lexicographic.{pointwise};
    ghost use Rattle.std.specs.Cmp.Rules.{comparing};
    ghost use Rattle.std.proofs.Common.{rules};

    ghost eq = { pointwise ◌==◌ };

    ghost laws = { Prim.search (comparing, rules) };

    fn eq(&self, other: &HeldBlocks) -> bool {
        self.blocks() == other.blocks()
    }
}

impl Content {
    /// Whether two contents have the same bytes.
    pub fn is(&self, other: &Content) -> bool
        ensures { IsTrue result ↔ (self.now ≡ other.now) }
    {
        *self == *other
    }
}

impl HeldBlocks {
    /// Whether both are the same blocks in the same order.
    pub fn is(&self, other: &HeldBlocks) -> bool
        ensures { IsTrue result ↔ (self.now ≡ other.now) }
    {
        *self == *other
    }
}

impl Request {
    /// Whether both ask the same of the same names, with the same bytes.
    pub fn is(&self, other: &Request) -> bool
        ensures { IsTrue result ↔ (self.now ≡ other.now) }
    {
        *self == *other
    }
}

impl Answer {
    /// Whether the home device gave the same.
    pub fn is(&self, other: &Answer) -> bool
        ensures { IsTrue result ↔ (self.now ≡ other.now) }
    {
        *self == *other
    }
}

impl Reply {
    /// Whether both are the same reply, with the same numbers, bytes and blocks.
    pub fn is(&self, other: &Reply) -> bool
        ensures { IsTrue result ↔ (self.now ≡ other.now) }
    {
        *self == *other
    }
}

impl JobName {
    /// Whether both name the same job.
    pub fn is(&self, other: &JobName) -> bool
        ensures { IsTrue result ↔ (self.now ≡ other.now) }
    {
        *self == *other
    }
}

impl LogAnswers {
    /// Whether the log device answered the same.
    pub fn is(&self, other: &LogAnswers) -> bool
        ensures { IsTrue result ↔ (self.now ≡ other.now) }
    {
        *self == *other
    }
}

#[tactic(auto, using(crate::proofs::EqualityLemmas::flags_decide))]
impl HomeAnswers {
    /// Whether the home device answered the same to each write and to the sync.
    pub fn is(&self, other: &HomeAnswers) -> bool
        ensures { IsTrue result ↔ (self.now ≡ other.now) }
    {
        *self == *other
    }
}

#[tactic(auto, using(crate::proofs::EqualityLemmas::steps_decide))]
impl Step {
    /// Whether both are the same step, with the same names, numbers, request and answers.
    pub fn is(&self, other: &Step) -> bool
        ensures { IsTrue result ↔ (self.now ≡ other.now) }
    {
        self == other
    }
}
