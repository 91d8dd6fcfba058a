//! The sixteen ledgers of a host, one a slot. They take no bytes.

ghost use Rattle.std.specs.Prelude.{ℕ};

use std::marker::{Brand, PhantomData};
use std::sync::ledger::Ledger;

/// The names of the sixteen ledgers of a host, one a slot. A program picks them once, where it makes the host,
/// so that two hosts of two programs never count in one ledger.
pub trait House {
    /// The name of each slot's ledger.
    ghost names: { ℕ → ℕ };

    /// The parts into which each of them is cut.
    ghost all: { ℕ };
}

impl House for Brand {
    ghost names = { λ s. 0 };

    ghost all = { 0 };
}

/// The ledger of slot S of the house H: it counts the events of that slot.
pub struct Of<H: House, const S: u8> {
    house: PhantomData<H>,
}

impl<H: House, const S: u8> Ledger for Of<H, S> {
    ghost name = { H.names S };

    ghost parts = { H.all };
}
