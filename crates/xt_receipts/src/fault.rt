//! What the end of a host may find wrong.

use thiserror::Error;
use xt_base::names::Slot;

/// What the books of a host and the seats that came back do not agree in. The first that is found is told, in this order.
#[derive(Clone, Copy, Debug, PartialEq, Eq, Error)]
pub enum CloseFault {
    /// Two seats have one caller.
    #[error("two seats have one caller")]
    Callers,
    /// The events in the book of a slot are not as many as the seats counted: a seat is missing.
    #[error("slot {}: the book does not have the events that the seats counted", .0.index())]
    Books(Slot),
    /// A receipt, of this slot and number, has no entry in the slot's book, or its number does not rise.
    #[error("slot {}: receipt {} has no entry", .0.index(), .1)]
    Receipt(Slot, u64),
}
