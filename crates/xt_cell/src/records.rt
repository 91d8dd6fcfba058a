//! Events, as the book of a slot and as a seat keep them.

use crate::kept::Kept;
use xt_base::names::{Caller, Slot};
use xt_base::steps::{Reply, Step};

/// One event of a slot, as its book keeps it: who called, the step, and the reply that was given. A settle drops no block for
/// want of memory, so an entry has no list of such blocks.
#[derive(Drop)]
pub struct Entry {
    pub caller: Caller,
    pub step: Kept<Step>,
    pub reply: Kept<Reply>,
}

/// One event of a slot, as the seat that made it keeps it: where it stands in the slot's book, counted from 0 and entries that
/// were folded counted, the step, and the reply that was given.
#[derive(Drop)]
pub struct Receipt {
    pub slot: Slot,
    pub number: u64,
    pub step: Kept<Step>,
    pub reply: Kept<Reply>,
}
