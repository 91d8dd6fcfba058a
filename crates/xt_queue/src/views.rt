//! What a pass of the queue and a seat of the board know. No value of these is made: they stand in proofs alone.

use std::collections::LinkedList;
use xt_base::names::JobName;

/// What a pass of the queue has done.
pub struct JobView {
    /// The place of the pass among all: 0 for the maker of passes, s + 1 for slot s's, w + 17 for worker w's.
    pub number: u64,
    /// How many passes the maker has made; 0 for each other pass.
    pub made: u64,
    /// The names posted, or taken, through this pass, in order.
    pub names: LinkedList<JobName>,
}

/// What a seat of the board has done, slot by slot.
pub struct BoardView {
    /// The greatest word that the seat showed of each slot; 0 where it showed none.
    pub shown: LinkedList<u64>,
    /// The word that the seat last saw of each slot, its own shows counted; 0 before the first.
    pub seen: LinkedList<u64>,
    /// How many seats were split off it.
    pub splits: u64,
    /// How many splits it is from the board's first seat: 0 for that one alone.
    pub rank: u64,
}
