//! What a mount tells of itself.

/// What a mount tells of itself (request `stat`): how full its log and its lists are, and what it owes. Sizes are in bytes,
/// and each number stands below the bound of what it counts.
#[derive(Clone, Copy, Debug, PartialEq, Eq)]
pub struct Stat {
    /// Open transactions, of 32.
    pub transactions: u8,
    /// Busy blocks, of 64.
    pub busy: u8,
    /// Idle blocks, of 64.
    pub idle: u8,
    /// Blocks of the commit list.
    pub committed: u8,
    /// Blocks of the active list.
    pub active: u8,
    /// Jobs that are owed and not yet posted: 0 to 2.
    pub owed: u8,
    /// Jobs that were posted and not finished: 0 to 2.
    pub outstanding: u8,
    /// Whether it opens no transaction.
    pub frozen: bool,
    /// The bytes that a text of the commit list would have now, which is its cost.
    pub cost: u32,
    /// Log bytes granted to open transactions.
    pub granted: u32,
    /// Log bytes in use.
    pub used: u32,
    /// Log bytes left.
    pub free: u32,
    /// The number of the checkpoint in flight, or 0.
    pub flight: u64,
    /// The least number on the active list, or 0.
    pub least: u64,
}
