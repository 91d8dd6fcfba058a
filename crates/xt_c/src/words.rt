//! Requests and replies as plain numbers.

/// A request: its word, and the fields that the word reads; the others are not looked at.
#[repr(C)]
#[derive(Clone, Copy)]
pub struct RequestWords {
    pub word: u32,
    pub perm: u32,
    pub unit: u32,
    pub count: u32,
    pub first: u32,
    pub unused: u32,
    pub trans: u64,
    pub block: u64,
    pub number: u64,
}

/// A reply: its word, its error, its number and the blocks that stay held.
#[repr(C)]
#[derive(Drop)]
pub struct ReplyWords {
    pub word: u32,
    pub errno: u32,
    pub number: u64,
    pub pieces: u32,
    pub held_count: u32,
    pub held: [u64; 64],
}

/// The blocks of a flush: the first `count` of `blocks`.
#[repr(C)]
#[derive(Drop)]
pub struct PlanWords {
    pub count: u32,
    pub unused: u32,
    pub blocks: [u64; 8],
}

/// What a mount tells of itself, in the order of `Stat`. Counts are of transactions, blocks and jobs; `frozen` is 1 or 0; `cost`, `granted`, `used` and
/// `free` are in bytes of the log; `flight` and `least` are numbers of checkpoints, 0 for none.
#[repr(C)]
#[derive(Clone, Copy)]
pub struct StatWords {
    pub transactions: u32,
    pub busy: u32,
    pub idle: u32,
    pub committed: u32,
    pub active: u32,
    pub owed: u32,
    pub outstanding: u32,
    pub frozen: u32,
    pub cost: u32,
    pub granted: u32,
    pub used: u32,
    pub free: u32,
    pub flight: u64,
    pub least: u64,
}
