//! Sizes and costs, each in one place. Clauses and definitions cite them by these names.

/// The bytes of a block.
pub const BLOCK_BYTES: usize = 4096;

/// The most bytes of a piece, which is what a log device takes at a time.
pub const PIECE_BYTES: usize = 4096;

/// The most pieces of the text of a checkpoint.
pub const TEXT_PIECES: usize = 65;

/// The most bytes that a request carries.
pub const DATA_BYTES: usize = 4096;

/// The bytes of a chunk (`XFS_BLF_CHUNK` of `xfs_log_format.h`).
pub const CHUNK_BYTES: usize = 128;

/// The chunks of a block.
pub const CHUNKS: u32 = 32;

/// For how many entries a map has room from the start. A mount has at most 64 busy blocks and 32 open
/// transactions; the room is twice 64, so that a list may take in another one before what it replaces leaves.
pub const ROOM: usize = 128;

/// The most busy blocks of a mount.
pub const BUSY_BLOCKS: usize = 64;

/// The most blocks on the idle list of a mount.
pub const IDLE_BLOCKS: usize = 64;

/// The most open transactions of a mount.
pub const OPEN_TRANSACTIONS: usize = 32;

/// The most legs that a transaction is granted at once.
pub const GRANTED_LEGS: u32 = 8;

/// The most blocks that one flush writes home.
pub const FLUSH_BLOCKS: usize = 8;

/// The slots of the host.
pub const SLOTS: usize = 16;

/// The workers of the host's pool.
pub const WORKERS: usize = 8;

/// How many posted jobs may wait in the host's queue.
pub const QUEUE_PLACES: usize = 32;

/// What an item costs of the log beside its chunks, in bytes.
pub const ITEM_COST: u64 = 16;

/// What a chunk costs of the log, in bytes.
pub const CHUNK_COST: u64 = 128;

/// What a list of items costs of the log beside its items, in bytes, where a text does not say the size of a block:
/// what a leg's first change is charged beside the item.
pub const ENDS: u32 = 32;

/// The most that a list of items costs beside its items.
pub const MOST_ENDS: u32 = 36;

/// The fewest bytes of a log.
pub const LEAST_LOG: u32 = 65536;

/// The most bytes of a log.
pub const MOST_LOG: u32 = 16777216;

/// The most blocks of a home device.
pub const MOST_BLOCKS: u64 = 1099511627776;
