//! The words and limits of a checkpoint text.

/// The first word of a text, `XCP1`.
pub const START: u32 = 0x5843_5031;

/// The first word of a text that says the size of a block, `XCP2`.
pub const SIZED_START: u32 = 0x5843_5032;

/// The word behind its items, `XCE1`.
pub const END: u32 = 0x5843_4531;

/// The word behind the items of a text that says the size of a block, `XCE2`.
pub const SIZED_END: u32 = 0x5843_4532;

/// The bytes of the three fields before the items, and of the three behind them.
pub const END_BYTES: usize = 16;

/// The bytes of a size.
pub const SIZE_BYTES: usize = 4;

/// The bytes of an item's block, map and flag.
pub const FIELD_BYTES: usize = 16;
