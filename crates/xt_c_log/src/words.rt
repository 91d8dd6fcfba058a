//! What is told of logs, as plain numbers.

/// A checkpoint that was found at the beginning of some bytes: its number, how many bytes its text has, how many items, and the size of a block that
/// it says; 0 where it says none, and then a block has 4,096 bytes.
#[repr(C)]
#[derive(Drop)]
pub struct FoundWords {
    pub number: u64,
    pub bytes: u64,
    pub items: u64,
    pub size: u64,
}

/// A log: how many texts it has, how many bytes behind them are no text yet, of how many blocks the texts say something, and the size of a block that
/// they say; 0 where they say none, and then a block has 4,096 bytes. Where it is broken, at which byte, and in which of its files; else which of them is
/// the older one. Files are counted from 0, and a log in one file has that alone.
#[repr(C)]
#[derive(Drop)]
pub struct LogWords {
    pub texts: u64,
    pub rest: u64,
    pub blocks: u64,
    pub size: u64,
    pub at: u64,
    pub file: u64,
    pub older: u64,
}

/// The fields of a header, with which a file of a sealed log begins.
#[repr(C)]
#[derive(Drop)]
pub struct LogFields {
    pub generation: u64,
    pub salt: u64,
    pub block_size: u32,
    pub log_bytes: u32,
    pub link: [u8; 8],
    pub name: [u8; 16],
}
