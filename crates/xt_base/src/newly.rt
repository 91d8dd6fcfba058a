//! What one more change of a leg charges anew.

/// Blocks and chunks that one more change of a leg charges anew: 16 log bytes for the block, if it was not
/// charged, and 128 for each chunk.
#[derive(Clone, Copy, Debug, PartialEq, Eq)]
pub struct Newly {
    /// 0 or 1.
    pub blocks: u32,
    /// 0 to 32.
    pub chunks: u32,
}
