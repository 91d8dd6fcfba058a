//! How a session ended.

/// How a session ended. The object's `end` was called in each case.
#[derive(Clone, Copy, Debug, PartialEq, Eq)]
pub enum SessionEnd {
    /// At the end of the input; all of its lines were answered.
    End,
    /// At a line of more than 8,400 bytes, which was answered `bad line`.
    TooLong,
    /// The reader failed, or the session had read as much as it may; all whole lines were answered, and the bytes
    /// behind the last newline were none.
    ReadFault,
    /// The writer failed, or took nothing; what was written is the beginning of what was to be.
    WriteFault,
    /// There was no memory for the buffers; nothing was read, and nothing written.
    Memory,
}
