//! A cut of a log, as a device in memory tells it.

/// A cut of a log, which says that nothing before it is of use any more.
#[derive(Clone, Copy, Debug, PartialEq, Eq)]
pub struct LogCut {
    /// How many bytes the log of the mount has.
    pub size: u32,
    /// Behind how many appends and syncs it came.
    pub behind: usize,
}
