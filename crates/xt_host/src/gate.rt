//! What a worker asks of those who run it.

use xt_base::names::JobName;

/// What a worker asks: told of each name before it is done, and asked whether to go on where no name waits. An answer that takes its
/// time lets the worker rest.
pub trait Gate {
    /// Told of a name that was taken, before anything is done for it.
    fn before(&self, name: &JobName);

    /// Whether to go on, where no name waits.
    fn go_on(&self) -> bool;
}
