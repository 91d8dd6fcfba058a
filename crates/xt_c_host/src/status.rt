//! What an export returns: 0, or an errno of Linux, negative.

/// Memory was refused.
pub const NO_MEMORY: i32 = -12;

/// The handle holds a host already.
pub const BUSY: i32 = -16;

/// The handle holds none.
pub const NO_DEVICE: i32 = -19;

/// A line spells no step, or a room is too short.
pub const INVALID: i32 = -22;

/// The step may not come now (EPROTO).
pub const DISORDER: i32 = -71;
