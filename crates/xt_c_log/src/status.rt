//! What an export returns: 0 or more, or an errno of Linux, negative.

/// Memory was refused.
pub const NO_MEMORY: i32 = -12;

/// The handle holds something already.
pub const BUSY: i32 = -16;

/// The handle holds nothing.
pub const NO_DEVICE: i32 = -19;

/// A length is not what it must be, or there is nothing at a place.
pub const INVALID: i32 = -22;

/// Bytes are not what they must be.
pub const ILLEGAL_SEQUENCE: i32 = -84;
