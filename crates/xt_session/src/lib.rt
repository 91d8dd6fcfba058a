//! Sessions: lines are read, an object answers each, and its replies are written, over any reader and writer.
//! They know the language of lines, and nothing of mounts or hosts.
#![tactic(auto)]

pub mod calls;
mod intake;
mod reply;
pub mod session;
pub mod session_end;

pub use calls::Calls;
pub use session::SESSION_BYTES;
pub use session_end::SessionEnd;
