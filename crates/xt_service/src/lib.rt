//! Sessions over a running host: what answers their lines (`host_calls`), and the service that takes them over TCP or a path, with its workers.
#![tactic(auto)]

pub mod accept;
mod aside;
pub mod bench;
pub mod door;
mod effect;
pub mod ended;
pub mod guest;
mod holding;
pub mod host_calls;
pub mod host_session;
mod names;
mod room;
pub mod service;
pub mod stream;
pub mod table;
pub mod tidings;
pub mod workplace;

pub use host_calls::HostCalls;
pub use service::{Service, ServiceEnd};
pub use workplace::Workplace;
pub use xt_session::{Calls, SESSION_BYTES, SessionEnd, calls, session, session_end};
