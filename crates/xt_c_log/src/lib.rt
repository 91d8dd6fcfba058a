//! The logs of mounts for C: a checkpoint read, and a log whose texts are laid over a home device.
//!
//! A caller holds what a log says by a handle, which each call takes and leaves. Every export says what becomes of it, and what the
//! caller's structs and rooms get.
#![tactic(auto)]

mod gathered;
mod handle;
mod headers;
mod held_log;
mod holding;
mod logs;
mod loose;
mod reading;
mod status;
mod words;
