//! One mount for C: calls in, replies out; the caller asks the devices itself.
//!
//! A caller holds a mount by a handle, which each call takes and leaves. Every export says what becomes of the mount that the handle
//! holds, and what the caller's structs and rooms get. Each tests what it is given: a caller owes only what the types say.
#![tactic(auto)]

mod calls;
mod changes;
mod checkpoints;
mod flushes;
mod handle;
mod holding;
mod jobs;
mod loose;
mod mapped;
mod mounts;
mod replies;
mod requests;
mod seals;
mod stat;
mod status;
mod words;
