//! Sixteen slots for C, by lines: what a slot says is what it says alone.
//!
//! A caller holds a host by a handle, which each call takes and leaves. A step is a line of the line language; its reply is asked for
//! as a line too.
#![tactic(auto)]

mod handle;
mod holding;
mod hosts;
mod loose;
mod status;
mod told;
