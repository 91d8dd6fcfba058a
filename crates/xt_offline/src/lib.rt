//! What `xth` does with no service: a script played step by step, or the steps of one of its slots, and a log printed.
#![tactic(auto)]

pub mod fault;
pub mod files;
mod lines;
pub mod logdump;
mod printing;
pub mod progress;
pub mod script;
mod sealed;
mod waiting;
mod writing;

pub use fault::{DumpFault, ScriptFault};
pub use files::{Dumped, dump_files};
pub use logdump::{LOG_BYTES, Source, dump, tell};
pub use script::run_script;
pub use xt_window::fault::LogFault;
pub use xt_window::way::Which;
