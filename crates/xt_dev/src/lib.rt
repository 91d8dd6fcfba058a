//! Devices: what a log or a home device is asked, what it answers, and what was offered to it.
#![tactic(auto)]

pub mod call;
mod copies;
pub mod cut;
mod doubts;
pub mod fail_at;
mod failures;
pub mod fault;
pub mod file_home;
pub mod file_log;
pub mod gates;
pub mod home;
pub mod log;
pub mod mem_home;
pub mod mem_log;
pub mod offer;
pub mod offer_home;
mod record;
mod sealed_files;
pub mod sealed_log;
mod sectors;
mod segment;
mod tail;

pub use call::HomeCall;
pub use cut::LogCut;
pub use fail_at::FailAt;
pub use fault::{DevFault, FileFault};
pub use file_home::FileHome;
pub use file_log::FileLog;
pub use gates::{Flag, GateHome, GateLog, Meeting};
pub use home::HomeDevice;
pub use log::LogDevice;
pub use mem_home::MemHome;
pub use mem_log::MemLog;
pub use sealed_log::SealedLog;
pub use sectors::FILE_BLOCKS;
