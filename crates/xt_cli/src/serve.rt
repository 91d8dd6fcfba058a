//! `xth serve`: a host over volumes in files, for daemons in any language.

pub mod ending;
pub mod fault;
pub mod files;
pub mod held;
pub mod held_log;
pub mod holding;
pub mod listening;
pub mod making;
pub mod options;
pub mod running;
pub mod telling;
