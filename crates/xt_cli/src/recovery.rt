//! `xth recover`, and volumes recovered at the start of a service: what a log says is laid over a home device.

pub mod files;
pub mod logs;
pub mod options;
pub mod volumes;
