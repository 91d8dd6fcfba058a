//! What no clause says: that memory is found, that the queue hands names over from thread to thread, and what devices in memory
//! answer to a slot.
//!
//! A test function is proved too, at a cost that grows with the square of its length. So what is
//! expected stands in constants and helpers, and a test has few assertions.

mod bench;
mod deeds;
mod opening;
mod playing;
mod queue;
mod replay;
mod rows;
mod strangers;
mod two_bytes;
