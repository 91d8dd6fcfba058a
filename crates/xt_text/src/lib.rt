//! The line language of the host, both ways: a line is read as a step, a reply or an offer is printed.
//! Each value has one spelling, and a line that isn't the one spelling of a step is a bad line.
#![tactic(auto)]

pub mod bad_line;
pub mod buffer;
pub mod data_text;
mod fields;
mod home_answers;
pub mod line;
mod numbers;
pub mod parse;
pub mod print_ckpt;
pub mod print_reply;
mod print_stat;
pub mod print_step;
mod read_line;
mod words;

pub use bad_line::BadLine;
pub use buffer::Text;
pub use parse::{parse_line, parse_line_in};
pub use print_ckpt::{print_head, print_item};
pub use print_reply::{print_home_offer, print_log_offer, print_slot_reply};
