//! What a crash may leave of the two disks of a mount, and that recovery makes of it what was committed: the definitions, and laws over every run
//! of a mount. The crate `xt_recover` has the function that recovers, and the same promise over the bytes of a log file.
#![tactic(auto)]

pub mod laws;
