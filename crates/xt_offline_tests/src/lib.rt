//! Tests of what `xth` does with no service, over public calls, and of one mount driven by hand: there is nothing else here.
//! The worked scripts are the files of `rows`, on which the built program is run.
//!
//! A test function is proved too, at a cost that grows with the square of its length. So helpers
//! compare, and a test has few assertions.
#![tactic(auto)]

#[cfg(test)]
mod devices;
#[cfg(test)]
mod drive;
#[cfg(test)]
mod failing;
#[cfg(test)]
mod logdump;
#[cfg(test)]
mod maxima;
#[cfg(test)]
mod progress;
#[cfg(test)]
mod rows;
#[cfg(test)]
mod scripts;
#[cfg(test)]
mod sealed;
