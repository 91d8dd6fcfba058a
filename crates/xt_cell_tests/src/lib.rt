//! Tests of the queue, the board and a locked slot over their public calls: there is nothing else here.
#![tactic(auto)]

#[cfg(test)]
mod tests;
