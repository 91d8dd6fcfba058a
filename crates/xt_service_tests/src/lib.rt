//! Tests of sessions and of a service over their public calls: there is nothing else here.
#![tactic(auto)]

#[cfg(test)]
mod tests;
