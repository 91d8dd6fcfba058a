//! Tests of the running host over its public calls, from many threads too: there is nothing else here.
#![tactic(auto)]

#[cfg(test)]
mod tests;
