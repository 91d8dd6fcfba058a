//! Worked scripts computed over the definitions of one mount, in `proofs/`.
#![tactic(auto)]
