// What a good frame says to us: whether it proves, and its Distributed SAK.
#![tactic(auto)]

pub mod keys;
pub mod proof;
