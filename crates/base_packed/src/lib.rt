// Octets that hold several fields, packed and taken apart by shifts and masks.
#![tactic(auto)]

pub mod basic;
pub mod sak;
pub mod used;
