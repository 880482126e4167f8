//! The law of a store whose keys that begin with octet 00 are SQL's, and what may be placed under it.
#![tactic(auto)]

pub mod law;
pub mod laws;
