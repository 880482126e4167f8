//! Which steps of the machine over events the calls of a store are: laws.
#![tactic(auto)]

pub mod laws;
