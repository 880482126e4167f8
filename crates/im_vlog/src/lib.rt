//! The value logs: where values are put, what a log gets, and values read back.
#![tactic(auto)]

pub mod laws;
pub mod octets;
pub mod placing;
pub mod showing;
