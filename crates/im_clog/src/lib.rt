//! Batches of the commit log: what is staged of one, and what stands at a gate.
#![tactic(auto)]

pub mod batches;
pub mod laws;
pub mod marks;
