//! The laws of the machine over events: what holds of each of its runs, whatever its actors do and wherever it crashes.
#![tactic(auto)]

pub mod laws;
