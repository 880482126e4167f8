//! The journal: records on a disk, in batches, each behind a gate.
#![tactic(auto)]

pub mod batches;
pub mod ends;
pub mod errors;
pub mod journal;
pub mod laws;
mod pieces;
mod steps;
