//! Proofs that clients check: their types, the checks in their order, and why they fail, as definitions
//! in `specs/`.
#![tactic(auto)]

pub mod digest_lists;
pub mod faults;
pub mod proofs;
