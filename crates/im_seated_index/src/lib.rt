//! The index of a history that threads share: `SeatedIndex` lies under a lock, with the pass that has the index's role.
#![tactic(auto)]

pub mod seated;
