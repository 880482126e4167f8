//! A phase's lines dealt to its sessions; what these leave, written in the script's order; and the texts of replies that are made without a store.
#![tactic(auto)]

pub mod answers;
pub mod dealing;
pub mod errors;
pub mod proofs;
pub mod reads;
pub mod sessions;
pub mod statements;
pub mod tidings;
pub mod writing;
