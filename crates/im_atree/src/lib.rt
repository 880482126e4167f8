//! The append-only hash tree over the Alh of a history (RFC 6962, section 2.1), and the checks of what
//! proofs hold of it: inclusion, consistency and last inclusion.
#![tactic(auto)]

pub mod built;
pub mod checks;
mod counted;
pub mod growths;
pub mod laws;
pub mod list_trees;
pub mod roots;
pub mod trees;
