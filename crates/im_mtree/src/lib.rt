//! Hash trees over a list of digests (RFC 6962, section 2.1): roots, also of a list that only grows, inclusion
//! paths, and their check.
#![tactic(auto)]

pub mod digests;
pub mod faults;
pub mod frontiers;
pub mod laws;
pub mod paths;
pub mod places;
pub mod roots;
mod subtrees;
