//! The digests of the whole subtrees of a hash tree (RFC 6962, section 2.1), each stored once: its roots,
//! paths and consistency lists are made of them, in steps that grow with the binary digits of its size alone.
#![tactic(auto)]

pub mod edges;
pub mod growth;
pub mod laws;
pub mod parts;
pub mod roots;
pub mod steps;
pub mod walks;
