//! Paths carried over a consistency list: the path of a leaf in a larger tree, or two unequal strings of
//! one digest.
#![tactic(auto)]

pub mod carried;
pub mod laws;
pub mod roots;
pub mod walks;
