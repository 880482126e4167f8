//! Headers that are opened under a state, and carried over advances of it: laws for any hash function. What is
//! opened twice is one, or there are two unequal strings of one digest.
#![tactic(auto)]

pub mod laws;
