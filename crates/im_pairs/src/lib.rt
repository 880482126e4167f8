//! Two unequal strings of one digest: what they are, and that whoever is shown one thing and then another
//! under one digest has two such strings among those that were hashed. It holds of any hash function.
#![tactic(auto)]

pub mod laws;
pub mod strings;
