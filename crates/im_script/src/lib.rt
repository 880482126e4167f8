//! The reader of a script: from octets to its phases, or to the number of the first line that isn't in the grammar.
#![tactic(auto)]

pub mod commands;
mod fields;
pub mod laws;
pub mod lines;
mod lookups;
mod numbers;
pub mod phases;
mod pres;
pub mod scripts;
mod sets;
pub mod texts;
