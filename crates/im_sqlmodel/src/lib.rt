//! What SQL means over a history: definitions of its tables, rows, answers and writes as filters over the versions of
//! keys, and their types; and the trait of what answers statements.
#![tactic(auto)]

pub mod answers;
pub mod engine;
pub mod laws;
pub mod rows;
pub mod tables;
pub mod written;
