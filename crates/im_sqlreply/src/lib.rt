//! What statements of SQL answer, as texts.
#![tactic(auto)]

pub mod errors;
pub mod laws;
pub mod rows;
