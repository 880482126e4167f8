//! Conditions of statements: what is wrong with one, and whether a row meets it.
#![tactic(auto)]

pub mod judged;
pub mod lent;
mod levels;
pub mod met;
pub mod scopes;
