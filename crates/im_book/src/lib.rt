//! The book of a history: its transactions with the header and the Alh of each, in memory, and what is
//! placed next under preconditions.
#![tactic(auto)]

pub mod book;
mod judging;
mod keyed;
mod last;
pub mod laws;
mod roots;
