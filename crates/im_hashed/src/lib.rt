//! The strings that are hashed in checking messages, and a search of them for two unequal ones of one digest.
#![tactic(auto)]

mod added;
mod chains;
mod duals;
pub mod laws;
mod lists;
pub mod messages;
pub mod pairs;
mod parts;
mod places;
