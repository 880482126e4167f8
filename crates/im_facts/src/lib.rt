//! A client that keeps facts: every header and entry that it was shown, and never two unequal ones for one place.
#![tactic(auto)]

mod agree;
pub mod clients;
pub mod collisions;
mod copies;
pub mod facts;
mod judged;
pub mod laws;
mod news;
mod noted;
pub mod notes;
mod states;
pub mod taken;
pub mod texts;
