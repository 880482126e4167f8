//! The machine over events: a store of which every step is one event of one actor, as definitions in `specs/`, with the types of its
//! events and of what they are answered, and the laws of its runs.
#![tactic(auto)]

pub mod events;
pub mod images;
pub mod laws;
pub mod outputs;
pub mod questions;
pub mod words;
