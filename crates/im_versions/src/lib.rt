//! Versions of keys in a history, the preconditions that are judged by them, and the traits of views that tell them: definitions in
//! `specs/`, and their types.
#![tactic(auto)]

pub mod changes;
pub mod entries;
pub mod errors;
pub mod laws;
pub mod refusals;
pub mod versions;
pub mod view;
