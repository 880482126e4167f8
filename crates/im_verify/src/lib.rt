//! The verifier: it judges each line of a stream as a client that trusts nobody, tells what became of it,
//! keeps what was accepted, and tells a fork by two unequal strings of one digest.
#![tactic(auto)]

pub mod ended;
mod kept;
pub mod laws;
mod lines;
pub mod show;
mod show_text;
mod stops;
pub mod verify;
