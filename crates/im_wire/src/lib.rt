//! Messages of proofs as lines of JSON (RFC 8259): read as whoever sent them wrote them, and written in
//! one canonical text.
#![tactic(auto)]

pub mod errors;
pub mod fits;
pub mod laws;
pub mod lines;
pub mod messages;
pub mod reading;
pub mod writing;
