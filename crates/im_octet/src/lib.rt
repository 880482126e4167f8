//! Octet strings, numbers as big-endian fields of them, and what maps from them to numbers have.
#![tactic(auto)]

pub mod bounded;
pub mod buffers;
pub mod fields;
pub mod laws;
pub mod octets;
pub mod reader;
pub mod writer;
