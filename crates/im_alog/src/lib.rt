//! Octets at their place in the files of a disk: read, written, and made durable.
#![tactic(auto)]

pub mod laying;
pub mod reading;
