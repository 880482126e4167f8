//! The codec of transaction records: a record as octets, and its fields read back with the first damage.
#![tactic(auto)]

pub mod alhs;
pub mod errors;
mod fields;
pub mod heads;
pub mod keys;
pub mod laws;
mod refs;
pub mod slots;
pub mod writing;
