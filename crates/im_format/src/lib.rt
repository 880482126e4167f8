//! The files of a store: what stands where, as definitions in `specs/`, their types, and what holds of
//! the definitions.
//!
//! File 0 is the transaction log, 1 the commit log, 2 to 5 are the value logs 0 to 3. Numbers are
//! big-endian.
#![tactic(auto)]

pub mod damages;
pub mod files;
pub mod laws;
pub mod records;
pub mod references;
pub mod spans;
