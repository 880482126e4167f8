//! An entry of a transaction: its attributes, its limits and its digest (immudb's embedded store, header
//! version 1).
#![tactic(auto)]

pub mod attrs;
pub mod digests;
pub mod laws;
pub mod make;
