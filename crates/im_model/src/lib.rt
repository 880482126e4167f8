//! The mathematics of a history with verifiable headers: entries, transactions, headers, hash trees
//! and chains, as definitions in `specs/`, and a plain program for trees and chains.
#![tactic(auto)]

pub mod chains;
pub mod entries;
pub mod growth;
pub mod headers;
pub mod laws;
pub mod limits;
pub mod paths;
pub mod transactions;
pub mod trees;
