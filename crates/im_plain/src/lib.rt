//! Versions, preconditions and the index as plain lists: what the book judges and the sorted runs of the index tell is read against them. The program
//! calls none of it.
#![tactic(auto)]

pub mod entries;
pub mod index;
pub mod laws;
mod reads;
pub mod versions;
