//! Texts: sessions, bare words, numbers and octets as scripts and replies write them, cuts at marks and into
//! lines.
#![tactic(auto)]

pub mod cuts;
pub mod numbers;
pub mod octets;
pub mod words;
pub mod writing;
