//! What a transaction is asked for: drafts of entries, and why they are refused.
#![tactic(auto)]

pub mod drafts;
pub mod preconditions;
pub mod refusals;
