//! What is asked to be placed: drafts become entries within the limits with distinct keys. Copies of it, and of transactions.
#![tactic(auto)]

pub mod copies;
mod distinct;
pub mod laws;
mod lengths;
pub mod prepare;
pub mod prepared;
pub mod reserved;
