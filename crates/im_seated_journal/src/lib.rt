//! The journal of a history that threads share: `SeatedJournal` lies under a lock, with the pass that has the journal's
//! role.
#![tactic(auto)]

pub mod seated;
