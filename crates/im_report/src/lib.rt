//! The report of a run: what each command is answered, and what a run of a script writes, as definitions
//! in `specs/`, and the texts of replies.
#![tactic(auto)]

mod decimals;
pub mod laws;
pub mod reads;
pub mod replies;
pub mod statements;
