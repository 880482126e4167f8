//! Statements of SQL over a view of a history's keys.
#![tactic(auto)]

mod creating;
mod deleting;
mod inserting;
mod judged;
mod names;
mod placing;
pub mod run;
mod working;
mod writes;
