//! The book of a history that threads share: `SeatedBook` lies under a lock, with the references of the values, the
//! clock, and the pass that has the book's role.
#![tactic(auto)]

mod copies;
mod judging;
mod roots;
pub mod seated;
