//! The machine over events, run: a book, a tree, an index and a journal over a disk in memory take the events of a list, with its
//! crashes and its openings, and answer as the machine of im_machine does.
#![tactic(auto)]

mod answering;
mod batches;
mod cores;
mod crashing;
mod foretold;
mod opening;
mod placing;
mod proving;
mod reading;
pub mod run;
mod sealing;
mod staging;
mod store;
mod taking;
