//! Opening: the files of a store read and checked, with the first damage in reading order, the repair of the
//! gate behind the batches that count, and the journal at rest with the history that was found.
#![tactic(auto)]

mod ahead;
mod batches;
mod ends;
mod entries;
pub mod errors;
mod fetches;
pub mod found;
mod hashing;
pub mod opening;
mod plans;
pub mod reading;
mod records;
mod repair;
mod source;
mod stretches;
mod transactions;
mod values;
