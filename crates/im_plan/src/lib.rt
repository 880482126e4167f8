//! The way to the rows that a condition means: by the key of one row, by a front of the primary key, by a front of an
//! index, or over all rows; and SELECT. Which way is taken changes no answer.
#![tactic(auto)]

mod bounds;
mod cuts;
pub mod found;
mod ordering;
pub mod selects;
pub mod ways;
