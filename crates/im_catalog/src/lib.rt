//! SQL's catalogue: keys and texts of tables, indexes and rows, written and read back; the catalogue of a view, the rows
//! of its tables and their histories.
#![tactic(auto)]

pub mod catalogue;
pub mod entries;
mod fields;
pub mod histories;
mod judged;
pub mod keys;
pub mod laws;
pub mod reading;
pub mod rows;
pub mod texts;
