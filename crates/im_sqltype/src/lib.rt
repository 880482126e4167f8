//! SQL's types and values: their order, and their texts in keys and rows.
#![tactic(auto)]

pub mod columns;
pub mod kinds;
pub mod laws;
mod numbers;
pub mod orders;
pub mod reading;
pub mod rows;
pub mod texts;
pub mod values;
