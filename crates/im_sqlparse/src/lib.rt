//! SQL text, read as a statement of the grammar, or the first place at which it leaves it.
#![tactic(auto)]

mod conditions;
mod creations;
pub mod errors;
mod kinds;
pub mod laws;
mod lex;
mod lists;
pub mod names;
mod numbers;
mod reading;
mod selects;
pub mod statements;
mod tokens;
mod values;
mod writes;

pub use reading::parse;
