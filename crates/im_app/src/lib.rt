//! The top call of the program `im`: from words and octets to octets.
#![tactic(auto)]

mod generate;
mod run;
pub mod top;
