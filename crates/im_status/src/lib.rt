//! How a command ends: statuses and their words; `verify` and `show` by their status; a script read from its source; the lines and numbers of `gen`.
#![tactic(auto)]

mod damage;
pub mod numbers;
pub mod scripts;
pub mod shown;
pub mod status;
pub mod verdict;
