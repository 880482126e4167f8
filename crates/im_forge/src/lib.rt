//! Whether two things that one digest was shown for are equal: they are, or there are two unequal strings of
//! one digest.
#![tactic(auto)]

pub mod entries;
pub mod headers;
pub mod nodes;
mod parts;
mod ranges;
pub mod same;
pub mod strings;
