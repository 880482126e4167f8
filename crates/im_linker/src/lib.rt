//! The hash tree of a history that threads share: it is filled behind the commits, by whoever links, and lies under a
//! lock of its own.
#![tactic(auto)]

pub mod linked;
