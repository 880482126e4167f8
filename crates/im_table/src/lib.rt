//! The words that say how far one history has come, and the passes by which threads know a front part of it.
//!
//! A `Tip` has five words: how many transactions are placed, durable, linked and indexed, and how many calls of the
//! disk have failed. Each thread steps with a `Pass` of its own, which has no octets: contracts see by it what the
//! thread knows. Whatever threads do in whatever order, the lists that their passes have seen are front parts of one
//! list, of which a `Law` holds.
#![tactic(auto)]

pub mod items;
pub mod law;
pub mod pass;
pub mod plays;
pub mod roles;
pub mod tip;
pub mod tip_name;
pub mod view;
