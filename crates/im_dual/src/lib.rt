//! Dual proofs of a history whose hash tree lags behind it (immudb's dual proof with a linear advance):
//! built, and checked.
#![tactic(auto)]

mod advance;
pub mod anchors;
pub mod build;
pub mod check;
pub mod entries;
pub mod headers;
pub mod laws;
