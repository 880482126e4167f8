//! What a crash may leave of a disk, decided by comparing.
#![tactic(auto)]

pub mod images;
pub mod laws;
mod ranges;
mod settled;
pub mod within;
