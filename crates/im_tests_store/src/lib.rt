//! Tests of a store that threads share: what its calls answer is proved, and these show that they return, what the disk was asked, and how much is hashed
//! at opening.
#![tactic(auto)]

#[cfg(test)]
mod openings;
#[cfg(test)]
mod stores;
#[cfg(test)]
mod threads;
