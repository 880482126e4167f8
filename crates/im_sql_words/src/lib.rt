//! What the programs that read SQL's cases read and tell alike: octets as hex, and the first fault of a text.
#![tactic(auto)]

pub mod faults;
pub mod octets;
