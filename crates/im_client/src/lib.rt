//! What a client that trusts nobody checks of a message under the state that it keeps, and the names of the checks that
//! fail.
#![tactic(auto)]

pub mod checks;
pub mod faults;
pub mod texts;
