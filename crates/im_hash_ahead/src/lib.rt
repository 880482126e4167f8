//! Digests hashed ahead: what the records of a transaction log say of themselves, the strings that checking them will hash, and
//! the digests of these, hashed by several threads at once. Nothing rests on what a record says: what is hashed is a digest of some
//! string in any case, and is found by the string itself.
#![tactic(auto)]

mod chunks;
pub mod facts;
pub mod filling;
pub mod known;
pub mod leads;
mod near;
mod notes;
pub mod plans;
mod room;
pub mod rows;
pub mod values;
pub mod windows;
