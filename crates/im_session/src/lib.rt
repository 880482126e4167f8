//! Sessions: each answers its lines of a phase in order on a thread of its own, over a store that they share, beside a linker and an indexer. The
//! replies of a phase are written in the script's order as soon as all its sessions have ended.
#![tactic(auto)]

mod commits;
mod lines;
mod phase;
mod play;
mod proofs;
mod reads;
pub mod serve;
mod statements;
