//! What `gen N` runs and writes: a script of N lines, of which each is a `set`, a `del` or a `link`, with the proofs that a
//! client asks for; and one line that tells what became of it.
#![tactic(auto)]

pub mod lines;
pub mod scripts;
