//! SQL's engine: statements answered, and the keys that begin with octet 00 judged.
#![tactic(auto)]

pub mod engine;
