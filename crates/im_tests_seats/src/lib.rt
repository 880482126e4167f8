//! Tests of threads over the values under their locks: what is proved of their calls holds where both have returned, and
//! these show that they return.
#![tactic(auto)]

#[cfg(test)]
mod seats;
