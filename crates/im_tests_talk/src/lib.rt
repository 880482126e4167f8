//! Tests of what is read and told: scripts, replies, messages, what a client keeps, the words of the command line,
//! and how a run ended. They show what no run of the program shows: numbers that no history reaches, ends that no
//! input leads to, and calls that the program doesn't make.
#![tactic(auto)]

#[cfg(test)]
mod ends;
#[cfg(test)]
mod keeping;
#[cfg(test)]
mod lines;
#[cfg(test)]
mod replies;
