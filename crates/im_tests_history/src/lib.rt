//! Tests of the crates that a history stands on: what no run of the program shows.
//!
//! `roots`, `trees` and `chains` have worked values of hash trees and chains, and compare the code with the plain program;
//! `entries` has what becomes of drafts; `reads`, `indexes` and `refusals` have what is told of keys and preconditions, by
//! the plain program, by an index and its snapshots, and by a book; `runs` has how many runs an index has; `books` has the
//! headers of a book; `attack` is the attack that was published against linear proofs; `pairs` has paths that are
//! carried, and two strings of one digest.
#![tactic(auto)]

#[cfg(test)]
mod attack;
#[cfg(test)]
mod books;
#[cfg(test)]
mod chains;
#[cfg(test)]
mod entries;
#[cfg(test)]
mod indexes;
#[cfg(test)]
mod pairs;
#[cfg(test)]
mod reads;
#[cfg(test)]
mod refusals;
#[cfg(test)]
mod roots;
#[cfg(test)]
mod runs;
#[cfg(test)]
mod trees;
#[cfg(test)]
mod values;
