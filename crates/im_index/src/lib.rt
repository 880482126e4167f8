//! The timed index: the versions of a history's keys in sorted runs, which are merged as they grow, and snapshots that
//! share them. A read finds its place in each run by halving, and the steps that it may take are said by clauses. The
//! index and its snapshots are views of the history's keys; the same as one list is im_plain. The book
//! reads an index of its own, of keys alone, where it judges preconditions; all other reads go over a snapshot, which
//! stays as it is while transactions are taken, and tells all versions under a prefix too.
#![tactic(auto)]

mod blocks;
mod changes;
pub mod index;
mod keys;
pub mod maps;
mod merging;
mod reads;
mod run;
mod search;
mod shared;
pub mod snapshot;
pub mod steps;
