//! Tests of the crates of a store's files, of what no run of the program shows: references, marks of batches,
//! octets at their place, values, records, the journal, and what opening tells.
#![tactic(auto)]

#[cfg(test)]
mod journals;
#[cfg(test)]
mod laying;
#[cfg(test)]
mod logs;
#[cfg(test)]
mod openings;
#[cfg(test)]
mod records;
#[cfg(test)]
mod samples;
#[cfg(test)]
mod values;
