//! Tests of SQL's crates: the texts of values and tables, statements, conditions, and what is answered. They show what the definitions
//! mean, by values worked by hand, and that calls answer at all where memory is ample.
#![tactic(auto)]

#[cfg(test)]
mod conditions;
#[cfg(test)]
mod grammar;
#[cfg(test)]
mod replies;
#[cfg(test)]
mod tables;
#[cfg(test)]
mod types;
