//! Tests of the crates that stand outside: octet strings, hash functions, sources, sinks, keepers, clocks and
//! disks, and what a crash may leave of a disk.
#![tactic(auto)]

#[cfg(test)]
mod digests;
#[cfg(test)]
mod disks;
#[cfg(test)]
mod folders;
#[cfg(test)]
mod images;
#[cfg(test)]
mod keepers;
#[cfg(test)]
mod locks;
#[cfg(test)]
mod octets;
#[cfg(test)]
mod streams;
#[cfg(test)]
mod walks;
#[cfg(test)]
mod watched;
