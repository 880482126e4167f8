//! A disk of sixteen files, by the record of its changing calls. Three stand in for it in tests, as
//! doubles, and no program uses them: one that keeps nothing (`NoDisk`), one in memory (`MemDisk`),
//! and one that burns through at a known call (`Fuse`).
#![tactic(auto)]

pub mod calls;
mod content;
pub mod disk;
pub mod fuse;
pub mod laws;
pub mod memory;
pub mod no_disk;
