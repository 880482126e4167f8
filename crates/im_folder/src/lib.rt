//! A disk over the files of a folder, alone or behind the lock of a file.
#![tactic(auto)]

pub mod folder;
pub mod locked_folder;
