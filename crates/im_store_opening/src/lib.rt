//! A disk opened as a store: its files are read and checked (im_opening), and the store's index, book and tree are made of what was found.
//! The store itself is im_store, which knows nothing of how a disk is opened.
#![tactic(auto)]

pub mod laws;
pub mod opening;
mod parts;
