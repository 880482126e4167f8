// What a store is made of.

use im_atree::trees::Tree;
use im_book::book::Book;
use im_format::references::Refs;
use im_index::index::Index;
use im_table::pass::Pass;

/// What a store is made of but for its words, its journal and its clock.
#[derive(Drop)]
pub struct Parts {
    /// The pass that has each role and the whole weight.
    pub pass: Pass,
    /// The index of all that was found.
    pub index: Index,
    /// The book of it.
    pub book: Book,
    /// The references of its values.
    pub refs: Vec<Refs>,
    /// The tree of it.
    pub tree: Tree,
}
