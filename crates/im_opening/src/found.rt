use im_atree::trees::Tree;
use im_digest::D32;
use im_format::records::Record;
use im_model::headers::Header;

/// A history as it was read, with all that was computed on the way. A clause tells that they belong together.
#[derive(Drop)]
pub struct FoundHistory {
    /// The records of its transactions, in order.
    pub records: Vec<Record>,
    /// The header of each transaction.
    pub headers: Vec<Header>,
    /// The Alh of each header.
    pub alhs: Vec<D32>,
    /// The tree that the last transaction was placed over: the first Alh are its leaves.
    pub tree: Tree,
}
