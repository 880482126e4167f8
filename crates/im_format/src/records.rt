use crate::references::Refs;
use im_digest::D32;
use im_model::transactions::Transaction;

/// A transaction as the logs keep it: where its values lie, and its Alh.
#[derive(Drop)]
pub struct Record {
    /// The transaction, with its values.
    pub tx: Transaction,
    /// The references of its values, one for each entry, in order.
    pub refs: Refs,
    /// The transaction's Alh.
    pub alh: D32,
}
