use im_format::references::Refs;
use im_model::transactions::Transaction;

/// A transaction of the list that threads share, with what is known of it besides.
#[derive(Drop)]
pub struct LogItem {
    /// Whether it was found when the store was opened.
    pub found: bool,
    /// What it says.
    pub tx: Transaction,
    /// Where its values lie: a reference for each entry, in order.
    pub refs: Refs,
}

/// What a tip is opened with, for good.
#[derive(Drop)]
pub struct Opening {
    /// The transactions that were found, in order, each marked so.
    pub found: Vec<LogItem>,
    /// The number of value logs, 1 to 4, to which the values of further transactions go.
    pub logs: u8,
}
