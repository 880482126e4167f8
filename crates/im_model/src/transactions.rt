use crate::entries::Entries;

/// A transaction as it is placed in a history. Its metadata is always empty, and isn't kept.
#[derive(Drop)]
pub struct Transaction {
    /// When it was placed, in Unix seconds.
    pub ts: i64,
    /// What it writes: 1 to 1024 entries with distinct keys.
    pub entries: Entries,
    /// How many earlier transactions the tree held when it was placed.
    pub bl: u64,
}
