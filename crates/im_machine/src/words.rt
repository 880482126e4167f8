/// The words that every actor may load.
#[derive(Clone, Copy, Debug, PartialEq, Eq)]
pub enum Word {
    /// How many transactions are placed.
    Placed,
    /// How many of them are durable.
    Durable,
    /// How many of these are in the tree.
    Linked,
    /// How many of these the index shows.
    Indexed,
    /// How many failures were told since the store was opened, at most 2^64 - 1.
    Failed,
}
