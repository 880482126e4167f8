/// Where the six files of a store end: how many octets of each count. What lies behind them, but for the octet at
/// the commit log's gate, may be anything.
#[derive(Clone, Copy, Debug, PartialEq, Eq)]
pub struct Ends {
    /// The transaction log.
    pub records: u64,
    /// The commit log, at the gate behind its last batch.
    pub commits: u64,
    /// The value logs, by their own numbers, 0 to 3.
    pub values: [u64; 4],
}
