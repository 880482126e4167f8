/// The number of the transaction log.
pub const TRANSACTION_LOG: u8 = 0;

/// The number of the commit log.
pub const COMMIT_LOG: u8 = 1;

/// The number of value log 0. The others follow it.
pub const FIRST_VALUE_LOG: u8 = 2;

/// The greatest of the value logs' own numbers: there are four, 0 to 3.
pub const LAST_VALUE_LOG: u8 = 3;

/// The octets of a batch in the commit log, from its gate to the next one.
pub const BATCH_OCTETS: usize = 25;
