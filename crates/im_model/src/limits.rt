use im_octet::bounded::Bounded;

/// The most transactions of a history.
pub const MOST_TRANSACTIONS: u64 = 1_048_576;

/// The most entries of a transaction.
pub const MOST_ENTRIES: u32 = 1024;

/// The most octets of a key.
pub const MOST_KEY_OCTETS: usize = 1024;

/// The most octets of a value.
pub const MOST_VALUE_OCTETS: usize = 4096;

/// The most octets of an input: of a script, or of a stream of lines.
pub const MOST_INPUT_OCTETS: usize = 67_108_864;

/// A key: 1 to 1024 octets.
pub type Key = Bounded<1, MOST_KEY_OCTETS>;

/// A value: at most 4096 octets.
pub type EntryValue = Bounded<0, MOST_VALUE_OCTETS>;

/// The metadata of an entry or a header: at most 256 octets.
pub type Metadata = Bounded<0, 256>;
