use im_octet::octets::Octets;

/// What is asked of keys.
#[derive(Drop)]
pub enum KeyQuestion {
    /// The last version of a key, a deletion too: none or one.
    Get {
        /// The key.
        key: Octets,
    },
    /// The live keys that begin with a prefix, each as its last version, in rising order.
    Scan {
        /// The prefix.
        prefix: Octets,
    },
    /// All versions of a key, oldest first.
    Versions {
        /// The key.
        key: Octets,
    },
}

/// What is asked to be proved. Transactions are numbered from 1.
#[derive(Clone, Copy, Debug, PartialEq, Eq)]
pub enum ProofQuestion {
    /// The header of a transaction.
    Header {
        /// Its number.
        number: u64,
    },
    /// The dual proof between two transactions.
    Dual {
        /// The one that it leads from.
        source: u64,
        /// The one that it leads to, not before the source.
        target: u64,
    },
    /// The same with its anchor, where one is due.
    Advance {
        /// The one that it leads from.
        source: u64,
        /// The one that it leads to, not before the source.
        target: u64,
    },
    /// An entry of a transaction, proved under a state.
    Item {
        /// The number of the transaction.
        number: u64,
        /// The entry's index in it, from 0.
        index: u32,
        /// The transaction whose header is the state, not before that one.
        state: u64,
    },
}
