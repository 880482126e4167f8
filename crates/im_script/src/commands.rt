use crate::texts::Text;
use im_draft::drafts::Drafts;
use im_draft::preconditions::Pres;
use im_octet::octets::Octets;

/// A command of a script.
#[derive(Drop)]
pub enum Command {
    /// Places a transaction of these entries, where the preconditions hold. `del` asks for one entry, which
    /// deletes its key.
    Set {
        /// The preconditions, in the order given.
        pres: Pres,
        /// The entries, in the order given.
        drafts: Drafts,
    },
    /// Asks for the value of a key after transaction `at`, or after the last one.
    Get {
        /// The key.
        key: Octets,
        /// The transaction after which it is read; the last one where it is `None`.
        at: Option<u64>,
    },
    /// Asks for the live keys that begin with a prefix, after transaction `at`, or after the last one.
    Scan {
        /// What the keys begin with.
        prefix: Octets,
        /// The transaction after which they are read; the last one where it is `None`.
        at: Option<u64>,
    },
    /// Asks for all versions of a key.
    History {
        /// The key.
        key: Octets,
    },
    /// Asks for the header of a transaction by its number.
    Header {
        /// The number of the transaction, from 1.
        number: u64,
    },
    /// Asks for the header of the last transaction, as a message.
    State,
    /// Asks for the dual proof between two transactions.
    Prove {
        /// The number of the one that the proof leads from.
        source: u64,
        /// The number of the one that it leads to.
        target: u64,
    },
    /// Asks for the dual proof between two transactions, with its anchor where one is due.
    Advance {
        /// The number of the one that the proof leads from, whose header a client keeps.
        source: u64,
        /// The number of the one that it leads to, whose header the client keeps then.
        target: u64,
    },
    /// Asks for an entry of a transaction by its index, from 0, proved under its own or a later state:
    /// that of the last transaction unless another is named.
    Item {
        /// The number of the transaction.
        number: u64,
        /// The index of the entry, from 0.
        index: u32,
        /// The number of the state's transaction; the last one where it is `None`.
        under: Option<u64>,
    },
    /// Raises the tree by so many transactions, at most to the last one.
    Link {
        /// How many.
        count: u64,
    },
    /// Answers a statement of SQL behind all that is durable. Where it writes, it places a transaction, unless a key that it guards was written since.
    Sql {
        /// The text, whether it is in SQL's grammar or not.
        text: Text,
    },
}

/// A line of a script that isn't passed over: a session's command.
#[derive(Drop)]
pub struct Line {
    /// The session's name: 1 to 16 of a-z 0-9.
    pub session: Octets,
    /// What it asks for.
    pub command: Command,
}
