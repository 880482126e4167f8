use crate::images::Image;
use crate::questions::{KeyQuestion, ProofQuestion};
use crate::words::Word;
use im_tx::prepared::Prepared;

/// One step of one actor. Sessions are numbered as the caller likes. Where `fails` is set the call of the disk that the event
/// makes fails: what reads give stays, and a crash may leave what it may leave behind the call. From then on the disk isn't
/// called until the store is opened again.
#[derive(Drop)]
pub enum Event {
    /// A session asks for a transaction to be placed. Its tree is what is linked.
    Place {
        /// The session.
        session: u64,
        /// The time, in Unix seconds.
        ts: i64,
        /// What is asked for.
        prepared: Prepared,
    },
    /// The flusher writes the next piece of the batch in progress; with none it begins one, of what is placed behind the
    /// durable transactions up to number `last`, and writes its first piece.
    Stage {
        /// The last transaction of a batch that begins. For a batch in progress it isn't looked at.
        last: u64,
        /// Whether the write fails.
        fails: bool,
    },
    /// It makes the pieces of the batch durable.
    Seal {
        /// Whether the sync fails.
        fails: bool,
    },
    /// It writes 01 at the batch's gate.
    Gate {
        /// Whether the write fails.
        fails: bool,
    },
    /// It makes that durable, and with it the batch.
    Settle {
        /// Whether the sync fails.
        fails: bool,
    },
    /// A session is told the header of transaction `number`, since it is durable.
    Ack {
        /// The session.
        session: u64,
        /// The number of the transaction.
        number: u64,
    },
    /// The flusher tells that a call of the disk has failed.
    Fault,
    /// The linker adds one durable transaction to the tree.
    Link,
    /// The indexer takes one durable transaction.
    Index,
    /// A session looks at a word.
    Load {
        /// The session.
        session: u64,
        /// The word.
        word: Word,
    },
    /// A session reads keys as they stood behind the first `number` transactions.
    Snap {
        /// The session.
        session: u64,
        /// How many transactions it reads behind.
        number: u64,
        /// What it asks.
        question: KeyQuestion,
    },
    /// A session asks for a proof.
    Prove {
        /// The session.
        session: u64,
        /// What it asks.
        question: ProofQuestion,
    },
    /// The machine stops, and its files are left so.
    Crash {
        /// The files.
        image: Image,
    },
    /// The store is opened.
    Open,
}
