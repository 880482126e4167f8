use im_model::entries::Entry;
use im_model::headers::Header;
use im_mtree::digests::Digests;
use im_proof::proofs::DualProof;
use im_versions::refusals::PlaceError;
use im_versions::versions::Versions;

/// What an event is answered.
#[derive(Drop)]
pub enum Output {
    /// The event isn't allowed now, and changed nothing.
    NotAllowed,
    /// A transaction was placed.
    Placed {
        /// Its header.
        header: Header,
    },
    /// A transaction was refused.
    Refused {
        /// Why; never for want of memory.
        why: PlaceError,
        /// How many transactions it was judged against.
        at: u64,
    },
    /// The event was done.
    Done,
    /// The call of the disk failed.
    Failed,
    /// The header of a transaction.
    Header {
        /// That header.
        header: Header,
    },
    /// What a word holds.
    Word {
        /// That number.
        number: u64,
    },
    /// What was read of keys.
    Versions {
        /// The versions, in the order that the question tells.
        versions: Versions,
    },
    /// A dual proof.
    Dual {
        /// That proof.
        dual: DualProof,
    },
    /// A dual proof, and its anchor.
    Advance {
        /// The dual proof.
        dual: DualProof,
        /// The dual proof to its source from the end of the target's tree, where that lies behind the source's tree and before the
        /// source.
        anchor: Option<DualProof>,
    },
    /// An entry of the dual proof's source.
    Item {
        /// The dual proof.
        dual: DualProof,
        /// The entry.
        entry: Entry,
        /// Its path among the source's entries, the terms from the leaf up.
        path: Digests,
    },
    /// The store was opened.
    Opened {
        /// How many transactions it holds.
        length: u64,
    },
}
