use im_model::entries::Entry;
use im_model::headers::Header;
use im_mtree::digests::Digests;
use im_proof::proofs::DualProof;

/// What a server tells a client, one message a line.
#[derive(Drop)]
pub enum Message {
    /// The header of the last transaction of a history.
    State {
        /// That header.
        header: Header,
    },
    /// A proof that one history leads from the source's header to the target's.
    Dual {
        /// That proof.
        dual: DualProof,
    },
    /// A dual proof, and a second one that leads to its source from the end of the target's tree, where
    /// that end lies below the source.
    Advance {
        /// The dual proof.
        dual: DualProof,
        /// The second one, where there is one.
        anchor: Option<DualProof>,
    },
    /// An entry of the dual proof's source, which has this index there, and a path of it in the source's
    /// tree of entries.
    Item {
        /// The dual proof.
        dual: DualProof,
        /// The entry.
        entry: Entry,
        /// Its index among the source's entries, from 0.
        index: u32,
        /// Its path, the terms from the leaf up.
        path: Digests,
    },
}
