use im_model::entries::Entry;
use im_model::headers::Header;
use im_mtree::digests::Digests;
use im_proof::proofs::DualProof;

/// What a commit is answered once its transaction is durable.
#[derive(Drop)]
pub struct Receipt {
    /// The transaction's number, from 1.
    pub id: u64,
    /// Its header.
    pub header: Header,
}

/// A dual proof from a client's state to a later transaction.
#[derive(Drop)]
pub struct Advance {
    /// The dual proof.
    pub dual: DualProof,
    /// The dual proof to its source from the end of the target's tree, where that lies behind the source's tree and
    /// before the source, and else none.
    pub anchor: Option<DualProof>,
}

/// An entry of a transaction, proved under the header of that transaction or of a later one.
#[derive(Drop)]
pub struct ProvedEntry {
    /// The dual proof from the entry's transaction to the state.
    pub dual: DualProof,
    /// The entry: its metadata, its key, its value.
    pub entry: Entry,
    /// Its index among the transaction's entries, from 0.
    pub index: u32,
    /// Its path among them, the terms from the leaf up.
    pub path: Digests,
}
