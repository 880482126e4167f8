use crate::digest_lists::DigestLists;
use im_digest::D32;
use im_model::headers::Header;
use im_mtree::digests::Digests;

/// A linear advance from transaction a to e: the Alh of a + 1 and the inner digests of those behind it up
/// to e, and a path of each but the last in the target's tree. Both lists are empty where e is at most
/// a + 1.
#[derive(Drop)]
pub struct AdvanceProof {
    /// The Alh of transaction a + 1, and the inner digests of those behind it up to e.
    pub terms: Digests,
    /// The paths of the transactions a + 1 to e - 1, in order.
    pub inclusions: DigestLists,
}

/// A proof that one history leads from the source's header to the target's (immudb's dual proof, with a
/// linear advance). Lists that aren't due are empty. Paths go from the leaf up.
#[derive(Drop)]
pub struct DualProof {
    /// The header of the transaction that the proof leads from.
    pub source: Header,
    /// The header of the transaction that it leads to.
    pub target: Header,
    /// The source's Alh in the target's tree, where the source is below the tree's end.
    pub inclusion: Digests,
    /// From the source's tree to the target's.
    pub consistency: Digests,
    /// The Alh of the last transaction in the target's tree, or zeros where it holds none.
    pub target_bl_tx_alh: D32,
    /// That Alh in the target's tree.
    pub last_inclusion: Digests,
    /// An Alh, and the inner digests of the transactions behind it up to the target.
    pub linear: Digests,
    /// From the source's tree to the source or to the end of the target's tree.
    pub linear_advance: AdvanceProof,
}
