use im_mtree::digests::Digests;
use im_octet::octets::Octets;

/// What a path is carried to.
#[derive(Drop)]
pub enum Carried {
    /// The path of the leaf in the larger tree, its terms from the leaf up.
    Path(Digests),
    /// Two unequal strings of one digest.
    Pair(Octets, Octets),
}
