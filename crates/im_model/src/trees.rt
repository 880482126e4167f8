ghost use Rattle.std.specs.Prelude.{◌≡◌, ◌<◌, ◌≤◌, length};
ghost use Rattle.im_model.specs.Trees.{leaf, node, split_of, root};

use im_digest::{D32, Hash32};

/// The digest of a leaf: H(00 | digest), RFC 6962, section 2.1. It takes no memory, and costs one hash.
pub fn leaf_digest<H: Hash32>(hash: &H, digest: &D32) -> D32
    ensures { result ≡ leaf (H.digest hash.now) digest.now }
{
    hash.hash(&[0], digest, &[])
}

/// The digest of a node: H(01 | left | right), RFC 6962, section 2.1. It takes no memory, and costs one hash.
pub fn node_digest<H: Hash32>(hash: &H, left: &D32, right: &D32) -> D32
    ensures { result ≡ node (H.digest hash.now) left.now right.now }
{
    hash.hash(&[1], left, right)
}

/// The largest power of two below n, for n > 1, and else 1: the number of leaves in the left part of
/// a tree of n leaves (RFC 6962, section 2.1).
pub fn split(n: usize) -> usize
    ensures value { result ≡ split_of n }
    ensures left { 0 < result }
    ensures right { 1 < n → result < n }
{
    let mut k = 1;
    while k < n.saturating_sub(k) {
        k *= 2;
    }
    k
}

/// The root over the digests: MTH of RFC 6962, section 2.1. It takes no memory, and hashes each leaf
/// and each node once.
pub fn plain_root<H: Hash32>(hash: &H, digests: &[D32]) -> D32
    requires { 0 < length digests.now }
    ensures { result ≡ root (H.digest hash.now) digests.now }
{
    if digests.len() == 1 {
        return leaf_digest(hash, &digests[0]);
    }
    let (left, right) = digests.split_at(split(digests.len()));
    node_digest(hash, &plain_root(hash, left), &plain_root(hash, right))
}
