ghost use Rattle.std.specs.Prelude.{◌≡◌, reverse};
ghost use Rattle.im_model.specs.Paths.{up};

use crate::trees::{leaf_digest, node_digest, split};
use im_digest::{D32, Hash32};

/// The root that a path gives for the leaf of a digest, at `index` from 0 in a tree of `width` leaves
/// (RFC 6962, section 2.1.1). The path has its terms from the leaf up. It takes no memory, and hashes the
/// leaf, and a node for each term. A path of another length than a proof's gives a digest too, so test the
/// length.
pub fn root_by_path<H: Hash32>(
    hash: &H,
    width: usize,
    index: usize,
    digest: &D32,
    path: &[D32],
) -> D32
    ensures { result ≡ up (H.digest hash.now) width index digest.now (reverse path.now) }
{
    match path.split_last() {
        None => leaf_digest(hash, digest),
        Some((term, front)) => {
            let k = split(width);
            if index < k {
                node_digest(hash, &root_by_path(hash, k, index, digest, front), term)
            } else {
                let rest = width.saturating_sub(k);
                node_digest(
                    hash,
                    term,
                    &root_by_path(hash, rest, index - k, digest, front),
                )
            }
        }
    }
}
