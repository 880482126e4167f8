ghost use Rattle.std.specs.Prelude.{◌≡◌, reverse};
ghost use Rattle.im_model.specs.Growth.{older, newer};

use im_digest::{D32, Hash32};
use im_model::trees::{node_digest, split};

/// The roots of one tree at two sizes.
#[derive(Clone, Copy)]
pub struct Roots {
    /// The root at the smaller size.
    pub older: D32,
    /// The root at the greater size.
    pub newer: D32,
}

/// The roots that a first term and those behind it give, of a consistency list from m to n (RFC 6962,
/// section 2.1.2, with the first term always there). It takes no memory, and hashes at most two nodes for each
/// term.
pub fn roots_of<H: Hash32>(hash: &H, m: usize, n: usize, first: &D32, terms: &[D32]) -> Roots
    ensures older { result.older ≡ older (H.digest hash.now) m n first.now (reverse terms.now) }
    ensures newer { result.newer ≡ newer (H.digest hash.now) m n first.now (reverse terms.now) }
{
    match terms.split_last() {
        None => Roots {
            older: *first,
            newer: *first,
        },
        Some((term, front)) => {
            let k = split(n);
            if m <= k {
                let roots = roots_of(hash, m, k, first, front);
                Roots {
                    older: roots.older,
                    newer: node_digest(hash, &roots.newer, term),
                }
            } else {
                let rest = n.saturating_sub(k);
                let roots = roots_of(hash, m - k, rest, first, front);
                Roots {
                    older: node_digest(hash, term, &roots.older),
                    newer: node_digest(hash, term, &roots.newer),
                }
            }
        }
    }
}
