ghost use Rattle.std.specs.Prelude.{◌≡◌, reverse};
ghost use Rattle.im_model.specs.Growth.{older, newer, older_root, newer_root};

use crate::trees::{node_digest, split};
use im_digest::{D32, Hash32};

/// The root over the first m digests that a consistency list from m to n gives (RFC 6962, section
/// 2.1.2, with the first term always there). The empty list leaves the known root. It takes no memory,
/// and hashes at most one node for each term behind the first. A list of another length than a proof's
/// gives a digest too, so test the length.
pub fn older_root<H: Hash32>(hash: &H, m: usize, n: usize, known: &D32, list: &[D32]) -> D32
    ensures { result ≡ older_root (H.digest hash.now) m n known.now list.now }
{
    match list.split_first() {
        None => *known,
        Some((first, others)) => older_by(hash, m, n, first, others),
    }
}

/// The root over all n digests that a consistency list from m to n gives. The empty list leaves the
/// known root. It takes no memory, and hashes one node for each term behind the first.
pub fn newer_root<H: Hash32>(hash: &H, m: usize, n: usize, known: &D32, list: &[D32]) -> D32
    ensures { result ≡ newer_root (H.digest hash.now) m n known.now list.now }
{
    match list.split_first() {
        None => *known,
        Some((first, others)) => newer_by(hash, m, n, first, others),
    }
}

// The older root that a first term and those behind it give.
fn older_by<H: Hash32>(hash: &H, m: usize, n: usize, first: &D32, others: &[D32]) -> D32
    ensures { result ≡ older (H.digest hash.now) m n first.now (reverse others.now) }
{
    match others.split_last() {
        None => *first,
        Some((term, front)) => {
            let k = split(n);
            if m <= k {
                older_by(hash, m, k, first, front)
            } else {
                let rest = n.saturating_sub(k);
                node_digest(hash, term, &older_by(hash, m - k, rest, first, front))
            }
        }
    }
}

// The newer root that a first term and those behind it give.
fn newer_by<H: Hash32>(hash: &H, m: usize, n: usize, first: &D32, others: &[D32]) -> D32
    ensures { result ≡ newer (H.digest hash.now) m n first.now (reverse others.now) }
{
    match others.split_last() {
        None => *first,
        Some((term, front)) => {
            let k = split(n);
            if m <= k {
                node_digest(hash, &newer_by(hash, m, k, first, front), term)
            } else {
                let rest = n.saturating_sub(k);
                node_digest(hash, term, &newer_by(hash, m - k, rest, first, front))
            }
        }
    }
}
