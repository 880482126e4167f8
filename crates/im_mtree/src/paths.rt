ghost use Rattle.std.specs.Prelude.{◌≡◌, ◌<◌, ◌≤◌, ◌+◌, ℕ, List, [], ◌∷◌, length, reverse, slice_index_or, IfOk};
ghost use Rattle.im_digest.specs.Digests.{Hash};
ghost use Rattle.im_model.specs.Trees.{root};
ghost use Rattle.im_model.specs.Paths.{path_length, up};
ghost use Rattle.im_mtree.specs.Checks.{first_fail};
ghost use Rattle.im_mtree.specs.Inclusion.{inclusion};
ghost use Rattle.im_mtree.specs.PathChecks.{path_checks};
ghost use Rattle.im_mtree.specs.Ways.{sides, rise, meet};

use crate::digests::Digests;
use crate::faults::PathFault;
use crate::places::{Place, above, is_left, meeting};
use crate::roots::root;
use im_digest::{D32, Hash32};
use im_model::trees::{leaf_digest, node_digest, split};
use std::alloc::{AllocError, Global};

/// The path of leaf i, from 0, to the root over the digests: PATH of RFC 6962, section 2.1.1, its terms
/// from the leaf up. `check_path` is its twin. It hashes each other leaf once, and each node once that isn't
/// above leaf i. Its only error is want of memory.
#[tactic(auto, using(crate::proofs::InclusionLemmas::path_exact, crate::proofs::InclusionLemmas::path_leads, crate::proofs::InclusionLemmas::path_turned))]
pub fn path<H: Hash32>(
    alloc: Global,
    hash: &H,
    digests: &[D32],
    i: usize,
) -> Result<Digests, AllocError>
    requires { i < length digests.now }
    ensures value { IfOk result (λ path. reverse path ≡ inclusion (H.digest hash.now) digests.now i) }
    ensures exact { IfOk result (λ path. length path ≡ path_length (length digests.now) i) }
    ensures leads { IfOk result (λ path. up (H.digest hash.now) (length digests.now) i (slice_index_or digests.now i []) (reverse path) ≡ root (H.digest hash.now) digests.now) }
{
    Ok(turned(terms_down(alloc, hash, digests, i)?))
}

/// The terms in the other order. It takes no memory.
pub fn turned(mut terms: Vec<D32>) -> Digests
    ensures { result ≡ reverse terms.items }
{
    terms.as_mut_slice().reverse();
    Digests::from_vec(terms)
}

// The terms of the path of leaf i, from the root down.
fn terms_down<H: Hash32>(
    alloc: Global,
    hash: &H,
    digests: &[D32],
    i: usize,
) -> Result<Vec<D32>, AllocError>
    requires { i < length digests.now }
    ensures { IfOk result (λ terms. terms.items ≡ inclusion (H.digest hash.now) digests.now i) }
{
    let mut terms = Vec::new(alloc);
    let mut part = digests;
    let mut index = i;
    while part.len() > 1 {
        let parts = part_of(part, index);
        terms.push(root(hash, parts.beside))?;
        part = parts.inside;
        index = parts.index;
    }
    Ok(terms)
}

// The part of a tree that a leaf is in, the part beside it, and the leaf's index in its part.
#[derive(Clone, Copy)]
struct Parts<'a> {
    inside: &'a [D32],
    beside: &'a [D32],
    index: usize,
}

// The parts of a tree of more leaves than one, for its leaf i.
fn part_of<'a>(digests: &'a [D32], i: usize) -> Parts<'a>
    requires more { 1 < length digests.now }
    requires leaf { i < length digests.now }
    ensures within { result.index < length result.inside.now }
    ensures some { 0 < length result.beside.now }
    ensures fewer { length result.inside.now < length digests.now }
    ensures path { (hash : Hash) → inclusion hash digests.now i ≡ root hash result.beside.now ∷ inclusion hash result.inside.now result.index }
{
    let k = split(digests.len());
    let (left, right) = digests.split_at(k);
    if i < k {
        Parts {
            inside: left,
            beside: right,
            index: i,
        }
    } else {
        Parts {
            inside: right,
            beside: left,
            index: i - k,
        }
    }
}

/// Whether a path, its terms from the leaf up, leads from the leaf of a digest to a root, as that of leaf
/// i, from 0, of `width` leaves (RFC 9162, section 2.1.3.2). `path` is its twin, which builds one. It takes no
/// memory, and hashes at most the leaf, and a node for each term. A path doesn't fix the width, and may pass
/// with other widths too: the caller knows the width from elsewhere.
///
/// # Errors
///
/// The first of these that is so: the index isn't below the width, the path hasn't the exact length of a
/// path of this leaf, or it leads to another root.
pub fn check_path<H: Hash32>(
    hash: &H,
    digest: &D32,
    i: u32,
    width: u32,
    path: &[D32],
    root: &D32,
) -> Result<(), PathFault>
    ensures { result ≡ first_fail (path_checks (H.digest hash.now) digest.now i width path.now root.now) }
{
    if i >= width {
        return Err(PathFault::Index { width, got: i });
    }
    let want = terms_of(u64::from(i), u64::from(width));
    let got = path.len() as u64;
    if got != want {
        return Err(PathFault::Length { want, got });
    }
    let got = root_by_path(hash, digest, u64::from(i), u64::from(width), path);
    if got != *root {
        return Err(PathFault::Root { want: *root, got });
    }
    Ok(())
}

/// The number of terms of a path of leaf i, from 0, of `width` leaves. It hashes nothing.
pub fn terms_of(i: u64, width: u64) -> u64
    requires { i < width }
    ensures { result ≡ path_length width i }
{
    let mut count = 0;
    let mut place = meeting(Place {
        index: i,
        last: width - 1,
    });
    while 0 < place.last {
        place = meeting(above(place));
        count += 1;
    }
    count
}

/// The root that a path of the exact length, its terms from the leaf up, gives for the leaf of a digest,
/// leaf i, from 0, of `width` leaves (RFC 9162, section 2.1.3.2). It takes no memory, and hashes the leaf, and
/// a node for each term.
pub fn root_by_path<H: Hash32>(hash: &H, digest: &D32, i: u64, width: u64, path: &[D32]) -> D32
    requires within { i < width }
    requires exact { length path.now ≡ path_length width i }
    ensures { result ≡ up (H.digest hash.now) width i digest.now (reverse path.now) }
{
    climb(
        hash,
        &leaf_digest(hash, digest),
        Place {
            index: i,
            last: width - 1,
        },
        path,
    )
}

// The root that a walk from a place up gives, a term at each meeting.
fn climb<H: Hash32>(hash: &H, digest: &D32, mut place: Place, path: &[D32]) -> D32
    requires within { place.index ≤ place.last }
    requires exact { length path.now ≡ length (sides (place.last + 1) place.index) }
    ensures { result ≡ rise (meet (H.digest hash.now)) (sides (place.last + 1) place.index) digest.now path.now }
{
    let mut digest = *digest;
    for term in path {
        let met = meeting(place);
        digest = meet(hash, is_left(met), &digest, term);
        place = above(met);
    }
    digest
}

/// The node of a digest and the term beside it. It costs one hash.
pub fn meet<H: Hash32>(hash: &H, left: bool, digest: &D32, term: &D32) -> D32
    ensures { result ≡ meet (H.digest hash.now) left digest.now term.now }
{
    if left {
        node_digest(hash, term, digest)
    } else {
        node_digest(hash, digest, term)
    }
}
