ghost use Rattle.std.specs.Prelude.{◌≡◌, ◌<◌, ◌≤◌, ◌++◌, ◌∷◌, [], length, IfOk};
ghost use Rattle.im_digest.specs.Digests.{Hash};
ghost use Rattle.im_model.specs.Trees.{root};
ghost use Rattle.im_proof.specs.Built.{growth_first, growth_rest, consistency};

use im_digest::{D32, Hash32};
use im_model::trees::split;
use im_mtree::digests::Digests;
use im_mtree::paths::turned;
use im_mtree::roots::root;
use std::alloc::{AllocError, Global};

/// The consistency list from the first m leaves to all of them: PROOF of RFC 6962, section 2.1.2, with its
/// first term always there; empty where m is their number. `checks::check_consistency` is its twin. It hashes
/// each leaf once, and nothing where m is their number. `list_trees::ListTree` alone uses it. Its only error is
/// want of memory.
#[tactic(auto, using(im_levels::proofs::GrowthLemmas::list_whole, im_levels::proofs::GrowthLemmas::list_more))]
pub fn consistency<H: Hash32>(
    alloc: Global,
    hash: &H,
    leaves: &[D32],
    m: usize,
) -> Result<Digests, AllocError>
    requires some { 0 < m }
    requires within { m ≤ length leaves.now }
    ensures { IfOk result (λ list. list ≡ consistency (H.digest hash.now) leaves.now m) }
{
    if m == leaves.len() {
        return Ok(Digests::from_vec(Vec::new(alloc)));
    }
    Ok(turned(terms_down(alloc, hash, leaves, m)?))
}

// The terms of the consistency list from m in the other order: the first one at the end.
fn terms_down<H: Hash32>(
    alloc: Global,
    hash: &H,
    leaves: &[D32],
    m: usize,
) -> Result<Vec<D32>, AllocError>
    requires some { 0 < m }
    requires within { m ≤ length leaves.now }
    ensures { IfOk result (λ terms. terms.items ≡ growth_rest (H.digest hash.now) leaves.now m ++ growth_first (H.digest hash.now) leaves.now m ∷ []) }
{
    let mut terms = Vec::new(alloc);
    let mut part = leaves;
    let mut older = m;
    while older < part.len() {
        let parts = part_of(part, older);
        terms.push(root(hash, parts.beside))?;
        part = parts.inside;
        older = parts.older;
    }
    terms.push(root(hash, part))?;
    Ok(terms)
}

// The part of a tree that an older tree ends in, the part beside it, and how many leaves of its part the
// older tree has.
#[derive(Clone, Copy)]
struct Parts<'a> {
    inside: &'a [D32],
    beside: &'a [D32],
    older: usize,
}

// The parts of a tree of more leaves than an older one of m.
fn part_of<'a>(leaves: &'a [D32], m: usize) -> Parts<'a>
    requires some { 0 < m }
    requires grows { m < length leaves.now }
    ensures some { 0 < result.older }
    ensures within { result.older ≤ length result.inside.now }
    ensures beside { 0 < length result.beside.now }
    ensures fewer { length result.inside.now < length leaves.now }
    ensures first { (hash : Hash) → growth_first hash leaves.now m ≡ growth_first hash result.inside.now result.older }
    ensures rest { (hash : Hash) → growth_rest hash leaves.now m ≡ root hash result.beside.now ∷ growth_rest hash result.inside.now result.older }
{
    let k = split(leaves.len());
    let (left, right) = leaves.split_at(k);
    if m <= k {
        Parts {
            inside: left,
            beside: right,
            older: m,
        }
    } else {
        Parts {
            inside: right,
            beside: left,
            older: m - k,
        }
    }
}
