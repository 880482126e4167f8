ghost use Rattle.std.specs.Prelude.{◌≡◌, ◌<◌, ◌≤◌, ◌-◌, ◌↔◌, ◌++◌, ◌∷◌, [], true, IfOk, length, reverse};
ghost use Rattle.im_model.specs.Trees.{node, node_string};
ghost use Rattle.im_model.specs.Paths.{path_length, up, up_strings};
ghost use Rattle.im_model.specs.Growth.{consistency_length, older_root, newer_root, consistency_strings};
ghost use Rattle.im_pathmove.specs.Carried.{IsCarried, extended};
ghost use Rattle.im_pathmove.specs.Walked.{HaveShape, IsWalked, IsJoined, Picks};

use crate::carried::Carried;
use crate::roots::roots_of;
use im_digest::{D32, Hash32};
use im_model::paths::root_by_path;
use im_model::trees::{node_digest, split};
use im_mtree::digests::Digests;
use im_pairs::strings::{Children, node_octets};
use std::alloc::{AllocError, Global};

/// Carries the path of leaf i, from 1, in the tree of the first m leaves over a consistency list from m to
/// n: the path of that leaf in the tree of n, which leads to the list's newer root (RFC 6962, sections 2.1.1
/// and 2.1.2, with the list's first term always there), or two unequal strings of one digest. Path and list
/// have their exact lengths, and give one root of size m; where m is n the list is empty. All that the path's
/// check hashes was hashed in checking the two lists, and both strings of a pair were.
///
/// It hashes the leaf, at most one node for each term of the path, and two for each term of the list, once
/// each. The only error is want of memory.
pub fn carry<H: Hash32>(
    alloc: Global,
    hash: &H,
    i: u64,
    leaf: &D32,
    path: &[D32],
    m: u64,
    n: u64,
    consistency: &[D32],
) -> Result<Carried, AllocError>
    requires some { 1 ≤ i }
    requires within { i ≤ m }
    requires grows { m ≤ n }
    requires path { length path.now ≡ path_length m (i - 1) }
    requires consistency { length consistency.now ≡ consistency_length m n }
    requires one_root { older_root (H.digest hash.now) m n (up (H.digest hash.now) m (i - 1) leaf.now (reverse path.now)) consistency.now ≡ up (H.digest hash.now) m (i - 1) leaf.now (reverse path.now) }
    ensures { IfOk result (IsCarried (H.digest hash.now) n (i - 1) leaf.now (newer_root (H.digest hash.now) m n (up (H.digest hash.now) m (i - 1) leaf.now (reverse path.now)) consistency.now) (up_strings (H.digest hash.now) m (i - 1) leaf.now (reverse path.now) ++ consistency_strings (H.digest hash.now) m n consistency.now)) }
{
    match consistency.split_first() {
        None => path_copy(alloc, path),
        Some((first, others)) => {
            let index = (i - 1) as usize;
            let walked = walk(
                alloc, hash, index, leaf, path, m as usize, n as usize, first, others,
            )?;
            Ok(carried_of(walked))
        }
    }
}

// What a walk gives: the root of the path, both roots of the list, and what the path is carried to where its
// root is the list's older one.
#[derive(Drop)]
struct Walked {
    root: D32,
    older: D32,
    newer: D32,
    carried: Carried,
}

// What the path is carried to.
fn carried_of(walked: Walked) -> Carried
    ensures { result ≡ walked.carried }
{
    let Walked { carried, .. } = walked;
    carried
}

// The walk from the root down, for leaf i, from 0, of m, and a list from m to n of a first term and others.
fn walk<H: Hash32>(
    alloc: Global,
    hash: &H,
    i: usize,
    leaf: &D32,
    path: &[D32],
    m: usize,
    n: usize,
    first: &D32,
    others: &[D32],
) -> Result<Walked, AllocError>
    requires { HaveShape m n i (reverse path.now) first.now (reverse others.now) }
    ensures { IfOk result (IsWalked (H.digest hash.now) m n i leaf.now (reverse path.now) first.now (reverse others.now)) }
{
    match others.split_last() {
        None => whole(alloc, hash, i, leaf, path, m, first),
        Some((term, front)) => {
            let k = split(n);
            if m <= k {
                let walked = walk(alloc, hash, i, leaf, path, m, k, first, front)?;
                return beside(hash, walked, term);
            }
            let (top, under) = last_of(path);
            if i < k {
                let left = root_by_path(hash, k, i, leaf, under);
                let roots = roots_of(hash, m - k, n - k, first, front);
                let kept = path_with(alloc, under, &roots.newer)?;
                let ours = Children { left, right: *top };
                let theirs = Children {
                    left: *term,
                    right: roots.older,
                };
                return joined(alloc, hash, ours, theirs, &roots.newer, kept);
            }
            let walked = walk(alloc, hash, i - k, leaf, under, m - k, n - k, first, front)?;
            below(alloc, hash, top, term, walked)
        }
    }
}

// Where the list has no term left: the tree of m is that of n, and the path stays.
fn whole<H: Hash32>(
    alloc: Global,
    hash: &H,
    i: usize,
    leaf: &D32,
    path: &[D32],
    m: usize,
    first: &D32,
) -> Result<Walked, AllocError>
    ensures { IfOk result (λ walked. walked ≡ record { root = up (H.digest hash.now) m i leaf.now (reverse path.now); older = first.now; newer = first.now; carried = Carried.Path path.now }) }
{
    let carried = path_copy(alloc, path)?;
    Ok(Walked {
        root: root_by_path(hash, m, i, leaf, path),
        older: *first,
        newer: *first,
        carried,
    })
}

// Where the next term is beside all of the older tree: it joins the path, on the right.
fn beside<H: Hash32>(hash: &H, walked: Walked, term: &D32) -> Result<Walked, AllocError>
    ensures { IfOk result (λ longer. longer ≡ record { root = walked.root; older = walked.older; newer = node (H.digest hash.now) walked.newer term.now; carried = extended walked.carried term.now }) }
{
    let Walked {
        root,
        older,
        newer,
        carried,
    } = walked;
    Ok(Walked {
        root,
        older,
        newer: node_digest(hash, &newer, term),
        carried: with_term(carried, term)?,
    })
}

// Where the next term is the left part of both trees, and the leaf is in the right one: it joins the path, on
// the left.
fn below<H: Hash32>(
    alloc: Global,
    hash: &H,
    top: &D32,
    term: &D32,
    walked: Walked,
) -> Result<Walked, AllocError>
    ensures { IfOk result (IsJoined (H.digest hash.now) top.now walked.root term.now walked.older walked.newer (extended walked.carried term.now)) }
{
    let Walked {
        root,
        older,
        newer,
        carried,
    } = walked;
    let kept = with_term(carried, term)?;
    let ours = Children {
        left: *top,
        right: root,
    };
    let theirs = Children {
        left: *term,
        right: older,
    };
    joined(alloc, hash, ours, theirs, &newer, kept)
}

// The path's node and the list's nodes over what was walked: the list's newer one has this right child.
fn joined<H: Hash32>(
    alloc: Global,
    hash: &H,
    ours: Children,
    theirs: Children,
    newer: &D32,
    kept: Carried,
) -> Result<Walked, AllocError>
    ensures { IfOk result (IsJoined (H.digest hash.now) ours.left ours.right theirs.left theirs.right newer.now kept) }
{
    let carried = kept_or_pair(alloc, ours, theirs, kept)?;
    Ok(Walked {
        root: node_digest(hash, &ours.left, &ours.right),
        older: node_digest(hash, &theirs.left, &theirs.right),
        newer: node_digest(hash, &theirs.left, newer),
        carried,
    })
}

// What is carried, where both nodes have the same children; else the strings of both.
fn kept_or_pair(
    alloc: Global,
    ours: Children,
    theirs: Children,
    kept: Carried,
) -> Result<Carried, AllocError>
    ensures { IfOk result (Picks ((ours.left ≡ theirs.left) × (ours.right ≡ theirs.right)) kept (Carried.Pair (node_string ours.left ours.right) (node_string theirs.left theirs.right))) }
{
    if are_same(&ours, &theirs) {
        return Ok(kept);
    }
    drop(kept);
    let x = node_octets(alloc, &ours)?;
    let y = node_octets(alloc, &theirs)?;
    Ok(Carried::Pair(x, y))
}

// Whether both nodes have the same children.
fn are_same(ours: &Children, theirs: &Children) -> bool
    ensures { (result ≡ true) ↔ ((ours.now.left ≡ theirs.now.left) × (ours.now.right ≡ theirs.now.right)) }
{
    ours.left == theirs.left && ours.right == theirs.right
}

// The last term of a path, and those before it.
fn last_of(path: &[D32]) -> (&D32, &[D32])
    requires { 0 < length path.now }
    ensures value { path.now ≡ result.1.now ++ result.0.now ∷ [] }
    ensures shorter { length result.1.now < length path.now }
{
    (&path[path.len() - 1], &path[..path.len() - 1])
}

// A path with one term more at its end; a pair stays.
fn with_term(carried: Carried, term: &D32) -> Result<Carried, AllocError>
    ensures { IfOk result (λ longer. longer ≡ extended carried term.now) }
{
    match carried {
        Carried::Path(path) => {
            let mut terms = path.into_vec();
            terms.push(*term)?;
            Ok(Carried::Path(Digests::from_vec(terms)))
        }
        Carried::Pair(x, y) => Ok(Carried::Pair(x, y)),
    }
}

// A copy of a path with one term more at its end.
fn path_with(alloc: Global, path: &[D32], term: &D32) -> Result<Carried, AllocError>
    ensures { IfOk result (λ carried. carried ≡ Carried.Path (path.now ++ term.now ∷ [])) }
{
    let mut terms = Vec::new(alloc);
    terms.extend_from_slice(path)?;
    terms.push(*term)?;
    Ok(Carried::Path(Digests::from_vec(terms)))
}

// A copy of a path.
fn path_copy(alloc: Global, path: &[D32]) -> Result<Carried, AllocError>
    ensures { IfOk result (λ carried. carried ≡ Carried.Path path.now) }
{
    let mut terms = Vec::new(alloc);
    terms.extend_from_slice(path)?;
    Ok(Carried::Path(Digests::from_vec(terms)))
}
