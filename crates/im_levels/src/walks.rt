ghost use Rattle.std.specs.Prelude.{◌≡◌, ℕ, ◌<◌, ◌≤◌, ◌+◌, ◌-◌, ◌*◌, ◌^◌, List, [], ◌∷◌, ◌++◌, length, take, IfOk, OnOk, count_ones};
ghost use Rattle.im_digest.specs.Digests.{Hash};
ghost use Rattle.im_model.specs.Trees.{root};
ghost use Rattle.im_mtree.specs.Inclusion.{inclusion};
ghost use Rattle.im_proof.specs.Built.{growth_first, growth_rest};
ghost use Rattle.im_levels.specs.Counts.{whole};
ghost use Rattle.im_levels.specs.Edges.{IsEdgeOf};
ghost use Rattle.im_levels.specs.Leveled.{leaves_of, AreStored, IsPart};

use crate::edges::{Edge, edge_root, no_edge};
use crate::parts::{Part, split};
use crate::steps::Steps;
use crate::steps::nodes::Nodes;
use im_digest::{D32, Hash32};
use std::alloc::{AllocError, Global};
use std::sync::ledger::Ledger;

// The room that a walk's terms are given at once: all of a path or a list in a tree of at most 2^20 leaves.
const MOST_TERMS: usize = 21;

// The half of a part that a leaf is in, the half beside it, and the leaf's index in its half.
#[derive(Clone, Copy)]
struct Sides {
    inside: Part,
    beside: Part,
    index: usize,
}

// The halves of a part of more leaves than one, for its leaf i.
fn sides_of(part: Part, i: usize) -> Sides
    requires more { 1 < part.width }
    requires leaf { i < part.width }
    requires fits { part.at + part.width < 2 ^ 64 }
    requires aligned { IsPart part.at part.width }
    ensures within { result.index < result.inside.width }
    ensures fewer { result.inside.width < part.width }
    ensures some { 0 < result.beside.width }
    ensures smaller { result.beside.width < part.width }
    ensures inside { result.inside.at + result.inside.width ≤ part.at + part.width }
    ensures beside { result.beside.at + result.beside.width ≤ part.at + part.width }
    ensures inside_part { IsPart result.inside.at result.inside.width }
    ensures beside_part { IsPart result.beside.at result.beside.width }
    ensures reach { (e : ℕ) → part.width ≤ 2 ^ e → (0 < e) × (result.inside.width ≤ 2 ^ (e - 1)) }
    ensures digits { count_ones result.inside.width + count_ones result.beside.width ≤ count_ones part.width + 1 }
    ensures path { (hash : Hash) (leaves : List (List ℕ)) → part.at + part.width ≤ length leaves
        → inclusion hash (leaves_of leaves part.at part.width) i
        ≡ root hash (leaves_of leaves result.beside.at result.beside.width) ∷ inclusion hash (leaves_of leaves result.inside.at result.inside.width) result.index }
    ensures first { (hash : Hash) (leaves : List (List ℕ)) → part.at + part.width ≤ length leaves → i + 1 < part.width
        → growth_first hash (leaves_of leaves part.at part.width) (i + 1)
        ≡ growth_first hash (leaves_of leaves result.inside.at result.inside.width) (result.index + 1) }
    ensures rest { (hash : Hash) (leaves : List (List ℕ)) → part.at + part.width ≤ length leaves → i + 1 < part.width
        → growth_rest hash (leaves_of leaves part.at part.width) (i + 1)
        ≡ root hash (leaves_of leaves result.beside.at result.beside.width) ∷ growth_rest hash (leaves_of leaves result.inside.at result.inside.width) (result.index + 1) }
{
    let k = split(part.width);
    let left = Part {
        at: part.at,
        width: k,
    };
    let right = Part {
        at: part.at + k,
        width: part.width - k,
    };
    if i < k {
        Sides {
            inside: left,
            beside: right,
            index: i,
        }
    } else {
        Sides {
            inside: right,
            beside: left,
            index: i - k,
        }
    }
}

/// The terms of the path of leaf i, from 0, of the first n, from the root down: PATH of RFC 6962, section
/// 2.1.1. With b binary digits in n it takes at most 4b steps. Its only error is want of memory.
pub fn path_down<H: Hash32, L: Ledger>(
    alloc: Global,
    hash: &H,
    digests: &Nodes,
    n: usize,
    i: usize,
    steps: &mut Steps<L>,
) -> Result<Vec<D32>, AllocError>
    requires leaf { i < n }
    requires fits { n + 1 < 2 ^ 64 }
    requires inside { whole n ≤ length digests.now }
    ensures value { IfOk result (λ terms. (leaves : List (List ℕ)) → n ≤ length leaves → AreStored (H.digest hash.now) leaves digests.now
        → terms.items ≡ inclusion (H.digest hash.now) (take n leaves) i) }
    ensures cost { (b : ℕ) → n < 2 ^ b → steps.new ≤ steps.old + 4 * b }
{
    let mut edge = no_edge();
    let terms = path_down_along(alloc, hash, digests, n, i, &mut edge, steps)?;
    Ok(terms)
}

/// The terms that `path_down` gives, with an edge that other walks in the same tree share. It takes at most 4b steps
/// too; where the edge has the root over the part of the first n beside the leaf's whole subtree, it hashes nothing. Its
/// only error is want of memory.
pub fn path_down_along<H: Hash32, L: Ledger>(
    alloc: Global,
    hash: &H,
    digests: &Nodes,
    n: usize,
    i: usize,
    edge: &mut Edge,
    steps: &mut Steps<L>,
) -> Result<Vec<D32>, AllocError>
    requires leaf { i < n }
    requires fits { n + 1 < 2 ^ 64 }
    requires inside { whole n ≤ length digests.now }
    requires made { IsEdgeOf (H.digest hash.now) digests.now edge.old }
    ensures value { IfOk result (λ terms. (leaves : List (List ℕ)) → n ≤ length leaves → AreStored (H.digest hash.now) leaves digests.now
        → terms.items ≡ inclusion (H.digest hash.now) (take n leaves) i) }
    ensures made { OnOk result (IsEdgeOf (H.digest hash.now) digests.now edge.new) }
    ensures cost { (b : ℕ) → n < 2 ^ b → steps.new ≤ steps.old + 4 * b }
{
    let mut terms = Vec::with_capacity(alloc, MOST_TERMS)?;
    let mut part = Part { at: 0, width: n };
    let mut index = i;
    while 1 < part.width {
        let sides = sides_of(part, index);
        let term = edge_root(hash, digests, sides.beside, edge, steps);
        terms.push(term)?;
        part = sides.inside;
        index = sides.index;
    }
    Ok(terms)
}

/// The terms of the consistency list from the first m leaves to the first n in the other order, the first one
/// at the end: PROOF of RFC 6962, section 2.1.2. With b binary digits in n it takes at most 4b steps. Its only
/// error is want of memory.
pub fn list_down<H: Hash32, L: Ledger>(
    alloc: Global,
    hash: &H,
    digests: &Nodes,
    m: usize,
    n: usize,
    steps: &mut Steps<L>,
) -> Result<Vec<D32>, AllocError>
    requires some { 0 < m }
    requires grows { m ≤ n }
    requires fits { n + 1 < 2 ^ 64 }
    requires inside { whole n ≤ length digests.now }
    ensures value { IfOk result (λ terms. (leaves : List (List ℕ)) → n ≤ length leaves → AreStored (H.digest hash.now) leaves digests.now
        → terms.items ≡ growth_rest (H.digest hash.now) (take n leaves) m ++ growth_first (H.digest hash.now) (take n leaves) m ∷ []) }
    ensures cost { (b : ℕ) → n < 2 ^ b → steps.new ≤ steps.old + 4 * b }
{
    let mut edge = no_edge();
    let terms = list_down_along(alloc, hash, digests, m, n, &mut edge, steps)?;
    Ok(terms)
}

/// The terms that `list_down` gives, with an edge that other walks in the same tree share. It takes at most 4b steps
/// too. Its only error is want of memory.
pub fn list_down_along<H: Hash32, L: Ledger>(
    alloc: Global,
    hash: &H,
    digests: &Nodes,
    m: usize,
    n: usize,
    edge: &mut Edge,
    steps: &mut Steps<L>,
) -> Result<Vec<D32>, AllocError>
    requires some { 0 < m }
    requires grows { m ≤ n }
    requires fits { n + 1 < 2 ^ 64 }
    requires inside { whole n ≤ length digests.now }
    requires made { IsEdgeOf (H.digest hash.now) digests.now edge.old }
    ensures value { IfOk result (λ terms. (leaves : List (List ℕ)) → n ≤ length leaves → AreStored (H.digest hash.now) leaves digests.now
        → terms.items ≡ growth_rest (H.digest hash.now) (take n leaves) m ++ growth_first (H.digest hash.now) (take n leaves) m ∷ []) }
    ensures made { OnOk result (IsEdgeOf (H.digest hash.now) digests.now edge.new) }
    ensures cost { (b : ℕ) → n < 2 ^ b → steps.new ≤ steps.old + 4 * b }
{
    let mut terms = Vec::with_capacity(alloc, MOST_TERMS)?;
    let mut part = Part { at: 0, width: n };
    let mut index = m - 1;
    while index < part.width - 1 {
        let sides = sides_of(part, index);
        let term = edge_root(hash, digests, sides.beside, edge, steps);
        terms.push(term)?;
        part = sides.inside;
        index = sides.index;
    }
    let first = edge_root(hash, digests, part, edge, steps);
    terms.push(first)?;
    Ok(terms)
}
