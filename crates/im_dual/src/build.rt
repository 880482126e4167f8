ghost use Rattle.std.specs.Prelude.{◌≡◌, ◌<◌, ◌≤◌, ◌-◌, ℕ, List, [], length, map, take, slice_index_or, nat_eq, nat_lt, if◌then◌else◌, IfOk, OnOk, Ok};
ghost use Rattle.im_model.specs.Headers.{inner, alh};
ghost use Rattle.im_model.specs.History.{no_digest, alhs_of, header_of, IsHistory};
ghost use Rattle.im_model.specs.declared.transactions.Transaction.{Transaction};
ghost use Rattle.im_mtree.specs.Checks.{first_fail};
ghost use Rattle.im_proof.specs.Built.{linear_terms, path_of, paths_from, consistency, advance_of, dual_of, headers_of, inners_of};
ghost use Rattle.im_proof.specs.Duals.{dual_checks};
ghost use Rattle.im_levels.specs.Edges.{IsEdgeOf};
ghost use Rattle.im_levels.specs.Leveled.{IsLeveled};
ghost use Rattle.im_dual.specs.Kept.{header_at, AreChained};

use im_atree::trees::Tree;
use im_digest::{D32, Hash32};
use im_header::{alh, inner};
use im_levels::edges::{Edge, no_edge};
use im_model::headers::Header;
use im_mtree::digests::Digests;
use im_proof::digest_lists::DigestLists;
use im_proof::proofs::{AdvanceProof, DualProof};
use std::alloc::{AllocError, Global};

/// The dual proof between transactions s and t of a history, from the headers of the history and the tree
/// of its first Alh. It passes `check`, its twin. Hashed are the inner digests that it tells, of the other headers only
/// the last of all, and no leaf: the Alh of each header but that one is held by the next. With b binary digits in the
/// tree's size a path or a list costs at most 4b digests read or hashed, and paths and lists whose leaves are in one whole
/// subtree of the tree hash what they share once. The only error is want of memory.
pub fn build<H: Hash32>(
    alloc: Global,
    hash: &H,
    headers: &[Header],
    tree: &Tree,
    s: u64,
    t: u64,
) -> Result<DualProof, AllocError>
    requires history { (history : List Transaction) × IsHistory history × (headers.now ≡ headers_of (H.digest hash.now) history) × IsLeveled (H.digest hash.now) (take tree.now.size (alhs_of (H.digest hash.now) history)) tree.now }
    requires some { 1 ≤ s }
    requires order { s ≤ t }
    requires within { t ≤ length headers.now }
    requires tree { (header_at headers.now t).bl_tx_id ≤ tree.now.size }
    ensures value { IfOk result (λ proof. (history : List Transaction) → IsHistory history → headers.now ≡ headers_of (H.digest hash.now) history → proof ≡ dual_of (H.digest hash.now) (header_of (H.digest hash.now) history s) (header_of (H.digest hash.now) history t) (alhs_of (H.digest hash.now) history) (inners_of (H.digest hash.now) history)) }
    ensures passes { IfOk result (λ proof. first_fail (dual_checks (H.digest hash.now) proof) ≡ Ok tt) }
{
    let s = s as usize;
    let t = t as usize;
    assemble(alloc, hash, headers, tree, s, t, size_at(headers, t))
}

// The size of the tree when transaction t was placed.
pub(crate) fn size_at(headers: &[Header], t: usize) -> u64
    requires some { 1 ≤ t }
    requires within { t ≤ length headers.now }
    ensures { result ≡ (header_at headers.now t).bl_tx_id }
{
    headers[t - 1].bl_tx_id
}

// The dual proof between headers s and t, where the target's tree has the first `size` leaves.
fn assemble<H: Hash32>(
    alloc: Global,
    hash: &H,
    headers: &[Header],
    tree: &Tree,
    s: usize,
    t: usize,
    size: u64,
) -> Result<DualProof, AllocError>
    requires some { 1 ≤ s }
    requires order { s ≤ t }
    requires within { t ≤ length headers.now }
    requires source { (header_at headers.now s).id ≡ s }
    requires target { (header_at headers.now t).id ≡ t }
    requires shrink { (header_at headers.now s).bl_tx_id ≤ size }
    requires lag { size < t }
    requires size { size ≡ (header_at headers.now t).bl_tx_id }
    requires tree { size ≤ tree.now.size }
    requires chained { AreChained (H.digest hash.now) headers.now }
    requires leaves { IsLeveled (H.digest hash.now) (take tree.now.size (map (alh (H.digest hash.now)) headers.now)) tree.now }
    ensures { IfOk result (λ proof. proof ≡ dual_of (H.digest hash.now) (header_at headers.now s) (header_at headers.now t) (map (alh (H.digest hash.now)) headers.now) (map (inner (H.digest hash.now)) headers.now)) }
{
    let source = copy_of(alloc, headers, s)?;
    let target = copy_of(alloc, headers, t)?;
    let old = source.bl_tx_id;
    let end = size as usize;
    let mut edge = no_edge();
    let inclusion = inclusion_of(alloc, hash, tree, &mut edge, s as u64, size)?;
    let consistency = consistency_of(alloc, hash, tree, &mut edge, old, size)?;
    let last_inclusion = last_inclusion_of(alloc, hash, tree, size)?;
    let linear = linear_of(alloc, hash, headers, s.max(end), t)?;
    let linear_advance = advance(
        alloc,
        hash,
        headers,
        tree,
        &mut edge,
        old as usize,
        s.min(end),
        size,
    )?;
    Ok(DualProof {
        source,
        target,
        inclusion,
        consistency,
        target_bl_tx_alh: last_of(hash, headers, end),
        last_inclusion,
        linear,
        linear_advance,
    })
}

// A copy of header k.
fn copy_of(alloc: Global, headers: &[Header], k: usize) -> Result<Header, AllocError>
    requires some { 1 ≤ k }
    requires within { k ≤ length headers.now }
    ensures { IfOk result (λ header. header ≡ header_at headers.now k) }
{
    headers[k - 1].try_clone(alloc)
}

// The path of transaction s, where it is below the end of the tree of this size. `check_inclusion` checks it.
fn inclusion_of<H: Hash32>(
    alloc: Global,
    hash: &H,
    tree: &Tree,
    edge: &mut Edge,
    s: u64,
    size: u64,
) -> Result<Digests, AllocError>
    requires some { 1 ≤ s }
    requires within { size ≤ tree.now.size }
    requires made { IsEdgeOf (H.digest hash.now) tree.now.digests edge.old }
    ensures value { IfOk result (λ path. (leaves : List (List ℕ)) → IsLeveled (H.digest hash.now) leaves tree.now
        → path ≡ (if nat_lt s size then path_of (H.digest hash.now) (take size leaves) (s - 1) else [])) }
    ensures made { OnOk result (IsEdgeOf (H.digest hash.now) tree.now.digests edge.new) }
{
    if s < size {
        tree.inclusion_along(alloc, hash, s, size, edge)
    } else {
        Ok(Digests::from_vec(Vec::new(alloc)))
    }
}

// The consistency list from the first `old` leaves to the first `size`, where there are any. `check_consistency`
// checks it.
fn consistency_of<H: Hash32>(
    alloc: Global,
    hash: &H,
    tree: &Tree,
    edge: &mut Edge,
    old: u64,
    size: u64,
) -> Result<Digests, AllocError>
    requires grows { old ≤ size }
    requires within { size ≤ tree.now.size }
    requires made { IsEdgeOf (H.digest hash.now) tree.now.digests edge.old }
    ensures value { IfOk result (λ list. (leaves : List (List ℕ)) → IsLeveled (H.digest hash.now) leaves tree.now
        → list ≡ (if nat_eq old 0 then [] else consistency (H.digest hash.now) (take size leaves) old)) }
    ensures made { OnOk result (IsEdgeOf (H.digest hash.now) tree.now.digests edge.new) }
{
    if old == 0 {
        Ok(Digests::from_vec(Vec::new(alloc)))
    } else {
        tree.consistency_along(alloc, hash, old, size, edge)
    }
}

// The Alh of header k. The next header holds it; that of the last one is hashed.
fn alh_at<H: Hash32>(hash: &H, headers: &[Header], k: usize) -> D32
    requires some { 1 ≤ k }
    requires within { k ≤ length headers.now }
    requires chained { AreChained (H.digest hash.now) headers.now }
    ensures { result ≡ slice_index_or (map (alh (H.digest hash.now)) headers.now) (k - 1) [] }
{
    if k < headers.len() {
        headers[k].prev_alh
    } else {
        alh(hash, &headers[k - 1])
    }
}

// The Alh of header `size`, or zeros where there is none: the last of the first `size` leaves. `check_bl` checks it.
fn last_of<H: Hash32>(hash: &H, headers: &[Header], size: usize) -> D32
    requires within { size ≤ length headers.now }
    requires chained { AreChained (H.digest hash.now) headers.now }
    ensures { result ≡ (if nat_eq size 0 then no_digest else slice_index_or (map (alh (H.digest hash.now)) headers.now) (size - 1) []) }
{
    if size == 0 {
        [0; 32]
    } else {
        alh_at(hash, headers, size)
    }
}

// The path of the last of the first `size` leaves, where there is one. `check_last` checks it.
fn last_inclusion_of<H: Hash32>(
    alloc: Global,
    hash: &H,
    tree: &Tree,
    size: u64,
) -> Result<Digests, AllocError>
    requires { size ≤ tree.now.size }
    ensures { IfOk result (λ path. (leaves : List (List ℕ)) → IsLeveled (H.digest hash.now) leaves tree.now
        → path ≡ (if nat_eq size 0 then [] else path_of (H.digest hash.now) (take size leaves) (size - 1))) }
{
    if size == 0 {
        Ok(Digests::from_vec(Vec::new(alloc)))
    } else {
        tree.inclusion(alloc, hash, size, size)
    }
}

// The linear terms from transaction s to t. It hashes the inner digests of those behind s. `check_linear` checks them.
fn linear_of<H: Hash32>(
    alloc: Global,
    hash: &H,
    headers: &[Header],
    s: usize,
    t: usize,
) -> Result<Digests, AllocError>
    requires some { 1 ≤ s }
    requires order { s ≤ t }
    requires within { t ≤ length headers.now }
    requires chained { AreChained (H.digest hash.now) headers.now }
    ensures { IfOk result (λ terms. terms ≡ linear_terms (map (alh (H.digest hash.now)) headers.now) (map (inner (H.digest hash.now)) headers.now) s t) }
{
    let mut terms = Vec::new(alloc);
    terms.push(alh_at(hash, headers, s))?;
    for i in s..t {
        terms.push(inner(hash, &headers[i]))?;
    }
    Ok(Digests::from_vec(terms))
}

// The linear advance from transaction a to e in the tree of the first `size` leaves. `check_advance` checks it.
#[tactic(auto, unfolding(im_proof::specs::Built::advance_of))]
fn advance<H: Hash32>(
    alloc: Global,
    hash: &H,
    headers: &[Header],
    tree: &Tree,
    edge: &mut Edge,
    a: usize,
    e: usize,
    size: u64,
) -> Result<AdvanceProof, AllocError>
    requires end { e ≤ size }
    requires within { size ≤ tree.now.size }
    requires headers { e ≤ length headers.now }
    requires chained { AreChained (H.digest hash.now) headers.now }
    requires made { IsEdgeOf (H.digest hash.now) tree.now.digests edge.old }
    requires leaves { IsLeveled (H.digest hash.now) (take tree.now.size (map (alh (H.digest hash.now)) headers.now)) tree.now }
    ensures { IfOk result (λ advance. advance ≡ advance_of (H.digest hash.now) (map (alh (H.digest hash.now)) headers.now) (map (inner (H.digest hash.now)) headers.now) a e size) }
{
    if e <= a || e - a == 1 {
        return Ok(AdvanceProof {
            terms: Digests::from_vec(Vec::new(alloc)),
            inclusions: DigestLists::from_vec(Vec::new(alloc)),
        });
    }
    let terms = linear_of(alloc, hash, headers, a + 1, e)?;
    let inclusions = paths(alloc, hash, tree, edge, a as u64, e as u64 - 1, size)?;
    Ok(AdvanceProof { terms, inclusions })
}

// The paths in the tree of the first `size` leaves of the leaves from one on, below another, from 0.
fn paths<H: Hash32>(
    alloc: Global,
    hash: &H,
    tree: &Tree,
    edge: &mut Edge,
    from: u64,
    to: u64,
    size: u64,
) -> Result<DigestLists, AllocError>
    requires order { from ≤ to }
    requires end { to ≤ size }
    requires within { size ≤ tree.now.size }
    requires made { IsEdgeOf (H.digest hash.now) tree.now.digests edge.old }
    ensures { IfOk result (λ paths. (leaves : List (List ℕ)) → IsLeveled (H.digest hash.now) leaves tree.now
        → paths ≡ paths_from (H.digest hash.now) (take size leaves) from (to - from)) }
{
    let mut paths = Vec::new(alloc);
    for i in from..to {
        paths.push(tree.inclusion_along(alloc, hash, i + 1, size, edge)?)?;
    }
    Ok(DigestLists::from_vec(paths))
}
