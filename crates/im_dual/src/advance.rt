ghost use Rattle.std.specs.Prelude.{◌≡◌, ◌≤◌, ◌+◌, [], ◌∷◌, ◌++◌, length, bytes_eq, IfOk, MatchResult, Ok, Err};
ghost use Rattle.im_model.specs.Chains.{chain};
ghost use Rattle.im_mtree.specs.Checks.{first_fail};
ghost use Rattle.im_proof.specs.declared.faults.DualFault.TheVariants.{AdvanceEnd};
ghost use Rattle.im_proof.specs.ChainChecks.{advance_terms, path_checks_of, path_checks_from, advance_checks};

use im_chain::step;
use im_digest::{D32, Hash32};
use im_mtree::digests::Digests;
use im_mtree::paths::{root_by_path, terms_of};
use im_proof::faults::DualFault;
use im_proof::proofs::AdvanceProof;

/// The size of a hash tree, and its root.
#[derive(Clone, Copy)]
pub struct TreeHead {
    /// The number of leaves.
    pub size: u64,
    /// The root over them.
    pub root: D32,
}

/// Whether an advance from transaction a to e leads to the Alh of e, and each Alh on the way is in the tree.
/// `build::advance` is its twin, which builds one. It takes no memory, and hashes at most once for each term
/// behind the first, and for each path a leaf, and a node a term.
///
/// # Errors
///
/// The first check that fails: of the number of terms, of the number of paths, of the paths in their order,
/// of the Alh at the end.
pub fn check_advance<H: Hash32>(
    hash: &H,
    a: u64,
    e: u64,
    tree: TreeHead,
    end: &D32,
    advance: &AdvanceProof,
) -> Result<(), DualFault>
    requires { e ≤ tree.size }
    ensures { result ≡ first_fail (advance_checks (H.digest hash.now) a e tree.size tree.root end.now advance.now.terms advance.now.inclusions) }
{
    let terms = advance.terms.as_slice();
    let paths = advance.inclusions.as_slice();
    let want = terms_due(a, e);
    let got = terms.len() as u64;
    if got != want {
        return Err(DualFault::AdvanceLength { want, got });
    }
    let want = want.saturating_sub(1);
    let got = paths.len() as u64;
    if got != want {
        return Err(DualFault::AdvanceCount { want, got });
    }
    match terms.split_first() {
        None => Ok(()),
        Some((first, inners)) => check_walk(hash, a + 1, tree, end, first, inners, paths),
    }
}

// The number of terms of an advance from a to e.
fn terms_due(a: u64, e: u64) -> u64
    ensures { result ≡ advance_terms a e }
{
    if e <= a || e - a == 1 { 0 } else { e - a }
}

// Whether the Alh of transaction k, and those that the inner digests lead to but for the last, are in the
// tree, and the last is the one told.
#[tactic(auto, using(im_mtree::proofs::CheckLemmas::fail_both, im_mtree::proofs::CheckLemmas::fail_append))]
fn check_walk<H: Hash32>(
    hash: &H,
    k: u64,
    tree: TreeHead,
    end: &D32,
    first: &D32,
    inners: &[D32],
    paths: &[Digests],
) -> Result<(), DualFault>
    requires some { 1 ≤ k }
    requires within { k + length inners.now ≤ tree.size }
    requires exact { length paths.now ≡ length inners.now }
    ensures { result ≡ first_fail (path_checks_from (H.digest hash.now) tree.size tree.root k first.now inners.now paths.now ++ (bytes_eq (chain (H.digest hash.now) first.now k inners.now) end.now, AdvanceEnd end.now (chain (H.digest hash.now) first.now k inners.now)) ∷ []) }
{
    match check_paths(hash, k, tree, first, inners, paths) {
        Ok(got) => check_end(end, got),
        Err(fault) => Err(fault),
    }
}

// Whether the Alh that an advance ends with is the one told.
fn check_end(want: &D32, got: D32) -> Result<(), DualFault>
    ensures { result ≡ first_fail ((bytes_eq got want.now, AdvanceEnd want.now got) ∷ []) }
{
    if got != *want {
        return Err(DualFault::AdvanceEnd { want: *want, got });
    }
    Ok(())
}

// Whether the Alh of transaction `from`, and those that the inner digests lead to but for the last, are in
// the tree. The last is handed back.
fn check_paths<H: Hash32>(
    hash: &H,
    from: u64,
    tree: TreeHead,
    start: &D32,
    inners: &[D32],
    paths: &[Digests],
) -> Result<D32, DualFault>
    requires some { 1 ≤ from }
    requires within { from + length inners.now ≤ tree.size }
    requires exact { length paths.now ≡ length inners.now }
    ensures first { MatchResult result (λ end. first_fail (path_checks_from (H.digest hash.now) tree.size tree.root from start.now inners.now paths.now) ≡ Ok tt) (λ fault. first_fail (path_checks_from (H.digest hash.now) tree.size tree.root from start.now inners.now paths.now) ≡ Err fault) }
    ensures end { IfOk result (λ end. end ≡ chain (H.digest hash.now) start.now from inners.now) }
{
    let mut alh = *start;
    let mut k = from;
    for (i, inner) in inners.iter().enumerate() {
        match check_path_of(hash, k, tree, &alh, paths[i].as_slice()) {
            Ok(()) => {}
            Err(fault) => return Err(fault),
        }
        k += 1;
        alh = step(hash, k, &alh, inner);
    }
    Ok(alh)
}

// Whether a path leads from the Alh of transaction k to the tree's root.
fn check_path_of<H: Hash32>(
    hash: &H,
    k: u64,
    tree: TreeHead,
    alh: &D32,
    path: &[D32],
) -> Result<(), DualFault>
    requires some { 1 ≤ k }
    requires within { k ≤ tree.size }
    ensures { result ≡ first_fail (path_checks_of (H.digest hash.now) tree.size tree.root k alh.now path.now) }
{
    let want = terms_of(k - 1, tree.size);
    let got = path.len() as u64;
    if got != want {
        return Err(DualFault::AdvancePathLength {
            number: k,
            want,
            got,
        });
    }
    let got = root_by_path(hash, alh, k - 1, tree.size, path);
    if got != tree.root {
        return Err(DualFault::AdvancePathRoot {
            number: k,
            want: tree.root,
            got,
        });
    }
    Ok(())
}
