//! The tree's calls with a count of their own, which is given up: what a call takes is told by its twin with `_steps`.

ghost use Rattle.std.specs.Prelude.{◌≡◌, ◌<◌, ◌≤◌, ◌+◌, ◌-◌, ℕ, List, [], ◌∷◌, ◌++◌, length, take, reverse, slice_index_or, IfOk, OnOk, OnErr, Ok};
ghost use Rattle.im_model.specs.Trees.{root};
ghost use Rattle.im_model.specs.Paths.{path_length, up};
ghost use Rattle.im_model.specs.Growth.{consistency_length};
ghost use Rattle.im_mtree.specs.Checks.{first_fail};
ghost use Rattle.im_proof.specs.Built.{path_of, consistency};
ghost use Rattle.im_proof.specs.TreeChecks.{consistency_checks};
ghost use Rattle.im_levels.specs.Edges.{IsEdgeOf};
ghost use Rattle.im_levels.specs.Leveled.{IsLeveled};

use crate::trees::Tree;
use im_digest::{D32, Hash32};
use im_levels::edges::Edge;
use im_levels::steps::Steps;
use im_mtree::digests::Digests;
use std::alloc::{AllocError, Global};
use std::sync::ledger::{Blank, Ledger};

// `append_steps` with a count of its own.
pub(crate) fn append_counted<H: Hash32, L: Ledger>(
    tree: &mut Tree,
    hash: &H,
    alh: &D32,
    blank: Blank,
) -> Result<u64, AllocError>
    requires name { blank.name ≡ L.name }
    requires parts { blank.parts ≡ L.parts }
    requires one { 0 < blank.parts }
    ensures size { IfOk result (λ size. size ≡ tree.new.size) }
    ensures ok { OnOk result (tree.new.size ≡ tree.old.size + 1) }
    ensures front { OnOk result (take (length tree.old.digests) tree.new.digests ≡ tree.old.digests) }
    ensures leaves { OnOk result ((leaves : List (List ℕ)) → IsLeveled (H.digest hash.now) leaves tree.old
        → IsLeveled (H.digest hash.now) (leaves ++ alh.now ∷ []) tree.new) }
    ensures err { OnErr result (tree.new ≡ tree.old) }
{
    let mut steps = Steps::<L>::new(blank);
    tree.append_steps(hash, alh, &mut steps)
}

// `root_steps` with a count of its own.
pub(crate) fn root_counted<H: Hash32, L: Ledger>(tree: &Tree, hash: &H, n: u64, blank: Blank) -> D32
    requires name { blank.name ≡ L.name }
    requires parts { blank.parts ≡ L.parts }
    requires one { 0 < blank.parts }
    requires some { 1 ≤ n }
    requires within { n ≤ tree.now.size }
    ensures { (leaves : List (List ℕ)) → IsLeveled (H.digest hash.now) leaves tree.now
        → result ≡ root (H.digest hash.now) (take n leaves) }
{
    let mut steps = Steps::<L>::new(blank);
    tree.root_steps(hash, n, &mut steps)
}

// `inclusion_steps` with a count of its own.
pub(crate) fn inclusion_counted<H: Hash32, L: Ledger>(
    tree: &Tree,
    alloc: Global,
    hash: &H,
    i: u64,
    n: u64,
    blank: Blank,
) -> Result<Digests, AllocError>
    requires name { blank.name ≡ L.name }
    requires parts { blank.parts ≡ L.parts }
    requires one { 0 < blank.parts }
    requires some { 1 ≤ i }
    requires inside { i ≤ n }
    requires within { n ≤ tree.now.size }
    ensures value { IfOk result (λ path. (leaves : List (List ℕ)) → IsLeveled (H.digest hash.now) leaves tree.now
        → path ≡ path_of (H.digest hash.now) (take n leaves) (i - 1)) }
    ensures exact { IfOk result (λ path. (leaves : List (List ℕ)) → IsLeveled (H.digest hash.now) leaves tree.now
        → length path ≡ path_length n (i - 1)) }
    ensures leads { IfOk result (λ path. (leaves : List (List ℕ)) → IsLeveled (H.digest hash.now) leaves tree.now
        → up (H.digest hash.now) n (i - 1) (slice_index_or leaves (i - 1) []) (reverse path) ≡ root (H.digest hash.now) (take n leaves)) }
{
    let mut steps = Steps::<L>::new(blank);
    tree.inclusion_steps(alloc, hash, i, n, &mut steps)
}

// `consistency_steps` with a count of its own.
pub(crate) fn consistency_counted<H: Hash32, L: Ledger>(
    tree: &Tree,
    alloc: Global,
    hash: &H,
    m: u64,
    n: u64,
    blank: Blank,
) -> Result<Digests, AllocError>
    requires name { blank.name ≡ L.name }
    requires parts { blank.parts ≡ L.parts }
    requires one { 0 < blank.parts }
    requires some { 1 ≤ m }
    requires grows { m ≤ n }
    requires within { n ≤ tree.now.size }
    ensures value { IfOk result (λ list. (leaves : List (List ℕ)) → IsLeveled (H.digest hash.now) leaves tree.now
        → list ≡ consistency (H.digest hash.now) (take n leaves) m) }
    ensures exact { IfOk result (λ list. (leaves : List (List ℕ)) → IsLeveled (H.digest hash.now) leaves tree.now
        → length list ≡ consistency_length m n) }
    ensures passes { IfOk result (λ list. (leaves : List (List ℕ)) → IsLeveled (H.digest hash.now) leaves tree.now
        → first_fail (consistency_checks (H.digest hash.now) m n (root (H.digest hash.now) (take m leaves)) (root (H.digest hash.now) (take n leaves)) list) ≡ Ok tt) }
{
    let mut steps = Steps::<L>::new(blank);
    tree.consistency_steps(alloc, hash, m, n, &mut steps)
}

// `inclusion_along_steps` with a count of its own.
pub(crate) fn inclusion_along_counted<H: Hash32, L: Ledger>(
    tree: &Tree,
    alloc: Global,
    hash: &H,
    i: u64,
    n: u64,
    edge: &mut Edge,
    blank: Blank,
) -> Result<Digests, AllocError>
    requires name { blank.name ≡ L.name }
    requires parts { blank.parts ≡ L.parts }
    requires one { 0 < blank.parts }
    requires some { 1 ≤ i }
    requires inside { i ≤ n }
    requires within { n ≤ tree.now.size }
    requires made { IsEdgeOf (H.digest hash.now) tree.now.digests edge.old }
    ensures value { IfOk result (λ path. (leaves : List (List ℕ)) → IsLeveled (H.digest hash.now) leaves tree.now
        → path ≡ path_of (H.digest hash.now) (take n leaves) (i - 1)) }
    ensures made { OnOk result (IsEdgeOf (H.digest hash.now) tree.now.digests edge.new) }
{
    let mut steps = Steps::<L>::new(blank);
    tree.inclusion_along_steps(alloc, hash, i, n, edge, &mut steps)
}

// `consistency_along_steps` with a count of its own.
pub(crate) fn consistency_along_counted<H: Hash32, L: Ledger>(
    tree: &Tree,
    alloc: Global,
    hash: &H,
    m: u64,
    n: u64,
    edge: &mut Edge,
    blank: Blank,
) -> Result<Digests, AllocError>
    requires name { blank.name ≡ L.name }
    requires parts { blank.parts ≡ L.parts }
    requires one { 0 < blank.parts }
    requires some { 1 ≤ m }
    requires grows { m ≤ n }
    requires within { n ≤ tree.now.size }
    requires made { IsEdgeOf (H.digest hash.now) tree.now.digests edge.old }
    ensures value { IfOk result (λ list. (leaves : List (List ℕ)) → IsLeveled (H.digest hash.now) leaves tree.now
        → list ≡ consistency (H.digest hash.now) (take n leaves) m) }
    ensures made { OnOk result (IsEdgeOf (H.digest hash.now) tree.now.digests edge.new) }
{
    let mut steps = Steps::<L>::new(blank);
    tree.consistency_along_steps(alloc, hash, m, n, edge, &mut steps)
}
