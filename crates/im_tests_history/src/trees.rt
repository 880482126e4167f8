//! Trees that are kept: their paths and lists on worked values, beside a list of the same leaves, and counted.
//!
//! By the sum of octets a leaf is its digest, and a node adds 1 to its two parts: so a root is the sum of its
//! leaves, and one more for each node. Of the digests 1 to 7, in hex: 1 + 2 + 1 is 4, 4 + 3 + 1 is 8, 3 + 4 + 1
//! is 8, 4 + 8 + 1 is d, 5 + 6 + 1 is c, c + 7 + 1 is 14, and d + 14 + 1 is 22.

ghost use Rattle.std.specs.Prelude.{◌≡◌, ◌<◌, ◌≤◌, length};

use crate::values::{are, digest, one_to};
use im_atree::checks::{check_consistency, check_inclusion, check_last};
use im_atree::list_trees::ListTree;
use im_atree::trees::Tree;
use im_digest::{D32, Sum};
use im_levels::steps::Steps;
use im_mtree::digests::Digests;
use im_mtree::faults::PathFault;
use im_mtree::paths::{check_path, path};
use im_mtree::roots::root;
use im_proof::faults::DualFault;
use std::alloc::{AllocError, Global};
use std::marker::Brand;
use std::sync::ledger::{Blank, Ledger};
use std::test::Fail;

// The tree of the digests 1 to 7.
fn seven(alloc: Global) -> Result<Tree, AllocError> {
    let mut tree = Tree::new(alloc);
    for digest in &one_to::<7>() {
        if let Err(failed) = tree.append(&Sum, digest) {
            drop(tree);
            return Err(failed);
        }
    }
    Ok(tree)
}

// Whether a tree and a list that take the digests 1 to 9 have the root hashed afresh after each of them.
fn have_the_root_hashed_afresh(tree: &mut Tree, list: &mut ListTree) -> Result<bool, AllocError> {
    let digests = one_to::<9>();
    let mut same = true;
    for n in 1..10usize {
        tree.append(&Sum, &digests[n - 1])?;
        list.append(&digests[n - 1])?;
        let size = n as u64;
        let afresh = root(&Sum, &digests[..n]);
        same = same
            && tree.size() == size
            && tree.root_at(&Sum, size) == afresh
            && list.size() == size
            && list.root_at(&Sum, size) == afresh;
    }
    Ok(same)
}

fn roots_are_those_hashed_afresh(alloc: Global) -> Result<bool, AllocError> {
    let mut tree = Tree::new(alloc);
    let mut list = ListTree::new(alloc);
    let same = have_the_root_hashed_afresh(&mut tree, &mut list);
    drop(tree);
    drop(list);
    same
}

// Whether a list gives this path of leaf i in the tree of the first n.
fn is_path_of(
    alloc: Global,
    list: &ListTree,
    i: u64,
    n: u64,
    terms: &[D32],
) -> Result<bool, AllocError>
    requires some { 1 ≤ i }
    requires inside { i ≤ n }
    requires within { n ≤ length list.now }
{
    let path = list.inclusion(alloc, &Sum, i, n)?;
    let same = path.as_slice() == terms;
    drop(path);
    Ok(same)
}

// Whether a tree and a list give the same path of leaf i in the tree of the first n.
fn paths_are_the_same(
    alloc: Global,
    tree: &Tree,
    list: &ListTree,
    i: u64,
    n: u64,
) -> Result<bool, AllocError>
    requires some { 1 ≤ i }
    requires inside { i ≤ n }
    requires tree { n ≤ tree.now.size }
    requires list { n ≤ length list.now }
{
    let path = tree.inclusion(alloc, &Sum, i, n)?;
    let same = is_path_of(alloc, list, i, n, path.as_slice());
    drop(path);
    same
}

// Whether a list gives this consistency list from the first m leaves to the first n.
fn is_list_from(
    alloc: Global,
    list: &ListTree,
    m: u64,
    n: u64,
    terms: &[D32],
) -> Result<bool, AllocError>
    requires some { 1 ≤ m }
    requires grows { m ≤ n }
    requires within { n ≤ length list.now }
{
    let plain = list.consistency(alloc, &Sum, m, n)?;
    let same = plain.as_slice() == terms;
    drop(plain);
    Ok(same)
}

// Whether a tree and a list give the same consistency list from the first m leaves to the first n.
fn lists_are_the_same(
    alloc: Global,
    tree: &Tree,
    list: &ListTree,
    m: u64,
    n: u64,
) -> Result<bool, AllocError>
    requires some { 1 ≤ m }
    requires grows { m ≤ n }
    requires tree { n ≤ tree.now.size }
    requires list { n ≤ length list.now }
{
    let terms = tree.consistency(alloc, &Sum, m, n)?;
    let same = is_list_from(alloc, list, m, n, terms.as_slice());
    drop(terms);
    same
}

// Whether both hold of the trees of the first n leaves, for each leaf and from each number of first leaves.
fn all_proofs_are_the_same(
    alloc: Global,
    tree: &Tree,
    list: &ListTree,
    n: u64,
) -> Result<bool, AllocError>
    requires few { n ≤ 9 }
    requires tree { n ≤ tree.now.size }
    requires list { n ≤ length list.now }
{
    let mut same = true;
    for m in 1..n + 1 {
        same = same
            && paths_are_the_same(alloc, tree, list, m, n)?
            && lists_are_the_same(alloc, tree, list, m, n)?;
    }
    Ok(same)
}

// The list of the digests 1 to 9.
fn nine_listed(alloc: Global) -> Result<ListTree, AllocError> {
    let mut list = ListTree::new(alloc);
    for digest in &one_to::<9>() {
        if let Err(failed) = list.append(digest) {
            drop(list);
            return Err(failed);
        }
    }
    Ok(list)
}

// Whether this tree and the list of the digests 1 to 9 give the same proofs, of all numbers of first leaves.
fn proofs_are_as_nine_listed(alloc: Global, tree: &Tree) -> Result<bool, AllocError> {
    let list = nine_listed(alloc)?;
    let same = proofs_are_as_listed(alloc, tree, &list);
    drop(list);
    same
}

// Whether a tree and a list have nine leaves each, and give the same proofs of all numbers of first leaves.
fn proofs_are_as_listed(alloc: Global, tree: &Tree, list: &ListTree) -> Result<bool, AllocError> {
    if tree.size() != 9 || list.size() != 9 {
        return Ok(false);
    }
    let mut same = *list.leaf(9) == digest(9);
    for n in 1..10u64 {
        same = same && all_proofs_are_the_same(alloc, tree, list, n)?;
    }
    Ok(same)
}

fn nine_give_the_same_proofs(alloc: Global) -> Result<bool, AllocError> {
    let mut tree = Tree::new(alloc);
    let added = tree.extend(&Sum, &one_to::<9>());
    let same = proofs_are_as_nine_listed(alloc, &tree);
    drop(tree);
    added?;
    same
}

fn roots_of_seven(tree: &Tree) -> bool {
    tree.size() == 7
        && tree.root_at(&Sum, 1) == digest(1)
        && tree.root_at(&Sum, 3) == digest(0x08)
        && tree.root_at(&Sum, 4) == digest(0x0d)
        && tree.root_at(&Sum, 7) == digest(0x22)
}

// Whether the list from the first m to all seven has these terms, and passes its check from this older root.
fn is_list(alloc: Global, tree: &Tree, m: u64, older: u8, terms: &[u8]) -> Result<bool, AllocError>
    requires some { 1 ≤ m }
    requires within { m ≤ 7 }
    requires seven { tree.now.size ≡ 7 }
{
    let list = tree.consistency(alloc, &Sum, m, 7)?;
    let list = list.as_slice();
    Ok(
        are(list, terms)
            && check_consistency(&Sum, m, 7, &digest(older), &digest(0x22), list) == Ok(()),
    )
}

fn lists_of_seven(alloc: Global, tree: &Tree) -> Result<bool, AllocError> {
    if tree.size() != 7 {
        return Ok(false);
    }
    Ok(
        is_list(alloc, tree, 4, 0x0d, &[0x0d, 0x14])?
            && is_list(alloc, tree, 3, 0x08, &[0x03, 0x04, 0x04, 0x14])?
            && is_list(alloc, tree, 7, 0x22, &[])?,
    )
}

fn last_of_seven(alloc: Global, tree: &Tree) -> Result<bool, AllocError>
    requires { tree.now.size ≡ 7 }
{
    let last = tree.inclusion(alloc, &Sum, 7, 7)?;
    let path = last.as_slice();
    Ok(are(path, &[0x0c, 0x0d]) && check_last(&Sum, 7, &digest(0x22), &digest(7), path) == Ok(()))
}

fn sixth_of_seven(alloc: Global, tree: &Tree) -> Result<bool, AllocError>
    requires { tree.now.size ≡ 7 }
{
    let sixth = tree.inclusion(alloc, &Sum, 6, 7)?;
    let path = sixth.as_slice();
    Ok(check_inclusion(&Sum, 6, 7, &digest(0x22), &digest(6), path) == Ok(()))
}

fn paths_of_seven(alloc: Global, tree: &Tree) -> Result<bool, AllocError> {
    if tree.size() != 7 {
        return Ok(false);
    }
    Ok(last_of_seven(alloc, tree)? && sixth_of_seven(alloc, tree)?)
}

// The path of the last of seven digests, without a tree that keeps them.
fn path_over_seven(alloc: Global) -> Result<bool, AllocError> {
    let built = path(alloc, &Sum, &one_to::<7>(), 6)?;
    let passes = check_path(&Sum, &digest(7), 6, 7, built.as_slice(), &digest(0x22)) == Ok(());
    let counted = built.len() == 2 && !built.is_empty();
    let terms = Digests::from_vec(built.into_vec());
    Ok(passes && counted && are(terms.as_slice(), &[0x0c, 0x0d]))
}

fn lists_and_paths_of_seven(alloc: Global, tree: &Tree) -> Result<bool, AllocError> {
    Ok(lists_of_seven(alloc, tree)? && paths_of_seven(alloc, tree)?)
}

fn proofs_of_seven(alloc: Global) -> Result<bool, AllocError> {
    let tree = seven(alloc)?;
    let roots = roots_of_seven(&tree);
    let worked = lists_and_paths_of_seven(alloc, &tree);
    drop(tree);
    Ok(roots && worked?)
}

// Whether the counted path of the last of seven leaves is as worked.
fn counted_path<L: Ledger>(
    alloc: Global,
    tree: &Tree,
    steps: &mut Steps<L>,
) -> Result<bool, AllocError>
    requires { tree.now.size ≡ 7 }
{
    let path = tree.inclusion_steps(alloc, &Sum, 7, 7, steps)?;
    let worked = are(path.as_slice(), &[0x0c, 0x0d]);
    drop(path);
    Ok(worked)
}

// Whether the counted list from the first four of seven leaves is as worked.
fn counted_list<L: Ledger>(
    alloc: Global,
    tree: &Tree,
    steps: &mut Steps<L>,
) -> Result<bool, AllocError>
    requires { tree.now.size ≡ 7 }
{
    let list = tree.consistency_steps(alloc, &Sum, 4, 7, steps)?;
    let worked = are(list.as_slice(), &[0x0d, 0x14]);
    drop(list);
    Ok(worked)
}

// Whether the counted calls over a tree of the digests 1 to 7 give what is worked, and then take an eighth leaf.
fn counted_over<L: Ledger>(alloc: Global, tree: &mut Tree, blank: Blank) -> Result<bool, AllocError>
    requires name { blank.name ≡ L.name }
    requires parts { blank.parts ≡ L.parts }
    requires one { 0 < blank.parts }
    requires seven { tree.old.size ≡ 7 }
{
    let mut steps = Steps::<L>::new(blank);
    let worked = tree.root_steps(&Sum, 7, &mut steps) == digest(0x22)
        && counted_path(alloc, tree, &mut steps)?
        && counted_list(alloc, tree, &mut steps)?;
    Ok(worked && tree.append_steps(&Sum, &digest(8), &mut steps)? == 8)
}

fn counted_of_seven<L: Ledger>(alloc: Global, blank: Blank) -> Result<bool, AllocError>
    requires name { blank.name ≡ L.name }
    requires parts { blank.parts ≡ L.parts }
    requires one { 0 < blank.parts }
{
    let mut tree = seven(alloc)?;
    if tree.size() != 7 {
        drop(tree);
        return Ok(false);
    }
    let counted = counted_over::<L>(alloc, &mut tree, blank);
    drop(tree);
    counted
}

#[test]
fn the_counted_calls_give_the_worked_proofs(rt: HostRuntime) -> Result<(), Fail> {
    assert!(rt; counted_of_seven::<Brand>(rt.alloc(), Blank::new(1))?);
    Ok(())
}

#[test]
fn a_tree_and_a_list_give_the_same_proofs(rt: HostRuntime) -> Result<(), Fail> {
    assert!(rt; nine_give_the_same_proofs(rt.alloc())?);
    Ok(())
}

#[test]
fn a_growing_tree_has_the_roots_hashed_afresh(rt: HostRuntime) -> Result<(), Fail> {
    assert!(rt; roots_are_those_hashed_afresh(rt.alloc())?);
    Ok(())
}

#[test]
fn the_tree_of_seven_gives_the_worked_proofs(rt: HostRuntime) -> Result<(), Fail> {
    assert!(rt; proofs_of_seven(rt.alloc())? && path_over_seven(rt.alloc())?);
    Ok(())
}

// Of trees of 2^64 - 1 leaves each path and list has a length too.
fn lengths_of_64_bits() -> bool {
    let root = digest(0);
    let most = u64::MAX;
    check_inclusion(&Sum, 1, most, &root, &root, &[])
        == Err(DualFault::InclusionLength { want: 64, got: 0 })
        && check_consistency(&Sum, 1, most, &root, &root, &[])
            == Err(DualFault::ConsistencyLength { want: 65, got: 0 })
        && check_last(&Sum, most, &root, &root, &[])
            == Err(DualFault::LastLength { want: 63, got: 0 })
}

// The digests 93, 95 and 97 have the root c1, and 29 beside the last one: 93 + 95 + 1 is 29 and 29 + 97 + 1 is
// c1, modulo 100.
fn faults_of_a_path() -> bool {
    let leaf = digest(0x97);
    let terms = [digest(0x29), digest(0xff)];
    let top = digest(0xc1);
    let elsewhere = PathFault::Root {
        want: top,
        got: leaf,
    };
    check_path(&Sum, &leaf, 2, 3, &terms[..1], &top) == Ok(())
        && check_path(&Sum, &leaf, 3, 3, &terms[..1], &top)
            == Err(PathFault::Index { width: 3, got: 3 })
        && check_path(&Sum, &leaf, 2, 3, &terms, &top) == Err(PathFault::Length { want: 1, got: 2 })
        && check_path(&Sum, &leaf, 2, 3, &terms[1..], &top) == Err(elsewhere)
}

#[test]
fn a_wrong_path_is_refused(rt: HostRuntime) {
    assert!(rt; lengths_of_64_bits() && faults_of_a_path());
}
