ghost use Rattle.std.specs.Prelude.{◌≡◌, ◌<◌, ◌+◌, ℕ, List, [], ◌∷◌, ◌++◌, length, drop, reverse, slice_index_or};
ghost use Rattle.im_model.specs.Trees.{node};
ghost use Rattle.im_mtree.specs.Subtrees.{folded};
ghost use Rattle.im_mtree.specs.Kept.{kept, ones, IsFrontier};

use arrayvec::ArrayVec;
use im_digest::{D32, Hash32};
use im_model::trees::{leaf_digest, node_digest};

/// Adds a leaf behind `size` others to the whole subtrees of those. Two subtrees of one size become one,
/// as often as the size ends in ones in binary.
pub fn add_leaf<H: Hash32>(hash: &H, stack: &mut ArrayVec<D32, 64>, size: u64, digest: &D32)
    requires room { size < u64.MAX }
    requires height { length stack.old.items ≡ ones size }
    ensures height { length stack.new.items ≡ ones (size + 1) }
    ensures leaves { (leaves : List (List ℕ)) → IsFrontier (H.digest hash.now) leaves (kept stack.old.items size)
        → IsFrontier (H.digest hash.now) (leaves ++ digest.now ∷ []) (kept stack.new.items (size + 1)) }
{
    let mut root = leaf_digest(hash, digest);
    let mut count = size;
    while count % 2 == 1 {
        root = merge(hash, stack, &root);
        count /= 2;
    }
    stack.push(root);
}

// Takes the last subtree, and gives the root over it and what is behind it.
fn merge<H: Hash32>(hash: &H, stack: &mut ArrayVec<D32, 64>, right: &D32) -> D32
    requires { 0 < length stack.old.items }
    ensures value { result ≡ node (H.digest hash.now) (slice_index_or (reverse stack.old.items) 0 []) right.now }
    ensures rest { reverse stack.new.items ≡ drop 1 (reverse stack.old.items) }
    ensures height { length stack.new.items + 1 ≡ length stack.old.items }
{
    let left = stack.pop().unwrap();
    node_digest(hash, &left, right)
}

/// The root over whole subtrees, the last at the end, and a last part behind them.
pub fn fold<H: Hash32>(hash: &H, subtrees: &[D32], last: D32) -> D32
    ensures { result ≡ folded (H.digest hash.now) (reverse subtrees.now) last }
{
    let mut root = last;
    let mut lefts = subtrees;
    while let Some((left, before)) = lefts.split_last() {
        root = node_digest(hash, left, &root);
        lefts = before;
    }
    root
}
