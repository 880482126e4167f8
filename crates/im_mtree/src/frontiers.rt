ghost use Rattle.std.specs.Prelude.{◌≡◌, ◌<◌, ◌+◌, ◌^◌, ℕ, List, [], ◌∷◌, ◌++◌, length};
ghost use Rattle.im_digest.specs.Digests.{Hash};
ghost use Rattle.im_model.specs.Trees.{root};
ghost use Rattle.im_mtree.specs.Kept.{IsFrontier};

use crate::subtrees::{add_leaf, fold};
use arrayvec::ArrayVec;
use im_digest::{D32, Hash32};
use std::marker::Model;

/// The roots of the whole subtrees of a list of leaves that only grows, one for each one in the binary
/// digits of their number. It has room for as many as a count of 64 bits can want, and takes no memory.
/// A clause sees the roots, the last first, and the number of leaves.
///
/// # Thread safety
///
/// None is claimed. Who adds leaves holds the frontier alone (`&mut`).
///
/// # Invariants
///
/// There are as many roots as ones in the number of leaves, which is below 2^64. Where they are what is kept
/// of some leaves under a hash (`IsFrontier`), they are so of these and the added ones after each `append` and
/// `extend` with that hash.
#[derive(Drop)]
pub struct Frontier {
    stack: ArrayVec<D32, 64>,
    size: u64,
}

impl Model for Frontier {
    ghost use Rattle.std.specs.Prelude.{◌≡◌, ◌<◌, ◌^◌, length};
    ghost use Rattle.im_mtree.specs.Kept.{KeptRoots, kept, ones};

    ghost Value = { KeptRoots };

    ghost view = { λ s. kept s.stack.items s.size };

    ghost invariant = { λ s. (length s.stack.items ≡ ones s.size) × (s.size < 2 ^ 64) };
}

impl Frontier {
    /// That of no leaves.
    pub fn new() -> Frontier
        ensures size { result.size ≡ 0 }
        ensures leaves { (hash : Hash) → IsFrontier hash [] result }
    {
        Frontier {
            stack: ArrayVec::<D32, 64>::new(),
            size: 0,
        }
    }

    /// The number of leaves.
    pub fn size(&self) -> u64
        ensures { result ≡ self.now.size }
    {
        self.size
    }

    /// Adds the leaf of a digest behind all others, of which there are fewer than `u64::MAX`. It hashes the
    /// leaf, and a node for each one at the end of their number in binary: over many calls less than two
    /// hashes a call.
    pub fn append<H: Hash32>(&mut self, hash: &H, digest: &D32)
        requires { self.old.size < u64.MAX }
        ensures size { self.new.size ≡ self.old.size + 1 }
        ensures leaves { (leaves : List (List ℕ)) → IsFrontier (H.digest hash.now) leaves self.old
            → IsFrontier (H.digest hash.now) (leaves ++ digest.now ∷ []) self.new }
    {
        add_leaf(hash, &mut self.stack, self.size, digest);
        self.size += 1;
    }

    /// Adds the leaves of some digests in their order behind all others. It hashes a leaf for each, and
    /// fewer than 64 nodes more than there are digests: over many about two hashes a leaf.
    pub fn extend<H: Hash32>(&mut self, hash: &H, digests: &[D32])
        requires { self.old.size + length digests.now < 2 ^ 64 }
        ensures size { self.new.size ≡ self.old.size + length digests.now }
        ensures leaves { (leaves : List (List ℕ)) → IsFrontier (H.digest hash.now) leaves self.old
            → IsFrontier (H.digest hash.now) (leaves ++ digests.now) self.new }
    {
        for digest in digests {
            self.append(hash, digest);
        }
    }

    /// The root over all leaves, of which there is one at least: MTH of RFC 6962, section 2.1. It hashes a
    /// node for each whole subtree but one, at most 63.
    pub fn root<H: Hash32>(&self, hash: &H) -> D32
        requires { 0 < self.now.size }
        ensures { (leaves : List (List ℕ)) → IsFrontier (H.digest hash.now) leaves self.now
            → result ≡ root (H.digest hash.now) leaves }
    {
        let subtrees = self.stack.as_slice();
        let last = subtrees.len() - 1;
        fold(hash, &subtrees[..last], subtrees[last])
    }
}
