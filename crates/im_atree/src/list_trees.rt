//! A law in code: the plain list that a tree is read against.

use crate::built::consistency;
use im_digest::{D32, Hash32};
use im_mtree::digests::Digests;
use im_mtree::paths::path;
use im_mtree::roots::root;
use std::alloc::{AllocError, Global};
use std::marker::Model;

/// The tree of `trees::Tree` as a plain list of its leaves: what it answers is what that answers, and every root
/// and every proof is hashed afresh. A clause sees the list: the Alh of transaction k at place k - 1. No command
/// is answered from it.
///
/// # Thread safety
///
/// None is claimed. Who adds leaves holds the tree alone (`&mut`).
///
/// # Invariants
///
/// A leaf stays at its place: `append` adds one at the end, and nothing else changes the list.
#[derive(Drop)]
pub struct ListTree {
    leaves: Vec<D32>,
}

impl Model for ListTree {
    ghost use Rattle.std.specs.Prelude.{ℕ, List};

    ghost Value = { List (List ℕ) };

    ghost view = { λ s. s.leaves.items };
}

impl ListTree {
    ghost use Rattle.std.specs.Prelude.{◌≡◌, ◌≤◌, ◌-◌, [], ◌∷◌, ◌++◌, length, take, reverse, slice_index_or, IfOk, OnOk, OnErr, Ok};
    ghost use Rattle.im_model.specs.Trees.{root};
    ghost use Rattle.im_model.specs.Paths.{path_length, up};
    ghost use Rattle.im_model.specs.Growth.{consistency_length};
    ghost use Rattle.im_mtree.specs.Checks.{first_fail};
    ghost use Rattle.im_proof.specs.Built.{path_of, consistency};
    ghost use Rattle.im_proof.specs.TreeChecks.{consistency_checks};

    /// A tree of no leaves. It takes no memory.
    pub fn new(alloc: Global) -> Self
        ensures { result ≡ [] }
    {
        ListTree {
            leaves: Vec::new(alloc),
        }
    }

    /// Adds a leaf at the end, and gives the new size. Its only error is want of memory, and the tree is
    /// then unchanged.
    pub fn append(&mut self, alh: &D32) -> Result<u64, AllocError>
        ensures size { IfOk result (λ size. size ≡ length self.new) }
        ensures ok { OnOk result (self.new ≡ self.old ++ alh.now ∷ []) }
        ensures err { OnErr result (self.new ≡ self.old) }
    {
        self.leaves.push(*alh)?;
        Ok(self.leaves.len() as u64)
    }

    /// The number of leaves.
    pub fn size(&self) -> u64
        ensures { result ≡ length self.now }
    {
        self.leaves.len() as u64
    }

    /// The leaf of transaction i, from 1.
    pub fn leaf(&self, i: u64) -> &D32
        requires some { 1 ≤ i }
        requires within { i ≤ length self.now }
        ensures { result.now ≡ slice_index_or self.now (i - 1) [] }
    {
        &self.leaves[i as usize - 1]
    }

    /// The root of the tree of the first n leaves: MTH of RFC 6962, section 2.1. It takes no memory, and
    /// hashes each of these leaves and each node above them once.
    pub fn root_at<H: Hash32>(&self, hash: &H, n: u64) -> D32
        requires some { 1 ≤ n }
        requires within { n ≤ length self.now }
        ensures { result ≡ root (H.digest hash.now) (take n self.now) }
    {
        root(hash, self.first(n))
    }

    /// The path of transaction i, from 1, in the tree of the first n, its terms from the leaf up: PATH of
    /// RFC 6962, section 2.1.1. It has the exact length, and leads to the tree's root.
    /// `checks::check_inclusion` is its twin. It hashes once each other one of the first n leaves, and each
    /// node that isn't above the transaction's own. Its only error is want of memory.
    pub fn inclusion<H: Hash32>(
        &self,
        alloc: Global,
        hash: &H,
        i: u64,
        n: u64,
    ) -> Result<Digests, AllocError>
        requires some { 1 ≤ i }
        requires inside { i ≤ n }
        requires within { n ≤ length self.now }
        ensures value { IfOk result (λ path. path ≡ path_of (H.digest hash.now) (take n self.now) (i - 1)) }
        ensures exact { IfOk result (λ path. length path ≡ path_length n (i - 1)) }
        ensures leads { IfOk result (λ path. up (H.digest hash.now) n (i - 1) (slice_index_or self.now (i - 1) []) (reverse path) ≡ root (H.digest hash.now) (take n self.now)) }
    {
        path(alloc, hash, self.first(n), (i - 1) as usize)
    }

    /// The consistency list from the first m leaves to the first n: PROOF of RFC 6962, section 2.1.2, with its
    /// first term always there; empty where both are one number. It has the exact length, and passes its check
    /// against the roots of both trees. `checks::check_consistency` is its twin. It hashes each of the first n
    /// leaves once, and nothing where both are one number. Its only error is want of memory.
    #[tactic(auto, using(crate::proofs::PassLemmas::list_exact, crate::proofs::PassLemmas::list_passes))]
    pub fn consistency<H: Hash32>(
        &self,
        alloc: Global,
        hash: &H,
        m: u64,
        n: u64,
    ) -> Result<Digests, AllocError>
        requires some { 1 ≤ m }
        requires grows { m ≤ n }
        requires within { n ≤ length self.now }
        ensures value { IfOk result (λ list. list ≡ consistency (H.digest hash.now) (take n self.now) m) }
        ensures exact { IfOk result (λ list. length list ≡ consistency_length m n) }
        ensures passes { IfOk result (λ list. first_fail (consistency_checks (H.digest hash.now) m n (root (H.digest hash.now) (take m self.now)) (root (H.digest hash.now) (take n self.now)) list) ≡ Ok tt) }
    {
        consistency(alloc, hash, self.first(n), m as usize)
    }

    // The first n leaves.
    fn first(&self, n: u64) -> &[D32]
        requires { n ≤ length self.now }
        ensures { result.now ≡ take n self.now }
    {
        &self.leaves.as_slice()[..n as usize]
    }
}
