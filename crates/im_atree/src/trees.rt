use crate::counted::{
    append_counted, consistency_along_counted, consistency_counted, inclusion_along_counted,
    inclusion_counted, root_counted,
};
use im_digest::{D32, Hash32};
use im_levels::edges::Edge;
use im_levels::growth::add_leaf;
use im_levels::parts::Part;
use im_levels::roots::part_root;
use im_levels::steps::Steps;
use im_levels::steps::nodes::Nodes;
use im_levels::walks::{list_down, list_down_along, path_down, path_down_along};
use im_mtree::digests::Digests;
use im_mtree::paths::turned;
use std::alloc::{AllocError, Global};
use std::marker::{Brand, Model};
use std::sync::ledger::{Blank, Ledger};

/// A hash tree that leaves are added to at its end. It keeps the digests of all its whole subtrees: of each
/// leaf, and of a node for each whole pair of these, and so on. A leaf is the Alh of a transaction, and is
/// hashed once, as it is added; the leaf itself isn't kept. The digests stand in one vector, in the order in
/// which the subtrees become whole: for n leaves fewer than 2n digests of 32 octets.
///
/// A clause sees the digests and the number of leaves. Whose they are, and under which hash, is the condition
/// `IsLeveled`: each call that takes a hash is spoken of under the hash of the calls before it.
///
/// # Thread safety
///
/// None is claimed. Who adds leaves holds the tree alone (`&mut`).
///
/// # Invariants
///
/// There are as many digests as whole subtrees. A digest stays at its place: `append` adds some at the end, and
/// nothing else changes the list, but that `extend` takes back what it added where memory runs out.
#[derive(Drop)]
pub struct Tree {
    digests: Nodes,
    size: usize,
}

impl Model for Tree {
    ghost use Rattle.std.specs.Prelude.{◌≡◌, length};
    ghost use Rattle.im_levels.specs.Counts.{whole};
    ghost use Rattle.im_levels.specs.Leveled.{Stored, stored};

    ghost Value = { Stored };

    ghost view = { λ s. stored s.digests s.size };

    ghost invariant = { λ s. length s.digests ≡ whole s.size };
}

impl Tree {
    ghost use Rattle.std.specs.Prelude.{◌≡◌, ◌<◌, ◌≤◌, ◌+◌, ◌-◌, ◌*◌, ◌^◌, ℕ, List, [], ◌∷◌, ◌++◌, length, take, reverse, slice_index_or, count_ones, IfOk, OnOk, OnErr, Ok};
    ghost use Rattle.im_digest.specs.Digests.{Hash};
    ghost use Rattle.im_model.specs.Trees.{root};
    ghost use Rattle.im_model.specs.Paths.{path_length, up};
    ghost use Rattle.im_model.specs.Growth.{consistency_length};
    ghost use Rattle.im_mtree.specs.Checks.{first_fail};
    ghost use Rattle.im_proof.specs.Built.{path_of, consistency};
    ghost use Rattle.im_proof.specs.TreeChecks.{consistency_checks};
    ghost use Rattle.im_levels.specs.Counts.{whole};
    ghost use Rattle.im_levels.specs.Edges.{IsEdgeOf};
    ghost use Rattle.im_levels.specs.Leveled.{IsLeveled, stored};

    /// A tree of no leaves. It takes no memory.
    pub fn new(alloc: Global) -> Self
        ensures size { result.size ≡ 0 }
        ensures leaves { (hash : Hash) → IsLeveled hash [] result }
    {
        Tree {
            digests: Nodes::new(alloc),
            size: 0,
        }
    }

    /// The number of leaves.
    pub fn size(&self) -> u64
        ensures { result ≡ self.now.size }
    {
        self.size as u64
    }

    /// Adds a leaf at the end, and gives the new size. It hashes a digest for each subtree that becomes whole,
    /// and reads one for each of them but one: with b binary digits in the new size less than 2b steps. Its
    /// only error is want of memory, which is asked for once, before anything changes: the tree is then
    /// unchanged.
    pub fn append_steps<H: Hash32, L: Ledger>(
        &mut self,
        hash: &H,
        alh: &D32,
        steps: &mut Steps<L>,
    ) -> Result<u64, AllocError>
        ensures size { IfOk result (λ size. size ≡ self.new.size) }
        ensures ok { OnOk result (self.new.size ≡ self.old.size + 1) }
        ensures front { OnOk result (take (length self.old.digests) self.new.digests ≡ self.old.digests) }
        ensures leaves { OnOk result ((leaves : List (List ℕ)) → IsLeveled (H.digest hash.now) leaves self.old
            → IsLeveled (H.digest hash.now) (leaves ++ alh.now ∷ []) self.new) }
        ensures err { OnErr result (self.new ≡ self.old) }
        ensures cost { steps.new + 1 + 2 * whole self.old.size ≡ steps.old + 2 * whole (self.old.size + 1) }
        ensures bound { (b : ℕ) → self.old.size + 1 < 2 ^ b → steps.new < steps.old + 2 * b }
    {
        add_leaf(hash, &mut self.digests, self.size, alh, steps)?;
        self.size += 1;
        Ok(self.size as u64)
    }

    /// The root of the tree of the first n leaves: MTH of RFC 6962, section 2.1. It takes no memory. It reads
    /// a digest for each one in the binary digits of n, and hashes a node for each of them but one: with b
    /// digits less than 2b steps.
    pub fn root_steps<H: Hash32, L: Ledger>(&self, hash: &H, n: u64, steps: &mut Steps<L>) -> D32
        requires some { 1 ≤ n }
        requires within { n ≤ self.now.size }
        ensures value { (leaves : List (List ℕ)) → IsLeveled (H.digest hash.now) leaves self.now
            → result ≡ root (H.digest hash.now) (take n leaves) }
        ensures cost { steps.new + 1 ≡ steps.old + 2 * count_ones n }
        ensures bound { (b : ℕ) → n < 2 ^ b → steps.new < steps.old + 2 * b }
    {
        self.digests.next_fits(self.size);
        let all = Part {
            at: 0,
            width: n as usize,
        };
        part_root(hash, &self.digests, all, steps)
    }

    /// The path of transaction i, from 1, in the tree of the first n, its terms from the leaf up: PATH of
    /// RFC 6962, section 2.1.1. It has the exact length, and leads to the tree's root. `checks::check_inclusion`
    /// is its twin. With b binary digits in n it takes at most 4b steps. Its only error is want of memory.
    pub fn inclusion_steps<H: Hash32, L: Ledger>(
        &self,
        alloc: Global,
        hash: &H,
        i: u64,
        n: u64,
        steps: &mut Steps<L>,
    ) -> Result<Digests, AllocError>
        requires some { 1 ≤ i }
        requires inside { i ≤ n }
        requires within { n ≤ self.now.size }
        ensures value { IfOk result (λ path. (leaves : List (List ℕ)) → IsLeveled (H.digest hash.now) leaves self.now
            → path ≡ path_of (H.digest hash.now) (take n leaves) (i - 1)) }
        ensures exact { IfOk result (λ path. (leaves : List (List ℕ)) → IsLeveled (H.digest hash.now) leaves self.now
            → length path ≡ path_length n (i - 1)) }
        ensures leads { IfOk result (λ path. (leaves : List (List ℕ)) → IsLeveled (H.digest hash.now) leaves self.now
            → up (H.digest hash.now) n (i - 1) (slice_index_or leaves (i - 1) []) (reverse path) ≡ root (H.digest hash.now) (take n leaves)) }
        ensures bound { (b : ℕ) → n < 2 ^ b → steps.new ≤ steps.old + 4 * b }
    {
        self.digests.next_fits(self.size);
        let digests = &self.digests;
        let terms = path_down(alloc, hash, digests, n as usize, (i - 1) as usize, steps)?;
        Ok(turned(terms))
    }

    /// The path as `inclusion_steps` gives it, with an edge for all paths and lists in one tree: where the edge has the
    /// root over the part beside the leaf's whole subtree, nothing is hashed. Its only error is want of memory.
    pub fn inclusion_along_steps<H: Hash32, L: Ledger>(
        &self,
        alloc: Global,
        hash: &H,
        i: u64,
        n: u64,
        edge: &mut Edge,
        steps: &mut Steps<L>,
    ) -> Result<Digests, AllocError>
        requires some { 1 ≤ i }
        requires inside { i ≤ n }
        requires within { n ≤ self.now.size }
        requires made { IsEdgeOf (H.digest hash.now) self.now.digests edge.old }
        ensures value { IfOk result (λ path. (leaves : List (List ℕ)) → IsLeveled (H.digest hash.now) leaves self.now
            → path ≡ path_of (H.digest hash.now) (take n leaves) (i - 1)) }
        ensures made { OnOk result (IsEdgeOf (H.digest hash.now) self.now.digests edge.new) }
        ensures bound { (b : ℕ) → n < 2 ^ b → steps.new ≤ steps.old + 4 * b }
    {
        self.digests.next_fits(self.size);
        let digests = &self.digests;
        let index = (i - 1) as usize;
        let terms = path_down_along(alloc, hash, digests, n as usize, index, edge, steps)?;
        Ok(turned(terms))
    }

    /// The consistency list from the first m leaves to the first n: PROOF of RFC 6962, section 2.1.2, with its
    /// first term always there; empty where both are one number. It has the exact length, and passes its check
    /// against the roots of both trees. `checks::check_consistency` is its twin. With b binary digits in n it
    /// takes at most 4b steps. Its only error is want of memory.
    pub fn consistency_steps<H: Hash32, L: Ledger>(
        &self,
        alloc: Global,
        hash: &H,
        m: u64,
        n: u64,
        steps: &mut Steps<L>,
    ) -> Result<Digests, AllocError>
        requires some { 1 ≤ m }
        requires grows { m ≤ n }
        requires within { n ≤ self.now.size }
        ensures value { IfOk result (λ list. (leaves : List (List ℕ)) → IsLeveled (H.digest hash.now) leaves self.now
            → list ≡ consistency (H.digest hash.now) (take n leaves) m) }
        ensures exact { IfOk result (λ list. (leaves : List (List ℕ)) → IsLeveled (H.digest hash.now) leaves self.now
            → length list ≡ consistency_length m n) }
        ensures passes { IfOk result (λ list. (leaves : List (List ℕ)) → IsLeveled (H.digest hash.now) leaves self.now
            → first_fail (consistency_checks (H.digest hash.now) m n (root (H.digest hash.now) (take m leaves)) (root (H.digest hash.now) (take n leaves)) list) ≡ Ok tt) }
        ensures bound { (b : ℕ) → n < 2 ^ b → steps.new ≤ steps.old + 4 * b }
    {
        if m == n {
            return Ok(Digests::from_vec(Vec::new(alloc)));
        }
        self.digests.next_fits(self.size);
        let terms = list_down(alloc, hash, &self.digests, m as usize, n as usize, steps)?;
        Ok(turned(terms))
    }

    /// The consistency list as `consistency_steps` gives it, with an edge for all paths and lists in one tree. Its only
    /// error is want of memory.
    pub fn consistency_along_steps<H: Hash32, L: Ledger>(
        &self,
        alloc: Global,
        hash: &H,
        m: u64,
        n: u64,
        edge: &mut Edge,
        steps: &mut Steps<L>,
    ) -> Result<Digests, AllocError>
        requires some { 1 ≤ m }
        requires grows { m ≤ n }
        requires within { n ≤ self.now.size }
        requires made { IsEdgeOf (H.digest hash.now) self.now.digests edge.old }
        ensures value { IfOk result (λ list. (leaves : List (List ℕ)) → IsLeveled (H.digest hash.now) leaves self.now
            → list ≡ consistency (H.digest hash.now) (take n leaves) m) }
        ensures made { OnOk result (IsEdgeOf (H.digest hash.now) self.now.digests edge.new) }
        ensures bound { (b : ℕ) → n < 2 ^ b → steps.new ≤ steps.old + 4 * b }
    {
        if m == n {
            return Ok(Digests::from_vec(Vec::new(alloc)));
        }
        self.digests.next_fits(self.size);
        let digests = &self.digests;
        let (older, newer) = (m as usize, n as usize);
        let terms = list_down_along(alloc, hash, digests, older, newer, edge, steps)?;
        Ok(turned(terms))
    }

    /// Adds a leaf at the end, and gives the new size, as `append_steps` does.
    pub fn append<H: Hash32>(&mut self, hash: &H, alh: &D32) -> Result<u64, AllocError>
        ensures size { IfOk result (λ size. size ≡ self.new.size) }
        ensures ok { OnOk result (self.new.size ≡ self.old.size + 1) }
        ensures front { OnOk result (take (length self.old.digests) self.new.digests ≡ self.old.digests) }
        ensures leaves { OnOk result ((leaves : List (List ℕ)) → IsLeveled (H.digest hash.now) leaves self.old
            → IsLeveled (H.digest hash.now) (leaves ++ alh.now ∷ []) self.new) }
        ensures err { OnErr result (self.new ≡ self.old) }
    {
        append_counted::<H, Brand>(self, hash, alh, Blank::new(1))
    }

    /// Adds the leaves of some digests in their order behind all others, each as `append` does: all of them, or none.
    /// Its only error is want of memory, and the tree is then unchanged.
    pub fn extend<H: Hash32>(&mut self, hash: &H, alhs: &[D32]) -> Result<(), AllocError>
        ensures size { OnOk result (self.new.size ≡ self.old.size + length alhs.now) }
        ensures leaves { OnOk result ((leaves : List (List ℕ)) → IsLeveled (H.digest hash.now) leaves self.old
            → IsLeveled (H.digest hash.now) (leaves ++ alhs.now) self.new) }
        ensures err { OnErr result (self.new ≡ self.old) }
    {
        let size = self.size() as usize;
        let count = self.count();
        match self.extend_some(hash, alhs) {
            Ok(()) => Ok(()),
            Err(failed) => {
                self.cut(size, count);
                Err(failed)
            }
        }
    }

    // The number of digests, which is that of the whole subtrees.
    fn count(&self) -> usize
        ensures value { result ≡ length self.now.digests }
        ensures whole { result ≡ whole self.now.size }
    {
        self.digests.count()
    }

    // Goes back to the first leaves, so many, which have so many digests.
    fn cut(&mut self, size: usize, count: usize)
        requires { length (take count self.old.digests) ≡ whole size }
        ensures { self.new ≡ stored (take count self.old.digests) size }
    {
        self.digests.cut(count);
        self.size = size;
    }

    // Adds leaves, each as `append` does. After an error the tree has some of them.
    fn extend_some<H: Hash32>(&mut self, hash: &H, alhs: &[D32]) -> Result<(), AllocError>
        ensures size { OnOk result (self.new.size ≡ self.old.size + length alhs.now) }
        ensures leaves { OnOk result ((leaves : List (List ℕ)) → IsLeveled (H.digest hash.now) leaves self.old
            → IsLeveled (H.digest hash.now) (leaves ++ alhs.now) self.new) }
        ensures front { take (length self.old.digests) self.new.digests ≡ self.old.digests }
    {
        for alh in alhs {
            self.append(hash, alh)?;
        }
        Ok(())
    }

    /// The root of the tree of the first n leaves, as `root_steps` gives it.
    pub fn root_at<H: Hash32>(&self, hash: &H, n: u64) -> D32
        requires some { 1 ≤ n }
        requires within { n ≤ self.now.size }
        ensures { (leaves : List (List ℕ)) → IsLeveled (H.digest hash.now) leaves self.now
            → result ≡ root (H.digest hash.now) (take n leaves) }
    {
        root_counted::<H, Brand>(self, hash, n, Blank::new(1))
    }

    /// The path of transaction i, from 1, in the tree of the first n, as `inclusion_steps` gives it.
    pub fn inclusion<H: Hash32>(
        &self,
        alloc: Global,
        hash: &H,
        i: u64,
        n: u64,
    ) -> Result<Digests, AllocError>
        requires some { 1 ≤ i }
        requires inside { i ≤ n }
        requires within { n ≤ self.now.size }
        ensures value { IfOk result (λ path. (leaves : List (List ℕ)) → IsLeveled (H.digest hash.now) leaves self.now
            → path ≡ path_of (H.digest hash.now) (take n leaves) (i - 1)) }
        ensures exact { IfOk result (λ path. (leaves : List (List ℕ)) → IsLeveled (H.digest hash.now) leaves self.now
            → length path ≡ path_length n (i - 1)) }
        ensures leads { IfOk result (λ path. (leaves : List (List ℕ)) → IsLeveled (H.digest hash.now) leaves self.now
            → up (H.digest hash.now) n (i - 1) (slice_index_or leaves (i - 1) []) (reverse path) ≡ root (H.digest hash.now) (take n leaves)) }
    {
        inclusion_counted::<H, Brand>(self, alloc, hash, i, n, Blank::new(1))
    }

    /// The consistency list from the first m leaves to the first n, as `consistency_steps` gives it.
    pub fn consistency<H: Hash32>(
        &self,
        alloc: Global,
        hash: &H,
        m: u64,
        n: u64,
    ) -> Result<Digests, AllocError>
        requires some { 1 ≤ m }
        requires grows { m ≤ n }
        requires within { n ≤ self.now.size }
        ensures value { IfOk result (λ list. (leaves : List (List ℕ)) → IsLeveled (H.digest hash.now) leaves self.now
            → list ≡ consistency (H.digest hash.now) (take n leaves) m) }
        ensures exact { IfOk result (λ list. (leaves : List (List ℕ)) → IsLeveled (H.digest hash.now) leaves self.now
            → length list ≡ consistency_length m n) }
        ensures passes { IfOk result (λ list. (leaves : List (List ℕ)) → IsLeveled (H.digest hash.now) leaves self.now
            → first_fail (consistency_checks (H.digest hash.now) m n (root (H.digest hash.now) (take m leaves)) (root (H.digest hash.now) (take n leaves)) list) ≡ Ok tt) }
    {
        consistency_counted::<H, Brand>(self, alloc, hash, m, n, Blank::new(1))
    }

    /// The path as `inclusion_along_steps` gives it.
    pub fn inclusion_along<H: Hash32>(
        &self,
        alloc: Global,
        hash: &H,
        i: u64,
        n: u64,
        edge: &mut Edge,
    ) -> Result<Digests, AllocError>
        requires some { 1 ≤ i }
        requires inside { i ≤ n }
        requires within { n ≤ self.now.size }
        requires made { IsEdgeOf (H.digest hash.now) self.now.digests edge.old }
        ensures value { IfOk result (λ path. (leaves : List (List ℕ)) → IsLeveled (H.digest hash.now) leaves self.now
            → path ≡ path_of (H.digest hash.now) (take n leaves) (i - 1)) }
        ensures made { OnOk result (IsEdgeOf (H.digest hash.now) self.now.digests edge.new) }
    {
        inclusion_along_counted::<H, Brand>(self, alloc, hash, i, n, edge, Blank::new(1))
    }

    /// The consistency list as `consistency_along_steps` gives it.
    pub fn consistency_along<H: Hash32>(
        &self,
        alloc: Global,
        hash: &H,
        m: u64,
        n: u64,
        edge: &mut Edge,
    ) -> Result<Digests, AllocError>
        requires some { 1 ≤ m }
        requires grows { m ≤ n }
        requires within { n ≤ self.now.size }
        requires made { IsEdgeOf (H.digest hash.now) self.now.digests edge.old }
        ensures value { IfOk result (λ list. (leaves : List (List ℕ)) → IsLeveled (H.digest hash.now) leaves self.now
            → list ≡ consistency (H.digest hash.now) (take n leaves) m) }
        ensures made { OnOk result (IsEdgeOf (H.digest hash.now) self.now.digests edge.new) }
    {
        consistency_along_counted::<H, Brand>(self, alloc, hash, m, n, edge, Blank::new(1))
    }
}
