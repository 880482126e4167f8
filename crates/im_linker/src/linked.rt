ghost use Rattle.std.specs.Prelude.{◌≡◌, ◌≤◌, ◌+◌, length, take, drop, IfOk, IfSome, OnErr};
ghost use Rattle.im_model.specs.History.{bl_root_of};
ghost use Rattle.im_table.specs.Passes.{IsPassOf, IsPlacer, IsKeeper, Later, AddsNothing, AddsLeaves, tree_role};
ghost use Rattle.im_linker.specs.Trees.{alhs_in, IsRootOf, IsTreeOf};

use im_atree::roots::root_of;
use im_atree::trees::Tree;
use im_digest::{D32, Hash32};
use im_table::law::Law;
use im_table::pass::Pass;
use im_table::roles::tree_role;
use im_table::tip::Tip;
use im_table::tip_name::TipName;
use std::alloc::AllocError;
use std::marker::{Model, PhantomData};

/// The tree of a history that threads share, with the pass that has the tree's role: what lies under the tree's lock.
/// A clause sees the tree: its size, and the digests of its whole subtrees.
///
/// # Thread safety
///
/// It lies under a lock, and each call has it alone (`&mut`). The tree's lock is the last one that is taken: behind the
/// book's, where both are held.
///
/// # Invariants
///
/// Its size is the word linked, which is at most what the pass knows to be durable, and its leaves are the Alh of the
/// first transactions of the pass's list, under the hash that the store was opened with (`IsTreeOf`). Where its root is kept beside it,
/// that is the root of this tree (`IsRootOf`).
#[derive(Drop)]
pub struct Linked<N: TipName> {
    tree: Tree,
    root: Option<D32>,
    pass: Pass,
    of: PhantomData<N>,
}

impl<N: TipName> Model for Linked<N> {
    ghost use Rattle.std.specs.Prelude.{◌≡◌, ◌≤◌, IfSome};
    ghost use Rattle.im_levels.specs.Leveled.{Stored};
    ghost use Rattle.im_table.specs.Passes.{IsKeeper, tree_role};
    ghost use Rattle.im_linker.specs.Trees.{IsRootOf, IsTreeOf};

    ghost Value = { Stored };

    ghost view = { λ l. l.tree };

    ghost invariant = { λ l. IsKeeper N.table tree_role l.pass × (l.pass.view.least.linked ≡ l.tree.size) × (l.tree.size ≤ l.pass.view.least.durable) × IsTreeOf N.digest l.pass.view.seen l.tree
        × IfSome l.root (IsRootOf N.digest l.tree) };
}

impl<N: TipName> Linked<N> {
    /// This tree, with the pass that has its role.
    pub fn new(tree: Tree, pass: Pass) -> Self
        requires pass { IsKeeper N.table tree_role pass }
        requires size { (pass.view.least.linked ≡ tree.size) × (tree.size ≤ pass.view.least.durable) }
        requires leaves { IsTreeOf N.digest pass.view.seen tree }
        ensures { result ≡ tree }
    {
        Linked {
            tree,
            root: None,
            pass,
            of: PhantomData,
        }
    }

    /// Hands the tree and the pass back.
    pub fn into_parts(self) -> (Tree, Pass)
        ensures tree { result.0 ≡ self }
        ensures pass { IsKeeper N.table tree_role result.1 }
        ensures size { (result.1.view.least.linked ≡ self.size) × (self.size ≤ result.1.view.least.durable) }
        ensures leaves { IsTreeOf N.digest result.1.view.seen self }
    {
        let Linked {
            tree,
            root: _,
            pass,
            of: _,
        } = self;
        (tree, pass)
    }

    /// Lends the tree.
    pub fn tree(&self) -> &Tree
        ensures { result.now ≡ self.now }
    {
        &self.tree
    }

    /// Shows the tree to a pass, and answers its size: its leaves are the first Alh of the pass's list.
    pub fn show<L: Law>(&mut self, tip: &Tip<L>, pass: &mut Pass) -> u64
        requires tip { tip.now.table ≡ N.table }
        requires pass { IsPassOf N.table pass.old }
        ensures same { self.new ≡ self.old }
        ensures later { Later pass.old pass.new }
        ensures adds { AddsNothing pass.old pass.new }
        ensures looks { pass.new.view.looks ≡ pass.old.view.looks }
        ensures size { (result ≡ self.new.size) × (pass.new.view.least.linked ≡ result) }
        ensures durable { result ≤ pass.new.view.least.durable }
        ensures leaves { IsTreeOf N.digest pass.new.view.seen self.new }
    {
        tip.fetch(&mut self.pass, pass);
        self.pass = tip.split(pass, tree_role(), 0);
        self.tree.size()
    }

    /// The size of the tree and its root, for a transaction that is placed now, by a pass that has the book's role and so
    /// has seen the whole list. The root is 32 zeros where the tree has no leaf; else it takes a few digests for each
    /// binary digit of the size, once behind opening and each `link`. It takes no memory.
    pub fn under<H: Hash32, L: Law>(
        &mut self,
        hash: &H,
        tip: &Tip<L>,
        pass: &mut Pass,
    ) -> (u64, D32)
        requires tip { tip.now.table ≡ N.table }
        requires pass { IsPlacer N.table pass.old }
        requires hash { H.digest hash.now ≡ N.digest }
        ensures same { self.new ≡ self.old }
        ensures later { Later pass.old pass.new }
        ensures adds { AddsNothing pass.old pass.new }
        ensures looks { pass.new.view.looks ≡ pass.old.view.looks }
        ensures seen { pass.new.view.seen ≡ pass.old.view.seen }
        ensures size { (result.0 ≡ self.new.size) × (pass.new.view.least.linked ≡ result.0) }
        ensures within { result.0 ≤ length pass.new.view.seen }
        ensures root { result.1 ≡ bl_root_of N.digest (alhs_in N.digest pass.new.view.seen) result.0 }
    {
        tip.fetch(&mut self.pass, pass);
        self.pass = tip.split(pass, tree_role(), 0);
        let root = kept_root(hash, &self.tree, self.root);
        self.root = Some(root);
        (self.tree.size(), root)
    }

    /// Links the Alh of the transactions behind those that are linked, all or none, and answers the tree's size. They
    /// are those of the pass's list, and of transactions that the pass knows to be durable. Each leaf is hashed once.
    /// Its only error is want of memory, and the tree and the pass are then as they were.
    pub fn link<H: Hash32, L: Law>(
        &mut self,
        hash: &H,
        alhs: &[D32],
        tip: &Tip<L>,
        pass: &mut Pass,
    ) -> Result<u64, AllocError>
        requires tip { tip.now.table ≡ N.table }
        requires pass { IsPassOf N.table pass.old }
        requires hash { H.digest hash.now ≡ N.digest }
        requires next { alhs.now ≡ take (length alhs.now) (drop self.old.size (alhs_in N.digest pass.old.view.seen)) }
        requires within { (self.old.size + length alhs.now ≤ length pass.old.view.seen) × (self.old.size + length alhs.now ≤ pass.old.view.least.durable) }
        ensures later { Later pass.old pass.new }
        ensures looks { pass.new.view.looks ≡ pass.old.view.looks }
        ensures old { IfOk result (λ _. pass.old.view.least.linked ≤ self.old.size) }
        ensures size { IfOk result (λ size. (size ≡ self.old.size + length alhs.now) × (self.new.size ≡ size) × (pass.new.view.least.linked ≡ size)) }
        ensures adds { IfOk result (λ _. AddsLeaves (length alhs.now) pass.old pass.new) }
        ensures leaves { IfOk result (λ _. IsTreeOf N.digest pass.new.view.seen self.new) }
        ensures err { OnErr result ((self.new ≡ self.old) × (pass.new ≡ pass.old)) }
    {
        self.tree.extend(hash, alhs)?;
        self.root = None;
        tip.fetch(&mut self.pass, pass);
        let size = self.tree.size();
        tip.store_linked(pass, size);
        self.pass = tip.split(pass, tree_role(), 0);
        Ok(size)
    }
}

// The root of a tree: the one that is kept, where one is.
fn kept_root<H: Hash32>(hash: &H, tree: &Tree, kept: Option<D32>) -> D32
    requires { IfSome kept (IsRootOf (H.digest hash.now) tree.now) }
    ensures { IsRootOf (H.digest hash.now) tree.now result }
{
    match kept {
        Some(root) => root,
        None => root_of(hash, tree),
    }
}
