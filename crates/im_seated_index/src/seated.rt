ghost use Rattle.std.specs.Prelude.{◌≡◌, ◌<◌, ◌≤◌, ◌+◌, List, Some, take, slice_get, IfOk, OnErr, OnOk};
ghost use Rattle.im_table.specs.Histories.{history_of};
ghost use Rattle.im_table.specs.Passes.{IsPassOf, IsKeeper, Later, AddsNothing, index_role};
ghost use Rattle.im_table.specs.Views.{looked_indexed};
ghost use Rattle.im_table.specs.declared.items.LogItem.{LogItem};
ghost use Rattle.im_index.specs.Indexed.{IsSnapshotOf};
ghost use Rattle.im_seated_index.specs.Seats.{HasTaken};

use im_index::index::Index;
use im_index::snapshot::Snapshot;
use im_model::transactions::Transaction;
use im_table::law::Law;
use im_table::pass::Pass;
use im_table::roles::index_role;
use im_table::tip::Tip;
use im_table::tip_name::TipName;
use std::alloc::{AllocError, Global};
use std::marker::{Model, PhantomData};

/// The index of a history that threads share, with the pass that has the index's role: what lies under the index's
/// lock. A clause sees the index.
///
/// # Thread safety
///
/// It lies under a lock, and each call has it alone (`&mut`). The index's lock is taken behind the journal's, and before
/// the book's and the tree's. A `Snapshot` is read without a lock.
///
/// # Invariants
///
/// What was taken is the word indexed, which is at most what the pass knows to be durable, and the index is that of as
/// many first transactions of the pass's list (`HasTaken`).
#[derive(Drop)]
pub struct SeatedIndex<N: TipName> {
    index: Index,
    pass: Pass,
    of: PhantomData<N>,
}

impl<N: TipName> Model for SeatedIndex<N> {
    ghost use Rattle.std.specs.Prelude.{◌≡◌, ◌≤◌};
    ghost use Rattle.im_table.specs.Passes.{IsKeeper, index_role};
    ghost use Rattle.im_index.specs.Indexed.{Indexed};
    ghost use Rattle.im_seated_index.specs.Seats.{HasTaken};

    ghost Value = { Indexed };

    ghost view = { λ s. s.index };

    ghost invariant = { λ s. IsKeeper N.table index_role s.pass × (s.pass.view.least.indexed ≡ s.index.taken) × (s.index.taken ≤ s.pass.view.least.durable) × HasTaken s.pass.view.seen s.index };
}

impl<N: TipName> SeatedIndex<N> {
    /// This index, with the pass that has its role.
    pub fn new(index: Index, pass: Pass) -> Self
        requires pass { IsKeeper N.table index_role pass }
        requires taken { (pass.view.least.indexed ≡ index.taken) × (index.taken ≤ pass.view.least.durable) }
        requires first { HasTaken pass.view.seen index }
        ensures { result ≡ index }
    {
        SeatedIndex {
            index,
            pass,
            of: PhantomData,
        }
    }

    /// Hands the index and the pass back.
    pub fn into_parts(self) -> (Index, Pass)
        ensures index { result.0 ≡ self }
        ensures pass { IsKeeper N.table index_role result.1 }
        ensures taken { (result.1.view.least.indexed ≡ self.taken) × (self.taken ≤ result.1.view.least.durable) }
        ensures first { HasTaken result.1.view.seen self }
    {
        let SeatedIndex { index, pass, of: _ } = self;
        (index, pass)
    }

    /// Lends the index.
    pub fn index(&self) -> &Index
        ensures { result.now ≡ self.now }
    {
        &self.index
    }

    /// Shows what was taken to a pass, and answers how many transactions these are, which is the word indexed as loaded
    /// here: the first ones of the pass's list.
    pub fn show<L: Law>(&mut self, tip: &Tip<L>, pass: &mut Pass) -> u64
        requires tip { tip.now.table ≡ N.table }
        requires pass { IsPassOf N.table pass.old }
        ensures same { self.new ≡ self.old }
        ensures later { Later pass.old pass.new }
        ensures adds { AddsNothing pass.old pass.new }
        ensures looks { pass.new.view.looks ≡ (looked_indexed pass.old.view result).looks }
        ensures taken { (result ≡ self.new.taken) × (pass.new.view.least.indexed ≡ result) }
        ensures durable { result ≤ pass.new.view.least.durable }
        ensures first { HasTaken pass.new.view.seen self.new }
    {
        tip.fetch(&mut self.pass, pass);
        let taken = tip.load_indexed(pass);
        self.pass = tip.split(pass, index_role(), 0);
        taken
    }

    /// Takes the next transaction, which is the one of the pass's list behind those that were taken, and one that the
    /// pass knows to be durable. What that costs is said at `Index::take`. Its only error is want of memory, and the
    /// index and the pass are then as they were.
    pub fn take<L: Law>(
        &mut self,
        alloc: Global,
        tx: &Transaction,
        tip: &Tip<L>,
        pass: &mut Pass,
    ) -> Result<(), AllocError>
        requires tip { tip.now.table ≡ N.table }
        requires pass { IsPassOf N.table pass.old }
        requires room { self.old.taken < 1048576 }
        requires next { slice_get (history_of pass.old.view.seen) self.old.taken ≡ Some tx.now }
        requires durable { self.old.taken < pass.old.view.least.durable }
        ensures later { Later pass.old pass.new }
        ensures adds { AddsNothing pass.old pass.new }
        ensures looks { pass.new.view.looks ≡ pass.old.view.looks }
        ensures old { OnOk result (pass.old.view.least.indexed ≤ self.old.taken) }
        ensures taken { OnOk result ((self.new.taken ≡ self.old.taken + 1) × (pass.new.view.least.indexed ≡ self.new.taken)) }
        ensures first { OnOk result (HasTaken pass.new.view.seen self.new) }
        ensures err { OnErr result ((self.new ≡ self.old) × (pass.new ≡ pass.old)) }
    {
        self.index.take(alloc, tx)?;
        let taken = self.index.taken();
        tip.fetch(&mut self.pass, pass);
        tip.store_indexed(pass, taken);
        self.pass = tip.split(pass, index_role(), 0);
        Ok(())
    }

    /// What stands after the first `n` transactions of a list of which the index has the first ones, as a value of the
    /// caller's own. Its only error is want of memory.
    pub fn snapshot(&self, alloc: Global, n: u64) -> Result<Snapshot, AllocError>
        requires { n ≤ self.now.taken }
        ensures { (items : List LogItem) → HasTaken items self.now → IfOk result (λ snapshot. IsSnapshotOf snapshot (take n (history_of items))) }
    {
        self.index.snapshot(alloc, n)
    }
}
