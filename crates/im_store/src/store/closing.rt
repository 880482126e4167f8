// A store is closed: all passes come together, and the disk and the clock go back.
ghost use Rattle.std.specs.Prelude.{◌≡◌, ◌≤◌, ◌+◌, ℕ};
ghost use Rattle.std.specs.List.{All, sum_by};
ghost use mathlib.Core.List.{IsPrefix};
ghost use Rattle.im_table.specs.Passes.{IsPassOf};
ghost use Rattle.im_model.specs.Counts.{times};
ghost use Rattle.im_store.specs.Closing.{HoldsAll, ClosesStore, failures_told, leaves_linked, own_count, weight_in};

use crate::store::Store;
use im_digest::Hash32;
use im_disk::disk::Disk;
use im_edge::clock::Clock;
use im_table::law::Law;
use im_table::pass::Pass;
use im_table::tip::Tip;
use im_table::tip_name::TipName;

impl<'h, H: Hash32, D: Disk, C: Clock, L: Law, N: TipName> Store<'h, H, D, C, L, N> {
    /// Closes the store, and hands the disk and the clock back. The passes that are handed in come together: of the one list that they are
    /// front parts of, what the disk holds is told, and where they have the whole weight (`pass` hands on parts of it, `end` adds them
    /// up) all that was placed is theirs. It waits for nobody, takes no memory, and leaves the disk as it is.
    pub fn close(self, passes: Vec<Pass>) -> (D, C)
        requires passes { All (IsPassOf N.table) passes.items }
        ensures { ClosesStore L.allows D.told D.faults N.digest N.logs N.found N.synced N.faults N.time N.given passes.items result.0 (C.constant result.1) (C.given result.1) }
    {
        let Store {
            hash: _,
            tip,
            journal,
            index,
            book,
            tree,
        } = self;
        let (placed, clock, mut keeper) = book.into_inner().into_parts();
        let (journal, writer) = journal.into_inner().into_parts();
        let (indexed, indexer) = index.into_inner().into_parts();
        let (linked, linker) = tree.into_inner().into_parts();
        drop(placed);
        drop(indexed);
        drop(linked);
        tip.join(&mut keeper, writer);
        tip.join(&mut keeper, indexer);
        tip.join(&mut keeper, linker);
        take_in(&tip, &mut keeper, passes);
        tip.close(&mut keeper);
        drop(tip);
        drop(keeper);
        (journal.into_disk(), clock)
    }
}

// Takes in passes, by one that has all roles.
fn take_in<L: Law>(tip: &Tip<L>, keeper: &mut Pass, passes: Vec<Pass>)
    requires keeper { HoldsAll tip.now.table keeper.old }
    requires passes { All (IsPassOf tip.now.table) passes.items }
    ensures keeper { HoldsAll tip.now.table keeper.new }
    ensures same { (keeper.new.view.seen ≡ keeper.old.view.seen) × (keeper.new.view.least ≡ keeper.old.view.least) }
    ensures begins { All (λ p. IsPrefix p.view.seen keeper.new.view.seen) passes.items }
    ensures durable { All (λ p. p.view.least.durable ≤ keeper.new.view.least.durable) passes.items }
    ensures failed { All (λ p. p.view.least.failed ≤ keeper.new.view.least.failed) passes.items }
    ensures linked { All (λ p. p.view.least.linked ≤ keeper.new.view.least.linked) passes.items }
    ensures weight { keeper.new.view.weight ≡ keeper.old.view.weight + sum_by weight_in passes.items }
    ensures leaves { keeper.new.view.leaves ≡ keeper.old.view.leaves + sum_by leaves_linked passes.items }
    ensures faults { keeper.new.view.faults ≡ keeper.old.view.faults + sum_by failures_told passes.items }
    ensures own { (k : ℕ) → times k keeper.new.view.own ≡ times k keeper.old.view.own + sum_by (own_count k) passes.items }
{
    for pass in passes {
        tip.join(keeper, pass);
    }
}
