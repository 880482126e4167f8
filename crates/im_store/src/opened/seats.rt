// The passes of a store's locks.
ghost use Rattle.std.specs.Prelude.{◌≡◌, List};
ghost use Rattle.im_table.specs.Passes.{book_role, index_role, journal_role, tree_role};
ghost use Rattle.im_table.specs.Views.{opener};
ghost use Rattle.im_table.specs.declared.items.LogItem.{LogItem};
ghost use Rattle.im_store.specs.Seats.{IsFirst, IsSeat};

use im_table::law::Law;
use im_table::pass::Pass;
use im_table::roles::{book_role, index_role, journal_role, tree_role};
use im_table::tip::Tip;

/// A pass for each lock, which has that lock's role and no weight.
#[derive(Drop)]
pub(crate) struct Seats {
    /// The journal's.
    pub(crate) writer: Pass,
    /// The index's.
    pub(crate) indexer: Pass,
    /// The book's.
    pub(crate) keeper: Pass,
    /// The tree's.
    pub(crate) linker: Pass,
}

/// Splits the passes of the locks off the pass that has each role and the whole weight: the weight stays with it.
pub(crate) fn seats_of<L: Law>(tip: &Tip<L>, pass: &mut Pass) -> Seats
    requires table { pass.old.table ≡ tip.now.table }
    requires opens { (found : List LogItem) × (pass.old.view ≡ opener found) }
    ensures writer { (found : List LogItem) → pass.old.view ≡ opener found → IsSeat tip.now.table journal_role found result.writer }
    ensures indexer { (found : List LogItem) → pass.old.view ≡ opener found → IsSeat tip.now.table index_role found result.indexer }
    ensures keeper { (found : List LogItem) → pass.old.view ≡ opener found → IsSeat tip.now.table book_role found result.keeper }
    ensures linker { (found : List LogItem) → pass.old.view ≡ opener found → IsSeat tip.now.table tree_role found result.linker }
    ensures left { (found : List LogItem) → pass.old.view ≡ opener found → IsFirst tip.now.table found pass.new }
{
    let writer = tip.split(pass, journal_role(), 0);
    let indexer = tip.split(pass, index_role(), 0);
    let keeper = tip.split(pass, book_role(), 0);
    let linker = tip.split(pass, tree_role(), 0);
    Seats {
        writer,
        indexer,
        keeper,
        linker,
    }
}
