ghost use Rattle.std.specs.Prelude.{◌≡◌, ◌<◌, ◌≤◌, ◌+◌, ◌-◌, []};
ghost use mathlib.Core.List.{IsPrefix};
ghost use Rattle.im_table.specs.Passes.{IsPassOf, Later};
ghost use Rattle.im_table.specs.Views.{longer, no_looks};
ghost use Rattle.im_store.specs.Gains.{greater_of, Gains};
ghost use Rattle.im_store.specs.Loads.{SawDurable};

mod closing;
mod committing;
mod flushing;
mod growing;
mod proving;
mod reading;

use im_digest::Hash32;
use im_disk::disk::Disk;
use im_edge::clock::Clock;
use im_linker::linked::Linked;
use im_seated_book::seated::SeatedBook;
use im_seated_index::seated::SeatedIndex;
use im_seated_journal::seated::SeatedJournal;
use im_table::law::Law;
use im_table::pass::Pass;
use im_table::roles::no_roles;
use im_table::tip::Tip;
use im_table::tip_name::TipName;
use std::sync::Mutex;

/// A store that threads share: one history, which each of them sees by a pass of its own. `Opened::named` gives it.
///
/// Each call but `close` takes the store by `&` and a pass by `&mut`: the pass is this store's, and it has some weight,
/// as `Opened::named` and `pass` give it. What a call answers it says of the pass's list, which only grows: contracts see it as
/// `pass.new.view.seen`, and what the pass has placed as `pass.new.view.own`.
///
/// # Thread safety
///
/// Any number of threads may call it at a time. Calls that wait for a lock take the runtime, `rt`; `hash`, `pass`, `end`, `tip` and `close`
/// wait for nobody and take no memory, and neither do the reads of a snapshot. There are four locks, and they are taken in
/// this order: the journal's, the index's, the book's, the tree's. The book's lock is held for no call of the disk.
///
/// # Invariants
///
/// What lies under each lock keeps its own (`SeatedJournal`, `SeatedIndex`, `SeatedBook`, `Linked`), with a pass that has the lock's
/// role; so all lists of all passes are front parts of one list.
#[derive(Drop)]
pub struct Store<'h, H: Hash32, D: Disk, C: Clock, L: Law, N: TipName> {
    hash: &'h H,
    tip: Tip<L>,
    journal: Mutex<SeatedJournal<D, N>>,
    index: Mutex<SeatedIndex<N>>,
    book: Mutex<SeatedBook<C, N>>,
    tree: Mutex<Linked<N>>,
    ghost named: { tip.table ≡ N.table },
    ghost logged: { tip.logs ≡ N.logs },
    ghost begun: { tip.found ≡ N.found },
    ghost hashed: { H.digest hash.now ≡ N.digest },
}

impl<'h, H: Hash32, D: Disk, C: Clock, L: Law, N: TipName> Store<'h, H, D, C, L, N> {
    // A store of these parts.
    pub(crate) fn of(
        hash: &'h H,
        tip: Tip<L>,
        journal: SeatedJournal<D, N>,
        index: SeatedIndex<N>,
        book: SeatedBook<C, N>,
        tree: Linked<N>,
    ) -> Self
        requires tip { (tip.table ≡ N.table) × (tip.logs ≡ N.logs) × (tip.found ≡ N.found) }
        requires hash { H.digest hash.now ≡ N.digest }
    {
        Store {
            hash,
            tip,
            journal: Mutex::new(journal),
            index: Mutex::new(index),
            book: Mutex::new(book),
            tree: Mutex::new(tree),
        }
    }

    /// The hash function by which digests are made.
    pub fn hash(&self) -> &H
        ensures { H.digest result.now ≡ N.digest }
    {
        self.hash
    }

    /// Another pass, for another thread: it has seen and knows as much, and has placed nothing. Of the weight of the given one, which
    /// is at least 2, it gets 1.
    pub fn pass(&self, pass: &mut Pass) -> Pass
        requires pass { IsPassOf N.table pass.old }
        requires weight { 1 < pass.old.view.weight }
        ensures given { IsPassOf N.table result × (result.view.weight ≡ 1) }
        ensures copy { (result.view.seen ≡ pass.old.view.seen) × (result.view.least ≡ pass.old.view.least) }
        ensures none { (result.view.own ≡ []) × (result.view.leaves ≡ 0) × (result.view.faults ≡ 0) }
        ensures looks { (result.view.looks ≡ no_looks) × (pass.new.view.looks ≡ pass.old.view.looks) }
        ensures left { IsPassOf N.table pass.new × (pass.new.view.weight ≡ pass.old.view.weight - 1) }
        ensures same { (pass.new.view.seen ≡ pass.old.view.seen) × (pass.new.view.least ≡ pass.old.view.least) }
        ensures gains { Gains [] 0 0 pass.old pass.new }
    {
        self.tip.split(pass, no_roles(), 1)
    }

    /// Takes a pass in: the longer of their lists, which begins with the other one, the greater numbers, what both have placed, and the
    /// sum of their weights.
    pub fn end(&self, pass: &mut Pass, other: Pass)
        requires pass { IsPassOf N.table pass.old }
        requires other { IsPassOf N.table other }
        ensures pass { IsPassOf N.table pass.new × (pass.new.view.weight ≡ pass.old.view.weight + other.view.weight) }
        ensures seen { IsPrefix pass.old.view.seen pass.new.view.seen × IsPrefix other.view.seen pass.new.view.seen }
        ensures longer { pass.new.view.seen ≡ longer pass.old.view.seen other.view.seen }
        ensures greater { pass.new.view.least ≡ greater_of pass.old.view.least other.view.least }
        ensures durable { (pass.old.view.least.durable ≤ pass.new.view.least.durable) × (other.view.least.durable ≤ pass.new.view.least.durable) }
        ensures linked { (pass.old.view.least.linked ≤ pass.new.view.least.linked) × (other.view.least.linked ≤ pass.new.view.least.linked) }
        ensures indexed { (pass.old.view.least.indexed ≤ pass.new.view.least.indexed) × (other.view.least.indexed ≤ pass.new.view.least.indexed) }
        ensures failed { (pass.old.view.least.failed ≤ pass.new.view.least.failed) × (other.view.least.failed ≤ pass.new.view.least.failed) }
        ensures gains { Gains other.view.own other.view.leaves other.view.faults pass.old pass.new }
    {
        self.tip.join(pass, other);
    }

    /// How many transactions are durable now. It is one load of a word: the event Load.
    pub fn tip(&self, pass: &mut Pass) -> u64
        requires pass { IsPassOf N.table pass.old }
        ensures later { Later pass.old pass.new }
        ensures gains { Gains [] 0 0 pass.old pass.new }
        ensures durable { SawDurable pass.old pass.new result × (pass.new.view.least.durable ≡ result) × (pass.old.view.least.durable ≤ result) }
    {
        self.tip.load_durable(pass)
    }
}
