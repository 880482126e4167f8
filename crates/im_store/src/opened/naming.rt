// A store gets its name, and its parts their passes and locks.
ghost use Rattle.std.specs.Prelude.{◌≡◌, [], length};
ghost use Rattle.im_table.specs.Passes.{IsPassOf};

use crate::opened::Opened;
use crate::opened::parts::Parts;
use crate::opened::seats::{Seats, seats_of};
use crate::store::Store;
use im_digest::Hash32;
use im_disk::disk::Disk;
use im_edge::clock::Clock;
use im_linker::linked::Linked;
use im_seated_book::seated::SeatedBook;
use im_seated_index::seated::SeatedIndex;
use im_seated_journal::seated::SeatedJournal;
use im_table::law::Law;
use im_table::pass::Pass;
use im_table::tip_name::TipName;

impl<'h, H: Hash32, D: Disk, C: Clock, L: Law> Opened<'h, H, D, C, L> {
    /// The store under a name, and a pass of the whole weight, 1,048,576, that has seen and knows all that was found. It takes no memory.
    pub fn named<N: TipName>(self) -> (Store<'h, H, D, C, L, N>, Pass)
        requires tip { (self.table ≡ N.table) × (self.found ≡ N.found) × (self.logs ≡ N.logs) }
        requires hash { H.digest self.hash ≡ N.digest }
        requires disk { (D.told self.disk ≡ N.synced) × (D.faults self.disk ≡ N.faults) }
        requires clock { (C.constant self.clock ≡ N.time) × (C.given self.clock ≡ N.given) }
        ensures pass { IsPassOf N.table result.1 × (result.1.view.weight ≡ 1048576) }
        ensures seen { result.1.view.seen ≡ N.found }
        ensures durable { result.1.view.least.durable ≡ length N.found }
        ensures known { (result.1.view.least.linked ≡ length N.found) × (result.1.view.least.indexed ≡ length N.found) × (result.1.view.least.failed ≡ 0) }
        ensures none { (result.1.view.own ≡ []) × (result.1.view.leaves ≡ 0) × (result.1.view.faults ≡ 0) }
    {
        let Opened {
            hash,
            tip,
            journal,
            clock,
            logs,
            parts,
        } = self;
        let Parts {
            mut pass,
            index,
            book,
            refs,
            tree,
        } = parts;
        let ends = journal.ends().values;
        let seats = seats_of(&tip, &mut pass);
        let Seats {
            writer,
            indexer,
            keeper,
            linker,
        } = seats;
        let journal = SeatedJournal::new(journal, writer);
        let index = SeatedIndex::new(index, indexer);
        let book = SeatedBook::new(book, refs, ends, logs, clock, keeper);
        let tree = Linked::new(tree, linker);
        (Store::of(hash, tip, journal, index, book, tree), pass)
    }
}
