// What is durable is linked and indexed.
ghost use Rattle.std.specs.Prelude.{◌≡◌, ◌≤◌, ◌-◌, [], ℕ, drop, length, take, IfOk, OnErr, OnOk};
ghost use Rattle.im_table.specs.Passes.{IsPassOf, Later};
ghost use Rattle.im_store.specs.Gains.{HasStepped, Gains};
ghost use Rattle.im_store.specs.Growth.{IsIndexed, IsLinked};

use crate::store::Store;
use im_digest::{D32, Hash32};
use im_disk::disk::Disk;
use im_edge::clock::Clock;
use im_seated_book::seated::SeatedBook;
use im_seated_index::seated::SeatedIndex;
use im_table::law::Law;
use im_table::pass::Pass;
use im_table::tip_name::TipName;
use std::alloc::{AllocError, Global};
use std::sync::Wait;

// How many transactions are taken into the index while the book's lock is held.
const TAKEN_AT_ONCE: u64 = 64;

impl<'h, H: Hash32, D: Disk, C: Clock, L: Law, N: TipName> Store<'h, H, D, C, L, N> {
    /// Links so many transactions more into the tree, at most those that are durable, and answers how many are linked then. It is the
    /// event Link for each of them. Each leaf is hashed once, and about one node: the book's lock isn't held for that, but the tree's
    /// is, so that whoever places waits for it. Its only error is want of memory, and nothing is linked then.
    pub fn link<R: Wait>(
        &self,
        rt: &R,
        alloc: Global,
        pass: &mut Pass,
        most: u64,
    ) -> Result<u64, AllocError>
        requires pass { IsPassOf N.table pass.old }
        ensures later { Later pass.old pass.new }
        ensures ok { IfOk result (λ size. (before : ℕ) × IsLinked pass.old pass.new most before size × Gains [] (size - before) 0 pass.old pass.new) }
        ensures err { OnErr result (Gains [] 0 0 pass.old pass.new) }
    {
        let mut book = self.book.lock(rt);
        let mut tree = self.tree.lock(rt);
        let size = tree.show(&self.tip, pass);
        let durable = self.tip.load_durable(pass);
        book.show(&self.tip, pass);
        let end = size.saturating_add(most).min(durable);
        let alhs = copied(alloc, book.alhs(), size as usize, end as usize)?;
        drop(book);
        let linked = tree.link(self.hash, alhs.as_slice(), &self.tip, pass);
        drop(alhs);
        linked
    }

    /// Takes so many transactions more into the index than the word indexed says under the index's lock, at most those that are durable,
    /// and answers how many are indexed then. It is the event Index for each of them. What that costs is said at `Index::take`. Its only
    /// error is want of memory: those that were taken before stay, as the word indexed tells.
    pub fn index<R: Wait>(
        &self,
        rt: &R,
        alloc: Global,
        pass: &mut Pass,
        most: u64,
    ) -> Result<u64, AllocError>
        requires pass { IsPassOf N.table pass.old }
        ensures later { Later pass.old pass.new }
        ensures gains { Gains [] 0 0 pass.old pass.new }
        ensures ok { IfOk result (λ taken. (before : ℕ) × IsIndexed pass.old pass.new most before taken) }
    {
        let mut index = self.index.lock(rt);
        let taken = index.show(&self.tip, pass);
        let durable = self.tip.load_durable(pass);
        let end = taken.saturating_add(most).min(durable);
        self.take_to(rt, alloc, pass, end, &mut index)?;
        Ok(end)
    }

    // Takes transactions into the index until it has the first `end`.
    fn take_to<R: Wait>(
        &self,
        rt: &R,
        alloc: Global,
        pass: &mut Pass,
        end: u64,
        index: &mut SeatedIndex<N>,
    ) -> Result<(), AllocError>
        requires pass { IsPassOf N.table pass.old }
        requires end { end ≤ pass.old.view.least.durable }
        requires taken { (index.old.taken ≤ end) × (index.old.taken ≤ pass.old.view.least.indexed) }
        ensures follows { HasStepped 0 pass.old pass.new }
        ensures loads { (pass.new.view.looks.durable ≡ pass.old.view.looks.durable) × (pass.new.view.looks.indexed ≡ pass.old.view.looks.indexed) }
        ensures taken { OnOk result (end ≤ pass.new.view.least.indexed) }
    {
        for _ in rt.forever() {
            let taken = index.index().taken();
            if taken >= end {
                return Ok(());
            }
            let next = taken.saturating_add(TAKEN_AT_ONCE).min(end);
            let mut book = self.book.lock(rt);
            book.show(&self.tip, pass);
            self.take_some(alloc, pass, next, index, &book)?;
        }
        unreachable!()
    }

    // Takes the transactions of a book into the index until it has the first `end`.
    fn take_some(
        &self,
        alloc: Global,
        pass: &mut Pass,
        end: u64,
        index: &mut SeatedIndex<N>,
        book: &SeatedBook<C, N>,
    ) -> Result<(), AllocError>
        requires pass { IsPassOf N.table pass.old }
        requires seen { pass.old.view.seen ≡ book.now }
        requires few { length book.now ≤ 1048576 }
        requires end { (end ≤ pass.old.view.least.durable) × (end ≤ length book.now) }
        requires taken { (index.old.taken ≤ end) × (index.old.taken ≤ pass.old.view.least.indexed) }
        ensures follows { HasStepped 0 pass.old pass.new }
        ensures looks { pass.new.view.looks ≡ pass.old.view.looks }
        ensures taken { OnOk result ((index.new.taken ≡ end) × (end ≤ pass.new.view.least.indexed)) }
    {
        let start = index.index().taken();
        for k in start..end {
            index.take(alloc, &book.transactions()[k as usize], &self.tip, pass)?;
        }
        Ok(())
    }
}

// A copy of digests from one place to another.
fn copied(alloc: Global, digests: &[D32], from: usize, to: usize) -> Result<Vec<D32>, AllocError>
    requires order { from ≤ to }
    requires within { to ≤ length digests.now }
    ensures { IfOk result (λ copy. copy.items ≡ take (to - from) (drop from digests.now)) }
{
    Vec::from_slice(alloc, &digests[from..to])
}
