// What is placed becomes durable: whoever has the journal's lock writes for all who were placed before.
ghost use Rattle.std.specs.Prelude.{◌≡◌, ◌<◌, ◌≤◌, [], ℕ, length, IfErr, IfNone, OnErr, OnOk, OnSome};
ghost use Rattle.im_journal.specs.declared.batches.Step.TheVariants.{Idle};
ghost use Rattle.im_journal.specs.declared.errors.JournalError.TheVariants as halts;
ghost use Rattle.im_table.specs.Passes.{IsPassOf, Later};
ghost use Rattle.im_store.specs.Gains.{HasStepped, Gains};
ghost use Rattle.im_store.specs.Loads.{SawFewer};
ghost use Rattle.im_store.specs.Settling.{ExplainsHalt, HasHalted, AnswersSettle, HasStoppedSettling, faults_settling, faults_told};

use crate::errors::SettleError;
use crate::store::Store;
use im_digest::Hash32;
use im_disk::disk::Disk;
use im_edge::clock::Clock;
use im_journal::batches::Step;
use im_journal::errors::JournalError;
use im_journal::journal::Journal;
use im_seated_book::seated::SeatedBook;
use im_seated_journal::seated::SeatedJournal;
use im_table::law::Law;
use im_table::pass::Pass;
use im_table::tip_name::TipName;
use std::alloc::Global;
use std::sync::{MutexGuard, Wait};
use std::thread::yield_now;

// How often a thread looks at the word durable and at the journal's lock, and lets others run, before it sleeps until the lock is
// free. A look takes about a microsecond: so a batch on a fast disk is awaited awake, and on a slow one asleep.
const LOOKS: u32 = 1000;

// How often others are let run where there are some: a few microseconds where no other thread waits for a processor.
const TURNS: u32 = 50;

// How often a batch is halved where memory runs out: the last one is of one transaction, since there are at most 2^20.
const HALVINGS: u32 = 21;

impl<'h, H: Hash32, D: Disk, C: Clock, L: Law, N: TipName> Store<'h, H, D, C, L, N> {
    /// Waits until the first `n` transactions are durable, whoever placed them. It is loads of the words placed and durable, and
    /// where no other thread makes them durable the events Stage, Seal, Gate and Settle, or Fault.
    ///
    /// # Errors
    ///
    /// `Beyond` exactly where fewer are placed, and tells how many. Only where fewer were durable, as loaded in the call: `DiskFault` where
    /// a call of the disk failed in this call, and the pass knew of none before; `Stopped` where one had failed before; and `Memory`, behind
    /// which the next call goes on with what was done of a batch.
    pub fn settle<R: Wait>(
        &self,
        rt: &R,
        alloc: Global,
        pass: &mut Pass,
        n: u64,
    ) -> Result<(), SettleError>
        requires pass { IsPassOf N.table pass.old }
        ensures later { Later pass.old pass.new }
        ensures gains { Gains [] 0 (faults_settling result) pass.old pass.new }
        ensures answer { AnswersSettle pass.old pass.new n result }
        // The word failed is loaded only to tell that calls had failed.
        ensures failed { (HasStoppedSettling result → ⊥) → pass.new.view.looks.failed ≡ pass.old.view.looks.failed }
    {
        let placed = self.book.lock(rt).show(&self.tip, pass);
        if placed < n {
            return Err(SettleError::Beyond { placed });
        }
        self.settle_to(rt, alloc, pass, n)?;
        Ok(())
    }

    // Waits until the first `n` transactions of the pass's list are durable. Before it sleeps at the journal's lock it looks at
    // the word durable some thousand times: so all whose transactions one thread wrote go on at once, and place their next ones
    // for its next batch.
    pub(super) fn settle_to<R: Wait>(
        &self,
        rt: &R,
        alloc: Global,
        pass: &mut Pass,
        n: u64,
    ) -> Result<(), JournalError>
        requires pass { IsPassOf N.table pass.old }
        requires seen { n ≤ length pass.old.view.seen }
        ensures follows { HasStepped (faults_told result) pass.old pass.new }
        ensures ok { OnOk result (n ≤ pass.new.view.least.durable) }
        ensures err { IfErr result (λ cause. ExplainsHalt pass.old pass.new cause) }
        ensures fewer { OnErr result (SawFewer pass.old pass.new n) }
        ensures failed { (HasHalted result → ⊥) → pass.new.view.looks.failed ≡ pass.old.view.looks.failed }
        ensures placed { n ≤ pass.old.view.looks.placed.last → n ≤ pass.new.view.looks.placed.last }
    {
        let Some(mut journal) = self.journal_for(rt, pass, n) else {
            return Ok(());
        };
        journal.show(&self.tip, pass);
        self.flush_to(rt, alloc, pass, n, &mut journal)
    }

    // Takes the journal's lock; `None` where the first `n` are durable before it is free. Under the lock, where a batch is still
    // to be written for them, other threads are let run, as `let_others_place` says, so that theirs go with it.
    fn journal_for<R: Wait>(
        &self,
        rt: &R,
        pass: &mut Pass,
        n: u64,
    ) -> Option<MutexGuard<'_, SeatedJournal<D, N>>>
        requires pass { IsPassOf N.table pass.old }
        ensures follows { HasStepped 0 pass.old pass.new }
        ensures none { IfNone result (n ≤ pass.new.view.least.durable) }
        ensures some { OnSome result (SawFewer pass.old pass.new n) }
        ensures failed { pass.new.view.looks.failed ≡ pass.old.view.looks.failed }
        ensures placed { pass.new.view.looks.placed ≡ pass.old.view.looks.placed }
    {
        for look in 0..LOOKS {
            if n <= self.tip.load_durable(pass) {
                return None;
            }
            if let Some(journal) = self.journal.try_lock() {
                let_others_place(journal.journal(), n, look > 0);
                return Some(journal);
            }
            yield_now();
        }
        let journal = self.journal.lock(rt);
        let_others_place(journal.journal(), n, true);
        Some(journal)
    }

    // Makes batches durable, under the journal's lock, until the first `n` transactions of the pass's list are.
    fn flush_to<R: Wait>(
        &self,
        rt: &R,
        alloc: Global,
        pass: &mut Pass,
        n: u64,
        journal: &mut SeatedJournal<D, N>,
    ) -> Result<(), JournalError>
        requires pass { IsPassOf N.table pass.old }
        requires seen { n ≤ length pass.old.view.seen }
        requires words { (pass.old.view.least.durable ≡ journal.old.durable) × (pass.old.view.least.failed ≡ journal.old.failures) }
        ensures follows { HasStepped (faults_told result) pass.old pass.new }
        ensures ok { OnOk result (n ≤ pass.new.view.least.durable) }
        ensures err { IfErr result (λ cause. ExplainsHalt pass.old pass.new cause) }
        ensures failed { (HasHalted result → ⊥) → pass.new.view.looks.failed ≡ pass.old.view.looks.failed }
        ensures durable { pass.new.view.looks.durable ≡ pass.old.view.looks.durable }
        ensures placed { n ≤ pass.old.view.looks.placed.last → n ≤ pass.new.view.looks.placed.last }
    {
        for _ in rt.forever() {
            if n <= journal.journal().durable() {
                return Ok(());
            }
            self.flush(rt, alloc, pass, journal)?;
        }
        unreachable!()
    }

    // Makes one batch durable: what is left of the one in progress, or one of what is placed behind the durable transactions.
    fn flush<R: Wait>(
        &self,
        rt: &R,
        alloc: Global,
        pass: &mut Pass,
        journal: &mut SeatedJournal<D, N>,
    ) -> Result<(), JournalError>
        requires pass { IsPassOf N.table pass.old }
        requires words { (pass.old.view.least.durable ≡ journal.old.durable) × (pass.old.view.least.failed ≡ journal.old.failures) }
        requires some { journal.old.durable < length pass.old.view.seen }
        ensures follows { HasStepped (faults_told result) pass.old pass.new }
        ensures words { OnOk result ((pass.new.view.least.durable ≡ journal.new.durable) × (pass.new.view.least.failed ≡ journal.new.failures)) }
        ensures err { IfErr result (λ cause. ExplainsHalt pass.old pass.new cause) }
        ensures failed { (HasHalted result → ⊥) → pass.new.view.looks.failed ≡ pass.old.view.looks.failed }
        ensures durable { pass.new.view.looks.durable ≡ pass.old.view.looks.durable }
        ensures placed { (n : ℕ) → n ≤ length pass.old.view.seen → n ≤ pass.old.view.looks.placed.last → n ≤ pass.new.view.looks.placed.last }
    {
        if journal.journal().failures() > 0 {
            let faults = self.tip.load_failed(pass);
            return Err(JournalError::Stopped { faults });
        }
        if journal.journal().step() == Step::Idle {
            return self.flush_placed(rt, alloc, pass, journal);
        }
        self.finish(alloc, pass, journal)
    }

    // Makes a batch durable of what is placed behind the durable transactions.
    fn flush_placed<R: Wait>(
        &self,
        rt: &R,
        alloc: Global,
        pass: &mut Pass,
        journal: &mut SeatedJournal<D, N>,
    ) -> Result<(), JournalError>
        requires pass { IsPassOf N.table pass.old }
        requires none { pass.old.view.least.failed ≡ 0 }
        requires going { journal.old.failures ≡ 0 }
        requires idle { journal.old.batch.step ≡ Idle }
        requires some { journal.old.durable < length pass.old.view.seen }
        ensures follows { HasStepped (faults_told result) pass.old pass.new }
        ensures words { OnOk result ((pass.new.view.least.durable ≡ journal.new.durable) × (pass.new.view.least.failed ≡ journal.new.failures)) }
        ensures err { IfErr result (λ cause. ExplainsHalt pass.old pass.new cause) }
        ensures failed { pass.new.view.looks.failed ≡ pass.old.view.looks.failed }
        ensures durable { pass.new.view.looks.durable ≡ pass.old.view.looks.durable }
        ensures placed { length pass.old.view.seen ≤ pass.new.view.looks.placed.last }
    {
        self.begin(rt, alloc, pass, journal)?;
        self.finish(alloc, pass, journal)
    }

    // Begins a batch of all that is placed behind the durable transactions, or of as many as there is memory for: where it runs out,
    // of half as many. The book's lock is held for no longer than that.
    fn begin<R: Wait>(
        &self,
        rt: &R,
        alloc: Global,
        pass: &mut Pass,
        journal: &mut SeatedJournal<D, N>,
    ) -> Result<(), JournalError>
        requires pass { IsPassOf N.table pass.old }
        requires going { journal.old.failures ≡ 0 }
        requires idle { journal.old.batch.step ≡ Idle }
        requires some { journal.old.durable < length pass.old.view.seen }
        ensures follows { HasStepped 0 pass.old pass.new }
        ensures words { OnOk result ((pass.new.view.least.durable ≡ journal.new.durable) × (pass.new.view.least.failed ≡ journal.new.failures)) }
        ensures begun { OnOk result (journal.new.batch.step ≡ Idle → ⊥) }
        ensures going { journal.new.failures ≡ 0 }
        ensures memory { IfErr result (λ cause. cause ≡ halts.Memory) }
        ensures failed { pass.new.view.looks.failed ≡ pass.old.view.looks.failed }
        ensures durable { pass.new.view.looks.durable ≡ pass.old.view.looks.durable }
        ensures placed { length pass.old.view.seen ≤ pass.new.view.looks.placed.last }
    {
        let mut book = self.book.lock(rt);
        let book = &mut *book;
        for halvings in 0..HALVINGS {
            match self.begin_part(alloc, pass, journal, book, halvings) {
                Err(JournalError::Memory) => {}
                answer => return answer,
            }
        }
        Err(JournalError::Memory)
    }

    // Begins a batch of what is placed behind the durable transactions, halved so often, but of one at least.
    fn begin_part(
        &self,
        alloc: Global,
        pass: &mut Pass,
        journal: &mut SeatedJournal<D, N>,
        book: &mut SeatedBook<C, N>,
        halvings: u32,
    ) -> Result<(), JournalError>
        requires pass { IsPassOf N.table pass.old }
        requires few { halvings < 64 }
        requires going { journal.old.failures ≡ 0 }
        requires idle { journal.old.batch.step ≡ Idle }
        requires some { journal.old.durable < length pass.old.view.seen }
        ensures follows { HasStepped 0 pass.old pass.new }
        ensures words { OnOk result ((pass.new.view.least.durable ≡ journal.new.durable) × (pass.new.view.least.failed ≡ journal.new.failures)) }
        ensures begun { OnOk result (journal.new.batch.step ≡ Idle → ⊥) }
        ensures going { journal.new.failures ≡ 0 }
        ensures err { OnErr result (journal.new ≡ journal.old) }
        ensures memory { IfErr result (λ cause. cause ≡ halts.Memory) }
        ensures failed { pass.new.view.looks.failed ≡ pass.old.view.looks.failed }
        ensures durable { pass.new.view.looks.durable ≡ pass.old.view.looks.durable }
        ensures placed { length pass.old.view.seen ≤ pass.new.view.looks.placed.last }
    {
        let placed = book.show(&self.tip, pass);
        let durable = journal.journal().durable();
        let count = halved(placed - durable, halvings);
        let records = book.records(alloc, durable, count)?;
        let begun = journal.begin(alloc, records.as_slice(), &self.tip, pass);
        drop(records);
        begun
    }

    // Writes what is left of the batch in progress, and makes it durable. No lock but the journal's is held.
    fn finish(
        &self,
        alloc: Global,
        pass: &mut Pass,
        journal: &mut SeatedJournal<D, N>,
    ) -> Result<(), JournalError>
        requires pass { IsPassOf N.table pass.old }
        requires none { pass.old.view.least.failed ≡ 0 }
        requires going { journal.old.failures ≡ 0 }
        requires begun { journal.old.batch.step ≡ Idle → ⊥ }
        ensures follows { HasStepped (faults_told result) pass.old pass.new }
        ensures words { (pass.new.view.least.durable ≡ journal.new.durable) × (pass.new.view.least.failed ≡ journal.new.failures) }
        ensures err { IfErr result (λ cause. ExplainsHalt pass.old pass.new cause) }
        ensures looks { pass.new.view.looks ≡ pass.old.view.looks }
    {
        journal.stage(alloc, &self.tip, pass)?;
        journal.seal(&self.tip, pass)?;
        journal.settle(&self.tip, pass)
    }
}

// Lets other threads run before a batch is begun for the first `n`, where there seem to be others: the one that begins it has
// waited for the journal's lock, or the batch before had several transactions. Those that were set free by that batch place
// their next ones meanwhile, and these go with the batch.
fn let_others_place<D: Disk>(journal: &Journal<D>, n: u64, waited: bool) {
    if journal.durable() < n && (waited || journal.batch_count() > 1) {
        for _turn in 0..TURNS {
            yield_now();
        }
    }
}

// Half as many, so often, but one at least.
#[tactic(auto, using(std::proofs::lemmas::Nat::shr_le))]
fn halved(count: u64, halvings: u32) -> u64
    requires some { 1 ≤ count }
    requires few { halvings < 64 }
    ensures some { 1 ≤ result }
    ensures most { result ≤ count }
{
    (count >> halvings).max(1)
}
