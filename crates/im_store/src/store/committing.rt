// A commit: a place under the book's and the tree's lock, and then a wait until it is durable.
ghost use Rattle.std.specs.Prelude.{◌≡◌, ◌≤◌, [], ℕ, length, IfErr, IfOk, Some, None};
ghost use Rattle.im_journal.specs.declared.errors.JournalError.{JournalError};
ghost use Rattle.im_seated_book.specs.Seats.{MayBePlaced};
ghost use Rattle.im_table.specs.Passes.{IsPassOf, Later};
ghost use Rattle.im_table.specs.Views.{looked_placed};
ghost use Rattle.im_store.specs.Commits.{Explains, HasPlaced, HasStopped, IsCommitted, IsStop, faults_of_error, faults_committing, number_told, number_placed};
ghost use Rattle.im_store.specs.Errors.{halted, refused};
ghost use Rattle.im_store.specs.Gains.{HasStepped, Gains};
ghost use Rattle.im_store.specs.Lists.{IsListOf};
ghost use Rattle.im_store.specs.Placing.{IsReceipt, IsNotDone, TellsNotPlaced, TellsRefusal, numbers_of, reach_of, unplaced};
ghost use Rattle.im_store.specs.Settling.{ExplainsHalt};

use crate::answers::Receipt;
use crate::errors::CommitError;
use crate::store::Store;
use im_digest::Hash32;
use im_disk::disk::Disk;
use im_edge::clock::Clock;
use im_journal::errors::JournalError;
use im_table::law::Law;
use im_table::pass::Pass;
use im_table::tip_name::TipName;
use im_tx::prepared::Prepared;
use im_versions::refusals::PlaceError;
use std::alloc::Global;
use std::sync::Wait;

impl<'h, H: Hash32, D: Disk, C: Clock, L: Law, N: TipName> Store<'h, H, D, C, L, N> {
    /// Commits what was prepared: places it behind all that is placed, over the tree of that moment and at the clock's time, and
    /// answers its number and header once it is durable. Of the store's law it asks that it may stand behind any list that begins
    /// with the pass's, meets the law, and admits it. The list with a receipt's transaction meets the law again.
    ///
    /// It is the event Place; then, where no other thread makes it durable, Stage, Seal, Gate and Settle, or Fault; then
    /// Ack. It waits for the journal's lock, unless another thread makes it durable before it sleeps, and a batch that it writes has all that
    /// was placed by then, as far as memory goes. It hashes each value and the root of its entries once, a few nodes of the tree where it
    /// has grown since the last one was placed, its header by two hashes, and copies the header.
    ///
    /// # Errors
    ///
    /// `Full` where the limit is reached, and else `Missing`, `Exists` or `Modified` by the first precondition that doesn't hold, in
    /// the order given: once the `at` transactions behind which that was judged are durable. `DiskFault` where a call of the disk failed
    /// in this call, and the pass knew of none before; `Stopped` where one had failed before; and `Memory`: with the number of the
    /// transaction where it was placed all the same, so that `settle` may be asked for it. Without a number nothing is placed: but for `Memory` it was refused behind
    /// transactions of which some weren't durable yet, as loaded in the call.
    pub fn commit<R: Wait>(
        &self,
        rt: &R,
        alloc: Global,
        pass: &mut Pass,
        prepared: Prepared,
    ) -> Result<Receipt, CommitError>
        requires pass { IsPassOf N.table pass.old }
        requires law { MayBePlaced L.allows pass.old.view.seen prepared }
        ensures later { Later pass.old pass.new }
        // The pass has just the number that the answer tells, and a failure more exactly where the answer is DiskFault.
        ensures gains { Gains (number_placed result) 0 (faults_committing result) pass.old pass.new }
        ensures ok { IfOk result (λ receipt. IsCommitted N.digest N.time prepared pass.old pass.new receipt) }
        ensures list { IfOk result (λ _. IsListOf L.allows N.digest N.logs N.found pass.new.view.seen) }
        ensures err { IfErr result (λ error. Explains N.time prepared pass.old pass.new error) }
        // The word failed is loaded only to tell that calls had failed.
        ensures failed { (HasStopped result → ⊥) → pass.new.view.looks.failed ≡ pass.old.view.looks.failed }
    {
        match self.place(rt, alloc, pass, prepared) {
            Ok(id) => self.acknowledge(rt, alloc, pass, id),
            Err(unplaced) => Err(self.refuse(rt, alloc, pass, unplaced)),
        }
    }

    // Places what was prepared, and answers its number.
    fn place<R: Wait>(
        &self,
        rt: &R,
        alloc: Global,
        pass: &mut Pass,
        prepared: Prepared,
    ) -> Result<u64, NotPlaced>
        requires pass { IsPassOf N.table pass.old }
        requires law { MayBePlaced L.allows pass.old.view.seen prepared }
        ensures later { Later pass.old pass.new }
        ensures gains { Gains (numbers_of result) 0 0 pass.old pass.new }
        ensures placed { IfOk result (λ id. HasPlaced N.time prepared pass.old pass.new id) }
        ensures refused { IfErr result (λ e. IsNotDone prepared pass.old pass.new e) }
        ensures looks { (n : ℕ) × (pass.new.view.looks ≡ (looked_placed pass.old.view n).looks) }
    {
        let mut book = self.book.lock(rt);
        let mut tree = self.tree.lock(rt);
        match book.place(alloc, self.hash, prepared, &mut tree, &self.tip, pass) {
            Ok(id) => Ok(id),
            Err(why) => Err(unplaced(why, book.len())),
        }
    }

    // The receipt of transaction `id`, once it is durable.
    fn acknowledge<R: Wait>(
        &self,
        rt: &R,
        alloc: Global,
        pass: &mut Pass,
        id: u64,
    ) -> Result<Receipt, CommitError>
        requires pass { IsPassOf N.table pass.old }
        requires some { 1 ≤ id }
        requires seen { id ≤ length pass.old.view.seen }
        ensures follows { HasStepped (faults_committing result) pass.old pass.new }
        ensures ok { IfOk result (λ receipt. IsReceipt N.digest pass.new id receipt) }
        ensures list { IfOk result (λ _. IsListOf L.allows N.digest N.logs N.found pass.new.view.seen) }
        ensures err { IfErr result (λ error. (cause : JournalError) × (error ≡ halted cause (Some id)) × ExplainsHalt pass.old pass.new cause) }
        ensures failed { (HasStopped result → ⊥) → pass.new.view.looks.failed ≡ pass.old.view.looks.failed }
    {
        match self.settle_to(rt, alloc, pass, id) {
            Ok(()) => self.receipt(rt, alloc, pass, id),
            Err(cause) => Err(halted(cause, Some(id))),
        }
    }

    // The receipt of a durable transaction.
    fn receipt<R: Wait>(
        &self,
        rt: &R,
        alloc: Global,
        pass: &mut Pass,
        id: u64,
    ) -> Result<Receipt, CommitError>
        requires pass { IsPassOf N.table pass.old }
        requires some { 1 ≤ id }
        requires durable { id ≤ pass.old.view.least.durable }
        ensures follows { HasStepped (faults_committing result) pass.old pass.new }
        ensures ok { IfOk result (λ receipt. IsReceipt N.digest pass.new id receipt) }
        ensures list { IfOk result (λ _. IsListOf L.allows N.digest N.logs N.found pass.new.view.seen) }
        ensures err { IfErr result (λ error. error ≡ CommitError.Memory (Some id)) }
        ensures failed { pass.new.view.looks.failed ≡ pass.old.view.looks.failed }
    {
        match self.copy_header(rt, alloc, pass, id) {
            Ok(header) => Ok(Receipt { id, header }),
            Err(_) => Err(CommitError::Memory { placed: Some(id) }),
        }
    }

    // The error of what wasn't placed.
    fn refuse<R: Wait>(
        &self,
        rt: &R,
        alloc: Global,
        pass: &mut Pass,
        unplaced: NotPlaced,
    ) -> CommitError
        requires pass { IsPassOf N.table pass.old }
        requires seen { reach_of unplaced ≤ length pass.old.view.seen }
        ensures none { number_told result ≡ [] }
        ensures follows { HasStepped (faults_of_error result) pass.old pass.new }
        ensures told { TellsNotPlaced pass.old pass.new unplaced result }
        ensures failed { (IsStop result → ⊥) → pass.new.view.looks.failed ≡ pass.old.view.looks.failed }
    {
        match unplaced {
            NotPlaced::Memory => CommitError::Memory { placed: None },
            NotPlaced::Refused { why, at } => self.refuse_behind(rt, alloc, pass, why, at),
        }
    }

    // The refusal that was judged behind the first `at` transactions, once these are durable.
    fn refuse_behind<R: Wait>(
        &self,
        rt: &R,
        alloc: Global,
        pass: &mut Pass,
        why: PlaceError,
        at: u64,
    ) -> CommitError
        requires pass { IsPassOf N.table pass.old }
        requires seen { at ≤ length pass.old.view.seen }
        ensures none { number_told result ≡ [] }
        ensures follows { HasStepped (faults_of_error result) pass.old pass.new }
        ensures told { TellsRefusal pass.old pass.new why at result }
        ensures failed { (IsStop result → ⊥) → pass.new.view.looks.failed ≡ pass.old.view.looks.failed }
    {
        match self.settle_to(rt, alloc, pass, at) {
            Ok(()) => refused(why, at),
            Err(cause) => {
                drop(why);
                halted(cause, None)
            }
        }
    }
}

// Why nothing was placed: memory ran out, or it was refused behind so many transactions.
#[derive(Drop)]
enum NotPlaced {
    Memory,
    Refused { why: PlaceError, at: u64 },
}

// The same of the book's refusal.
fn unplaced(why: PlaceError, at: u64) -> NotPlaced
    ensures { result ≡ unplaced why at }
{
    match why {
        PlaceError::Memory => NotPlaced::Memory,
        PlaceError::Full => NotPlaced::Refused {
            why: PlaceError::Full,
            at,
        },
        PlaceError::Missing { key } => NotPlaced::Refused {
            why: PlaceError::Missing { key },
            at,
        },
        PlaceError::Exists { key, tx } => NotPlaced::Refused {
            why: PlaceError::Exists { key, tx },
            at,
        },
        PlaceError::Modified { key, tx } => NotPlaced::Refused {
            why: PlaceError::Modified { key, tx },
            at,
        },
    }
}

// The error of a transaction that the disk didn't make durable, and which was placed as this number or not at all.
fn halted(cause: JournalError, placed: Option<u64>) -> CommitError
    ensures { result ≡ halted cause placed }
{
    match cause {
        JournalError::DiskFault => CommitError::DiskFault { placed },
        JournalError::Stopped { faults } => CommitError::Stopped { faults, placed },
        JournalError::Memory => CommitError::Memory { placed },
    }
}

// The error of one that was refused behind so many.
fn refused(why: PlaceError, at: u64) -> CommitError
    ensures { result ≡ refused why at }
{
    match why {
        PlaceError::Memory => CommitError::Memory { placed: None },
        PlaceError::Full => CommitError::Full { at },
        PlaceError::Missing { key } => CommitError::Missing { key, at },
        PlaceError::Exists { key, tx } => CommitError::Exists { key, tx, at },
        PlaceError::Modified { key, tx } => CommitError::Modified { key, tx, at },
    }
}
