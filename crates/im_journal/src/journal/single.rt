// A batch in single steps: each call makes one call of the disk, or none.
ghost use Rattle.std.specs.Prelude.{◌≡◌, ◌<◌, ◌+◌, ◌∷◌, [], ℕ, List, length, OnOk, OnErr, IsErrOf, Err};
ghost use Rattle.im_digest.specs.Digests.{Hash};
ghost use Rattle.im_disk.specs.Moments.{Leaves};
ghost use Rattle.im_disk.specs.declared.calls.Call.TheVariants.{Wrote};
ghost use Rattle.im_model.specs.declared.transactions.Transaction.{Transaction};
ghost use Rattle.im_format.specs.declared.records.Record.{Record};
ghost use Rattle.im_journal.specs.Durable.{HoldsDurable};
ghost use Rattle.im_journal.specs.Faults.{IsCounted};
ghost use Rattle.im_journal.specs.Holding.{AreNext};
ghost use Rattle.im_journal.specs.Kept.{IsAtRest, IsInBatch, StandsBy, step_behind};
ghost use Rattle.im_journal.specs.Made.{Makes, call_to_put};
ghost use Rattle.im_journal.specs.Pieces.{pieces_of};
ghost use Rattle.im_journal.specs.declared.batches.Step.TheVariants.{Idle, Staging, Sealed, Gated};

use crate::errors::JournalError;
use crate::journal::Journal;
use im_disk::disk::Disk;
use im_format::records::Record;
use std::alloc::Global;

impl<D: Disk> Journal<D> {
    /// Begins a batch of these records. It makes its pieces, writes none, and doesn't call the disk. All memory of the
    /// batch's own is taken here. It copies each value and each key once, and goes over the references twice for each
    /// value log.
    ///
    /// # Errors
    ///
    /// `Stopped` and `Memory` alone. Behind an error the journal is as it was.
    pub fn begin(&mut self, alloc: Global, records: &[Record]) -> Result<(), JournalError>
        requires idle { self.old.failures ≡ 0 → self.old.batch.step ≡ Idle }
        requires next { self.old.failures ≡ 0 → (hash : Hash) × (history : List Transaction) × (batches : List (List Record))
            × IsAtRest D.told hash history batches self.old × AreNext hash history batches self.old.durable records.now }
        ensures begun { (hash : Hash) (history : List Transaction) (batches : List (List Record))
            → IsAtRest D.told hash history batches self.old → AreNext hash history batches self.old.durable records.now
            → OnOk result (IsInBatch D.told hash history batches records.now self.new) }
        ensures step { OnOk result (self.new.batch.step ≡ Staging) }
        ensures pieces { OnOk result ((self.new.batch.pieces ≡ pieces_of self.old.ends (self.old.durable + 1) records.now) × (self.new.batch.written ≡ 0)) }
        ensures disk { self.new.disk ≡ self.old.disk }
        ensures kept { (self.new.ends ≡ self.old.ends) × (self.new.durable ≡ self.old.durable) × (self.new.failures ≡ self.old.failures) }
        ensures err { OnErr result (self.new ≡ self.old) }
        ensures stopped { 0 < self.old.failures → (result ≡ Err (JournalError.Stopped self.old.failures)) × (self.new ≡ self.old) }
        ensures going { (faults : ℕ) → IsErrOf result (JournalError.Stopped faults) → 0 < self.old.failures }
        ensures device { IsErrOf result JournalError.DiskFault → ⊥ }
    {
        self.go()?;
        self.begin_batch(alloc, records)?;
        Ok(())
    }

    /// Writes the next piece of the batch in progress: one write. With the last one the batch is staged. It takes no
    /// memory of its own.
    ///
    /// # Errors
    ///
    /// After `Memory` the same call tries again. Behind an error as many pieces are written as before.
    pub fn stage_piece(&mut self) -> Result<(), JournalError>
        requires staging { self.old.failures ≡ 0 → self.old.batch.step ≡ Staging }
        requires left { self.old.failures ≡ 0 → self.old.batch.written < length self.old.batch.pieces }
        requires mid { self.old.failures ≡ 0 → (hash : Hash) × (history : List Transaction) × (batches : List (List Record)) × (rs : List Record)
            × IsInBatch D.told hash history batches rs self.old }
        ensures ok { (hash : Hash) (history : List Transaction) (batches : List (List Record)) (rs : List Record)
            → IsInBatch D.told hash history batches rs self.old → OnOk result (IsInBatch D.told hash history batches rs self.new) }
        ensures step { OnOk result (self.new.batch.step ≡ step_behind (self.old.batch.written + 1) (length self.old.batch.pieces)) }
        ensures written { OnOk result (self.new.batch.written ≡ self.old.batch.written + 1) }
        ensures again { (hash : Hash) (history : List Transaction) (batches : List (List Record)) (rs : List Record)
            → IsInBatch D.told hash history batches rs self.old → IsErrOf result JournalError.Memory
            → IsInBatch D.told hash history batches rs self.new }
        ensures any_moment { (hash : Hash) (history : List Transaction) (batches : List (List Record)) (rs : List Record)
            → IsInBatch D.told hash history batches rs self.old
            → Leaves (StandsBy self.old.batch.step hash history self.old.durable (length rs)) (D.told self.old.disk) (D.told self.new.disk) }
        ensures held { (hash : Hash) (history : List Transaction) (batches : List (List Record)) (rs : List Record)
            → IsInBatch D.told hash history batches rs self.old → IsErrOf result JournalError.DiskFault
            → HoldsDurable D.told hash history batches self.new }
        ensures kept { (self.new.ends ≡ self.old.ends) × (self.new.durable ≡ self.old.durable) }
        ensures pieces { (self.new.batch.pieces ≡ self.old.batch.pieces) × (self.new.batch.ends ≡ self.old.batch.ends) × (self.new.batch.count ≡ self.old.batch.count) }
        ensures err { OnErr result ((self.new.batch.step ≡ self.old.batch.step) × (self.new.batch.written ≡ self.old.batch.written)) }
        ensures calls { Makes JournalError.DiskFault JournalError.Memory (call_to_put self.old) (call_to_put self.old) (D.told self.old.disk) (D.told self.new.disk) result }
        ensures counted { IsCounted (D.faults self.old.disk) (D.faults self.new.disk) self.old.failures self.new.failures result }
        ensures stopped { 0 < self.old.failures → (result ≡ Err (JournalError.Stopped self.old.failures)) × (self.new ≡ self.old) }
        ensures going { (faults : ℕ) → IsErrOf result (JournalError.Stopped faults) → 0 < self.old.failures }
    {
        self.go()?;
        self.put_one()
    }

    /// Opens the gate of the sealed batch: one write. It isn't durable then; that is left to `settle`. It takes no memory
    /// of its own.
    ///
    /// # Errors
    ///
    /// After `Memory` the same call tries again. Behind an error the batch is as it was.
    pub fn open_gate(&mut self) -> Result<(), JournalError>
        requires sealed { self.old.failures ≡ 0 → self.old.batch.step ≡ Sealed }
        requires mid { self.old.failures ≡ 0 → (hash : Hash) × (history : List Transaction) × (batches : List (List Record)) × (rs : List Record)
            × IsInBatch D.told hash history batches rs self.old }
        ensures ok { (hash : Hash) (history : List Transaction) (batches : List (List Record)) (rs : List Record)
            → IsInBatch D.told hash history batches rs self.old → OnOk result (IsInBatch D.told hash history batches rs self.new) }
        ensures step { OnOk result (self.new.batch.step ≡ Gated) }
        ensures again { (hash : Hash) (history : List Transaction) (batches : List (List Record)) (rs : List Record)
            → IsInBatch D.told hash history batches rs self.old → IsErrOf result JournalError.Memory
            → IsInBatch D.told hash history batches rs self.new }
        ensures any_moment { (hash : Hash) (history : List Transaction) (batches : List (List Record)) (rs : List Record)
            → IsInBatch D.told hash history batches rs self.old
            → Leaves (StandsBy Gated hash history self.old.durable (length rs)) (D.told self.old.disk) (D.told self.new.disk) }
        ensures held { (hash : Hash) (history : List Transaction) (batches : List (List Record)) (rs : List Record)
            → IsInBatch D.told hash history batches rs self.old → IsErrOf result JournalError.DiskFault
            → HoldsDurable D.told hash history batches self.new }
        ensures kept { (self.new.ends ≡ self.old.ends) × (self.new.durable ≡ self.old.durable)
            × (self.new.batch.ends ≡ self.old.batch.ends) × (self.new.batch.count ≡ self.old.batch.count) }
        ensures pieces { self.new.batch.pieces ≡ self.old.batch.pieces }
        ensures batch { OnErr result (self.new.batch ≡ self.old.batch) }
        ensures calls { Makes JournalError.DiskFault JournalError.Memory (Wrote 1 self.old.ends.commits (1 ∷ []) ∷ []) (Wrote 1 self.old.ends.commits (1 ∷ []) ∷ []) (D.told self.old.disk) (D.told self.new.disk) result }
        ensures counted { IsCounted (D.faults self.old.disk) (D.faults self.new.disk) self.old.failures self.new.failures result }
        ensures stopped { 0 < self.old.failures → (result ≡ Err (JournalError.Stopped self.old.failures)) × (self.new ≡ self.old) }
        ensures going { (faults : ℕ) → IsErrOf result (JournalError.Stopped faults) → 0 < self.old.failures }
    {
        self.go()?;
        self.open_batch()
    }

    /// Lends the disk.
    pub fn disk(&self) -> &D
        ensures { result.now ≡ self.now.disk }
    {
        &self.disk
    }
}
