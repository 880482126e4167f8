// The steps of a batch, each where it is known that no call of the disk has failed.
ghost use Rattle.std.specs.Prelude.{◌≡◌, ◌<◌, ◌+◌, ◌++◌, ◌∷◌, [], ℕ, List, length, take, drop, OnOk, OnErr, IfSome, IsErrOf, Ok, Err};
ghost use Rattle.im_digest.specs.Digests.{Hash};
ghost use Rattle.im_disk.specs.Moments.{Leaves};
ghost use Rattle.im_disk.specs.declared.calls.Call.TheVariants.{Wrote, Synced};
ghost use Rattle.im_model.specs.declared.transactions.Transaction.{Transaction};
ghost use Rattle.im_format.specs.Batches.{spans_of};
ghost use Rattle.im_format.specs.Standing.{Stands};
ghost use Rattle.im_format.specs.declared.records.Record.{Record};
ghost use Rattle.im_journal.specs.Faults.{IsCounted};
ghost use Rattle.im_journal.specs.Holding.{AreNext};
ghost use Rattle.im_journal.specs.Kept.{IsAtRest, IsInBatch, StandsBy, step_behind};
ghost use Rattle.im_journal.specs.Made.{Makes, call_to_put, writes_of};
ghost use Rattle.im_journal.specs.Phases.{ReadsAll};
ghost use Rattle.im_journal.specs.Pieces.{pieces_of};
ghost use Rattle.im_journal.specs.declared.batches.Step.TheVariants.{Idle, Staging, Staged, Sealed, Gated};

use crate::batches::{Batch, Step, step_behind};
use crate::errors::JournalError;
use crate::journal::Journal;
use crate::pieces::plan_of;
use crate::steps::{open_gate, put_next, put_pieces, seal_pieces, settle_gate};
use im_disk::disk::{Disk, DiskError};
use im_format::records::Record;
use std::alloc::{AllocError, Global};

impl<D: Disk> Journal<D> {
    // Begins a batch.
    pub(super) fn begin_batch(
        &mut self,
        alloc: Global,
        records: &[Record],
    ) -> Result<(), AllocError>
        requires idle { self.old.batch.step ≡ Idle }
        requires next { (hash : Hash) × (history : List Transaction) × (batches : List (List Record))
            × IsAtRest D.told hash history batches self.old × AreNext hash history batches self.old.durable records.now }
        ensures ok { (hash : Hash) (history : List Transaction) (batches : List (List Record))
            → IsAtRest D.told hash history batches self.old → AreNext hash history batches self.old.durable records.now
            → OnOk result (IsInBatch D.told hash history batches records.now self.new) }
        ensures step { OnOk result (self.new.batch.step ≡ Staging) }
        ensures pieces { OnOk result ((self.new.batch.pieces ≡ pieces_of self.old.ends (self.old.durable + 1) records.now) × (self.new.batch.written ≡ 0)) }
        ensures disk { self.new.disk ≡ self.old.disk }
        ensures kept { (self.new.ends ≡ self.old.ends) × (self.new.durable ≡ self.old.durable) × (self.new.failures ≡ self.old.failures) }
        ensures err { OnErr result (self.new ≡ self.old) }
    {
        let plan = plan_of(alloc, &self.ends, self.durable + 1, records)?;
        let ends = plan.ends;
        self.batch = Batch {
            step: Step::Staging,
            pieces: plan.pieces,
            written: 0,
            ends,
            count: records.len() as u64,
        };
        Ok(())
    }

    // Writes what is left of the pieces of the batch.
    pub(super) fn put_batch(&mut self) -> Result<(), JournalError>
        requires staging { self.old.batch.step ≡ Staging }
        requires mid { (hash : Hash) × (history : List Transaction) × (batches : List (List Record)) × (rs : List Record)
            × IsInBatch D.told hash history batches rs self.old }
        ensures ok { (hash : Hash) (history : List Transaction) (batches : List (List Record)) (rs : List Record)
            → IsInBatch D.told hash history batches rs self.old → OnOk result (IsInBatch D.told hash history batches rs self.new) }
        ensures step { OnOk result (self.new.batch.step ≡ Staged) }
        ensures stays { OnErr result (self.new.batch.step ≡ Staging) }
        ensures memory { (hash : Hash) (history : List Transaction) (batches : List (List Record)) (rs : List Record)
            → IsInBatch D.told hash history batches rs self.old → IsErrOf result JournalError.Memory
            → IsInBatch D.told hash history batches rs self.new }
        ensures any_moment { (hash : Hash) (history : List Transaction) (batches : List (List Record)) (rs : List Record)
            → IsInBatch D.told hash history batches rs self.old
            → Leaves (λ image. Stands hash image (take self.old.durable history)) (D.told self.old.disk) (D.told self.new.disk) }
        ensures here { (hash : Hash) (history : List Transaction) (batches : List (List Record)) (rs : List Record)
            → IsInBatch D.told hash history batches rs self.old
            → IfSome (D.told self.new.disk) (ReadsAll (spans_of batches)) }
        ensures kept { (self.new.ends ≡ self.old.ends) × (self.new.durable ≡ self.old.durable) }
        ensures calls { Makes JournalError.DiskFault JournalError.Memory (writes_of (drop self.old.batch.written self.old.batch.pieces)) (writes_of (drop self.new.batch.written self.new.batch.pieces)) (D.told self.old.disk) (D.told self.new.disk) result }
        ensures counted { IsCounted (D.faults self.old.disk) (D.faults self.new.disk) self.old.failures self.new.failures result }
        ensures going { (faults : ℕ) → IsErrOf result (JournalError.Stopped faults) → ⊥ }
    {
        match put_pieces(
            &mut self.disk,
            self.batch.pieces.as_slice(),
            &mut self.batch.written,
        ) {
            Ok(()) => {
                self.batch.step = Step::Staged;
                Ok(())
            }
            Err(DiskError::Failed) => {
                self.failures = self.failures.saturating_add(1);
                Err(JournalError::DiskFault)
            }
            Err(DiskError::Memory) => Err(JournalError::Memory),
        }
    }

    // Writes the next piece of the batch.
    pub(super) fn put_one(&mut self) -> Result<(), JournalError>
        requires staging { self.old.batch.step ≡ Staging }
        requires left { self.old.batch.written < length self.old.batch.pieces }
        requires mid { (hash : Hash) × (history : List Transaction) × (batches : List (List Record)) × (rs : List Record)
            × IsInBatch D.told hash history batches rs self.old }
        ensures ok { (hash : Hash) (history : List Transaction) (batches : List (List Record)) (rs : List Record)
            → IsInBatch D.told hash history batches rs self.old → OnOk result (IsInBatch D.told hash history batches rs self.new) }
        ensures step { OnOk result (self.new.batch.step ≡ step_behind (self.old.batch.written + 1) (length self.old.batch.pieces)) }
        ensures written { OnOk result (self.new.batch.written ≡ self.old.batch.written + 1) }
        ensures memory { (hash : Hash) (history : List Transaction) (batches : List (List Record)) (rs : List Record)
            → IsInBatch D.told hash history batches rs self.old → IsErrOf result JournalError.Memory
            → IsInBatch D.told hash history batches rs self.new }
        ensures any_moment { (hash : Hash) (history : List Transaction) (batches : List (List Record)) (rs : List Record)
            → IsInBatch D.told hash history batches rs self.old
            → Leaves (λ image. Stands hash image (take self.old.durable history)) (D.told self.old.disk) (D.told self.new.disk) }
        ensures here { (hash : Hash) (history : List Transaction) (batches : List (List Record)) (rs : List Record)
            → IsInBatch D.told hash history batches rs self.old
            → IfSome (D.told self.new.disk) (ReadsAll (spans_of batches)) }
        ensures kept { (self.new.ends ≡ self.old.ends) × (self.new.durable ≡ self.old.durable) }
        ensures pieces { (self.new.batch.pieces ≡ self.old.batch.pieces) × (self.new.batch.ends ≡ self.old.batch.ends) × (self.new.batch.count ≡ self.old.batch.count) }
        ensures err { OnErr result ((self.new.batch.step ≡ self.old.batch.step) × (self.new.batch.written ≡ self.old.batch.written)) }
        ensures calls { Makes JournalError.DiskFault JournalError.Memory (call_to_put self.old) (call_to_put self.old) (D.told self.old.disk) (D.told self.new.disk) result }
        ensures counted { IsCounted (D.faults self.old.disk) (D.faults self.new.disk) self.old.failures self.new.failures result }
        ensures going { (faults : ℕ) → IsErrOf result (JournalError.Stopped faults) → ⊥ }
    {
        match put_next(
            &mut self.disk,
            self.batch.pieces.as_slice(),
            &mut self.batch.written,
        ) {
            Ok(()) => {
                self.batch.step = step_behind(&self.batch);
                Ok(())
            }
            Err(DiskError::Failed) => {
                self.failures = self.failures.saturating_add(1);
                Err(JournalError::DiskFault)
            }
            Err(DiskError::Memory) => Err(JournalError::Memory),
        }
    }

    // Makes the pieces of the batch durable.
    pub(super) fn seal_batch(&mut self) -> Result<(), JournalError>
        requires staged { self.old.batch.step ≡ Staged }
        ensures ok { (hash : Hash) (history : List Transaction) (batches : List (List Record)) (rs : List Record)
            → IsInBatch D.told hash history batches rs self.old → OnOk result (IsInBatch D.told hash history batches rs self.new) }
        ensures step { OnOk result (self.new.batch.step ≡ Sealed) }
        ensures memory { (hash : Hash) (history : List Transaction) (batches : List (List Record)) (rs : List Record)
            → IsInBatch D.told hash history batches rs self.old → IsErrOf result JournalError.Memory
            → IsInBatch D.told hash history batches rs self.new }
        ensures any_moment { (hash : Hash) (history : List Transaction) (batches : List (List Record)) (rs : List Record)
            → IsInBatch D.told hash history batches rs self.old
            → Leaves (λ image. Stands hash image (take self.old.durable history)) (D.told self.old.disk) (D.told self.new.disk) }
        ensures here { (hash : Hash) (history : List Transaction) (batches : List (List Record)) (rs : List Record)
            → IsInBatch D.told hash history batches rs self.old
            → IfSome (D.told self.new.disk) (ReadsAll (spans_of batches)) }
        ensures kept { (self.new.ends ≡ self.old.ends) × (self.new.durable ≡ self.old.durable) }
        ensures pieces { (self.new.batch.pieces ≡ self.old.batch.pieces) × (self.new.batch.ends ≡ self.old.batch.ends) × (self.new.batch.count ≡ self.old.batch.count) }
        ensures err { OnErr result (self.new.batch ≡ self.old.batch) }
        ensures calls { Makes JournalError.DiskFault JournalError.Memory (Synced ∷ []) (Synced ∷ []) (D.told self.old.disk) (D.told self.new.disk) result }
        ensures counted { IsCounted (D.faults self.old.disk) (D.faults self.new.disk) self.old.failures self.new.failures result }
        ensures going { (faults : ℕ) → IsErrOf result (JournalError.Stopped faults) → ⊥ }
    {
        match seal_pieces(&mut self.disk) {
            Ok(()) => {
                self.batch.step = Step::Sealed;
                Ok(())
            }
            Err(DiskError::Failed) => {
                self.failures = self.failures.saturating_add(1);
                Err(JournalError::DiskFault)
            }
            Err(DiskError::Memory) => Err(JournalError::Memory),
        }
    }

    // Opens the gate of the batch.
    pub(super) fn open_batch(&mut self) -> Result<(), JournalError>
        requires sealed { self.old.batch.step ≡ Sealed }
        requires mid { (hash : Hash) × (history : List Transaction) × (batches : List (List Record)) × (rs : List Record)
            × IsInBatch D.told hash history batches rs self.old }
        ensures ok { (hash : Hash) (history : List Transaction) (batches : List (List Record)) (rs : List Record)
            → IsInBatch D.told hash history batches rs self.old → OnOk result (IsInBatch D.told hash history batches rs self.new) }
        ensures step { OnOk result (self.new.batch.step ≡ Gated) }
        ensures memory { (hash : Hash) (history : List Transaction) (batches : List (List Record)) (rs : List Record)
            → IsInBatch D.told hash history batches rs self.old → IsErrOf result JournalError.Memory
            → IsInBatch D.told hash history batches rs self.new }
        ensures any_moment { (hash : Hash) (history : List Transaction) (batches : List (List Record)) (rs : List Record)
            → IsInBatch D.told hash history batches rs self.old
            → Leaves (StandsBy Gated hash history self.old.durable (length rs)) (D.told self.old.disk) (D.told self.new.disk) }
        ensures here { (hash : Hash) (history : List Transaction) (batches : List (List Record)) (rs : List Record)
            → IsInBatch D.told hash history batches rs self.old
            → IfSome (D.told self.new.disk) (ReadsAll (spans_of batches)) }
        ensures kept { (self.new.ends ≡ self.old.ends) × (self.new.durable ≡ self.old.durable)
            × (self.new.batch.ends ≡ self.old.batch.ends) × (self.new.batch.count ≡ self.old.batch.count) }
        ensures pieces { self.new.batch.pieces ≡ self.old.batch.pieces }
        ensures err { OnErr result (self.new.batch ≡ self.old.batch) }
        ensures calls { Makes JournalError.DiskFault JournalError.Memory (Wrote 1 self.old.ends.commits (1 ∷ []) ∷ []) (Wrote 1 self.old.ends.commits (1 ∷ []) ∷ []) (D.told self.old.disk) (D.told self.new.disk) result }
        ensures counted { IsCounted (D.faults self.old.disk) (D.faults self.new.disk) self.old.failures self.new.failures result }
        ensures going { (faults : ℕ) → IsErrOf result (JournalError.Stopped faults) → ⊥ }
    {
        match open_gate(&mut self.disk, self.ends.commits) {
            Ok(()) => {
                self.batch.step = Step::Gated;
                Ok(())
            }
            Err(DiskError::Failed) => {
                self.failures = self.failures.saturating_add(1);
                Err(JournalError::DiskFault)
            }
            Err(DiskError::Memory) => Err(JournalError::Memory),
        }
    }

    // Makes the gate of the batch durable, and with it the batch.
    pub(super) fn settle_batch(&mut self) -> Result<(), JournalError>
        requires gated { self.old.batch.step ≡ Gated }
        requires mid { (hash : Hash) × (history : List Transaction) × (batches : List (List Record)) × (rs : List Record)
            × IsInBatch D.told hash history batches rs self.old }
        ensures ok { (hash : Hash) (history : List Transaction) (batches : List (List Record)) (rs : List Record)
            → IsInBatch D.told hash history batches rs self.old
            → OnOk result (IsAtRest D.told hash history (batches ++ rs ∷ []) self.new) }
        ensures moved { OnOk result ((self.new.durable ≡ self.old.durable + self.old.batch.count) × (self.new.ends ≡ self.old.batch.ends)) }
        ensures step { OnOk result (self.new.batch.step ≡ Idle) }
        ensures memory { (hash : Hash) (history : List Transaction) (batches : List (List Record)) (rs : List Record)
            → IsInBatch D.told hash history batches rs self.old → IsErrOf result JournalError.Memory
            → IsInBatch D.told hash history batches rs self.new }
        ensures any_moment { (hash : Hash) (history : List Transaction) (batches : List (List Record)) (rs : List Record)
            → IsInBatch D.told hash history batches rs self.old
            → Leaves (StandsBy Gated hash history self.old.durable (length rs)) (D.told self.old.disk) (D.told self.new.disk) }
        ensures here { (hash : Hash) (history : List Transaction) (batches : List (List Record)) (rs : List Record)
            → IsInBatch D.told hash history batches rs self.old
            → IfSome (D.told self.new.disk) (ReadsAll (spans_of batches)) }
        ensures err { OnErr result ((self.new.ends ≡ self.old.ends) × (self.new.durable ≡ self.old.durable) × (self.new.batch ≡ self.old.batch)) }
        ensures calls { Makes JournalError.DiskFault JournalError.Memory (Synced ∷ []) (Synced ∷ []) (D.told self.old.disk) (D.told self.new.disk) result }
        ensures counted { IsCounted (D.faults self.old.disk) (D.faults self.new.disk) self.old.failures self.new.failures result }
        ensures going { (faults : ℕ) → IsErrOf result (JournalError.Stopped faults) → ⊥ }
    {
        match settle_gate(&mut self.disk) {
            Ok(()) => {
                let ends = self.batch.ends;
                self.ends = ends;
                self.durable += self.batch.count;
                self.batch.step = Step::Idle;
                Ok(())
            }
            Err(DiskError::Failed) => {
                self.failures = self.failures.saturating_add(1);
                Err(JournalError::DiskFault)
            }
            Err(DiskError::Memory) => Err(JournalError::Memory),
        }
    }
}
