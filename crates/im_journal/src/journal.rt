ghost use Rattle.std.specs.Prelude.{◌≡◌, ◌<◌, ◌≤◌, ◌+◌, ◌++◌, ◌∷◌, [], ℕ, List, length, take, OnOk, OnErr, IfSome, IsErrOf, IsOk, Ok, Err};
ghost use Rattle.im_digest.specs.Digests.{Hash};
ghost use Rattle.im_disk.specs.Moments.{Leaves, LeavesNow};
ghost use Rattle.im_model.specs.declared.transactions.Transaction.{Transaction};
ghost use Rattle.im_format.specs.Standing.{Stands};
ghost use Rattle.im_format.specs.declared.records.Record.{Record};
ghost use Rattle.im_journal.specs.Durable.{HoldsDurable};
ghost use Rattle.im_journal.specs.Faults.{IsCounted};
ghost use Rattle.im_journal.specs.Holding.{AreFirst, IsResting};
ghost use Rattle.im_journal.specs.Kept.{CanStage, HasSealed, HasStaged, IsAtRest, IsInBatch, StandsBy};
ghost use Rattle.im_journal.specs.Made.{Makes, calls_to_seal, calls_to_settle, calls_to_stage};
ghost use Rattle.im_journal.specs.declared.batches.Step.TheVariants.{Idle, Staging, Staged, Sealed, Gated};

mod batch;
mod foretold;
mod reading;
mod single;

use crate::batches::{Batch, Step};
use crate::ends::Ends;
use crate::errors::JournalError;
use im_disk::disk::Disk;
use im_format::records::Record;
use std::alloc::Global;
use std::marker::Model;

/// The journal of a store: the records of a history on a disk, in batches.
///
/// # Thread safety
///
/// None: one owner holds it, and with it the disk.
///
/// # Invariants
///
/// - Between calls it is at rest (`IsAtRest`) or a batch is in progress (`IsInBatch`), from `resume` on (`rests`), until
///   a call of the disk fails (`staged`, `sealed`, `settled`, `again`). What each image then stands for is said by the
///   law `images_stand`, and within a call by `any_moment`.
/// - Only `settle` moves what is durable and where the files end (`kept`, `moved`).
/// - Where a call of the disk has failed, no step of a batch does anything from then on (`stopped`). What is durable stays
///   held: each image still stands for a front part of the placed history with all of it, and its values are read
///   (`held`).
/// - Each piece of its batch is one that a disk takes, and no more of them are written than there are.
#[derive(Drop)]
pub struct Journal<D: Disk> {
    disk: D,
    ends: Ends,
    durable: u64,
    batch: Batch,
    failures: u64,
}

impl<D: Disk> Model for Journal<D> {
    ghost use Rattle.std.specs.Prelude.{◌≡◌, ◌≤◌, length, All};
    ghost use Rattle.im_journal.specs.Kept.{Batch, Kept};
    ghost use Rattle.im_journal.specs.Phases.{FitsDisk};

    ghost Value = { Kept D };

    ghost view = { λ j. record {
      disk = j.disk;
      ends = j.ends;
      durable = j.durable;
      batch = record { step = j.batch.step; pieces = j.batch.pieces.items; written = j.batch.written; ends = j.batch.ends; count = j.batch.count };
      failures = j.failures;
    } };

    ghost invariant = { λ j. All FitsDisk j.batch.pieces.items × (j.batch.written ≤ length j.batch.pieces.items) };
}

impl<D: Disk> Journal<D> {
    /// A journal at rest over a disk that holds the first `durable` transactions of a history in some
    /// batches, with a closed gate behind them, and nothing else that a crash could undo. The files end
    /// there: the transaction log, the commit log at that gate, the value logs. It takes no memory.
    pub fn resume(alloc: Global, disk: D, ends: Ends, durable: u64) -> Self
        requires first { (hash : Hash) × (history : List Transaction) × (batches : List (List Record))
            × AreFirst hash history batches durable ends × IfSome (D.told disk) (IsResting batches ends) }
        ensures rests { (hash : Hash) (history : List Transaction) (batches : List (List Record))
            → AreFirst hash history batches durable ends → IfSome (D.told disk) (IsResting batches ends)
            → IsAtRest D.told hash history batches result }
        ensures given { (result.disk ≡ disk) × (result.ends ≡ ends) × (result.durable ≡ durable) }
        ensures going { result.failures ≡ 0 }
    {
        Journal {
            disk,
            ends,
            durable,
            batch: Batch {
                step: Step::Idle,
                pieces: Vec::new(alloc),
                written: 0,
                ends,
                count: 0,
            },
            failures: 0,
        }
    }

    /// Writes the pieces of a batch: the values, the records, and the batch's octets behind its gate. With
    /// no batch in progress it begins one with these records; else it goes on with what is left of the
    /// batch in progress, and doesn't look at them. All memory of its own is taken before the first write.
    /// A write for each value log that gets octets, and two more. To begin a batch copies each value and
    /// each key once, and goes over the references twice for each value log. Nothing is hashed.
    ///
    /// # Errors
    ///
    /// After `Memory` the same call goes on where this one stopped. After `DiskFault` the step is `Staging`.
    pub fn stage(&mut self, alloc: Global, records: &[Record]) -> Result<(), JournalError>
        requires next { self.old.failures ≡ 0 → (hash : Hash) × (history : List Transaction) × (batches : List (List Record)) × (rs : List Record)
            × CanStage D.told hash history batches rs records.now self.old }
        ensures staged { (hash : Hash) (history : List Transaction) (batches : List (List Record)) (rs : List Record)
            → CanStage D.told hash history batches rs records.now self.old
            → OnOk result (IsInBatch D.told hash history batches rs self.new × HasStaged self.new.batch.step) }
        ensures again { (hash : Hash) (history : List Transaction) (batches : List (List Record)) (rs : List Record)
            → CanStage D.told hash history batches rs records.now self.old → IsErrOf result JournalError.Memory
            → CanStage D.told hash history batches rs records.now self.new }
        ensures any_moment { (hash : Hash) (history : List Transaction) (batches : List (List Record)) (rs : List Record)
            → CanStage D.told hash history batches rs records.now self.old
            → Leaves (StandsBy self.old.batch.step hash history self.old.durable (length rs)) (D.told self.old.disk) (D.told self.new.disk) }
        ensures held { (hash : Hash) (history : List Transaction) (batches : List (List Record)) (rs : List Record)
            → CanStage D.told hash history batches rs records.now self.old → IsErrOf result JournalError.DiskFault
            → HoldsDurable D.told hash history batches self.new }
        ensures kept { (self.new.ends ≡ self.old.ends) × (self.new.durable ≡ self.old.durable) }
        ensures left { IsErrOf result JournalError.DiskFault → self.new.batch.step ≡ Staging }
        ensures unstaged { IsErrOf result JournalError.Memory → HasStaged self.new.batch.step → ⊥ }
        ensures calls { Makes JournalError.DiskFault JournalError.Memory (calls_to_stage self.old records.now) (calls_to_stage self.new records.now) (D.told self.old.disk) (D.told self.new.disk) result }
        ensures counted { IsCounted (D.faults self.old.disk) (D.faults self.new.disk) self.old.failures self.new.failures result }
        ensures stopped { 0 < self.old.failures → (result ≡ Err (JournalError.Stopped self.old.failures)) × (self.new ≡ self.old) }
        ensures nothing { self.old.failures ≡ 0 → HasStaged self.old.batch.step → (result ≡ Ok tt) × (self.new ≡ self.old) }
        ensures going { (faults : ℕ) → IsErrOf result (JournalError.Stopped faults) → 0 < self.old.failures }
        ensures step { (HasStaged self.old.batch.step → ⊥) → OnOk result (self.new.batch.step ≡ Staged) }
    {
        self.go()?;
        match self.batch.step {
            Step::Idle => {
                self.begin_batch(alloc, records)?;
                self.put_batch()
            }
            Step::Staging => self.put_batch(),
            _ => Ok(()),
        }
    }

    /// Makes the pieces of the staged batch durable: one sync, if it isn't done. It takes no memory of
    /// its own.
    ///
    /// # Errors
    ///
    /// After `Memory` the same call tries again. Behind an error the batch is as it was.
    pub fn seal(&mut self) -> Result<(), JournalError>
        requires staged { self.old.failures ≡ 0 → HasStaged self.old.batch.step }
        ensures sealed { (hash : Hash) (history : List Transaction) (batches : List (List Record)) (rs : List Record)
            → IsInBatch D.told hash history batches rs self.old
            → OnOk result (IsInBatch D.told hash history batches rs self.new × HasSealed self.new.batch.step) }
        ensures again { (hash : Hash) (history : List Transaction) (batches : List (List Record)) (rs : List Record)
            → IsInBatch D.told hash history batches rs self.old → IsErrOf result JournalError.Memory
            → IsInBatch D.told hash history batches rs self.new × HasStaged self.new.batch.step }
        ensures any_moment { (hash : Hash) (history : List Transaction) (batches : List (List Record)) (rs : List Record)
            → IsInBatch D.told hash history batches rs self.old
            → Leaves (StandsBy self.old.batch.step hash history self.old.durable (length rs)) (D.told self.old.disk) (D.told self.new.disk) }
        ensures held { (hash : Hash) (history : List Transaction) (batches : List (List Record)) (rs : List Record)
            → IsInBatch D.told hash history batches rs self.old → IsErrOf result JournalError.DiskFault
            → HoldsDurable D.told hash history batches self.new }
        ensures kept { (self.new.ends ≡ self.old.ends) × (self.new.durable ≡ self.old.durable) }
        ensures batch { OnErr result (self.new.batch ≡ self.old.batch) }
        ensures pieces { (self.new.batch.pieces ≡ self.old.batch.pieces) × (self.new.batch.ends ≡ self.old.batch.ends) × (self.new.batch.count ≡ self.old.batch.count) }
        ensures calls { Makes JournalError.DiskFault JournalError.Memory (calls_to_seal self.old.batch.step) (calls_to_seal self.new.batch.step) (D.told self.old.disk) (D.told self.new.disk) result }
        ensures counted { IsCounted (D.faults self.old.disk) (D.faults self.new.disk) self.old.failures self.new.failures result }
        ensures stopped { 0 < self.old.failures → (result ≡ Err (JournalError.Stopped self.old.failures)) × (self.new ≡ self.old) }
        ensures nothing { self.old.failures ≡ 0 → HasSealed self.old.batch.step → (result ≡ Ok tt) × (self.new ≡ self.old) }
        ensures going { (faults : ℕ) → IsErrOf result (JournalError.Stopped faults) → 0 < self.old.failures }
        ensures step { self.old.batch.step ≡ Staged → OnOk result (self.new.batch.step ≡ Sealed) }
    {
        self.go()?;
        match self.batch.step {
            Step::Staged => self.seal_batch(),
            _ => Ok(()),
        }
    }

    /// Opens the gate of the sealed batch, if it isn't open, and makes that durable: one write and one
    /// sync. From then on its transactions are durable, and the journal is at rest. It takes no memory of
    /// its own.
    ///
    /// # Errors
    ///
    /// After `Memory` the same call goes on where this one stopped. After `DiskFault` the batch is still in progress.
    pub fn settle(&mut self) -> Result<(), JournalError>
        requires sealed { self.old.failures ≡ 0 → HasSealed self.old.batch.step }
        requires mid { self.old.failures ≡ 0 → (hash : Hash) × (history : List Transaction) × (batches : List (List Record)) × (rs : List Record)
            × IsInBatch D.told hash history batches rs self.old }
        ensures settled { (hash : Hash) (history : List Transaction) (batches : List (List Record)) (rs : List Record)
            → IsInBatch D.told hash history batches rs self.old
            → OnOk result (IsAtRest D.told hash history (batches ++ rs ∷ []) self.new × (self.new.durable ≡ self.old.durable + length rs)) }
        ensures durable { (hash : Hash) (history : List Transaction) (batches : List (List Record)) (rs : List Record)
            → IsInBatch D.told hash history batches rs self.old
            → OnOk result (LeavesNow (λ image. Stands hash image (take self.new.durable history)) (D.told self.new.disk)) }
        ensures moved { OnOk result ((self.new.durable ≡ self.old.durable + self.old.batch.count) × (self.new.ends ≡ self.old.batch.ends)) }
        ensures step { OnOk result (self.new.batch.step ≡ Idle) }
        ensures again { (hash : Hash) (history : List Transaction) (batches : List (List Record)) (rs : List Record)
            → IsInBatch D.told hash history batches rs self.old → IsErrOf result JournalError.Memory
            → IsInBatch D.told hash history batches rs self.new × HasSealed self.new.batch.step }
        ensures any_moment { (hash : Hash) (history : List Transaction) (batches : List (List Record)) (rs : List Record)
            → IsInBatch D.told hash history batches rs self.old
            → Leaves (StandsBy Gated hash history self.old.durable (length rs)) (D.told self.old.disk) (D.told self.new.disk) }
        ensures held { (hash : Hash) (history : List Transaction) (batches : List (List Record)) (rs : List Record)
            → IsInBatch D.told hash history batches rs self.old → IsErrOf result JournalError.DiskFault
            → HoldsDurable D.told hash history batches self.new }
        ensures kept { OnErr result ((self.new.ends ≡ self.old.ends) × (self.new.durable ≡ self.old.durable)) }
        ensures left { IsErrOf result JournalError.DiskFault → HasSealed self.new.batch.step }
        ensures calls { Makes JournalError.DiskFault JournalError.Memory (calls_to_settle self.old.batch.step self.old.ends.commits) (calls_to_settle self.new.batch.step self.new.ends.commits) (D.told self.old.disk) (D.told self.new.disk) result }
        ensures counted { IsCounted (D.faults self.old.disk) (D.faults self.new.disk) self.old.failures self.new.failures result }
        ensures stopped { 0 < self.old.failures → (result ≡ Err (JournalError.Stopped self.old.failures)) × (self.new ≡ self.old) }
        ensures going { (faults : ℕ) → IsErrOf result (JournalError.Stopped faults) → 0 < self.old.failures }
    {
        self.go()?;
        match self.batch.step {
            Step::Sealed => match self.open_batch() {
                Ok(()) => self.settle_batch(),
                Err(error) => Err(error),
            },
            _ => self.settle_batch(),
        }
    }

    /// Hands the disk back.
    pub fn into_disk(self) -> D
        ensures { result ≡ self.disk }
    {
        let Journal {
            disk,
            ends: _,
            durable: _,
            batch,
            failures: _,
        } = self;
        drop(batch);
        disk
    }

    // Refuses where a call of the disk has failed.
    fn go(&self) -> Result<(), JournalError>
        ensures going { IsOk result → self.now.failures ≡ 0 }
        ensures stopped { OnErr result ((0 < self.now.failures) × (result ≡ Err (JournalError.Stopped self.now.failures))) }
    {
        if self.failures > 0 {
            return Err(JournalError::Stopped {
                faults: self.failures,
            });
        }
        Ok(())
    }
}
