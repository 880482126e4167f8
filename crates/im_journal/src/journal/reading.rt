// What is read of a journal.
ghost use Rattle.std.specs.Prelude.{◌≡◌, ◌≤◌, ◌<◌, ◌+◌, ◌-◌, ◌^◌, ℕ, List, length, min, IfErr, IfOk, IfSome, IsErrOf, IsSome};
ghost use Rattle.im_digest.specs.Digests.{Hash};
ghost use Rattle.im_disk.specs.Disk.{seen};
ghost use Rattle.im_model.specs.declared.transactions.Transaction.{Transaction};
ghost use Rattle.im_format.specs.Batches.{joined};
ghost use Rattle.im_format.specs.declared.records.Record.{Record};
ghost use Rattle.im_vlog.specs.Showing.{IsCorrupt, shown};
ghost use Rattle.im_journal.specs.Durable.{HoldsDurable};
ghost use Rattle.im_journal.specs.Faults.{IsReadCounted};
ghost use Rattle.im_journal.specs.Kept.{IsAtRest, IsInBatch};
ghost use Rattle.im_journal.specs.Values.{HasValue, HoldsBatches};

use crate::batches::Step;
use crate::ends::Ends;
use crate::journal::Journal;
use im_digest::Hash32;
use im_disk::disk::Disk;
use im_format::references::ValueRef;
use im_vlog::showing::{ValueError, read_value};
use std::alloc::Global;

impl<D: Disk> Journal<D> {
    /// The value that a reference shows: the octets at its place of its log, fewer where the log ends before,
    /// and none where there is no such log. They are checked against the reference's digest, so a value of a
    /// durable transaction is read as it was placed. It reads also while a batch is in progress, and after a
    /// call of the disk has failed. One `len` and one `read`, which fills one buffer of their number, and one
    /// hash; where there is no such log, the hash alone: then neither the disk nor memory can fail, and the journal
    /// stays as it was.
    ///
    /// # Errors
    ///
    /// `DiskFault` is a failure as that of a write is: the journal writes nothing from then on.
    pub fn read_value<H: Hash32>(
        &mut self,
        alloc: Global,
        hash: &H,
        value: &ValueRef,
    ) -> Result<Vec<u8>, ValueError>
        ensures octets { IfOk result (λ octets. IfSome (D.told self.old.disk) (λ t. octets.items ≡ shown (seen t) value.now)) }
        ensures digest { IfOk result (λ octets. H.digest hash.now octets.items ≡ value.now.hval) }
        ensures most { IfOk result (λ octets. length octets.items ≤ value.now.len) }
        ensures corrupt { IfErr result (λ error. IsCorrupt (H.digest hash.now) (D.told self.old.disk) value.now error) }
        ensures placed { (history : List Transaction) (batches : List (List Record)) (octets : List ℕ)
            → HoldsBatches D.told (H.digest hash.now) history batches self.old → IsSome (D.told self.old.disk)
            → HasValue (joined batches) octets value.now → IfOk result (λ read. read.items ≡ octets) }
        ensures sound { (history : List Transaction) (batches : List (List Record)) (octets want got : List ℕ)
            → HoldsBatches D.told (H.digest hash.now) history batches self.old → IsSome (D.told self.old.disk)
            → HasValue (joined batches) octets value.now → IsErrOf result (ValueError.Corrupt want got) → ⊥ }
        ensures at_rest { (digest : Hash) (history : List Transaction) (batches : List (List Record))
            → IsAtRest D.told digest history batches self.old → IsAtRest D.told digest history batches self.new }
        ensures in_batch { (digest : Hash) (history : List Transaction) (batches : List (List Record)) (rs : List Record)
            → IsInBatch D.told digest history batches rs self.old → IsInBatch D.told digest history batches rs self.new }
        ensures held { (digest : Hash) (history : List Transaction) (batches : List (List Record))
            → HoldsDurable D.told digest history batches self.old → HoldsDurable D.told digest history batches self.new }
        ensures told { D.told self.new.disk ≡ D.told self.old.disk }
        ensures none { 3 < value.now.log → self.new ≡ self.old }
        ensures hashed { 3 < value.now.log → (IsErrOf result ValueError.DiskFault → ⊥) × (IsErrOf result ValueError.Memory → ⊥) }
        ensures kept { (self.new.ends ≡ self.old.ends) × (self.new.durable ≡ self.old.durable) × (self.new.batch ≡ self.old.batch) }
        ensures counted { IsReadCounted (D.faults self.old.disk) (D.faults self.new.disk) self.old.failures self.new.failures result }
    {
        let answer = read_value(alloc, hash, &mut self.disk, value);
        self.count_read(&answer);
        answer
    }

    // Counts a read at which the disk failed.
    fn count_read(&mut self, answer: &Result<Vec<u8>, ValueError>)
        ensures fault { IsErrOf answer.now ValueError.DiskFault → self.new.failures ≡ min (self.old.failures + 1) (2 ^ 64 - 1) }
        ensures others { (IsErrOf answer.now ValueError.DiskFault → ⊥) → self.new.failures ≡ self.old.failures }
        ensures kept { (self.new.disk ≡ self.old.disk) × (self.new.ends ≡ self.old.ends) × (self.new.durable ≡ self.old.durable) × (self.new.batch ≡ self.old.batch) }
    {
        if let Err(ValueError::DiskFault) = answer {
            self.failures = self.failures.saturating_add(1);
        }
    }

    /// The number of transactions that are durable.
    pub fn durable(&self) -> u64
        ensures { result ≡ self.now.durable }
    {
        self.durable
    }

    /// Where the files end behind what is durable. The values of the next transactions are put there.
    pub fn ends(&self) -> &Ends
        ensures { result.now ≡ self.now.ends }
    {
        &self.ends
    }

    /// How far the batch in progress is.
    pub fn step(&self) -> Step
        ensures { result ≡ self.now.batch.step }
    {
        self.batch.step
    }

    /// The number of transactions of the batch in progress. What it tells where none is no clause says: by the source, that of
    /// the last one, and 0 before the first. So it is a hint there, as for whether to let others run first.
    pub fn batch_count(&self) -> u64
        ensures { result ≡ self.now.batch.count }
    {
        self.batch.count
    }

    /// How many calls of the disk have failed since opening, at most 2^64 - 1.
    pub fn failures(&self) -> u64
        ensures { result ≡ self.now.failures }
    {
        self.failures
    }
}
