//! What holds of the definitions. Each function does nothing, and its contract is the law.

ghost use Rattle.std.specs.Prelude.{◌≡◌, ◌≤◌, ◌+◌, ℕ, List, [], length, replicate, All};
ghost use Rattle.im_digest.specs.Digests.{Hash};
ghost use Rattle.im_disk.specs.Disk.{Files};
ghost use Rattle.im_format.specs.Batches.{value_span, values_spans};
ghost use Rattle.im_format.specs.Places.{ArePut, log_end, log_values, refs_of};
ghost use Rattle.im_format.specs.Records.{AreRecords, IsReference};
ghost use Rattle.im_format.specs.Spans.{Reads};
ghost use Rattle.im_format.specs.Standing.{LiesIn};
ghost use Rattle.im_format.specs.declared.records.Record.{Record};
ghost use Rattle.im_format.specs.declared.references.ValueRef.{ValueRef};
ghost use Rattle.im_model.specs.declared.transactions.Transaction.{Transaction};
ghost use Rattle.im_vlog.specs.Ends.{AreEnds, HaveRoom};
ghost use Rattle.im_vlog.specs.Showing.{shown};

/// Each log of an empty store ends at 0. Behind the records of the first transactions of a history no log ends
/// behind the place where values of the next one may begin.
pub fn ends_of_records_have_room()
    ensures empty { AreEnds (replicate 4 0) [] }
    ensures room { (hash : Hash) (history : List Transaction) (records : List Record) (ends : List ℕ)
        → AreRecords hash history 1 records → AreEnds ends (refs_of records) → HaveRoom (length records + 1) ends }
{}

/// Where each log has, from its end behind earlier references on, the octets that a batch of records puts into
/// it, each value of the batch stands at its place; and where no log is shorter, each value lies in its log.
pub fn written_values_stand()
    ensures stand { (hash : Hash) (history : List Transaction) (logs id : ℕ) (before : List ValueRef) (records : List Record) (image : Files)
        → AreRecords hash history id records → ArePut logs id before records
        → ((number : ℕ) → number ≤ 3 → Reads image (record { file = 2 + number; at = log_end number before; octets = log_values number records }))
        → All (Reads image) (values_spans records) }
    ensures lie { (hash : Hash) (history : List Transaction) (logs id : ℕ) (before : List ValueRef) (records : List Record) (image : Files)
        → AreRecords hash history id records → ArePut logs id before records
        → ((number : ℕ) → number ≤ 3 → log_end number before + length (log_values number records) ≤ length (image (2 + number)))
        → All (LiesIn image) (refs_of records) }
{}

/// A value that stands where its reference says is what the reference shows.
pub fn a_standing_value_is_shown()
    ensures { (hash : Hash) (id : ℕ) (value : List ℕ) (reference : ValueRef) (image : Files)
        → IsReference hash id value reference → Reads image (value_span value reference) → shown image reference ≡ value }
{}
