//! What holds of the definitions. Each function does nothing, and its contract is the law.

ghost use Rattle.std.specs.Prelude.{◌≡◌, ◌<◌, ◌≤◌, ◌+◌, ◌^◌, ◌++◌, ℕ, List, [], length, Ok};
ghost use Rattle.im_digest.specs.Digests.{Hash};
ghost use Rattle.im_disk.specs.Disk.{Files};
ghost use Rattle.im_model.specs.History.{IsHistory, transaction_of};
ghost use Rattle.im_model.specs.declared.transactions.Transaction.{Transaction};
ghost use Rattle.im_mtree.specs.Checks.{first_fail};
ghost use Rattle.im_format.specs.Damages.{alh_checks, head_checks, slot_checks, slots_checks};
ghost use Rattle.im_format.specs.Reading.{alh_place, count_at, slot_at};
ghost use Rattle.im_format.specs.Records.{IsRecord, record_octets};
ghost use Rattle.im_format.specs.declared.records.Record.{Record};
ghost use Rattle.im_record.specs.Slots.{HaveLengths, slot_checks_by};
ghost use Rattle.im_record.specs.Back.{AreOctets, FitsRecord, HasAt, HasRecord, IsReadAs, IsSound, IsWritten, PassesChecks, record_in};

/// What is put between others stands behind the first.
pub fn octets_stand_where_they_are_put()
    ensures { (before octets rest : List ℕ) → HasAt (before ++ octets ++ rest) (length before) octets }
{}

/// A record is read back, whatever octets stand before and behind it.
pub fn a_record_is_read_back()
    ensures held { (log : List ℕ) (at id : ℕ) (r : Record) → FitsRecord id r → HasAt log at (record_octets id r) → IsReadAs log at id r }
    ensures put { (before rest : List ℕ) (id : ℕ) (r : Record) → FitsRecord id r → IsReadAs (before ++ record_octets id r ++ rest) (length before) id r }
{}

/// The records of a history are within the limits of one.
pub fn records_of_a_history_are_sound()
    ensures { (hash : Hash) (history : List Transaction) (id : ℕ) (r : Record) → ((octets : List ℕ) → length (hash octets) ≡ 32) → IsHistory history → 1 ≤ id → id ≤ length history → r.tx ≡ transaction_of history id → IsRecord hash history id r → IsSound hash id r }
{}

/// The numbers of a history's record fit their fields.
pub fn a_sound_record_fits()
    ensures { (hash : Hash) (id : ℕ) (r : Record) → ((octets : List ℕ) → length (hash octets) ≡ 32) → IsSound hash id r → FitsRecord id r }
{}

/// A history's record that an image holds passes all its checks, and is read as it was written.
pub fn a_record_passes_its_checks()
    ensures { (hash : Hash) (image : Files) (id least at : ℕ) (r : Record) → ((octets : List ℕ) → length (hash octets) ≡ 32) → IsSound hash id r → least ≤ r.tx.bl → HasRecord image id at r → PassesChecks hash image id least at r }
{}

/// What is found of an entry by the lengths of the value logs is what is found of it in the image.
pub fn lengths_stand_for_the_value_logs()
    ensures { (image : Files) (logs : List ℕ) (id : ℕ) (keys : List (List ℕ)) (at : ℕ) → HaveLengths image logs → first_fail (slot_checks image id keys (slot_at (image 0) at)) ≡ first_fail (slot_checks_by (image 0) logs id keys (slot_at (image 0) at)) }
{}

/// What passes the checks of a record is the octets of a history's record, which is the one that is read.
pub fn what_passes_was_written()
    ensures { (hash : Hash) (image : Files) (id least at : ℕ) (want : List ℕ) → AreOctets (image 0) → 1 ≤ id → id < 2 ^ 42 → first_fail (head_checks (image 0) id least at) ≡ Ok tt → first_fail (slots_checks hash image id [] (at + 28) (count_at (image 0) at)) ≡ Ok tt → first_fail (alh_checks (image 0) (alh_place image at) want) ≡ Ok tt → IsWritten hash image id least at want (record_in image at) }
{}
