//! What holds of the definitions. Each function does nothing, and its contract is the law.

ghost use Rattle.std.specs.Prelude.{◌≡◌, ◌++◌, ℕ, List, length, take};
ghost use Rattle.im_digest.specs.Digests.{Hash};
ghost use Rattle.im_disk.specs.Moments.{Leaves, LeavesNow};
ghost use Rattle.im_model.specs.History.{IsHistory};
ghost use Rattle.im_model.specs.declared.transactions.Transaction.{Transaction};
ghost use Rattle.im_format.specs.Standing.{Stands, StandsFrom};
ghost use Rattle.im_format.specs.declared.records.Record.{Record};
ghost use Rattle.im_journal.specs.Durable.{HoldsDurable};
ghost use Rattle.im_journal.specs.Kept.{IsAtRest, IsInBatch, Kept, StandsBy};

use crate::journal::Journal;
use im_disk::disk::Disk;

/// Between calls each image stands for the first `durable` transactions of the placed history, and for no
/// others while the journal is at rest or the gate of its batch isn't written. Behind a call of the disk that failed it
/// stands for a front part of the placed history that holds those.
pub fn images_stand<D: Disk>(_journal: &Journal<D>)
    ensures at_rest { (hash : Hash) (history : List Transaction) (batches : List (List Record))
        → IsAtRest D.told hash history batches _journal.now
        → LeavesNow (λ image. Stands hash image (take _journal.now.durable history)) (D.told _journal.now.disk) }
    ensures in_batch { (hash : Hash) (history : List Transaction) (batches : List (List Record)) (rs : List Record)
        → IsInBatch D.told hash history batches rs _journal.now
        → LeavesNow (StandsBy _journal.now.batch.step hash history _journal.now.durable (length rs)) (D.told _journal.now.disk) }
    ensures held { (hash : Hash) (history : List Transaction) (batches : List (List Record))
        → HoldsDurable D.told hash history batches _journal.now
        → LeavesNow (StandsFrom hash _journal.now.durable history) (D.told _journal.now.disk) }
{}

/// A history may go on while its journal is at rest, in the middle of a batch, or behind a call of the disk that failed: what
/// the journal holds of it stays.
pub fn a_longer_history_is_held<D: Disk>(_journal: &Journal<D>)
    ensures at_rest { (hash : Hash) (history more : List Transaction) (batches : List (List Record)) → IsHistory (history ++ more)
        → IsAtRest D.told hash history batches _journal.now → IsAtRest D.told hash (history ++ more) batches _journal.now }
    ensures in_batch { (hash : Hash) (history more : List Transaction) (batches : List (List Record)) (rs : List Record) → IsHistory (history ++ more)
        → IsInBatch D.told hash history batches rs _journal.now → IsInBatch D.told hash (history ++ more) batches rs _journal.now }
    ensures held { (hash : Hash) (history more : List Transaction) (batches : List (List Record)) → IsHistory (history ++ more)
        → HoldsDurable D.told hash history batches _journal.now → HoldsDurable D.told hash (history ++ more) batches _journal.now }
{}
