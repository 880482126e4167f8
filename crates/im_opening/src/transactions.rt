ghost use Rattle.std.specs.Prelude.{◌≡◌, ◌≤◌, ◌+◌, ◌-◌, length, map, Some, IfOk, IfSome};
ghost use Rattle.im_disk.specs.Disk.{Told, seen};
ghost use Rattle.im_format.specs.Records.{AreReferences, entries_octets};
ghost use Rattle.im_model.specs.Entries.{entry_digest};
ghost use Rattle.im_model.specs.History.{IsTransaction};
ghost use Rattle.im_opening.specs.Answers.{HasOpenCause, Judges};
ghost use Rattle.im_opening.specs.Parts.{Shows, IsTransactionAt, transaction_checks};

use crate::entries::{EntriesRead, read_entries};
use crate::errors::OpenError;
use crate::source::RecordSource;
use im_digest::{D32, Hash32};
use im_disk::disk::Disk;
use im_format::references::ValueRef;
use im_model::entries::Entries;
use im_model::transactions::Transaction;
use im_record::heads::read_head;
use std::alloc::Global;

/// A transaction as it was read, the digests of its entries, the references of its values, and the place of its
/// Alh in the transaction log.
#[derive(Drop)]
pub(crate) struct TransactionRead {
    pub tx: Transaction,
    pub digests: Vec<D32>,
    pub refs: Vec<ValueRef>,
    pub end: u64,
}

/// Reads transaction `id` at a place of the transaction log, up to its Alh, where the tree of the one before
/// had `least_bl` leaves.
pub(crate) fn read_transaction<D: Disk, H: Hash32>(
    alloc: Global,
    hash: &H,
    disk: &mut D,
    source: &RecordSource,
    id: u64,
    at: u64,
    least_bl: u64,
) -> Result<TransactionRead, OpenError>
    requires shows { IfSome (D.told disk.old) (λ t. Shows (seen t) source.now.log.now source.now.lengths) }
    requires place { at ≤ length source.now.log.now }
    requires some { 1 ≤ id }
    requires few { id ≤ 1048576 }
    ensures is { IfOk result (λ read. IsTransaction (id - 1) read.tx) }
    ensures rises { IfOk result (λ read. least_bl ≤ read.tx.bl) }
    ensures digests { IfOk result (λ read. read.digests.items ≡ map (entry_digest (H.digest hash.now)) read.tx.entries) }
    ensures refer { IfOk result (λ read. AreReferences (H.digest hash.now) id read.tx.entries read.refs.items) }
    ensures within { IfOk result (λ read. read.end ≤ length source.now.log.now) }
    ensures whole { IfOk result (λ read. read.end ≡ at + 28 + length (entries_octets read.tx.entries read.refs.items)) }
    ensures read { (t : Told) → D.told disk.old ≡ Some t
        → IfOk result (λ read. IsTransactionAt (seen t) at read.tx read.refs.items read.end) }
    ensures first { (t : Told) → D.told disk.old ≡ Some t
        → Judges (transaction_checks (H.digest hash.now) (seen t) id least_bl at) result }
    ensures told { D.told disk.new ≡ D.told disk.old }
    ensures cause { HasOpenCause (D.faults disk.old) (D.faults disk.new) result }
{
    let head = read_head(source.log, at, id, least_bl)?;
    let read = read_entries(alloc, hash, disk, source, id, at + 28, head.count)?;
    let EntriesRead {
        entries,
        digests,
        refs,
        end,
    } = read;
    let tx = Transaction {
        ts: head.ts,
        entries: Entries::from_vec(entries),
        bl: head.bl,
    };
    Ok(TransactionRead {
        tx,
        digests,
        refs,
        end,
    })
}
