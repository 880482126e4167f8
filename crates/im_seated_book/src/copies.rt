ghost use Rattle.std.specs.Prelude.{◌≡◌, ◌≤◌, ◌+◌, length, map, take, drop, IfOk};

use im_digest::D32;
use im_format::records::Record;
use im_format::references::{Refs, ValueRef};
use im_model::transactions::Transaction;
use im_tx::copies::copy_of_transaction;
use std::alloc::{AllocError, Global};

/// So many elements of a list behind so many others.
pub(crate) fn part<T>(all: &[T], behind: u64, count: u64) -> &[T]
    requires { behind + count ≤ length all.now }
    ensures { result.now ≡ take count (drop behind all.now) }
{
    &all[behind as usize..][..count as usize]
}

/// The records of these transactions, with copies of their entries and references, and with these Alh. Its only error is
/// want of memory.
pub(crate) fn records_of(
    alloc: Global,
    transactions: &[Transaction],
    refs: &[Refs],
    alhs: &[D32],
) -> Result<Vec<Record>, AllocError>
    requires refs { length refs.now ≡ length transactions.now }
    requires alhs { length alhs.now ≡ length transactions.now }
    ensures transactions { IfOk result (λ records. map (λ r. r.tx) records.items ≡ transactions.now) }
    ensures refs { IfOk result (λ records. map (λ r. r.refs) records.items ≡ refs.now) }
    ensures alhs { IfOk result (λ records. map (λ r. r.alh) records.items ≡ alhs.now) }
{
    let mut records = Vec::with_capacity(alloc, transactions.len())?;
    for k in 0..transactions.len() {
        let record = record_of(alloc, &transactions[k], refs[k].as_slice(), &alhs[k])?;
        records.push(record)?;
    }
    Ok(records)
}

// The record of a transaction.
fn record_of(
    alloc: Global,
    tx: &Transaction,
    refs: &[ValueRef],
    alh: &D32,
) -> Result<Record, AllocError>
    ensures { IfOk result (λ r. (r.tx ≡ tx.now) × (r.refs ≡ refs.now) × (r.alh ≡ alh.now)) }
{
    let tx = copy_of_transaction(alloc, tx)?;
    let mut copies = Vec::with_capacity(alloc, refs.len())?;
    copies.extend_from_slice(refs)?;
    Ok(Record {
        tx,
        refs: Refs::from_vec(copies),
        alh: *alh,
    })
}
