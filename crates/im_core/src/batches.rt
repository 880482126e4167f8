// The records of a batch.
ghost use Rattle.std.specs.Prelude.{◌≡◌, ◌<◌, ◌≤◌, ◌+◌, ◌++◌, List, length, IfOk};
ghost use Rattle.im_book.specs.Booked.{IsBook};
ghost use Rattle.im_core.specs.Staged.{AreBehind};
ghost use Rattle.im_format.specs.Places.{AreAppended};
ghost use Rattle.im_format.specs.Records.{IsRecord};
ghost use Rattle.im_format.specs.declared.records.Record.{Record as TheRecord};
ghost use Rattle.im_format.specs.declared.references.ValueRef.{ValueRef};
ghost use Rattle.im_journal.specs.Holding.{AreFirst};
ghost use Rattle.im_model.specs.History.{transaction_of};
ghost use Rattle.im_vlog.specs.Ends.{AreEnds, HaveRoom};

use im_book::book::Book;
use im_digest::Hash32;
use im_format::records::Record;
use im_journal::ends::Ends;
use im_tx::copies::copy_of_transaction;
use im_vlog::placing::append_values;
use std::alloc::{AllocError, Global};

/// The records of the transactions behind the first `durable` ones up to number `last`, where the files end behind those: their
/// values are put over one value log, each at its end behind all before it. It copies the transactions, and hashes each value.
/// Its only error is want of memory.
pub(crate) fn records_behind<H: Hash32>(
    alloc: Global,
    hash: &H,
    book: &Book,
    ends: &Ends,
    durable: u64,
    last: u64,
) -> Result<Vec<Record>, AllocError>
    requires book { IsBook (H.digest hash.now) book.now }
    requires order { durable < last }
    requires within { last ≤ length book.now.transactions }
    requires first { (batches : List (List TheRecord)) × AreFirst (H.digest hash.now) book.now.transactions batches durable ends.now }
    ensures { (batches : List (List TheRecord)) → AreFirst (H.digest hash.now) book.now.transactions batches durable ends.now
        → IfOk result (λ records. AreBehind (H.digest hash.now) book.now.transactions batches durable last records.items) }
{
    let mut log_ends = ends.values;
    let mut records = Vec::with_capacity(alloc, (last - durable) as usize)?;
    for before in durable..last {
        let record = next_record(alloc, hash, book, before + 1, &mut log_ends)?;
        records.push(record)?;
    }
    Ok(records)
}

// The record of a transaction whose values are put behind these ends, which it moves on.
fn next_record<H: Hash32>(
    alloc: Global,
    hash: &H,
    book: &Book,
    number: u64,
    log_ends: &mut [u64; 4],
) -> Result<Record, AllocError>
    requires book { IsBook (H.digest hash.now) book.now }
    requires some { 1 ≤ number }
    requires within { number ≤ length book.now.transactions }
    requires room { HaveRoom number log_ends.old }
    ensures tx { IfOk result (λ made. made.tx ≡ transaction_of book.now.transactions number) }
    ensures is { IfOk result (λ made. IsRecord (H.digest hash.now) book.now.transactions number made) }
    ensures put { (before : List ValueRef) → AreEnds log_ends.old before → IfOk result (λ made. AreAppended 1 number 0 before made.refs) }
    ensures ends { (before : List ValueRef) → AreEnds log_ends.old before → IfOk result (λ made. AreEnds log_ends.new (before ++ made.refs)) }
    ensures room { HaveRoom (number + 1) log_ends.new }
{
    let lent = book.tx(number);
    let entries = lent.entries.as_slice();
    let digest = book.alh(number);
    let refs = append_values(alloc, hash, 1, number, log_ends, entries)?;
    let tx = copy_of_transaction(alloc, lent)?;
    Ok(Record {
        tx,
        refs,
        alh: *digest,
    })
}
