//! The table while the rows of a statement are taken: what is written so far is looked at first, and then the view.

ghost use Rattle.std.specs.Prelude.{◌≡◌, ◌≤◌, List, length, map, take, option_map, if◌then◌else◌, IfOk, OnOk};
ghost use Rattle.std.specs.List.{IsAmong};
ghost use Rattle.im_model.specs.declared.transactions.Transaction.{Transaction};
ghost use Rattle.im_sqltype.specs.Kinds.{AreOfKinds};
ghost use Rattle.im_sqltype.specs.Texts.{row_text};
ghost use Rattle.im_sqlmodel.specs.Kept.{IsSqlSound, IsTableOf};
ghost use Rattle.im_sqlmodel.specs.Rows.{RowsAre, IndexesAre, key_of};
ghost use Rattle.im_sqlmodel.specs.Tables as tables;
ghost use Rattle.im_sqlmodel.specs.Writes as spec;
ghost use Rattle.im_sqlmodel.specs.declared.rows.StoredRow.{StoredRow as TheStoredRow};
ghost use Rattle.im_sqlmodel.specs.declared.tables.SqlIndex.{SqlIndex as TheIndex};
ghost use Rattle.im_catalog.specs.Rows.{HasRowText};
ghost use Rattle.im_sql.specs.Entries as entries;
ghost use Rattle.im_sql.specs.Working.{IsWorking};

use crate::writes::Writes;
use im_catalog::entries::{all_written, deleted, entry_written, row_key};
use im_catalog::rows::{kinds_of, read_row_of, row_at};
use im_octet::octets::Octets;
use im_sqlmodel::rows::StoredRow;
use im_sqlmodel::tables::{SqlIndex, Table};
use im_sqlmodel::written::Written;
use im_sqltype::reading::ReadError;
use im_sqltype::values::Value;
use im_versions::errors::ViewError;
use im_versions::view::KvView;
use std::alloc::{AllocError, Global};

/// The row with the primary key of a row, as what is written so far leaves the table: its number is 0 where a row of
/// the statement is there. It asks the view once where nothing is written at the key. Its only error is want of memory.
pub(crate) fn row_there<V: KvView>(
    alloc: Global,
    view: &V,
    table: &Table,
    writes: &Writes,
    row: &[Value],
    n: u64,
) -> Result<Option<StoredRow>, ViewError>
    requires view { (history : List Transaction) × V.stands view.now history × (n ≤ length history) × IsSqlSound (take n history)
        × IsTableOf (take n history) table.now }
    requires working { (indexes : List TheIndex) × (stood : List TheStoredRow) × (rows : List TheStoredRow) × IsWorking table.now indexes stood writes.now rows }
    ensures { (history : List Transaction) → V.stands view.now history → n ≤ length history → IsSqlSound (take n history)
        → IsTableOf (take n history) table.now → (indexes : List TheIndex) (stood rows : List TheStoredRow) → RowsAre (take n history) table.now stood
        → IsWorking table.now indexes stood writes.now rows → IfOk result (λ found. found ≡ spec.stored_at table.now rows (key_of table.now row.now)) }
{
    let key = row_key(alloc, table, row)?;
    match writes.get(key.as_slice()) {
        Some(Some(text)) => {
            let stored = written_row(alloc, table, key.as_slice(), text.as_slice())?;
            Ok(Some(stored))
        }
        Some(None) => Ok(None),
        None => row_at(alloc, view, table, key.as_slice(), n),
    }
}

// A row of the statement, by its key and its text.
fn written_row(
    alloc: Global,
    table: &Table,
    key: &[u8],
    text: &[u8],
) -> Result<StoredRow, AllocError>
    requires { HasRowText table.now key.now text.now }
    ensures { IfOk result (λ stored. (stored.tx ≡ 0) × AreOfKinds (tables.kinds_of table.now) stored.row × (text.now ≡ row_text stored.row)) }
{
    let kinds = kinds_of(alloc, table)?;
    match read_row_of(alloc, table, kinds.as_slice(), key, text) {
        Ok(row) => Ok(StoredRow { row, tx: 0 }),
        Err(ReadError::Memory) => Err(AllocError),
        Err(ReadError::NotText) => unreachable!(),
    }
}

// The entry that stands in a unique index.
#[derive(Drop)]
struct Entry {
    // The text of the primary key that it is of.
    primary: Octets,
    // The number of the transaction that wrote it; 0 where the statement did.
    tx: u64,
}

// What stands under the key of an entry of a unique index, as what is written so far leaves it.
fn entry_there<V: KvView>(
    alloc: Global,
    view: &V,
    writes: &Writes,
    key: &[u8],
    n: u64,
) -> Result<Option<Entry>, ViewError>
    requires { (history : List Transaction) × V.stands view.now history × (n ≤ length history) }
    ensures { (history : List Transaction) → V.stands view.now history → n ≤ length history
        → IfOk result (entries.IsEntryThere (take n history) writes.now key.now) }
{
    match writes.get(key) {
        Some(Some(primary)) => Ok(Some(Entry {
            primary: Octets::from_slice(alloc, primary.as_slice())?,
            tx: 0,
        })),
        Some(None) => Ok(None),
        None => match view.get(alloc, key, n)? {
            Some(version) if !version.deleted => Ok(Some(Entry {
                primary: Octets::from_slice(alloc, version.value.as_slice())?,
                tx: version.tx,
            })),
            _ => Ok(None),
        },
    }
}

/// The number of the entry that another row has where this row's would stand in a unique index: 0 where a row of the
/// statement has it. Of an index that isn't unique, none. It asks the view once where nothing is written at the
/// entry's key. Its only error is want of memory.
pub(crate) fn entry_met<V: KvView>(
    alloc: Global,
    view: &V,
    table: &Table,
    index: &SqlIndex,
    writes: &Writes,
    row: &[Value],
    n: u64,
) -> Result<Option<u64>, ViewError>
    requires { (history : List Transaction) × V.stands view.now history × (n ≤ length history) × IsSqlSound (take n history)
        × IsTableOf (take n history) table.now }
    ensures { (history : List Transaction) → V.stands view.now history → n ≤ length history → IsSqlSound (take n history)
        → IsTableOf (take n history) table.now → (indexes : List TheIndex) (stood rows : List TheStoredRow) → IndexesAre (take n history) table.now indexes
        → IsAmong indexes index.now → RowsAre (take n history) table.now stood → IsWorking table.now indexes stood writes.now rows
        → IfOk result (λ met. met ≡ (if index.now.unique then option_map (spec.entry_number (take n history) table.now index.now) (spec.row_met table.now index.now row.now rows) else None)) }
{
    if !index.unique {
        return Ok(None);
    }
    let own = entry_written(alloc, table, row, index)?;
    let found = entry_there(alloc, view, writes, own.key.as_slice(), n)?;
    let met = number_met(found, &own.value);
    drop(own);
    Ok(met)
}

// The number of the entry that is found, if its primary key isn't that of a row's own entry.
fn number_met(found: Option<Entry>, own: &Option<Octets>) -> Option<u64>
    ensures { result ≡ entries.number_met found own.now }
{
    match found {
        Some(entry) => match own {
            Some(primary) => other_number(entry, primary.as_slice()),
            None => None,
        },
        None => None,
    }
}

// The number of an entry that isn't that of this primary key.
fn other_number(entry: Entry, own: &[u8]) -> Option<u64>
    ensures { result ≡ entries.other_number entry own.now }
{
    let Entry { primary, tx } = entry;
    if primary.as_slice() == own {
        None
    } else {
        Some(tx)
    }
}

/// Writes a row: its key and all its entries, held before or not. The entries of the row that was there, and no longer
/// hold, are deleted. Its only error is want of memory; a part of this may then be written.
pub(crate) fn write_row(
    alloc: Global,
    table: &Table,
    indexes: &[SqlIndex],
    writes: &mut Writes,
    row: &[Value],
    there: &Option<StoredRow>,
) -> Result<(), AllocError>
    ensures { OnOk result (writes.new ≡ spec.put_all (spec.all_written table.now indexes.now row.now) (spec.put_all (spec.dropped table.now indexes.now there.now) writes.old)) }
{
    if let Some(stored) = there {
        drop_entries(alloc, table, indexes, writes, stored.row.as_slice())?;
    }
    let written = all_written(alloc, table, indexes, row)?;
    writes.put_all(written)
}

// Deletes the entries of a row.
fn drop_entries(
    alloc: Global,
    table: &Table,
    indexes: &[SqlIndex],
    writes: &mut Writes,
    row: &[Value],
) -> Result<(), AllocError>
    ensures { OnOk result (writes.new ≡ spec.put_all (map (λ i. spec.deleted (spec.entry_written table.now row.now i)) indexes.now) writes.old) }
{
    for index in indexes {
        let entry = entry_written(alloc, table, row, index)?;
        writes.put(deleted(entry))?;
    }
    Ok(())
}
