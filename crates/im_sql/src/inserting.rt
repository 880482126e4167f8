//! INSERT and UPSERT: rows are taken in order, each judged against the table as the earlier ones leave it.

ghost use Rattle.std.specs.Prelude.{◌≡◌, ◌≤◌, ◌⊎◌, List, [], length, take, map, option_map, if◌then◌else◌, IfOk};
ghost use Rattle.std.specs.Option.{option_or};
ghost use Rattle.im_model.specs.History.{IsHistory};
ghost use Rattle.im_model.specs.declared.transactions.Transaction.{Transaction};
ghost use Rattle.im_sqlparse.specs.Formed.{IsInsertion};
ghost use Rattle.im_sqlmodel.specs.Kept.{IsSqlKept, IsTableOf};
ghost use Rattle.im_sqlmodel.specs.Options.{first_found, ok_then};
ghost use Rattle.im_sqlmodel.specs.Rows.{RowsAre, IndexesAre, key_of};
ghost use Rattle.im_sqlmodel.specs.Writes as spec;
ghost use Rattle.im_sqlmodel.specs.declared.answers.SqlError.TheVariants as error;
ghost use Rattle.im_sqlmodel.specs.declared.rows.StoredRow.{StoredRow as TheStoredRow};
ghost use Rattle.im_sqlmodel.specs.declared.tables.SqlIndex.{SqlIndex as TheIndex};
ghost use Rattle.im_sql.specs.Working.{IsWorking, IsTaken, written_of};
ghost use Rattle.im_sql.specs.Writing.{Answers};

use crate::judged::{cells_fault, has_long_key, insertion_fault, is_long_row, row_given};
use crate::names::names_of;
use crate::placing::placed;
use crate::working::{entry_met, row_there, write_row};
use crate::writes::Writes;
use im_catalog::catalogue::{indexes, table};
use im_catalog::entries::all_written;
use im_octet::octets::Octets;
use im_sqlmodel::answers::{SqlError, SqlOut};
use im_sqlmodel::rows::StoredRow;
use im_sqlmodel::tables::{SqlIndex, Table};
use im_sqlparse::statements::Insertion;
use im_sqltype::values::Value;
use im_versions::errors::ViewError;
use im_versions::view::KvView;
use std::alloc::{AllocError, Global};

/// What INSERT (`fresh`) or UPSERT answers where its line counts n transactions. For each row it asks the view at
/// most once for the row of its key, and at most once for each unique index.
///
/// # Errors
///
/// The first of: `NoTable`; `NoColumn`; `Twice`; `Count`; then row by row, by column, `WrongType`, `TooLong`,
/// `NullGiven`, and for the row `KeyLong`, `RowLong`, of INSERT `Duplicate`, `Unique`; at the end `TooMany`. `Memory`
/// where memory runs out.
pub(crate) fn insert<V: KvView>(
    alloc: Global,
    view: &V,
    insertion: &Insertion,
    fresh: bool,
    n: u64,
) -> Result<SqlOut, SqlError>
    requires view { (history : List Transaction) × V.stands view.now history × (n ≤ length history) × IsHistory history × IsSqlKept (take n history) }
    requires formed { IsInsertion insertion.now }
    ensures { (history : List Transaction) → V.stands view.now history → n ≤ length history → IsHistory history → IsSqlKept (take n history)
        → (result ≡ Err error.Memory) ⊎ spec.WriteIs (take n history) insertion.now.table (spec.inserted (take n history) fresh insertion.now) result }
{
    match table(alloc, view, insertion.table.as_slice(), n)? {
        Some(table) => {
            let answer = insert_into(alloc, view, &table, insertion, fresh, n);
            drop(table);
            answer
        }
        None => {
            let table = Octets::from_slice(alloc, insertion.table.as_slice())?;
            Err(SqlError::NoTable { table })
        }
    }
}

// What it answers of a table that is there.
fn insert_into<V: KvView>(
    alloc: Global,
    view: &V,
    table: &Table,
    insertion: &Insertion,
    fresh: bool,
    n: u64,
) -> Result<SqlOut, SqlError>
    requires view { (history : List Transaction) × V.stands view.now history × (n ≤ length history) × IsHistory history × IsSqlKept (take n history)
        × IsTableOf (take n history) table.now }
    requires formed { IsInsertion insertion.now }
    ensures { (history : List Transaction) → V.stands view.now history → n ≤ length history → IsHistory history → IsSqlKept (take n history)
        → IsTableOf (take n history) table.now → (indexes : List TheIndex) (rows : List TheStoredRow) → IndexesAre (take n history) table.now indexes
        → RowsAre (take n history) table.now rows → Answers result (spec.inserted (take n history) fresh insertion.now table.now indexes rows) }
{
    if let Some(fault) = insertion_fault(alloc, table, insertion)? {
        return Err(fault);
    }
    let indexes = indexes(alloc, view, table, n)?;
    let answer = insert_under(alloc, view, table, indexes.as_slice(), insertion, fresh, n);
    drop(indexes);
    answer
}

// What it answers where the table has these indexes.
fn insert_under<V: KvView>(
    alloc: Global,
    view: &V,
    table: &Table,
    indexes: &[SqlIndex],
    insertion: &Insertion,
    fresh: bool,
    n: u64,
) -> Result<SqlOut, SqlError>
    requires view { (history : List Transaction) × V.stands view.now history × (n ≤ length history) × IsHistory history × IsSqlKept (take n history)
        × IsTableOf (take n history) table.now × IndexesAre (take n history) table.now indexes.now }
    requires formed { IsInsertion insertion.now }
    ensures { (history : List Transaction) → V.stands view.now history → n ≤ length history → IsHistory history → IsSqlKept (take n history)
        → IsTableOf (take n history) table.now → IndexesAre (take n history) table.now indexes.now → (rows : List TheStoredRow) → RowsAre (take n history) table.now rows
        → Answers result (ok_then (spec.write_rows (take n history) fresh table.now indexes.now 0 (map (spec.row_given table.now insertion.now.columns) insertion.now.rows) (record { rows = rows; written = [] })) (λ work. spec.placed n table.now indexes.now work.written)) }
{
    let writes = write_rows(alloc, view, table, indexes, insertion, fresh, n)?;
    placed(alloc, n, table, indexes, writes)
}

// What all rows write, or what is wrong with the first at fault.
fn write_rows<V: KvView>(
    alloc: Global,
    view: &V,
    table: &Table,
    indexes: &[SqlIndex],
    insertion: &Insertion,
    fresh: bool,
    n: u64,
) -> Result<Writes, SqlError>
    requires view { (history : List Transaction) × V.stands view.now history × (n ≤ length history) × IsHistory history × IsSqlKept (take n history)
        × IsTableOf (take n history) table.now × IndexesAre (take n history) table.now indexes.now }
    requires formed { IsInsertion insertion.now }
    ensures { (history : List Transaction) → V.stands view.now history → n ≤ length history → IsHistory history → IsSqlKept (take n history)
        → IsTableOf (take n history) table.now → IndexesAre (take n history) table.now indexes.now
        → (rows : List TheStoredRow) → RowsAre (take n history) table.now rows
        → (result ≡ Err error.Memory) ⊎ (result ≡ written_of (spec.write_rows (take n history) fresh table.now indexes.now 0 (map (spec.row_given table.now insertion.now.columns) insertion.now.rows) (record { rows = rows; written = [] }))) }
{
    let names = names_of(alloc, insertion.columns.as_slice())?;
    let rows = insertion.rows.as_slice();
    let mut writes = Writes::new(alloc);
    for (i, literals) in rows.iter().enumerate() {
        let row = row_given(alloc, table, names.as_slice(), literals.as_slice())?;
        let fault = take_row(
            alloc,
            view,
            table,
            indexes,
            &mut writes,
            fresh,
            i as u64,
            row.as_slice(),
            n,
        )?;
        drop(row);
        if let Some(fault) = fault {
            drop(writes);
            return Err(fault);
        }
    }
    Ok(writes)
}

// Judges row i, and writes it where nothing is wrong with it.
fn take_row<V: KvView>(
    alloc: Global,
    view: &V,
    table: &Table,
    indexes: &[SqlIndex],
    writes: &mut Writes,
    fresh: bool,
    i: u64,
    row: &[Value],
    n: u64,
) -> Result<Option<SqlError>, ViewError>
    requires view { (history : List Transaction) × V.stands view.now history × (n ≤ length history) × IsHistory history × IsSqlKept (take n history)
        × IsTableOf (take n history) table.now × IndexesAre (take n history) table.now indexes.now }
    requires working { (stood : List TheStoredRow) × (rows : List TheStoredRow) × IsWorking table.now indexes.now stood writes.old rows }
    requires row { length row.now ≡ length table.now.columns }
    ensures { (history : List Transaction) → V.stands view.now history → n ≤ length history → IsHistory history → IsSqlKept (take n history)
        → IsTableOf (take n history) table.now → IndexesAre (take n history) table.now indexes.now
        → (stood rows : List TheStoredRow) → RowsAre (take n history) table.now stood → IsWorking table.now indexes.now stood writes.old rows
        → IfOk result (IsTaken (take n history) fresh table.now indexes.now i row.now stood (record { rows = rows; written = writes.old }) writes.new) }
{
    if let Some(fault) = cells_fault(alloc, table, i, row)? {
        return Ok(Some(fault));
    }
    if let Some(fault) = length_fault(alloc, table, indexes, i, row)? {
        return Ok(Some(fault));
    }
    let there = row_there(alloc, view, table, writes, row, n)?;
    if let Some(fault) = met_fault(
        alloc, view, table, indexes, writes, fresh, i, row, &there, n,
    )? {
        drop(there);
        return Ok(Some(fault));
    }
    write_row(alloc, table, indexes, writes, row, &there)?;
    drop(there);
    Ok(None)
}

// A key of the row with more than 1024 octets, or its text with more than 4096.
fn length_fault(
    alloc: Global,
    table: &Table,
    indexes: &[SqlIndex],
    i: u64,
    row: &[Value],
) -> Result<Option<SqlError>, AllocError>
    ensures { IfOk result (λ fault. fault ≡ option_or (spec.key_fault table.now indexes.now i row.now) (spec.length_fault i row.now)) }
{
    let written = all_written(alloc, table, indexes, row)?;
    let fault = if has_long_key(written.as_slice()) {
        Some(SqlError::KeyLong { row: i })
    } else if is_long_row(written.as_slice()) {
        Some(SqlError::RowLong { row: i })
    } else {
        None
    };
    drop(written);
    Ok(fault)
}

// Of a row that fits: that a row of its key is there, or that another row has its entry.
fn met_fault<V: KvView>(
    alloc: Global,
    view: &V,
    table: &Table,
    indexes: &[SqlIndex],
    writes: &Writes,
    fresh: bool,
    i: u64,
    row: &[Value],
    there: &Option<StoredRow>,
    n: u64,
) -> Result<Option<SqlError>, ViewError>
    requires { (history : List Transaction) × V.stands view.now history × (n ≤ length history) × IsHistory history × IsSqlKept (take n history)
        × IsTableOf (take n history) table.now × IndexesAre (take n history) table.now indexes.now }
    ensures { (history : List Transaction) → V.stands view.now history → n ≤ length history → IsHistory history → IsSqlKept (take n history)
        → IsTableOf (take n history) table.now → IndexesAre (take n history) table.now indexes.now
        → (stood rows : List TheStoredRow) → RowsAre (take n history) table.now stood → IsWorking table.now indexes.now stood writes.now rows
        → there.now ≡ spec.stored_at table.now rows (key_of table.now row.now)
        → IfOk result (λ fault. fault ≡ option_or (spec.duplicate_fault fresh table.now i row.now rows) (first_found (spec.unique_fault (take n history) table.now i row.now rows) indexes.now)) }
{
    if let Some(fault) = duplicate_fault(fresh, i, there) {
        return Ok(Some(fault));
    }
    unique_fault(alloc, view, table, indexes, writes, i, row, n)
}

// Of INSERT, that a row of the key is there.
fn duplicate_fault(fresh: bool, i: u64, there: &Option<StoredRow>) -> Option<SqlError>
    ensures { result ≡ (if fresh then option_map (λ s. error.Duplicate i s.tx) there.now else None) }
{
    match there {
        Some(stored) if fresh => Some(SqlError::Duplicate {
            row: i,
            tx: stored.tx,
        }),
        _ => None,
    }
}

// The lowest unique index in which another row has the row's entry.
fn unique_fault<V: KvView>(
    alloc: Global,
    view: &V,
    table: &Table,
    indexes: &[SqlIndex],
    writes: &Writes,
    i: u64,
    row: &[Value],
    n: u64,
) -> Result<Option<SqlError>, ViewError>
    requires { (history : List Transaction) × V.stands view.now history × (n ≤ length history) × IsHistory history × IsSqlKept (take n history)
        × IsTableOf (take n history) table.now × IndexesAre (take n history) table.now indexes.now }
    ensures { (history : List Transaction) → V.stands view.now history → n ≤ length history → IsHistory history → IsSqlKept (take n history)
        → IsTableOf (take n history) table.now → IndexesAre (take n history) table.now indexes.now
        → (stood rows : List TheStoredRow) → RowsAre (take n history) table.now stood → IsWorking table.now indexes.now stood writes.now rows
        → IfOk result (λ fault. fault ≡ first_found (spec.unique_fault (take n history) table.now i row.now rows) indexes.now) }
{
    for index in indexes {
        if let Some(tx) = entry_met(alloc, view, table, index, writes, row, n)? {
            return Ok(Some(SqlError::Unique {
                row: i,
                index: index.iid,
                tx,
            }));
        }
    }
    Ok(None)
}
