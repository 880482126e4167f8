//! The rows of a table, and those of its history, that meet a condition.

ghost use Rattle.std.specs.Prelude.{◌≡◌, ◌≤◌, ◌<◌, ◌++◌, ◌∷◌, [], ℕ, false, List, length, take, filter, map, bytes_eq, All, IfOk, OnOk};
ghost use Rattle.std.specs.List.{AllZip};
ghost use Rattle.im_model.specs.History.{IsHistory};
ghost use Rattle.im_model.specs.declared.transactions.Transaction.{Transaction};
ghost use Rattle.im_versions.specs.Versions.{begins_with};
ghost use Rattle.im_sqltype.specs.declared.values.Value.{Value as Cell};
ghost use Rattle.im_sqlparse.specs.declared.statements.Condition.{Condition as TheCondition};
ghost use Rattle.im_sqlmodel.specs.Conditions as conditions;
ghost use Rattle.im_sqlmodel.specs.Kept.{IsSqlSound, IsSqlKept, IsTableOf, IsSqlIndexOf};
ghost use Rattle.im_sqlmodel.specs.Rows.{RowsAre, IndexesAre, HistoryIs, key_of};
ghost use Rattle.im_sqlmodel.specs.Tables as tables;
ghost use Rattle.im_sqlmodel.specs.Writes.{entry_written};
ghost use Rattle.im_sqlmodel.specs.declared.rows.StoredRow.{StoredRow as TheStoredRow};
ghost use Rattle.im_catalog.specs.Rows.{IsRowsFront, entries_prefix};
ghost use Rattle.im_plan.specs.Plans as spec;

use crate::ways::{Way, way_of};
use im_catalog::histories::history_of;
use im_catalog::rows::{row_at, rows_from};
use im_expr::met::meets;
use im_octet::octets::Octets;
use im_octet::writer::Writer;
use im_sqlmodel::rows::StoredRow;
use im_sqlmodel::tables::{Nameable, SqlIndex, Table};
use im_sqlparse::statements::Condition;
use im_sqltype::kinds::ValueKind;
use im_sqltype::reading::{ReadError, read_row};
use im_sqltype::rows::Row;
use im_sqltype::texts::row_text;
use im_versions::changes::ChangesView;
use im_versions::errors::ViewError;
use im_versions::versions::Version;
use im_versions::view::KvView;
use sqlite_items::Boxed;
use std::alloc::{AllocError, Global};

/// The rows of a table that meet a condition after the first `n` transactions, by rising primary key. `indexes` are
/// the table's, `scope` its columns as `scope_of` gives them.
///
/// # Steps
///
/// It looks at no rows but those on the way (`way_of`): one `get` where the whole primary key is bound; one `scan` of the rows
/// that begin as the bound columns of the primary key do; or one `scan` of the entries that begin as the bound columns
/// of an index do, and one `get` for each, which are sorted by key. Each row found is judged once. Its only error is
/// want of memory.
pub fn rows_meeting<V: KvView>(
    alloc: Global,
    view: &V,
    table: &Table,
    indexes: &[SqlIndex],
    scope: &[Nameable],
    condition: &Option<Boxed<Condition>>,
    n: u64,
) -> Result<Vec<StoredRow>, ViewError>
    requires view { (history : List Transaction) × V.stands view.now history × (n ≤ length history) × IsSqlSound (take n history)
        × IsTableOf (take n history) table.now × IndexesAre (take n history) table.now indexes.now }
    requires scope { scope.now ≡ conditions.scope_of table.now false }
    ensures { (history : List Transaction) → V.stands view.now history → n ≤ length history → IsSqlSound (take n history)
        → IsTableOf (take n history) table.now → IndexesAre (take n history) table.now indexes.now
        → (rows : List TheStoredRow) → RowsAre (take n history) table.now rows
        → IfOk result (λ found. found.items ≡ filter (λ s. conditions.meets scope.now condition.now s.row) rows) }
{
    let way = way_of(alloc, table, indexes, condition)?;
    let mut found = rows_reached(alloc, view, table, indexes, &way, n)?;
    keep_rows(scope, condition, &mut found);
    Ok(found)
}

// Keeps the rows that meet a condition.
fn keep_rows(scope: &[Nameable], condition: &Option<Boxed<Condition>>, rows: &mut Vec<StoredRow>)
    ensures { rows.new.items ≡ filter (λ s. conditions.meets scope.now condition.now s.row) rows.old.items }
{
    rows.retain(|stored| meets(scope, condition, stored.row.as_slice()));
}

/// The rows of a table's history among the first `n` transactions that meet a condition, by rising primary key and
/// number: what `history_of` reads, each row judged once. Its only error is want of memory.
pub fn revisions_meeting<V: ChangesView>(
    alloc: Global,
    view: &V,
    table: &Table,
    scope: &[Nameable],
    condition: &Option<Boxed<Condition>>,
    n: u64,
) -> Result<Vec<Row>, ViewError>
    requires { (history : List Transaction) × V.stands view.now history × (n ≤ length history) × IsHistory history
        × IsSqlKept (take n history) × IsTableOf (take n history) table.now }
    ensures { (history : List Transaction) → V.stands view.now history → n ≤ length history → IsHistory history
        → IsSqlKept (take n history) → IsTableOf (take n history) table.now
        → (rows : List (List Cell)) → HistoryIs (take n history) table.now rows
        → IfOk result (λ found. found.items ≡ filter (conditions.meets scope.now condition.now) rows) }
{
    let mut found = history_of(alloc, view, table, n)?;
    keep_revisions(scope, condition, &mut found);
    Ok(found)
}

// Keeps the rows of a history that meet a condition.
fn keep_revisions(scope: &[Nameable], condition: &Option<Boxed<Condition>>, rows: &mut Vec<Row>)
    ensures { rows.new.items ≡ filter (conditions.meets scope.now condition.now) rows.old.items }
{
    rows.retain(|row| meets(scope, condition, row.as_slice()));
}

// The rows on a way, by rising primary key.
fn rows_reached<V: KvView>(
    alloc: Global,
    view: &V,
    table: &Table,
    indexes: &[SqlIndex],
    way: &Way,
    n: u64,
) -> Result<Vec<StoredRow>, ViewError>
    requires view { (history : List Transaction) × V.stands view.now history × (n ≤ length history) × IsSqlSound (take n history)
        × IsTableOf (take n history) table.now × IndexesAre (take n history) table.now indexes.now }
    requires way { (cs : List TheCondition) × spec.IsWay table.now indexes.now cs way.now }
    ensures { (history : List Transaction) → V.stands view.now history → n ≤ length history → IsSqlSound (take n history)
        → IsTableOf (take n history) table.now → IndexesAre (take n history) table.now indexes.now
        → (rows : List TheStoredRow) → RowsAre (take n history) table.now rows
        → IfOk result (λ found. found.items ≡ filter (λ s. spec.is_reached table.now indexes.now way.now s.row) rows) }
{
    match way {
        Way::Row(key) => one_row(alloc, view, table, key.as_slice(), n),
        Way::Rows(front) => rows_from(alloc, view, table, front.as_slice(), n),
        Way::Entries { index, front } => {
            rows_of_entries(alloc, view, table, &indexes[*index], front.as_slice(), n)
        }
    }
}

// The row of a key alone, or none.
fn one_row<V: KvView>(
    alloc: Global,
    view: &V,
    table: &Table,
    key: &[u8],
    n: u64,
) -> Result<Vec<StoredRow>, ViewError>
    requires view { (history : List Transaction) × V.stands view.now history × (n ≤ length history) × IsSqlSound (take n history)
        × IsTableOf (take n history) table.now }
    requires front { IsRowsFront table.now key.now }
    ensures { (history : List Transaction) → V.stands view.now history → n ≤ length history → IsSqlSound (take n history)
        → IsTableOf (take n history) table.now → (rows : List TheStoredRow) → RowsAre (take n history) table.now rows
        → IfOk result (λ found. found.items ≡ filter (λ s. bytes_eq (key_of table.now s.row) key.now) rows) }
{
    let there = row_at(alloc, view, table, key, n)?;
    let mut found = Vec::new(alloc);
    match there {
        Some(stored) => {
            add(&mut found, stored)?;
            Ok(found)
        }
        None => Ok(found),
    }
}

// Adds a row.
fn add(found: &mut Vec<StoredRow>, stored: StoredRow) -> Result<(), AllocError>
    ensures { OnOk result (found.new.items ≡ found.old.items ++ stored ∷ []) }
{
    found.push(stored)?;
    Ok(())
}

// The rows whose entries in an index begin with a front, by rising primary key.
fn rows_of_entries<V: KvView>(
    alloc: Global,
    view: &V,
    table: &Table,
    index: &SqlIndex,
    front: &[u8],
    n: u64,
) -> Result<Vec<StoredRow>, ViewError>
    requires view { (history : List Transaction) × V.stands view.now history × (n ≤ length history) × IsSqlSound (take n history)
        × IsSqlIndexOf (take n history) table.now index.now }
    requires front { (rest : List ℕ) × (front.now ≡ entries_prefix table.now index.now ++ rest) }
    ensures { (history : List Transaction) → V.stands view.now history → n ≤ length history → IsSqlSound (take n history)
        → IsSqlIndexOf (take n history) table.now index.now → (rows : List TheStoredRow) → RowsAre (take n history) table.now rows
        → IfOk result (λ found. found.items ≡ filter (λ s. begins_with front.now (entry_written table.now s.row index.now).key) rows) }
{
    let shown = view.scan(alloc, front, n)?;
    let mut keys = row_keys(alloc, table, index, shown.as_slice())?;
    drop(shown);
    keys.sort()?;
    let mut found = Vec::with_capacity(alloc, keys.len())?;
    for key in &keys {
        match row_at(alloc, view, table, key.as_slice(), n)? {
            Some(stored) => add(&mut found, stored)?,
            None => unreachable!(),
        }
    }
    Ok(found)
}

// The keys of the rows that have these entries.
fn row_keys(
    alloc: Global,
    table: &Table,
    index: &SqlIndex,
    entries: &[Version],
) -> Result<Vec<Vec<u8>>, AllocError>
    requires table { tables.IsTable table.now }
    requires index { tables.IsTableIndex table.now index.now }
    requires texts { All (spec.HasEntryText table.now index.now) entries.now }
    ensures { IfOk result (λ keys. AllZip (spec.IsKeyOfEntry table.now index.now) entries.now (map (λ k. k.items) keys.items)) }
{
    let kinds = entry_kinds(alloc, table, index)?;
    let mut keys = Vec::with_capacity(alloc, entries.len())?;
    for entry in entries {
        let key = row_key_of(alloc, table, index, kinds.as_slice(), entry)?;
        keys.push(key)?;
    }
    Ok(keys)
}

// The key of the row that has an entry: the value of one in a unique index says its primary key; in another one it
// stands behind the columns in the entry's key.
fn row_key_of(
    alloc: Global,
    table: &Table,
    index: &SqlIndex,
    kinds: &[ValueKind],
    entry: &Version,
) -> Result<Vec<u8>, AllocError>
    requires table { tables.IsTable table.now }
    requires index { tables.IsTableIndex table.now index.now }
    requires kinds { kinds.now ≡ spec.entry_kinds table.now index.now }
    requires text { spec.HasEntryText table.now index.now entry.now }
    ensures { IfOk result (λ key. spec.IsKeyOfEntry table.now index.now entry.now key.items) }
{
    let mut out = Writer::new(alloc);
    out.octets(&[0, 4])?;
    out.u32(table.tid)?;
    if index.unique {
        out.octets(entry.value.as_slice())?;
    } else {
        let text = key_behind(alloc, index, kinds, entry.key.as_slice())?;
        out.octets(text.as_slice())?;
    }
    Ok(out.into_vec())
}

// The text of the primary key, behind the columns in the key of an entry of an index that isn't unique.
fn key_behind(
    alloc: Global,
    index: &SqlIndex,
    kinds: &[ValueKind],
    key: &[u8],
) -> Result<Octets, AllocError>
    requires { spec.HasPlainKey index.now kinds.now key.now }
    ensures { IfOk result (spec.IsKeyBehind index.now kinds.now key.now) }
{
    let (_, texts) = key.split_at(10);
    match read_row(alloc, kinds, texts) {
        Ok(values) => {
            let (_, primary) = values.as_slice().split_at(index.columns.len());
            let text = row_text(alloc, primary);
            drop(values);
            text
        }
        Err(ReadError::Memory) => Err(AllocError),
        Err(ReadError::NotText) => unreachable!(),
    }
}

// The kinds of an index's columns, and then of the primary key's.
fn entry_kinds(alloc: Global, table: &Table, index: &SqlIndex) -> Result<Vec<ValueKind>, AllocError>
    requires table { tables.IsTable table.now }
    requires index { tables.IsTableIndex table.now index.now }
    ensures { IfOk result (λ kinds. kinds.items ≡ spec.entry_kinds table.now index.now) }
{
    let mut kinds = Vec::new(alloc);
    push_kinds(&mut kinds, table, index.columns.as_slice())?;
    push_kinds(&mut kinds, table, table.key.as_slice())?;
    Ok(kinds)
}

// Adds the kinds of some columns of a table, by their numbers.
fn push_kinds(kinds: &mut Vec<ValueKind>, table: &Table, numbers: &[u16]) -> Result<(), AllocError>
    requires { All (λ n. n < length table.now.columns) numbers.now }
    ensures { OnOk result (kinds.new.items ≡ kinds.old.items ++ spec.kinds_at table.now numbers.now) }
{
    let columns = table.columns.as_slice();
    for number in numbers {
        kinds.push(columns[*number as usize].holds.kind())?;
    }
    Ok(())
}
