//! The rows of a table in a view. Each call over a view asks it once, and its only error is want of memory.

ghost use Rattle.std.specs.Prelude.{◌≡◌, ◌≢◌, ◌≤◌, List, length, take, true, false, All, IfOk, MatchOption};
ghost use Rattle.std.specs.List.{AllZip};
ghost use Rattle.im_model.specs.declared.transactions.Transaction.{Transaction};
ghost use Rattle.im_sqltype.specs.Kinds.{AreOfKinds};
ghost use Rattle.im_sqltype.specs.Texts.{row_text};
ghost use Rattle.im_sqltype.specs.declared.values.Value.{Value as Cell};
ghost use Rattle.im_sqlmodel.specs.Kept.{IsSqlSound, IsTableOf};
ghost use Rattle.im_sqlmodel.specs.Rows.{IsStoredRow, key_of};
ghost use Rattle.im_sqlmodel.specs.Tables as spec;
ghost use Rattle.im_catalog.specs.Rows.{RowAt, RowsFrom, IsRowsFront, HasRowText};

use crate::entries::row_key;
use im_sqlmodel::rows::StoredRow;
use im_sqlmodel::tables::Table;
use im_sqltype::kinds::ValueKind;
use im_sqltype::reading::{ReadError, read_row};
use im_sqltype::rows::Row;
use im_versions::errors::ViewError;
use im_versions::versions::Version;
use im_versions::view::KvView;
use std::alloc::{AllocError, Global};

/// The kinds of a table's columns, in order. Its only error is want of memory.
pub fn kinds_of(alloc: Global, table: &Table) -> Result<Vec<ValueKind>, AllocError>
    ensures { IfOk result (λ kinds. kinds.items ≡ spec.kinds_of table.now) }
{
    let columns = table.columns.as_slice();
    let mut kinds = Vec::with_capacity(alloc, columns.len())?;
    for column in columns {
        kinds.push(column.holds.kind())?;
    }
    Ok(kinds)
}

/// Reads a row of a table back from its key and its text, by the kinds of the table's columns.
///
/// # Errors
///
/// `NotText` where no row of the table has this key and this text. `Memory` where memory runs out.
#[tactic(auto, using(crate::proofs::RowLemmas::rows_apart))]
pub fn read_row_of(
    alloc: Global,
    table: &Table,
    kinds: &[ValueKind],
    key: &[u8],
    text: &[u8],
) -> Result<Row, ReadError>
    requires { kinds.now ≡ spec.kinds_of table.now }
    ensures row { IfOk result (λ row. AreOfKinds (spec.kinds_of table.now) row × (key.now ≡ key_of table.now row) × (text.now ≡ row_text row)) }
    ensures none { result ≡ Err ReadError.NotText → (row : List Cell) → AreOfKinds (spec.kinds_of table.now) row → text.now ≡ row_text row → key.now ≢ key_of table.now row }
{
    let row = read_row(alloc, kinds, text)?;
    let own = row_key(alloc, table, row.as_slice())?;
    if own.as_slice() == key {
        return Ok(row);
    }
    drop(row);
    Err(ReadError::NotText)
}

/// The row of a key of the table's rows after the first `n` transactions, or none, by one `get`.
pub fn row_at<V: KvView>(
    alloc: Global,
    view: &V,
    table: &Table,
    key: &[u8],
    n: u64,
) -> Result<Option<StoredRow>, ViewError>
    requires view { (history : List Transaction) × V.stands view.now history × (n ≤ length history) × IsSqlSound (take n history)
        × IsTableOf (take n history) table.now }
    requires front { IsRowsFront table.now key.now }
    ensures { (history : List Transaction) → V.stands view.now history → n ≤ length history → IsSqlSound (take n history)
        → IsTableOf (take n history) table.now → IfOk result (RowAt (take n history) table.now key.now) }
{
    match view.get(alloc, key, n)? {
        Some(version) => live_row(alloc, table, &version),
        None => Ok(None),
    }
}

// The row that a version says, or none where it is a deletion.
fn live_row(alloc: Global, table: &Table, version: &Version) -> Result<Option<StoredRow>, ViewError>
    requires { version.now.deleted ≡ false → HasRowText table.now version.now.key version.now.value }
    ensures { IfOk result (λ found. MatchOption found (version.now.deleted ≡ true) (λ stored. (version.now.deleted ≡ false) × IsStoredRow table.now version.now stored)) }
{
    if version.deleted {
        return Ok(None);
    }
    let kinds = kinds_of(alloc, table)?;
    let stored = stored_of(alloc, table, kinds.as_slice(), version)?;
    Ok(Some(stored))
}

/// The rows whose keys begin with a front, which begins as all keys of the table's rows do, after the first `n`
/// transactions, by rising key: by one `scan`. All rows of the table are those of `rows_prefix`.
pub fn rows_from<V: KvView>(
    alloc: Global,
    view: &V,
    table: &Table,
    front: &[u8],
    n: u64,
) -> Result<Vec<StoredRow>, ViewError>
    requires view { (history : List Transaction) × V.stands view.now history × (n ≤ length history) × IsSqlSound (take n history)
        × IsTableOf (take n history) table.now }
    requires front { IsRowsFront table.now front.now }
    ensures { (history : List Transaction) → V.stands view.now history → n ≤ length history → IsSqlSound (take n history)
        → IsTableOf (take n history) table.now → IfOk result (λ rows. RowsFrom (take n history) table.now front.now rows.items) }
{
    let shown = view.scan(alloc, front, n)?;
    let rows = stored_rows(alloc, table, shown.as_slice())?;
    Ok(rows)
}

// The row that each of these versions says.
fn stored_rows(
    alloc: Global,
    table: &Table,
    shown: &[Version],
) -> Result<Vec<StoredRow>, AllocError>
    requires { All (λ v. HasRowText table.now v.key v.value) shown.now }
    ensures { IfOk result (λ rows. AllZip (IsStoredRow table.now) shown.now rows.items) }
{
    let kinds = kinds_of(alloc, table)?;
    let mut rows = Vec::new(alloc);
    for version in shown {
        let stored = stored_of(alloc, table, kinds.as_slice(), version)?;
        rows.push(stored)?;
    }
    Ok(rows)
}

// The row that a version says.
fn stored_of(
    alloc: Global,
    table: &Table,
    kinds: &[ValueKind],
    version: &Version,
) -> Result<StoredRow, AllocError>
    requires kinds { kinds.now ≡ spec.kinds_of table.now }
    requires text { HasRowText table.now version.now.key version.now.value }
    ensures { IfOk result (IsStoredRow table.now version.now) }
{
    let row = said_row(alloc, table, kinds, version)?;
    Ok(StoredRow {
        row,
        tx: version.tx,
    })
}

/// The values of the row that a version says. Its only error is want of memory.
pub(crate) fn said_row(
    alloc: Global,
    table: &Table,
    kinds: &[ValueKind],
    version: &Version,
) -> Result<Row, AllocError>
    requires kinds { kinds.now ≡ spec.kinds_of table.now }
    requires text { HasRowText table.now version.now.key version.now.value }
    ensures { IfOk result (λ row. AreOfKinds (spec.kinds_of table.now) row × (version.now.key ≡ key_of table.now row) × (version.now.value ≡ row_text row)) }
{
    match read_row_of(
        alloc,
        table,
        kinds,
        version.key.as_slice(),
        version.value.as_slice(),
    ) {
        Ok(row) => Ok(row),
        Err(ReadError::Memory) => Err(AllocError),
        Err(ReadError::NotText) => unreachable!(),
    }
}
