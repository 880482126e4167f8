//! What the live keys that begin with octet 00 say: tables, their indexes and their rows.

ghost use Rattle.std.specs.Prelude.{◌≡◌, ◌≢◌, ◌↔◌, ◌≤◌, ◌<◌, ◌^◌, ℕ, List, length, take, ◌++◌, All, IfOk, IsTrue, IfNone, IfSome, MatchOption};
ghost use Rattle.std.specs.List.{AllZip};
ghost use Rattle.std.specs.Ordering.{is_lt};
ghost use Rattle.im_octet.specs.Fields.{field4};
ghost use Rattle.im_model.specs.declared.transactions.Transaction.{Transaction};
ghost use Rattle.im_versions.specs.Versions.{begins_with, IsScan};
ghost use Rattle.im_sqltype.specs.Orders.{octets_cmp};
ghost use Rattle.im_sqlmodel.specs.Keys as keys;
ghost use Rattle.im_sqlmodel.specs.Rows.{IsIndexVersion, IsStoredRow};
ghost use Rattle.im_sqlmodel.specs.Tables as tables;
ghost use Rattle.im_sqlsound.specs.Sounding as spec;
ghost use Rattle.im_sqlmodel.specs.declared.rows.StoredRow.{StoredRow as TheStoredRow};
ghost use Rattle.im_sqlsound.specs.declared.found.TableFound.{TableFound as Found};

use crate::found::TableFound;
use im_catalog::keys::{index_prefix, rows_prefix};
use im_catalog::reading::{read_index, read_table};
use im_catalog::rows::{kinds_of, read_row_of};
use im_octet::reader::Reader;
use im_sqlmodel::rows::StoredRow;
use im_sqlmodel::tables::{SqlIndex, Table};
use im_sqltype::kinds::ValueKind;
use im_sqltype::reading::ReadError;
use im_versions::versions::Version;
use sqlite_items::Items;
use std::alloc::{AllocError, Global};

/// Whether a version's key is below another.
pub(crate) fn is_before(version: &Version, key: &[u8]) -> bool
    ensures { result ≡ is_lt (octets_cmp version.now.key key.now) }
{
    version.key.as_slice() < key
}

/// Whether octets are the same.
pub(crate) fn are_same(a: &[u8], b: &[u8]) -> bool
    ensures { IsTrue result ↔ (a.now ≡ b.now) }
{
    a == b
}

/// The versions, which have rising keys, whose keys begin with a front. They stand beside each other: it halves what is
/// left at each look.
pub(crate) fn under<'v>(shown: &'v [Version], front: &[u8]) -> &'v [Version]
    requires { (history : List Transaction) × (prefix : List ℕ) × IsScan history prefix shown.now }
    ensures { result.now ≡ spec.under front.now shown.now }
{
    let from = shown.partition_point(|version| is_before(version, front));
    let behind = &shown[from..];
    let count = behind.partition_point(|version| version.key.as_slice().starts_with(front));
    &behind[..count]
}

// ---- one version

/// The table that a version under the front of tables says. Its only error is want of memory.
pub(crate) fn table_said(alloc: Global, version: &Version) -> Result<Option<Table>, AllocError>
    requires { IsTrue (begins_with keys.table_prefix version.now.key) }
    ensures { IfOk result (λ found. MatchOption found (spec.SaysNoTable version.now) (spec.IsTableVersion version.now)) }
{
    let key = version.key.as_slice();
    match read_table(alloc, &key[2..], version.value.as_slice()) {
        Ok(table) => Ok(Some(table)),
        Err(ReadError::NotText) => Ok(None),
        Err(ReadError::Memory) => Err(AllocError),
    }
}

// The number that four octets in front are, and what stands behind them.
fn first_number(text: &[u8]) -> Option<(u32, &[u8])>
    ensures { MatchOption result (length text.now < 4) (λ front. text.now ≡ field4 front.0 ++ front.1.now) }
{
    let mut reader = Reader::new(text);
    match reader.u32() {
        Ok(number) => Some((number, reader.rest())),
        Err(_) => None,
    }
}

// The number in the key of an index, behind its front; none where it isn't four octets.
fn iid_in(key: &[u8]) -> Option<u32>
    requires { 6 ≤ length key.now }
    ensures some { IfSome result (λ iid. key.now ≡ take 6 key.now ++ field4 iid) }
    ensures none { IfNone result ((iid : ℕ) → iid < 2 ^ 32 → key.now ≢ take 6 key.now ++ field4 iid) }
{
    let Some((iid, behind)) = first_number(&key[6..]) else {
        return None;
    };
    if !behind.is_empty() {
        return None;
    }
    Some(iid)
}

// The index of a table that a version under its front says.
fn index_said(
    alloc: Global,
    table: &Table,
    version: &Version,
) -> Result<Option<SqlIndex>, AllocError>
    requires table { tables.IsTable table.now }
    requires front { IsTrue (begins_with (keys.index_prefix table.now.tid) version.now.key) }
    ensures { IfOk result (λ found. MatchOption found (spec.SaysNoIndex table.now version.now) (IsIndexVersion table.now version.now)) }
{
    let Some(iid) = iid_in(version.key.as_slice()) else {
        return Ok(None);
    };
    match read_index(alloc, table, iid, version.value.as_slice()) {
        Ok(index) => Ok(Some(index)),
        Err(ReadError::NotText) => Ok(None),
        Err(ReadError::Memory) => Err(AllocError),
    }
}

// The row of a table that a version says.
fn row_said(
    alloc: Global,
    table: &Table,
    kinds: &[ValueKind],
    version: &Version,
) -> Result<Option<StoredRow>, AllocError>
    requires { kinds.now ≡ tables.kinds_of table.now }
    ensures { IfOk result (λ found. MatchOption found ((s : TheStoredRow) → IsStoredRow table.now version.now s → ⊥) (IsStoredRow table.now version.now)) }
{
    match read_row_of(
        alloc,
        table,
        kinds,
        version.key.as_slice(),
        version.value.as_slice(),
    ) {
        Ok(row) => Ok(Some(StoredRow {
            row,
            tx: version.tx,
        })),
        Err(ReadError::NotText) => Ok(None),
        Err(ReadError::Memory) => Err(AllocError),
    }
}

// ---- several

// The indexes of a table that these versions say, or none where one says none.
fn indexes_said(
    alloc: Global,
    table: &Table,
    shown: &[Version],
) -> Result<Option<Items<SqlIndex>>, AllocError>
    requires table { tables.IsTable table.now }
    requires front { All (λ v. IsTrue (begins_with (keys.index_prefix table.now.tid) v.key)) shown.now }
    ensures { IfOk result (λ found. MatchOption found (spec.NoneAreSaid (IsIndexVersion table.now) shown.now) (AllZip (IsIndexVersion table.now) shown.now)) }
{
    let mut indexes = Vec::with_capacity(alloc, shown.len())?;
    for version in shown {
        match index_said(alloc, table, version)? {
            Some(index) => indexes.push(index)?,
            None => {
                drop(indexes);
                return Ok(None);
            }
        }
    }
    Ok(Some(Items::from_vec(indexes)))
}

/// The rows of a table that these versions say, or none where one says none. Its only error is want of memory.
pub(crate) fn rows_said(
    alloc: Global,
    table: &Table,
    shown: &[Version],
) -> Result<Option<Items<StoredRow>>, AllocError>
    ensures { IfOk result (λ found. MatchOption found (spec.NoneAreSaid (IsStoredRow table.now) shown.now) (AllZip (IsStoredRow table.now) shown.now)) }
{
    let kinds = kinds_of(alloc, table)?;
    let mut rows = Vec::with_capacity(alloc, shown.len())?;
    for version in shown {
        match row_said(alloc, table, kinds.as_slice(), version)? {
            Some(row) => rows.push(row)?,
            None => {
                drop(rows);
                return Ok(None);
            }
        }
    }
    Ok(Some(Items::from_vec(rows)))
}

// The indexes of a table that the live keys say, or none where one says none.
fn indexes_shown(
    alloc: Global,
    table: &Table,
    shown: &[Version],
) -> Result<Option<Items<SqlIndex>>, AllocError>
    requires table { tables.IsTable table.now }
    requires scan { (history : List Transaction) × (prefix : List ℕ) × IsScan history prefix shown.now }
    ensures { let own = spec.under (keys.index_prefix table.now.tid) shown.now
        in IfOk result (λ found. MatchOption found (spec.NoneAreSaid (IsIndexVersion table.now) own) (AllZip (IsIndexVersion table.now) own)) }
{
    let front = index_prefix(alloc, table.tid)?;
    let own = under(shown, front.as_slice());
    indexes_said(alloc, table, own)
}

// The rows of a table that they say, or none where one says none.
fn rows_shown(
    alloc: Global,
    table: &Table,
    shown: &[Version],
) -> Result<Option<Items<StoredRow>>, AllocError>
    requires { (history : List Transaction) × (prefix : List ℕ) × IsScan history prefix shown.now }
    ensures { let own = spec.under (keys.rows_prefix table.now.tid) shown.now
        in IfOk result (λ found. MatchOption found (spec.NoneAreSaid (IsStoredRow table.now) own) (AllZip (IsStoredRow table.now) own)) }
{
    let front = rows_prefix(alloc, table.tid)?;
    let own = under(shown, front.as_slice());
    rows_said(alloc, table, own)
}

// ---- tables

// A table with its indexes and rows, as the live keys say them, or none where one says none.
fn found_of(
    alloc: Global,
    shown: &[Version],
    table: Table,
) -> Result<Option<TableFound>, AllocError>
    requires table { tables.IsTable table }
    requires scan { (history : List Transaction) × (prefix : List ℕ) × IsScan history prefix shown.now }
    ensures { IfOk result (λ found. MatchOption found ((f : Found) → f.table ≡ table → spec.IsFound shown.now f → ⊥) (λ f. (f.table ≡ table) × spec.IsFound shown.now f)) }
{
    let Some(indexes) = indexes_shown(alloc, &table, shown)? else {
        drop(table);
        return Ok(None);
    };
    let Some(rows) = rows_shown(alloc, &table, shown)? else {
        drop(table);
        drop(indexes);
        return Ok(None);
    };
    Ok(Some(TableFound {
        table,
        indexes,
        rows,
    }))
}

// A table with its indexes and rows, by the version that says the table.
fn found_by(
    alloc: Global,
    shown: &[Version],
    version: &Version,
) -> Result<Option<TableFound>, AllocError>
    requires front { IsTrue (begins_with keys.table_prefix version.now.key) }
    requires scan { (history : List Transaction) × (prefix : List ℕ) × IsScan history prefix shown.now }
    ensures { IfOk result (λ found. MatchOption found ((f : Found) → spec.IsFoundBy shown.now version.now f → ⊥) (spec.IsFoundBy shown.now version.now)) }
{
    match table_said(alloc, version)? {
        Some(table) => found_of(alloc, shown, table),
        None => Ok(None),
    }
}

/// All tables with their indexes and rows, or none where a key says none. Its only error is want of memory.
pub(crate) fn tables_found(
    alloc: Global,
    shown: &[Version],
) -> Result<Option<Vec<TableFound>>, AllocError>
    requires { (history : List Transaction) × (prefix : List ℕ) × IsScan history prefix shown.now }
    ensures { IfOk result (λ found. MatchOption found (spec.NoneAreFound shown.now) (λ fs. spec.AreFound shown.now fs.items)) }
{
    let said = under(shown, &[0, 1]);
    let mut tables = Vec::new(alloc);
    for version in said {
        match found_by(alloc, shown, version)? {
            Some(found) => tables.push(found)?,
            None => {
                drop(tables);
                return Ok(None);
            }
        }
    }
    Ok(Some(tables))
}
