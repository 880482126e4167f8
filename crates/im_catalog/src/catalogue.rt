//! The catalogue of a view: its tables and their indexes after a number of transactions. Each call asks the view once,
//! and its only error is want of memory.

ghost use Rattle.std.specs.Prelude.{◌≡◌, ◌≤◌, ℕ, ◌<◌, ◌^◌, List, length, take, false, All, IfOk};
ghost use Rattle.std.specs.List.{AllZip};
ghost use Rattle.im_model.specs.declared.transactions.Transaction.{Transaction};
ghost use Rattle.im_sqlmodel.specs.Kept.{IsSqlSound, IsTableOf};
ghost use Rattle.im_sqlmodel.specs.Rows.{TableIs, CountIs, IndexesAre, IsIndexVersion};
ghost use Rattle.im_sqlmodel.specs.Keys.{index_key};
ghost use Rattle.im_sqlmodel.specs.Tables.{IsTable};
ghost use Rattle.im_catalog.specs.Found.{HasTableText, SaysTable, HasCountText, SaysCount, HasIndexText};

use crate::keys::{index_prefix, table_key, tables_key};
use crate::reading::{read_index, read_table};
use im_octet::reader::Reader;
use im_sqlmodel::tables::{SqlIndex, Table};
use im_sqltype::reading::ReadError;
use im_versions::errors::ViewError;
use im_versions::versions::Version;
use im_versions::view::KvView;
use sqlite_items::Items;
use std::alloc::{AllocError, Global};

/// How many tables there are after the first `n` transactions.
pub fn count<V: KvView>(alloc: Global, view: &V, n: u64) -> Result<u32, ViewError>
    requires { (history : List Transaction) × V.stands view.now history × (n ≤ length history) × IsSqlSound (take n history) }
    ensures { (history : List Transaction) → V.stands view.now history → n ≤ length history → IsSqlSound (take n history)
        → IfOk result (CountIs (take n history)) }
{
    match view.get(alloc, &tables_key(), n)? {
        Some(version) => Ok(count_of(&version)),
        None => Ok(0),
    }
}

// The number of tables that a version of its key says.
fn count_of(version: &Version) -> u32
    requires { version.now.deleted ≡ false → HasCountText version.now.value }
    ensures { SaysCount version.now result }
{
    if version.deleted {
        return 0;
    }
    let mut reader = Reader::new(version.value.as_slice());
    match reader.u32() {
        Ok(count) => count,
        Err(_) => unreachable!(),
    }
}

/// The table of a name after the first `n` transactions, or none.
pub fn table<V: KvView>(
    alloc: Global,
    view: &V,
    name: &[u8],
    n: u64,
) -> Result<Option<Table>, ViewError>
    requires { (history : List Transaction) × V.stands view.now history × (n ≤ length history) × IsSqlSound (take n history) }
    ensures { (history : List Transaction) → V.stands view.now history → n ≤ length history → IsSqlSound (take n history)
        → IfOk result (TableIs (take n history) name.now) }
{
    let key = table_key(alloc, name)?;
    match view.get(alloc, key.as_slice(), n)? {
        Some(version) => table_of(alloc, name, &version),
        None => Ok(None),
    }
}

// The table that a version of its key says, or none.
fn table_of(alloc: Global, name: &[u8], version: &Version) -> Result<Option<Table>, ViewError>
    requires { version.now.deleted ≡ false → HasTableText name.now version.now.value }
    ensures { IfOk result (SaysTable name.now version.now) }
{
    if version.deleted {
        return Ok(None);
    }
    match read_table(alloc, name, version.value.as_slice()) {
        Ok(table) => Ok(Some(table)),
        Err(ReadError::Memory) => Err(ViewError::Memory),
        Err(ReadError::NotText) => unreachable!(),
    }
}

/// The indexes of a table after the first `n` transactions, by rising number.
pub fn indexes<V: KvView>(
    alloc: Global,
    view: &V,
    table: &Table,
    n: u64,
) -> Result<Items<SqlIndex>, ViewError>
    requires { (history : List Transaction) × V.stands view.now history × (n ≤ length history) × IsSqlSound (take n history)
        × IsTableOf (take n history) table.now }
    ensures { (history : List Transaction) → V.stands view.now history → n ≤ length history → IsSqlSound (take n history)
        → IsTableOf (take n history) table.now → IfOk result (IndexesAre (take n history) table.now) }
{
    let prefix = index_prefix(alloc, table.tid)?;
    let shown = view.scan(alloc, prefix.as_slice(), n)?;
    let indexes = indexes_of(alloc, table, shown.as_slice())?;
    Ok(indexes)
}

// The index that each of these versions says.
fn indexes_of(
    alloc: Global,
    table: &Table,
    shown: &[Version],
) -> Result<Items<SqlIndex>, AllocError>
    requires table { IsTable table.now }
    requires texts { All (HasIndexText table.now) shown.now }
    ensures { IfOk result (λ indexes. AllZip (IsIndexVersion table.now) shown.now indexes) }
{
    let mut indexes = Vec::new(alloc);
    for version in shown {
        let index = index_of(alloc, table, version)?;
        indexes.push(index)?;
    }
    Ok(Items::from_vec(indexes))
}

// The index that a version of its key says.
fn index_of(alloc: Global, table: &Table, version: &Version) -> Result<SqlIndex, AllocError>
    requires table { IsTable table.now }
    requires text { HasIndexText table.now version.now }
    ensures { IfOk result (IsIndexVersion table.now version.now) }
{
    match read_index(
        alloc,
        table,
        iid_of(version.key.as_slice()),
        version.value.as_slice(),
    ) {
        Ok(index) => Ok(index),
        Err(ReadError::Memory) => Err(AllocError),
        Err(ReadError::NotText) => unreachable!(),
    }
}

// The number of the index whose key this is.
fn iid_of(key: &[u8]) -> u32
    requires { (tid : ℕ) × (iid : ℕ) × (iid < 2 ^ 32) × (key.now ≡ index_key tid iid) }
    ensures { (tid iid : ℕ) → iid < 2 ^ 32 → key.now ≡ index_key tid iid → result ≡ iid }
{
    let (_, behind) = key.split_at(6);
    let mut reader = Reader::new(behind);
    match reader.u32() {
        Ok(iid) => iid,
        Err(_) => unreachable!(),
    }
}
