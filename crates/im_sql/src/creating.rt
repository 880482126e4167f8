//! CREATE TABLE and CREATE INDEX.

ghost use Rattle.std.specs.Prelude.{◌≡◌, ◌≤◌, ◌<◌, ◌-◌, ◌^◌, ◌⊎◌, ◌∷◌, [], List, length, take, map, not, nat_eq, All, IfOk};
ghost use Rattle.im_model.specs.History.{IsHistory};
ghost use Rattle.im_model.specs.declared.transactions.Transaction.{Transaction};
ghost use Rattle.im_sqlparse.specs.Formed.{IsCreateTable, IsCreateIndex, IsDeclared, IsDefinition};
ghost use Rattle.im_sqlmodel.specs.Creations as spec;
ghost use Rattle.im_sqlmodel.specs.Kept.{IsSqlKept, IsTableOf};
ghost use Rattle.im_sqlmodel.specs.Keys as keys;
ghost use Rattle.im_sqlmodel.specs.Rows.{RowsAre};
ghost use Rattle.im_sqlmodel.specs.Tables as tables;
ghost use Rattle.im_sqlmodel.specs.declared.answers.SqlError.TheVariants as error;
ghost use Rattle.im_sqlmodel.specs.declared.answers.SqlOut.TheVariants as out;
ghost use Rattle.im_sqlmodel.specs.declared.rows.StoredRow.{StoredRow as TheStoredRow};
ghost use Rattle.im_sql.specs.Writing.{Answers, table_entries};

use crate::names::{column_names, names_fault, names_in, place_of, twice_fault};
use crate::placing::{ask_since, two_keys};
use im_catalog::catalogue::{count, indexes, table};
use im_catalog::keys::{index_key, mark_key, rows_prefix, table_key, tables_key};
use im_catalog::texts::{index_text, table_text};
use im_octet::octets::Octets;
use im_octet::writer::Writer;
use im_sqlmodel::answers::{SqlError, SqlOut};
use im_sqlmodel::tables::{Column, SqlIndex, Table};
use im_sqlmodel::written::Written;
use im_sqlparse::statements::{ColumnDefinition, CreateIndex, CreateTable, DeclaredType, Name};
use im_sqltype::columns::{ColumnType, Limit};
use im_versions::errors::ViewError;
use im_versions::view::KvView;
use sqlite_items::Items;
use std::alloc::{AllocError, Global};

// ---- CREATE TABLE

/// What CREATE TABLE answers where its line counts n transactions: it asks the view at most twice.
///
/// # Errors
///
/// The first of: `Exists`; of the columns `Twice`; of the key `NoColumn`, `Twice`. `Memory` where memory runs out.
pub(crate) fn create_table<V: KvView>(
    alloc: Global,
    view: &V,
    create: &CreateTable,
    n: u64,
) -> Result<SqlOut, SqlError>
    requires view { (history : List Transaction) × V.stands view.now history × (n ≤ length history) × IsHistory history × IsSqlKept (take n history) }
    requires formed { IsCreateTable create.now }
    ensures { (history : List Transaction) → V.stands view.now history → n ≤ length history → IsHistory history → IsSqlKept (take n history)
        → (result ≡ Err error.Memory) ⊎ spec.CreateTableIs (take n history) create.now result }
{
    let Some(there) = table(alloc, view, create.table.as_slice(), n)? else {
        return create_new(alloc, view, create, n);
    };
    drop(there);
    if create.if_not_exists {
        return Ok(SqlOut::Nothing);
    }
    let table = Octets::from_slice(alloc, create.table.as_slice())?;
    Err(SqlError::Exists { table })
}

// What it answers where the table isn't there.
fn create_new<V: KvView>(
    alloc: Global,
    view: &V,
    create: &CreateTable,
    n: u64,
) -> Result<SqlOut, SqlError>
    requires view { (history : List Transaction) × V.stands view.now history × (n ≤ length history) × IsHistory history × IsSqlKept (take n history) }
    requires formed { IsCreateTable create.now }
    ensures { (history : List Transaction) → V.stands view.now history → n ≤ length history → IsHistory history → IsSqlKept (take n history)
        → (result ≡ Err error.Memory) ⊎ spec.CreateTableOf (take n history) create.now result }
{
    if let Some(fault) = create_fault(alloc, create)? {
        return Err(fault);
    }
    let count = count(alloc, view, n)?;
    let table = table_made(alloc, count, create)?;
    let written = table_written(alloc, &table);
    drop(table);
    let written = written?;
    let first = Octets::from_slice(alloc, &tables_key())?;
    let second = table_key(alloc, create.table.as_slice())?;
    let keys = two_keys(alloc, first, second)?;
    ask_since(alloc, n, written, keys)
}

// What is wrong with the columns, and then with the key.
fn create_fault(alloc: Global, create: &CreateTable) -> Result<Option<SqlError>, AllocError>
    ensures { IfOk result (λ fault. fault ≡ spec.create_fault create.now) }
{
    let columns = names_in(alloc, create.columns.as_slice())?;
    if let Some(fault) = twice_fault(alloc, columns.as_slice())? {
        return Ok(Some(fault));
    }
    names_fault(alloc, columns.as_slice(), create.key.as_slice())
}

// A column's type as values are judged by it.
fn type_of(holds: DeclaredType) -> ColumnType
    requires { IsDeclared holds }
    ensures { result ≡ spec.type_of holds }
{
    match holds {
        DeclaredType::Integer => ColumnType::Integer,
        DeclaredType::Boolean => ColumnType::Boolean,
        DeclaredType::Varchar(octets) => ColumnType::Varchar(Limit::new(octets as u16)),
        DeclaredType::Blob(octets) => ColumnType::Blob(Limit::new(octets as u16)),
    }
}

fn columns_of(alloc: Global, definitions: &[ColumnDefinition]) -> Result<Items<Column>, AllocError>
    requires { All IsDefinition definitions.now }
    ensures { IfOk result (λ columns. columns ≡ map spec.column_of definitions.now) }
{
    let mut columns = Vec::with_capacity(alloc, definitions.len())?;
    for definition in definitions {
        let name = Octets::from_slice(alloc, definition.name.as_slice())?;
        columns.push(Column {
            name,
            holds: type_of(definition.holds),
            not_null: definition.not_null,
        })?;
    }
    Ok(Items::from_vec(columns))
}

// The number of a name among those of columns; 0 where it is none of them.
fn column_number(columns: &[&[u8]], name: &[u8]) -> u16
    requires { length columns.now ≤ 64 }
    ensures { result ≡ spec.column_number (map (λ n. n.now) columns.now) name.now }
{
    match place_of(columns, name) {
        Some(place) => place as u16,
        None => 0,
    }
}

fn numbers_of(alloc: Global, columns: &[&[u8]], names: &[Name]) -> Result<Items<u16>, AllocError>
    requires { length columns.now ≤ 64 }
    ensures { IfOk result (λ numbers. numbers ≡ map (spec.column_number (map (λ n. n.now) columns.now)) names.now) }
{
    let mut numbers = Vec::with_capacity(alloc, names.len())?;
    for name in names {
        numbers.push(column_number(columns, name.as_slice()))?;
    }
    Ok(Items::from_vec(numbers))
}

// The table behind so many others.
fn table_made(alloc: Global, count: u32, create: &CreateTable) -> Result<Table, AllocError>
    requires count { count < 2 ^ 32 - 1 }
    requires formed { IsCreateTable create.now }
    ensures { IfOk result (λ table. table ≡ spec.table_made count create.now) }
{
    let names = names_in(alloc, create.columns.as_slice())?;
    let key = numbers_of(alloc, names.as_slice(), create.key.as_slice())?;
    let columns = columns_of(alloc, create.columns.as_slice())?;
    let name = Octets::from_slice(alloc, create.table.as_slice())?;
    Ok(Table {
        tid: count + 1,
        name,
        columns,
        key,
    })
}

// The number of tables, which is that of this one, and its text.
fn table_written(alloc: Global, table: &Table) -> Result<Vec<Written>, AllocError>
    requires { tables.IsTable table.now }
    ensures { IfOk result (λ written. written.items ≡ table_entries table.now) }
{
    let mut count = Writer::new(alloc);
    count.u32(table.tid)?;
    let first = Written {
        key: Octets::from_slice(alloc, &tables_key())?,
        value: Some(Octets::from_vec(count.into_vec())),
    };
    let second = Written {
        key: table_key(alloc, table.name.as_slice())?,
        value: Some(table_text(alloc, table)?),
    };
    Ok(vec![in alloc; first, second]?)
}

// ---- CREATE INDEX

/// What CREATE INDEX answers where its line counts n transactions: it asks the view at most three times.
///
/// # Errors
///
/// The first of: `NoTable`; `NoColumn`; `Twice`; `HasRows`. `Memory` where memory runs out.
pub(crate) fn create_index<V: KvView>(
    alloc: Global,
    view: &V,
    create: &CreateIndex,
    n: u64,
) -> Result<SqlOut, SqlError>
    requires view { (history : List Transaction) × V.stands view.now history × (n ≤ length history) × IsHistory history × IsSqlKept (take n history) }
    requires formed { IsCreateIndex create.now }
    ensures { (history : List Transaction) → V.stands view.now history → n ≤ length history → IsHistory history → IsSqlKept (take n history)
        → (result ≡ Err error.Memory) ⊎ spec.CreateIndexIs (take n history) create.now result }
{
    match table(alloc, view, create.table.as_slice(), n)? {
        Some(table) => {
            let answer = create_index_of(alloc, view, create, &table, n);
            drop(table);
            answer
        }
        None => {
            let table = Octets::from_slice(alloc, create.table.as_slice())?;
            Err(SqlError::NoTable { table })
        }
    }
}

// What it answers of a table that is there.
fn create_index_of<V: KvView>(
    alloc: Global,
    view: &V,
    create: &CreateIndex,
    table: &Table,
    n: u64,
) -> Result<SqlOut, SqlError>
    requires view { (history : List Transaction) × V.stands view.now history × (n ≤ length history) × IsHistory history × IsSqlKept (take n history)
        × IsTableOf (take n history) table.now }
    requires formed { IsCreateIndex create.now }
    ensures { (history : List Transaction) → V.stands view.now history → n ≤ length history → IsHistory history → IsSqlKept (take n history)
        → IsTableOf (take n history) table.now → (result ≡ Err error.Memory) ⊎ spec.CreateIndexOf (take n history) create.now table.now result }
{
    let columns = column_names(alloc, table)?;
    if let Some(fault) = names_fault(alloc, columns.as_slice(), create.columns.as_slice())? {
        return Err(fault);
    }
    if has_rows(alloc, view, table, n)? {
        let table = Octets::from_slice(alloc, create.table.as_slice())?;
        return Err(SqlError::HasRows { table });
    }
    let others = indexes(alloc, view, table, n)?;
    let index = SqlIndex {
        iid: others.len() as u32 + 1,
        unique: create.unique,
        columns: numbers_of(alloc, columns.as_slice(), create.columns.as_slice())?,
    };
    drop(others);
    let answer = ask_index(alloc, table, &index, n);
    drop(index);
    answer
}

// Asks for an index of the table.
fn ask_index(alloc: Global, table: &Table, index: &SqlIndex, n: u64) -> Result<SqlOut, SqlError>
    requires table { tables.IsTable table.now }
    requires index { tables.IsTableIndex table.now index.now }
    ensures { Answers result (Ok (out.Write (spec.asked_since n (spec.index_written table.now index.now) (keys.index_key table.now.tid index.now.iid ∷ keys.mark_key table.now.tid ∷ [])))) }
{
    let key = index_key(alloc, table.tid, index.iid)?;
    let mark = mark_key(alloc, table.tid)?;
    let written = index_written(alloc, table, index)?;
    let keys = two_keys(alloc, key, mark)?;
    ask_since(alloc, n, written, keys)
}

// Whether the table has rows, by one `scan`.
fn has_rows<V: KvView>(alloc: Global, view: &V, table: &Table, n: u64) -> Result<bool, ViewError>
    requires { (history : List Transaction) × V.stands view.now history × (n ≤ length history) }
    ensures { (history : List Transaction) → V.stands view.now history → n ≤ length history → (rows : List TheStoredRow) → RowsAre (take n history) table.now rows
        → IfOk result (λ has. has ≡ not (nat_eq (length rows) 0)) }
{
    let prefix = rows_prefix(alloc, table.tid)?;
    let shown = view.scan(alloc, prefix.as_slice(), n)?;
    Ok(!shown.as_slice().is_empty())
}

fn index_written(alloc: Global, table: &Table, index: &SqlIndex) -> Result<Vec<Written>, AllocError>
    requires table { tables.IsTable table.now }
    requires index { tables.IsTableIndex table.now index.now }
    ensures { IfOk result (λ written. written.items ≡ spec.index_written table.now index.now) }
{
    let written = Written {
        key: index_key(alloc, table.tid, index.iid)?,
        value: Some(index_text(alloc, table, index)?),
    };
    Ok(vec![in alloc; written]?)
}
