//! What is wrong with the rows of INSERT and UPSERT before the table's rows are looked at.

ghost use Rattle.std.specs.Prelude.{◌≡◌, ◌≤◌, List, length, map, nat_lt, option_map, IfOk};
ghost use Rattle.std.specs.List.{list_any};
ghost use Rattle.im_sqltype.specs.Kinds.{AreOfKinds, FitsColumn};
ghost use Rattle.im_sqltype.specs.Texts.{row_text};
ghost use Rattle.im_sqltype.specs.declared.values.Value.{Value as Cell};
ghost use Rattle.im_sqltype.specs.declared.values.Value.TheVariants as values;
ghost use Rattle.im_sqlmodel.specs.Conditions.{literal_value};
ghost use Rattle.im_sqlmodel.specs.Tables as tables;
ghost use Rattle.im_sqlmodel.specs.Writes as spec;
ghost use Rattle.im_sqlmodel.specs.declared.tables.SqlIndex.{SqlIndex as TheIndex};
ghost use Rattle.im_sqlmodel.specs.declared.tables.Table.{Table as TheTable};
ghost use Rattle.im_sql.specs.Ranges.{IsInRange};

use crate::names::{column_names, names_fault, place_of};
use im_octet::octets::Octets;
use im_sqlmodel::answers::SqlError;
use im_sqlmodel::tables::{Column, Table};
use im_sqlmodel::written::Written;
use im_sqlparse::statements::{Insertion, Literal};
use im_sqltype::columns::Misfit;
use im_sqltype::rows::Row;
use im_sqltype::values::Value;
use sqlite_items::Items;
use std::alloc::{AllocError, Global};

// The most octets of a key.
const MOST_KEY: usize = 1024;

// The most octets of a row's text.
const MOST_ROW: usize = 4096;

/// What is wrong with a statement before its first row is judged: a name that is no column, a name twice, and the
/// first row that has another number of values than these. Its only error is want of memory.
pub(crate) fn insertion_fault(
    alloc: Global,
    table: &Table,
    insertion: &Insertion,
) -> Result<Option<SqlError>, AllocError>
    ensures { IfOk result (λ fault. fault ≡ spec.insertion_fault table.now insertion.now) }
{
    let columns = column_names(alloc, table)?;
    if let Some(fault) = names_fault(alloc, columns.as_slice(), insertion.columns.as_slice())? {
        return Ok(Some(fault));
    }
    Ok(count_fault(insertion.rows.as_slice(), insertion.columns.len()))
}

// The first row that has another number of values than is wanted.
fn count_fault(rows: &[Items<Literal>], want: usize) -> Option<SqlError>
    ensures { result ≡ spec.count_fault 0 want rows.now }
{
    for (row, values) in rows.iter().enumerate() {
        if values.len() != want {
            return Some(SqlError::Count {
                row: row as u64,
                want: want as u64,
                got: values.len() as u64,
            });
        }
    }
    None
}

// A copy of a value as it is written.
fn value_written(alloc: Global, literal: &Literal) -> Result<Value, AllocError>
    ensures { IfOk result (λ value. value ≡ literal_value literal.now) }
{
    match literal {
        Literal::Null => Ok(Value::Null),
        Literal::Boolean(truth) => Ok(Value::Boolean(*truth)),
        Literal::Integer(number) => Ok(Value::Integer(*number)),
        Literal::Text(octets) => Ok(Value::Varchar(Octets::from_slice(alloc, octets.as_slice())?)),
        Literal::Blob(octets) => Ok(Value::Blob(Octets::from_slice(alloc, octets.as_slice())?)),
    }
}

// What a column is given: the value at its name's place, or NULL where its name isn't there.
fn value_given(
    alloc: Global,
    names: &[&[u8]],
    literals: &[Literal],
    name: &[u8],
) -> Result<Value, AllocError>
    ensures { IfOk result (λ value. value ≡ spec.value_given (map (λ n. n.now) names.now) (map literal_value literals.now) name.now) }
{
    match place_of(names, name) {
        Some(place) if place < literals.len() => value_written(alloc, &literals[place]),
        _ => Ok(Value::Null),
    }
}

/// The row of the table that values for the columns of these names are. Its only error is want of memory.
pub(crate) fn row_given(
    alloc: Global,
    table: &Table,
    names: &[&[u8]],
    literals: &[Literal],
) -> Result<Row, AllocError>
    ensures { IfOk result (λ row. row ≡ spec.row_given table.now (map (λ n. n.now) names.now) literals.now) }
{
    let columns = table.columns.as_slice();
    let mut row = Vec::with_capacity(alloc, columns.len())?;
    for column in columns {
        let value = value_given(alloc, names, literals, column.name.as_slice())?;
        row.push(value)?;
    }
    Ok(Row::from_vec(row))
}

// Whether a column, by its number, is one of the primary key's.
fn is_in_key(table: &Table, column: usize) -> bool
    ensures { result ≡ spec.is_in_key table.now column }
{
    table
        .key
        .as_slice()
        .iter()
        .any(|number| column == *number as usize)
}

fn misfit_error(
    alloc: Global,
    i: u64,
    column: &Column,
    misfit: Misfit,
) -> Result<SqlError, AllocError>
    ensures { IfOk result (λ fault. fault ≡ spec.misfit_error i column.now.name misfit) }
{
    let name = Octets::from_slice(alloc, column.name.as_slice())?;
    match misfit {
        Misfit::Kind => Ok(SqlError::WrongType { row: i, name }),
        Misfit::Long => Ok(SqlError::TooLong { row: i, name }),
    }
}

// NULL in a column that takes none.
fn null_fault(
    alloc: Global,
    table: &Table,
    i: u64,
    at: usize,
    column: &Column,
) -> Result<Option<SqlError>, AllocError>
    ensures { IfOk result (λ fault. fault ≡ spec.cell_fault table.now i at column.now values.Null) }
{
    if column.not_null || is_in_key(table, at) {
        let name = Octets::from_slice(alloc, column.name.as_slice())?;
        return Ok(Some(SqlError::NullGiven { row: i, name }));
    }
    Ok(None)
}

// A value of another kind than the column's, or one that is too long.
fn misfit_fault(
    alloc: Global,
    i: u64,
    column: &Column,
    value: &Value,
) -> Result<Option<SqlError>, AllocError>
    requires { IsInRange value.now }
    ensures fault { IfOk result (λ fault. fault ≡ option_map (spec.misfit_error i column.now.name) (spec.misfit_of column.now.holds value.now)) }
    ensures fits { IfOk result (λ fault. fault ≡ None → FitsColumn column.now.holds value.now) }
{
    match column.holds.judge(value) {
        Ok(()) => Ok(None),
        Err(misfit) => Ok(Some(misfit_error(alloc, i, column, misfit)?)),
    }
}

// What is wrong with the value of a column of row i.
fn cell_fault(
    alloc: Global,
    table: &Table,
    i: u64,
    at: usize,
    column: &Column,
    value: &Value,
) -> Result<Option<SqlError>, AllocError>
    ensures fault { IfOk result (λ fault. fault ≡ spec.cell_fault table.now i at column.now value.now) }
    ensures fits { IfOk result (λ fault. fault ≡ None → FitsColumn column.now.holds value.now) }
{
    match value {
        Value::Null => null_fault(alloc, table, i, at, column),
        Value::Integer(number) => {
            // It is read, so that a proof knows its range.
            let _number = *number;
            misfit_fault(alloc, i, column, value)
        }
        _ => misfit_fault(alloc, i, column, value),
    }
}

/// What is wrong with the values of row i, of the first column at fault in the table's order. Its only error is want of
/// memory.
pub(crate) fn cells_fault(
    alloc: Global,
    table: &Table,
    i: u64,
    row: &[Value],
) -> Result<Option<SqlError>, AllocError>
    requires { length row.now ≡ length table.now.columns }
    ensures fault { IfOk result (λ fault. fault ≡ spec.cells_fault table.now i 0 table.now.columns row.now) }
    ensures kinds { IfOk result (λ fault. fault ≡ None → AreOfKinds (tables.kinds_of table.now) row.now) }
{
    for (at, column) in table.columns.as_slice().iter().enumerate() {
        if let Some(fault) = cell_fault(alloc, table, i, at, column, &row[at])? {
            return Ok(Some(fault));
        }
    }
    Ok(None)
}

/// Whether a key of what a row is written as has more than 1024 octets.
pub(crate) fn has_long_key(written: &[Written]) -> bool
    ensures { result ≡ list_any (spec.is_long 1024) written.now }
{
    written.iter().any(|one| MOST_KEY < one.key.len())
}

/// Whether the row's own text, which is written first, has more than 4096 octets.
pub(crate) fn is_long_row(written: &[Written]) -> bool
    requires { 1 ≤ length written.now }
    ensures { (table : TheTable) (indexes : List TheIndex) (row : List Cell) → written.now ≡ spec.all_written table indexes row → result ≡ nat_lt 4096 (length (row_text row)) }
{
    match &written[0].value {
        Some(text) => MOST_ROW < text.len(),
        None => false,
    }
}
