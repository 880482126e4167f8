//! The keys under which a row and the entries of its indexes stand, and what they are written as. Columns are told by
//! their numbers, from 0; one past a row's end is NULL. The only error of each call is want of memory.

ghost use Rattle.std.specs.Prelude.{◌≡◌, ◌++◌, IfOk, OnOk, slice_index_or};
ghost use Rattle.im_sqltype.specs.Texts.{value_text, row_text};
ghost use Rattle.im_sqltype.specs.declared.values.Value.TheVariants as values;
ghost use Rattle.im_sqlmodel.specs.Rows as rows;
ghost use Rattle.im_sqlmodel.specs.Writes as spec;
ghost use Rattle.im_catalog.specs.Rows.{entries_prefix};

use im_octet::octets::Octets;
use im_octet::writer::Writer;
use im_sqlmodel::tables::{SqlIndex, Table};
use im_sqlmodel::written::Written;
use im_sqltype::texts::value_text;
use im_sqltype::values::Value;
use std::alloc::{AllocError, Global};

// The text of the value of a column.
fn cell_text(alloc: Global, row: &[Value], column: u16) -> Result<Octets, AllocError>
    ensures { IfOk result (λ text. text ≡ value_text (slice_index_or row.now column values.Null)) }
{
    let column = column as usize;
    if column < row.len() {
        value_text(alloc, &row[column])
    } else {
        value_text(alloc, &Value::Null)
    }
}

// Writes the texts of some columns of a row. Where memory is short, a part of them may be written.
fn push_columns(
    alloc: Global,
    out: &mut Writer,
    row: &[Value],
    columns: &[u16],
) -> Result<(), AllocError>
    ensures { OnOk result (out.new ≡ out.old ++ row_text (rows.columns_of row.now columns.now)) }
{
    for column in columns {
        let text = cell_text(alloc, row, *column)?;
        out.octets(text.as_slice())?;
    }
    Ok(())
}

/// The texts of some columns of a row, one behind the other, as they stand in keys.
pub fn columns_text(alloc: Global, row: &[Value], columns: &[u16]) -> Result<Octets, AllocError>
    ensures { IfOk result (λ text. text ≡ row_text (rows.columns_of row.now columns.now)) }
{
    let mut out = Writer::new(alloc);
    push_columns(alloc, &mut out, row, columns)?;
    Ok(Octets::from_vec(out.into_vec()))
}

/// The key of a row: 00 04, the table's number, the text of the primary key.
pub fn row_key(alloc: Global, table: &Table, row: &[Value]) -> Result<Octets, AllocError>
    ensures { IfOk result (λ key. key ≡ rows.key_of table.now row.now) }
{
    let mut out = Writer::new(alloc);
    out.octets(&[0, 4])?;
    out.u32(table.tid)?;
    push_columns(alloc, &mut out, row, table.key.as_slice())?;
    Ok(Octets::from_vec(out.into_vec()))
}

// Writes what the keys of an index's entries begin with. Where memory is short, a part of it may be written.
fn push_prefix(out: &mut Writer, table: &Table, index: &SqlIndex) -> Result<(), AllocError>
    ensures { OnOk result (out.new ≡ out.old ++ entries_prefix table.now index.now) }
{
    out.octets(&[0, if index.unique { 6 } else { 5 }])?;
    out.u32(table.tid)?;
    out.u32(index.iid)
}

/// What the keys of an index's entries begin with: 00 05, or 00 06 where it is unique, the table's number, its own.
pub fn entries_prefix(alloc: Global, table: &Table, index: &SqlIndex) -> Result<Octets, AllocError>
    ensures { IfOk result (λ prefix. prefix ≡ entries_prefix table.now index.now) }
{
    let mut out = Writer::new(alloc);
    push_prefix(&mut out, table, index)?;
    Ok(Octets::from_vec(out.into_vec()))
}

/// What a row is written as: its text, under its key.
pub fn row_written(alloc: Global, table: &Table, row: &[Value]) -> Result<Written, AllocError>
    ensures { IfOk result (λ written. written ≡ spec.row_written table.now row.now) }
{
    let key = row_key(alloc, table, row)?;
    let text = im_sqltype::texts::row_text(alloc, row)?;
    Ok(Written {
        key,
        value: Some(text),
    })
}

// The key of the entry that a row gives in an index.
fn entry_key(
    alloc: Global,
    table: &Table,
    row: &[Value],
    index: &SqlIndex,
) -> Result<Octets, AllocError>
    ensures { IfOk result (λ key. key ≡ (spec.entry_written table.now row.now index.now).key) }
{
    let mut out = Writer::new(alloc);
    push_prefix(&mut out, table, index)?;
    push_columns(alloc, &mut out, row, index.columns.as_slice())?;
    if !index.unique {
        push_columns(alloc, &mut out, row, table.key.as_slice())?;
    }
    Ok(Octets::from_vec(out.into_vec()))
}

// Its value: of a unique index the text of the primary key, else nothing.
fn entry_value(
    alloc: Global,
    table: &Table,
    row: &[Value],
    index: &SqlIndex,
) -> Result<Octets, AllocError>
    ensures { IfOk result (λ value. Some value ≡ (spec.entry_written table.now row.now index.now).value) }
{
    if index.unique {
        columns_text(alloc, row, table.key.as_slice())
    } else {
        Ok(Octets::new(alloc))
    }
}

/// The entry that a row gives in an index: in a unique one the primary key stands in its value, in another one at the
/// end of its key.
pub fn entry_written(
    alloc: Global,
    table: &Table,
    row: &[Value],
    index: &SqlIndex,
) -> Result<Written, AllocError>
    ensures { IfOk result (λ written. written ≡ spec.entry_written table.now row.now index.now) }
{
    let key = entry_key(alloc, table, row, index)?;
    let value = entry_value(alloc, table, row, index)?;
    Ok(Written {
        key,
        value: Some(value),
    })
}

/// What a row is written as, and then its entry of each index, in their order.
pub fn all_written(
    alloc: Global,
    table: &Table,
    indexes: &[SqlIndex],
    row: &[Value],
) -> Result<Vec<Written>, AllocError>
    ensures { IfOk result (λ written. written.items ≡ spec.all_written table.now indexes.now row.now) }
{
    let first = row_written(alloc, table, row)?;
    let mut written = Vec::new(alloc);
    written.push(first)?;
    for index in indexes {
        let entry = entry_written(alloc, table, row, index)?;
        written.push(entry)?;
    }
    Ok(written)
}

/// The same key, as deleted. It takes no memory.
pub fn deleted(written: Written) -> Written
    ensures { result ≡ spec.deleted written }
{
    let Written { key, value } = written;
    drop(value);
    Written { key, value: None }
}
