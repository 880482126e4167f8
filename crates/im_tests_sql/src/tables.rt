//! The table `t (id INTEGER, v VARCHAR[8], PRIMARY KEY id)`, and its text.

use im_catalog::reading::read_table;
use im_catalog::texts::table_text;
use im_octet::octets::Octets;
use im_sqlmodel::tables::{Column, Table};
use im_sqltype::columns::{ColumnType, Limit};
use im_sqltype::reading::ReadError;
use sqlite_items::Items;
use std::alloc::{AllocError, Global};
use std::test::Fail;

const TEXT: [u8; 23] = [
    0, 0, 0, 1, 0, 2, 2, b'i', b'd', 1, 0, 0, 0, 1, b'v', 3, 0, 8, 0, 0, 1, 0, 0,
];

// Adds a column to those of a table.
fn push_column(
    alloc: Global,
    columns: &mut Vec<Column>,
    name: &[u8],
    holds: ColumnType,
) -> Result<(), AllocError> {
    let name = Octets::from_slice(alloc, name)?;
    columns.push(Column {
        name,
        holds,
        not_null: false,
    })?;
    Ok(())
}

// Adds the columns of the table.
fn push_columns(alloc: Global, columns: &mut Vec<Column>) -> Result<(), AllocError> {
    push_column(alloc, columns, b"id", ColumnType::Integer)?;
    push_column(alloc, columns, b"v", ColumnType::Varchar(Limit::new(8)))
}

// The columns of the table.
fn sample_columns(alloc: Global) -> Result<Vec<Column>, AllocError> {
    let mut columns = Vec::new(alloc);
    match push_columns(alloc, &mut columns) {
        Ok(()) => Ok(columns),
        Err(error) => {
            drop(columns);
            Err(error)
        }
    }
}

/// The table.
pub(crate) fn sample_table(alloc: Global) -> Result<Table, AllocError> {
    let name = Octets::from_slice(alloc, b"t")?;
    let key = Items::from_slice(alloc, &[0])?;
    let columns = sample_columns(alloc)?;
    Ok(Table {
        tid: 1,
        name,
        columns: Items::from_vec(columns),
        key,
    })
}

// Whether two tables are one, by their parts.
fn is_same(one: &Table, other: &Table) -> bool {
    one.tid == other.tid
        && one.name.as_slice() == other.name.as_slice()
        && one.columns.len() == other.columns.len()
        && one.key.as_slice() == other.key.as_slice()
}

// Whether this table is read from a text, and what was read has that text.
fn is_kept(alloc: Global, table: &Table, text: &[u8]) -> Result<bool, Fail> {
    let read = read_table(alloc, b"t", text)?;
    let written = table_text(alloc, &read);
    let same = is_same(&read, table);
    drop(read);
    Ok(written?.as_slice() == text && same)
}

// Why a text isn't read as a table `t`, if it isn't.
fn fault(alloc: Global, text: &[u8]) -> Option<ReadError> {
    match read_table(alloc, b"t", text) {
        Ok(table) => {
            drop(table);
            None
        }
        Err(error) => Some(error),
    }
}

#[test]
fn a_table_is_read_back_from_its_text(rt: HostRuntime) -> Result<(), Fail> {
    let table = sample_table(rt.alloc())?;
    let kept = is_kept(rt.alloc(), &table, &TEXT);
    drop(table);
    assert!(rt; kept?);
    Ok(())
}

#[test]
fn an_octet_less_or_more_is_no_table(rt: HostRuntime) -> Result<(), Fail> {
    let mut text = Vec::from_slice(rt.alloc(), &TEXT)?;
    text.push(0)?;
    assert!(rt; fault(rt.alloc(), &TEXT[..22]) == Some(ReadError::NotText));
    assert!(rt; fault(rt.alloc(), text.as_slice()) == Some(ReadError::NotText));
    Ok(())
}
