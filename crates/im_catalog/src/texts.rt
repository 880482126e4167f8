//! The texts of tables and indexes, which `reading`, their twin, reads back.
//!
//! ```text
//! table   = tid 4, count 2, {column}, numbers      the columns, and those of the primary key
//! column  = length 1, name, type 1, n 2, flag      n is 0 where the type sets none; 01 where it is NOT NULL
//! type    = 01 | 02 | 03 | 04                      INTEGER, BOOLEAN, VARCHAR, BLOB
//! index   = flag, numbers                          01 where it is unique; its columns
//! numbers = count 2, {number 2}                    of columns, from 0
//! flag    = 00 | 01
//! ```

ghost use Rattle.std.specs.Prelude.{◌≡◌, ◌≤◌, ◌<◌, ◌^◌, ◌++◌, length, All, IfOk, OnOk};
ghost use Rattle.std.specs.List.{flat_map};
ghost use Rattle.im_sqlmodel.specs.Tables as spec;
ghost use Rattle.im_catalog.specs.Parts.{IsColumn};

use im_octet::octets::Octets;
use im_octet::writer::Writer;
use im_sqlmodel::tables::{Column, SqlIndex, Table};
use im_sqltype::columns::ColumnType;
use std::alloc::{AllocError, Global};

fn type_code(holds: ColumnType) -> u8
    ensures { result ≡ spec.type_code holds }
{
    match holds {
        ColumnType::Integer => 1,
        ColumnType::Boolean => 2,
        ColumnType::Varchar(_) => 3,
        ColumnType::Blob(_) => 4,
    }
}

fn limit_of(holds: ColumnType) -> u16
    ensures { result ≡ spec.limit_of holds }
{
    match holds {
        ColumnType::Integer => 0,
        ColumnType::Boolean => 0,
        ColumnType::Varchar(limit) => limit.octets(),
        ColumnType::Blob(limit) => limit.octets(),
    }
}

// Writes a column. Where memory is short, a part of it may be written.
fn push_column(out: &mut Writer, column: &Column) -> Result<(), AllocError>
    requires { length column.now.name ≤ 48 }
    ensures { OnOk result (out.new ≡ out.old ++ spec.column_text column.now) }
{
    let name = column.name.as_slice();
    out.u8(name.len() as u8)?;
    out.octets(name)?;
    out.u8(type_code(column.holds))?;
    out.u16(limit_of(column.holds))?;
    out.u8(u8::from(column.not_null))
}

// Writes columns, one behind the other. Where memory is short, a part of them may be written.
fn push_columns(out: &mut Writer, columns: &[Column]) -> Result<(), AllocError>
    requires { All IsColumn columns.now }
    ensures { OnOk result (out.new ≡ out.old ++ flat_map spec.column_text columns.now) }
{
    for column in columns {
        push_column(out, column)?;
    }
    Ok(())
}

// Writes numbers behind their count. Where memory is short, a part of them may be written.
fn push_numbers(out: &mut Writer, numbers: &[u16]) -> Result<(), AllocError>
    requires { length numbers.now < 2 ^ 16 }
    ensures { OnOk result (out.new ≡ out.old ++ spec.numbers_text numbers.now) }
{
    out.u16(numbers.len() as u16)?;
    for number in numbers {
        out.u16(*number)?;
    }
    Ok(())
}

/// The text of a table. Its only error is want of memory.
pub fn table_text(alloc: Global, table: &Table) -> Result<Octets, AllocError>
    requires { spec.IsTable table.now }
    ensures { IfOk result (λ text. text ≡ spec.table_text table.now) }
{
    let columns = table.columns.as_slice();
    let mut out = Writer::new(alloc);
    out.u32(table.tid)?;
    out.u16(columns.len() as u16)?;
    push_columns(&mut out, columns)?;
    push_numbers(&mut out, table.key.as_slice())?;
    Ok(Octets::from_vec(out.into_vec()))
}

/// The text of an index of a table. Its only error is want of memory.
pub fn index_text(alloc: Global, table: &Table, index: &SqlIndex) -> Result<Octets, AllocError>
    requires table { spec.IsTable table.now }
    requires index { spec.IsTableIndex table.now index.now }
    ensures { IfOk result (λ text. text ≡ spec.index_text index.now) }
{
    let mut out = Writer::new(alloc);
    out.u8(u8::from(index.unique))?;
    push_numbers(&mut out, index.columns.as_slice())?;
    Ok(Octets::from_vec(out.into_vec()))
}
