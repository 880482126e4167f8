//! What statements answer, as it is printed.

use im_octet::octets::Octets;
use im_sqlmodel::answers::{SqlError, SqlRows};
use im_sqlparse::errors::{SqlSyntax, SyntaxKind};
use im_sqlreply::errors::{error_text, syntax_text};
use im_sqlreply::rows::rows_text;
use im_sqltype::rows::Row;
use im_sqltype::values::Value;
use sqlite_items::Items;
use std::alloc::{AllocError, Global};
use std::test::Fail;

// A row of each kind of value.
fn row_of_kinds(alloc: Global) -> Result<Row, AllocError> {
    let blob = Octets::from_slice(alloc, b"\x00\xff")?;
    let kinds = vec![in alloc;
        Value::Null,
        Value::Integer(i64::MIN),
        Value::Boolean(true),
        Value::Boolean(false),
        Value::Blob(blob),
    ]?;
    Ok(Row::from_vec(kinds))
}

// Texts that aren't printed as they stand.
static TEXTS: &[&[u8]] = &[b"it's", b"a\\b", b"\x00\x0a\x1f \x7e\x7f\xc3\xa9"];

// A row of these texts.
fn row_of_texts(alloc: Global) -> Result<Row, AllocError> {
    let mut values = Vec::new(alloc);
    for text in TEXTS {
        values.push(Value::Varchar(Octets::from_slice(alloc, text)?))?;
    }
    Ok(Row::from_vec(values))
}

// Adds one row of each of the two.
fn push_both(alloc: Global, rows: &mut Vec<Row>) -> Result<(), AllocError> {
    rows.push(row_of_kinds(alloc)?)?;
    rows.push(row_of_texts(alloc)?)?;
    Ok(())
}

// A row of each kind of value, and one of those that aren't printed as they stand.
fn two_rows(alloc: Global) -> Result<SqlRows, AllocError> {
    let mut rows = Vec::new(alloc);
    match push_both(alloc, &mut rows) {
        Ok(()) => Ok(Items::from_vec(rows)),
        Err(error) => {
            drop(rows);
            Err(error)
        }
    }
}

// Whether rows are printed so.
fn are_printed(alloc: Global, rows: SqlRows, text: &[u8]) -> Result<bool, AllocError> {
    let printed = rows_text(alloc, &rows);
    drop(rows);
    Ok(printed?.as_slice() == text)
}

#[test]
fn rows_are_printed_on_one_line(rt: HostRuntime) -> Result<(), Fail> {
    let alloc = rt.alloc();
    let text =
        b"rows 2 (NULL, -9223372036854775808, true, false, x'00ff') ('it''s', 'a\\\\b', '\\x00\\x0a\\x1f ~\\x7f\xc3\xa9')";
    assert!(rt; are_printed(alloc, two_rows(alloc)?, text)?);
    assert!(rt; are_printed(alloc, Items::from_vec(Vec::new(alloc)), b"rows 0")?);
    Ok(())
}

// Whether an error is told so.
fn is_told(alloc: Global, error: SqlError, text: &[u8]) -> Result<bool, AllocError> {
    let told = error_text(alloc, &error);
    drop(error);
    Ok(told?.as_slice() == text)
}

#[test]
fn errors_are_printed(rt: HostRuntime) -> Result<(), Fail> {
    let alloc = rt.alloc();
    let name = Octets::from_slice(alloc, b"v")?;
    let long = SqlError::TooLong { row: 0, name };
    assert!(rt; is_told(alloc, long, b"error long 0 v")?);
    let unique = SqlError::Unique {
        row: 1,
        index: 2,
        tx: 0,
    };
    assert!(rt; is_told(alloc, unique, b"error unique 1 2 tx 0")?);
    assert!(rt; is_told(alloc, SqlError::Beyond { n: 5 }, b"refused beyond 5")?);
    assert!(rt; is_told(alloc, SqlError::Memory, b"").is_err());
    Ok(())
}

#[test]
fn a_fault_of_a_text_is_printed(rt: HostRuntime) -> Result<(), Fail> {
    let fault = SqlSyntax {
        at: 15,
        kind: SyntaxKind::Expect,
    };
    let told = syntax_text(rt.alloc(), fault)?;
    assert!(rt; told.as_slice() == b"error syntax 15 expect".as_slice());
    Ok(())
}
