//! Why statements are refused, told.

use im_octet::octets::Octets;
use im_sqlmodel::answers::SqlError;
use std::alloc::AllocError;

/// Adds why a statement is refused.
pub fn push_error(out: &mut String, error: &SqlError) -> Result<(), AllocError> {
    out.push_str("error ")?;
    match error {
        SqlError::Memory => out.push_str("memory"),
        SqlError::Exists { table } => push_named(out, "exists", table),
        SqlError::NoTable { table } => push_named(out, "table", table),
        SqlError::NoColumn { name } => push_named(out, "column", name),
        SqlError::Twice { name } => push_named(out, "twice", name),
        SqlError::HasRows { table } => push_named(out, "rows", table),
        SqlError::Compare { at } => write!(out, "compare {at}"),
        SqlError::Beyond { n } => write!(out, "beyond {n}"),
        SqlError::TooMany { entries } => write!(out, "toomany {entries}"),
        SqlError::Count { row, want, got } => write!(out, "count {row} {want} {got}"),
        SqlError::WrongType { row, name } => push_cell(out, "type", *row, name),
        SqlError::TooLong { row, name } => push_cell(out, "long", *row, name),
        SqlError::NullGiven { row, name } => push_cell(out, "null", *row, name),
        SqlError::KeyLong { row } => write!(out, "keylong {row}"),
        SqlError::RowLong { row } => write!(out, "rowlong {row}"),
        SqlError::Duplicate { row, tx } => write!(out, "duplicate {row} tx {tx}"),
        SqlError::Unique { row, index, tx } => write!(out, "unique {row} {index} tx {tx}"),
    }
}

// Adds a word and a name.
fn push_named(out: &mut String, word: &str, name: &Octets) -> Result<(), AllocError> {
    let text = String::from_utf8_lossy(*out.allocator(), name.as_slice())?;
    write!(out, "{word} {text}")
}

// Adds what is wrong with a row's value: `WORD ROW COLUMN`.
fn push_cell(out: &mut String, word: &str, row: u64, name: &Octets) -> Result<(), AllocError> {
    let text = String::from_utf8_lossy(*out.allocator(), name.as_slice())?;
    write!(out, "{word} {row} {text}")
}
