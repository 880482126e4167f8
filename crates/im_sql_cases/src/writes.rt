//! Statements that write rows.

use crate::conditions::push_filter;
use crate::values::{push_name, push_names, push_value};
use im_sqlparse::statements::{Delete, Insertion, Literal};
use sqlite_items::Items;
use std::alloc::AllocError;

/// Adds rows that are written: `(WORD NAME (columns NAME ..) (row VALUE ..) ..)`.
pub fn push_insertion(
    out: &mut String,
    word: &str,
    insertion: &Insertion,
) -> Result<(), AllocError> {
    write!(out, "({word} ")?;
    push_name(out, &insertion.table)?;
    out.push(' ')?;
    push_names(out, "columns", insertion.columns.as_slice())?;
    push_rows(out, insertion.rows.as_slice())?;
    out.push(')')
}

// Adds rows, each with a blank before it.
fn push_rows(out: &mut String, rows: &[Items<Literal>]) -> Result<(), AllocError> {
    for row in rows {
        out.push(' ')?;
        push_row(out, row.as_slice())?;
    }
    Ok(())
}

// Adds a row: `(row VALUE ..)`.
fn push_row(out: &mut String, values: &[Literal]) -> Result<(), AllocError> {
    out.push_str("(row")?;
    for value in values {
        out.push(' ')?;
        push_value(out, value)?;
    }
    out.push(')')
}

/// Adds rows that are deleted: `(delete NAME WHICH)`.
pub fn push_deletion(out: &mut String, deletion: &Delete) -> Result<(), AllocError> {
    out.push_str("(delete ")?;
    push_name(out, &deletion.table)?;
    out.push(' ')?;
    push_filter(out, &deletion.filter)?;
    out.push(')')
}
