//! Statements that create something.

use crate::values::{push_name, push_names};
use im_sqlparse::statements::{ColumnDefinition, CreateIndex, CreateTable, DeclaredType};
use std::alloc::AllocError;

/// Adds a new table: `(create-table NAME if-not-exists|always (columns COLUMN ..) (key NAME ..))`.
pub fn push_table(out: &mut String, creation: &CreateTable) -> Result<(), AllocError> {
    out.push_str("(create-table ")?;
    push_name(out, &creation.table)?;
    let when = if creation.if_not_exists {
        "if-not-exists"
    } else {
        "always"
    };
    write!(out, " {when} ")?;
    push_columns(out, creation.columns.as_slice())?;
    out.push(' ')?;
    push_names(out, "key", creation.key.as_slice())?;
    out.push(')')
}

fn push_columns(out: &mut String, columns: &[ColumnDefinition]) -> Result<(), AllocError> {
    out.push_str("(columns")?;
    for column in columns {
        out.push(' ')?;
        push_column(out, column)?;
    }
    out.push(')')
}

// Adds a column: `(NAME TYPE null|not-null)`.
fn push_column(out: &mut String, column: &ColumnDefinition) -> Result<(), AllocError> {
    out.push('(')?;
    push_name(out, &column.name)?;
    out.push(' ')?;
    push_type(out, column.holds)?;
    out.push_str(if column.not_null {
        " not-null)"
    } else {
        " null)"
    })
}

// Adds a type: `integer`, `boolean`, `(varchar N)` or `(blob N)`.
fn push_type(out: &mut String, holds: DeclaredType) -> Result<(), AllocError> {
    match holds {
        DeclaredType::Integer => out.push_str("integer"),
        DeclaredType::Boolean => out.push_str("boolean"),
        DeclaredType::Varchar(most) => write!(out, "(varchar {most})"),
        DeclaredType::Blob(most) => write!(out, "(blob {most})"),
    }
}

/// Adds a new index: `(create-index NAME unique|plain (columns NAME ..))`.
pub fn push_index(out: &mut String, creation: &CreateIndex) -> Result<(), AllocError> {
    out.push_str("(create-index ")?;
    push_name(out, &creation.table)?;
    out.push_str(if creation.unique {
        " unique "
    } else {
        " plain "
    })?;
    push_names(out, "columns", creation.columns.as_slice())?;
    out.push(')')
}
