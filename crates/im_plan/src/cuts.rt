//! The rows that a SELECT keeps of those in order, and the columns that it shows.

ghost use Rattle.std.specs.Prelude.{◌≡◌, IfOk, take, drop, map};
ghost use Rattle.im_sqlmodel.specs.Conditions.{value_named};
ghost use Rattle.im_sqlmodel.specs.Selects.{columns_shown};
ghost use Rattle.im_plan.specs.Ordered as spec;

use im_expr::scopes::place_of;
use im_sqlmodel::tables::Nameable;
use im_sqlparse::statements::{Name, Select};
use im_sqltype::rows::Row;
use im_sqltype::values::Value;
use sqlite_items::Items;
use std::alloc::{AllocError, Global};

// Without the first so many.
fn behind(rows: &[Row], offset: u64) -> &[Row]
    ensures { result.now ≡ drop offset rows.now }
{
    if rows.len() as u64 <= offset {
        &[]
    } else {
        &rows[offset as usize..]
    }
}

// At most so many.
fn at_most(rows: &[Row], limit: u64) -> &[Row]
    ensures { result.now ≡ take limit rows.now }
{
    if rows.len() as u64 <= limit {
        rows
    } else {
        &rows[..limit as usize]
    }
}

// OFFSET comes before LIMIT.
fn cut(rows: &[Row], offset: Option<u64>, limit: Option<u64>) -> &[Row]
    ensures { result.now ≡ spec.cut offset limit rows.now }
{
    let left = match offset {
        Some(offset) => behind(rows, offset),
        None => rows,
    };
    match limit {
        Some(limit) => at_most(left, limit),
        None => left,
    }
}

// A copy of the value of a column by its name, or NULL where there is none.
fn copy_named(
    alloc: Global,
    scope: &[Nameable],
    row: &[Value],
    name: &[u8],
) -> Result<Value, AllocError>
    ensures { IfOk result (λ value. value ≡ value_named scope.now row.now name.now) }
{
    match place_of(scope, name) {
        Some(at) if at < row.len() => row[at].try_clone(alloc),
        _ => Ok(Value::Null),
    }
}

// A copy of the values of the columns of these names.
fn copies_named(
    alloc: Global,
    scope: &[Nameable],
    row: &[Value],
    names: &[Name],
) -> Result<Row, AllocError>
    ensures { IfOk result (λ shown. shown ≡ map (value_named scope.now row.now) names.now) }
{
    let mut shown = Vec::with_capacity(alloc, names.len())?;
    for name in names {
        let value = copy_named(alloc, scope, row, name.as_slice())?;
        shown.push(value)?;
    }
    Ok(Row::from_vec(shown))
}

// The columns of a row that are shown: those of these names, or all.
fn shown_row(
    alloc: Global,
    scope: &[Nameable],
    columns: &Option<Items<Name>>,
    row: &Row,
) -> Result<Row, AllocError>
    ensures { IfOk result (λ shown. shown ≡ columns_shown scope.now columns.now row.now) }
{
    match columns {
        Some(names) => copies_named(alloc, scope, row.as_slice(), names.as_slice()),
        None => row.try_clone(alloc),
    }
}

/// Of rows in their order, copies of those that a SELECT keeps, each with the columns shown. Its only error is want of
/// memory.
pub(crate) fn shown_rows(
    alloc: Global,
    scope: &[Nameable],
    select: &Select,
    rows: &[Row],
) -> Result<Items<Row>, AllocError>
    ensures { IfOk result (λ shown. shown ≡ spec.shown_rows scope.now select.now rows.now) }
{
    let kept = cut(rows, select.offset, select.limit);
    let mut shown = Vec::with_capacity(alloc, kept.len())?;
    for row in kept {
        let row = shown_row(alloc, scope, &select.columns, row)?;
        shown.push(row)?;
    }
    Ok(Items::from_vec(shown))
}
