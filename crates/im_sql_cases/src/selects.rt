//! SELECT.

use crate::conditions::push_filter;
use crate::values::{push_name, push_names};
use im_sqlparse::statements::{Name, OrderTerm, Period, Select};
use sqlite_items::Items;
use std::alloc::AllocError;

/// Adds rows that are asked for: `(select COLUMNS NAME table|history PERIOD WHICH ORDER LIMIT OFFSET)`.
pub fn push_select(out: &mut String, select: &Select) -> Result<(), AllocError> {
    out.push_str("(select ")?;
    push_shown(out, &select.columns)?;
    out.push(' ')?;
    push_name(out, &select.table)?;
    out.push_str(if select.history {
        " history "
    } else {
        " table "
    })?;
    push_period(out, select.period)?;
    out.push(' ')?;
    push_filter(out, &select.filter)?;
    out.push(' ')?;
    push_order(out, select.order.as_slice())?;
    push_count(out, "limit", select.limit)?;
    push_count(out, "offset", select.offset)?;
    out.push(')')
}

// Adds the columns that are shown: `(columns NAME ..)`, or `*` for all.
fn push_shown(out: &mut String, columns: &Option<Items<Name>>) -> Result<(), AllocError> {
    match columns {
        Some(columns) => push_names(out, "columns", columns.as_slice()),
        None => out.push('*'),
    }
}

// Adds a period: `now`, `(before N)` or `(until N)`.
fn push_period(out: &mut String, period: Period) -> Result<(), AllocError> {
    match period {
        Period::Now => out.push_str("now"),
        Period::Before(number) => write!(out, "(before {number})"),
        Period::Until(number) => write!(out, "(until {number})"),
    }
}

// Adds by what rows are ordered: `(order (NAME asc|desc) ..)`.
fn push_order(out: &mut String, terms: &[OrderTerm]) -> Result<(), AllocError> {
    out.push_str("(order")?;
    for term in terms {
        out.push_str(" (")?;
        push_name(out, &term.column)?;
        out.push_str(if term.descending { " desc)" } else { " asc)" })?;
    }
    out.push(')')
}

// Adds a blank, and a number of rows: `(WORD N)`, or `none`.
fn push_count(out: &mut String, word: &str, count: Option<u64>) -> Result<(), AllocError> {
    match count {
        Some(count) => write!(out, " ({word} {count})"),
        None => out.push_str(" none"),
    }
}
