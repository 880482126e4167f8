//! What statements come to, told.

use crate::errors::push_error;
use crate::statements::Judged;
use crate::values::push_value;
use im_draft::preconditions::Pre;
use im_model::entries::Entry;
use im_sql_words::faults::push_fault;
use im_sqlmodel::answers::SqlOut;
use im_sqltype::rows::Row;
use im_sqltype::values::Value;
use im_tx::prepared::Prepared;
use std::alloc::AllocError;

/// Adds what a text comes to.
pub fn push_judged(out: &mut String, judged: &Judged) -> Result<(), AllocError> {
    match judged {
        Judged::Syntax(fault) => push_fault(out, *fault),
        Judged::NotKept { tx } => write!(out, "unkept {tx}"),
        Judged::Answered(SqlOut::Rows(rows)) => push_rows(out, rows.as_slice()),
        Judged::Answered(SqlOut::Write(prepared)) => push_write(out, prepared),
        Judged::Answered(SqlOut::Nothing) => out.push_str("none"),
        Judged::Refused(error) => push_error(out, error),
    }
}

// Adds how many rows there are, and each: `rows COUNT (VALUE, ..) ..`.
fn push_rows(out: &mut String, rows: &[Row]) -> Result<(), AllocError> {
    let count = rows.len();
    write!(out, "rows {count}")?;
    for row in rows {
        out.push_str(" (")?;
        push_values(out, row.as_slice())?;
        out.push(')')?;
    }
    Ok(())
}

fn push_values(out: &mut String, values: &[Value]) -> Result<(), AllocError> {
    for (place, value) in values.iter().enumerate() {
        if place > 0 {
            out.push_str(", ")?;
        }
        push_value(out, value)?;
    }
    Ok(())
}

// Adds what is to be placed, its preconditions and entries as they lie: `write since KEY .. put ENTRY ..`.
fn push_write(out: &mut String, prepared: &Prepared) -> Result<(), AllocError> {
    out.push_str("write since")?;
    for pre in prepared.pres() {
        out.push(' ')?;
        push_pre(out, pre)?;
    }
    out.push_str(" put")?;
    for entry in prepared.entries() {
        out.push(' ')?;
        push_entry(out, entry)?;
    }
    Ok(())
}

// Adds a precondition: the key that has no version behind those that were read, or another one.
fn push_pre(out: &mut String, pre: &Pre) -> Result<(), AllocError> {
    match pre {
        Pre::Since { key, .. } => push_hex(out, "", key.as_slice()),
        Pre::Exists { key } => push_hex(out, "exists:", key.as_slice()),
        Pre::Missing { key } => push_hex(out, "missing:", key.as_slice()),
    }
}

// Adds an entry: `KEY=VALUE`, or `!KEY` where it has metadata, which deletes its key.
fn push_entry(out: &mut String, entry: &Entry) -> Result<(), AllocError> {
    if entry.md.as_slice().is_empty() {
        push_hex(out, "", entry.key.as_slice())?;
        push_hex(out, "=", entry.value.as_slice())
    } else {
        push_hex(out, "!", entry.key.as_slice())
    }
}

// Adds a mark and the hex digits of octets.
fn push_hex(out: &mut String, mark: &str, octets: &[u8]) -> Result<(), AllocError> {
    let digits = hex::encode(*out.allocator(), octets)?;
    write!(out, "{mark}{digits}")
}
