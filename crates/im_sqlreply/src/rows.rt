//! Rows as texts.

ghost use Rattle.std.specs.Prelude.{◌≡◌, ◌++◌, ◌∷◌, [], IfOk, OnOk};
ghost use Rattle.std.specs.List.{flat_map};
ghost use Rattle.std.specs.Fmt.{signed_decimal};
ghost use Rattle.im_sqlreply.specs.Replies as spec;

use im_sqlmodel::answers::SqlRows;
use im_sqltype::values::Value;
use im_text::writing::{push_hex, push_number};
use std::alloc::{AllocError, Global};

// Adds an octet of a text between single quotes.
fn push_quoted(alloc: Global, out: &mut Vec<u8>, octet: u8) -> Result<(), AllocError>
    ensures { OnOk result (out.new.items ≡ out.old.items ++ spec.quoted_octet octet) }
{
    match octet {
        b'\'' => out.extend_from_slice(b"''"),
        b'\\' => out.extend_from_slice(b"\\\\"),
        0..=31 | 127 => push_hex(alloc, out, b"\\x", &[octet]),
        _ => out.extend_from_slice(&[octet]),
    }
}

// Adds a text between single quotes.
fn push_text(alloc: Global, out: &mut Vec<u8>, octets: &[u8]) -> Result<(), AllocError>
    ensures { OnOk result (out.new.items ≡ out.old.items ++ 39 ∷ flat_map spec.quoted_octet octets.now ++ 39 ∷ []) }
{
    out.extend_from_slice(b"'")?;
    for octet in octets {
        push_quoted(alloc, out, *octet)?;
    }
    out.extend_from_slice(b"'")
}

// Adds a number with a sign, in decimal.
fn push_integer(alloc: Global, out: &mut Vec<u8>, number: i64) -> Result<(), AllocError>
    ensures { OnOk result (out.new.items ≡ out.old.items ++ signed_decimal number) }
{
    out.extend_from_slice(number.to_string(alloc)?.as_bytes())
}

// Adds a value as it is printed.
#[tactic(auto, unfolding(crate::specs::Replies::shown_value))]
fn push_value(alloc: Global, out: &mut Vec<u8>, value: &Value) -> Result<(), AllocError>
    ensures { OnOk result (out.new.items ≡ out.old.items ++ spec.shown_value value.now) }
{
    match value {
        Value::Null => out.extend_from_slice(b"NULL"),
        Value::Integer(number) => push_integer(alloc, out, *number),
        Value::Boolean(true) => out.extend_from_slice(b"true"),
        Value::Boolean(false) => out.extend_from_slice(b"false"),
        Value::Varchar(octets) => push_text(alloc, out, octets.as_slice()),
        Value::Blob(octets) => {
            push_hex(alloc, out, b"x'", octets.as_slice())?;
            out.extend_from_slice(b"'")
        }
    }
}

// Adds values with `, ` between.
fn push_values(alloc: Global, out: &mut Vec<u8>, values: &[Value]) -> Result<(), AllocError>
    ensures { OnOk result (out.new.items ≡ out.old.items ++ spec.shown_values values.now) }
{
    let Some((first, behind)) = values.split_first() else {
        return Ok(());
    };
    push_value(alloc, out, first)?;
    for value in behind {
        out.extend_from_slice(b", ")?;
        push_value(alloc, out, value)?;
    }
    Ok(())
}

// Adds a row.
#[tactic(auto, unfolding(crate::specs::Replies::shown_row))]
fn push_row(alloc: Global, out: &mut Vec<u8>, values: &[Value]) -> Result<(), AllocError>
    ensures { OnOk result (out.new.items ≡ out.old.items ++ spec.shown_row values.now) }
{
    out.extend_from_slice(b" (")?;
    push_values(alloc, out, values)?;
    out.extend_from_slice(b")")
}

/// The reply of a SELECT: `rows <count>`, and ` (v, v, ..)` for each row, in order. Its only error is want of memory.
#[tactic(auto, unfolding(crate::specs::Replies::rows_reply))]
pub fn rows_text(alloc: Global, rows: &SqlRows) -> Result<Vec<u8>, AllocError>
    ensures { IfOk result (λ text. text.items ≡ spec.rows_reply rows.now) }
{
    let rows = rows.as_slice();
    let mut out = Vec::new(alloc);
    push_number(alloc, &mut out, b"rows ", rows.len() as u64)?;
    for row in rows {
        push_row(alloc, &mut out, row.as_slice())?;
    }
    Ok(out)
}
