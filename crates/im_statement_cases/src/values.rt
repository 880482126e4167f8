//! Values, told.

use im_sqltype::values::Value;
use std::alloc::AllocError;

/// Adds a value: `NULL`, a decimal number, `true`, `false`, `'text'` or `x'hex'`.
pub fn push_value(out: &mut String, value: &Value) -> Result<(), AllocError> {
    match value {
        Value::Null => out.push_str("NULL"),
        Value::Integer(number) => write!(out, "{number}"),
        Value::Boolean(true) => out.push_str("true"),
        Value::Boolean(false) => out.push_str("false"),
        Value::Varchar(octets) => push_text(out, octets.as_slice()),
        Value::Blob(octets) => push_blob(out, octets.as_slice()),
    }
}

fn push_blob(out: &mut String, octets: &[u8]) -> Result<(), AllocError> {
    let digits = hex::encode(*out.allocator(), octets)?;
    write!(out, "x'{digits}'")
}

// Adds a text between quotes.
fn push_text(out: &mut String, octets: &[u8]) -> Result<(), AllocError> {
    let text = String::from_utf8_lossy(*out.allocator(), octets)?;
    out.push('\'')?;
    for character in text.chars() {
        push_character(out, character)?;
    }
    out.push('\'')
}

// Adds a character: a quote and a backslash twice, and one that isn't printed as `\x` and two hex digits.
fn push_character(out: &mut String, character: char) -> Result<(), AllocError> {
    match character {
        '\'' => out.push_str("''"),
        '\\' => out.push_str("\\\\"),
        '\0'..='\x1f' | '\x7f' => {
            let code = u32::from(character);
            write!(out, "\\x{code:02x}")
        }
        other => out.push(other),
    }
}
