//! Names and values.

use im_sqlparse::statements::{Literal, Name};
use std::alloc::AllocError;

/// Adds a name.
pub fn push_name(out: &mut String, name: &Name) -> Result<(), AllocError> {
    let text = String::from_utf8_lossy(*out.allocator(), name.as_slice())?;
    out.push_str(&text)
}

/// Adds a list of names: `(WORD NAME ..)`.
pub fn push_names(out: &mut String, word: &str, names: &[Name]) -> Result<(), AllocError> {
    write!(out, "({word}")?;
    for name in names {
        out.push(' ')?;
        push_name(out, name)?;
    }
    out.push(')')
}

/// Adds a value: `null`, `true`, `false`, `(integer N)`, `(text 0xHEX)` or `(blob 0xHEX)`.
pub fn push_value(out: &mut String, value: &Literal) -> Result<(), AllocError> {
    match value {
        Literal::Null => out.push_str("null"),
        Literal::Boolean(true) => out.push_str("true"),
        Literal::Boolean(false) => out.push_str("false"),
        Literal::Integer(number) => write!(out, "(integer {number})"),
        Literal::Text(octets) => push_octets(out, "text", octets.as_slice()),
        Literal::Blob(octets) => push_octets(out, "blob", octets.as_slice()),
    }
}

// Adds octets: `(WORD 0xHEX)`.
fn push_octets(out: &mut String, word: &str, octets: &[u8]) -> Result<(), AllocError> {
    let digits = hex::encode(*out.allocator(), octets)?;
    write!(out, "({word} 0x{digits})")
}
