//! Digests in short.

use std::alloc::{AllocError, Global};

const ZEROS: &str = "00000000000000000000000000000000000000000000000000000000000000";

/// A text in which `<1f>`, the digits of an octet, stands for 31 zero octets and that one.
pub fn in_full(alloc: Global, text: &str) -> Result<String, AllocError> {
    let mut out = String::new(alloc);
    let mut parts = text.split_terminator('<');
    if let Some(first) = parts.next() {
        out.push_str(first)?;
    }
    for part in parts {
        let (octet, rest) = part.split_once('>').unwrap_or((part, ""));
        out.push_str(ZEROS)?;
        out.push_str(octet)?;
        out.push_str(rest)?;
    }
    Ok(out)
}
