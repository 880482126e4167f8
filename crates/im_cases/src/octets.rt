//! The numbers, files and octets that stand in lines.

ghost use Rattle.std.specs.Prelude.{◌<◌, IfOk};

use crate::wrong::Wrong;
use hex::FromHexError;
use std::alloc::Global;

/// What stands before the first blank, and what stands behind it.
pub fn at_blank(text: &str) -> (&str, &str) {
    text.split_once(' ').unwrap_or((text, ""))
}

/// The first word, and what stands behind a blank.
pub fn first_word(text: &str) -> (&str, &str) {
    at_blank(text.trim_start())
}

/// The number that decimal digits say.
pub fn number(text: &str) -> Result<u64, Wrong> {
    if text.starts_with('+') {
        return Err(Wrong::Number);
    }
    match text.parse::<u64>() {
        Ok(number) => Ok(number),
        Err(_) => Err(Wrong::Number),
    }
}

/// The number of a file of the disk.
pub fn file_number(text: &str) -> Result<u8, Wrong>
    ensures { IfOk result (λ file. file < 16) }
{
    match number(text)? {
        file if file < 16 => Ok(file as u8),
        _ => Err(Wrong::File),
    }
}

/// The octets that words say: pairs of hex digits, the same with a count behind `*`, or a text in quotes.
pub fn octets(alloc: Global, text: &str) -> Result<Vec<u8>, Wrong> {
    let mut out = Vec::new(alloc);
    for word in text.split_whitespace() {
        push_word(alloc, &mut out, word)?;
    }
    Ok(out)
}

// Adds the octets that one word says.
fn push_word(alloc: Global, out: &mut Vec<u8>, word: &str) -> Result<(), Wrong> {
    if let Some(quoted) = word.strip_prefix('"') {
        let Some(text) = quoted.strip_suffix('"') else {
            return Err(Wrong::Octets);
        };
        out.extend_from_slice(text.as_bytes())?;
        return Ok(());
    }
    let (digits, count) = word.split_once('*').unwrap_or((word, "1"));
    push_times(out, &hex(alloc, digits)?, count)
}

// Adds some octets as many times as a number says.
fn push_times(out: &mut Vec<u8>, octets: &[u8], count: &str) -> Result<(), Wrong> {
    for _ in 0..number(count)? {
        out.extend_from_slice(octets)?;
    }
    Ok(())
}

// The octets that pairs of hex digits say.
fn hex(alloc: Global, digits: &str) -> Result<Vec<u8>, Wrong> {
    match hex::decode(alloc, digits.as_bytes()) {
        Ok(octets) => Ok(octets),
        Err(FromHexError::OutOfMemory) => Err(Wrong::Memory),
        Err(_) => Err(Wrong::Octets),
    }
}
