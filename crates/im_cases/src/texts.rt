//! Texts as they stand in a file of cases: `<xx>` is a digest under the sum, and `{NAME}` a named text.

use crate::wrong::Wrong;
use im_text::cuts::{after, cut};
use std::alloc::Global;

/// What a digest under the sum begins with, in hex.
pub const ZEROS: &[u8; 62] = b"00000000000000000000000000000000000000000000000000000000000000";

/// A text that stands for its name in braces, in the lines behind its own.
#[derive(Drop)]
pub struct Named {
    /// The line that names it, counted from 1.
    pub line: u64,
    /// The name.
    pub name: Vec<u8>,
    /// The text.
    pub text: Vec<u8>,
}

/// What a line's text is read with: its number, and the texts that the file names.
#[derive(Clone, Copy)]
pub struct Scope<'a> {
    /// Where memory comes from.
    pub alloc: Global,
    /// The line, counted from 1.
    pub line: u64,
    /// The named texts.
    pub named: &'a [Named],
}

impl<'a> Scope<'a> {
    /// The octets that a text says.
    pub fn text(self, text: &str) -> Result<Vec<u8>, Wrong> {
        let mut out = Vec::new(self.alloc);
        let octets = text.as_bytes();
        let mut done = 0;
        for at in 0..octets.len() {
            if at >= done {
                let taken = self.push_front(&mut out, &octets[at..])?;
                done = at.saturating_add(taken);
            }
        }
        Ok(out)
    }

    /// The text of this name, where one stands above the line.
    pub fn find(self, name: &[u8]) -> Option<&'a [u8]> {
        for it in self.named {
            if it.line < self.line && it.name.as_slice() == name {
                return Some(it.text.as_slice());
            }
        }
        None
    }

    // Adds what the front of a text stands for, and tells how many octets stand for it.
    fn push_front(self, out: &mut Vec<u8>, text: &[u8]) -> Result<usize, Wrong> {
        if let Some(digits) = digest_digits(text) {
            out.extend_from_slice(ZEROS)?;
            out.extend_from_slice(digits)?;
            return Ok(4);
        }
        if let Some(name) = braced_name(text) {
            let Some(text) = self.find(name) else {
                return Err(Wrong::Unnamed);
            };
            out.extend_from_slice(text)?;
            return Ok(name.len().saturating_add(2));
        }
        out.extend_from_slice(text.get(..1).unwrap_or(text))?;
        Ok(1)
    }
}

/// Whether a text may be named so.
pub fn is_name(name: &[u8]) -> bool {
    for octet in name {
        if !octet.is_ascii_lowercase() && !octet.is_ascii_digit() && *octet != b'-' {
            return false;
        }
    }
    !name.is_empty()
}

/// Whether an octet is one of 0-9 a-f.
pub fn is_hex_octet(octet: u8) -> bool {
    octet.is_ascii_digit() || (b'a'..=b'f').contains(&octet)
}

// The two hex digits of a text that begins with `<xx>`.
fn digest_digits(text: &[u8]) -> Option<&[u8]> {
    match text {
        [b'<', first, second, b'>', ..] if is_hex_octet(*first) && is_hex_octet(*second) => {
            text.get(1..3)
        }
        _ => None,
    }
}

// The name in a text that begins with a name in braces.
fn braced_name(text: &[u8]) -> Option<&[u8]> {
    let (name, _) = cut(after(text, b"{")?, b'}')?;
    if is_name(name) { Some(name) } else { None }
}

/// The number of the line that a place of a text is in, from 1, and where that line begins.
pub fn line_at(text: &[u8], place: usize) -> (u64, usize) {
    let mut number = 1u64;
    let mut start = 0usize;
    for at in 0..place.min(text.len()) {
        if text[at] == b'\n' {
            number = number.saturating_add(1);
            start = at + 1;
        }
    }
    (number, start)
}
