//! What is shown of a difference: where it is, what is wanted there and what came; and how changing calls are shown.

use crate::texts::{ZEROS, is_hex_octet};
use im_disk::calls::Call;
use im_text::cuts::{after, cut};
use std::alloc::{AllocError, Global};

// How many octets are shown.
const MOST: usize = 64;

/// Where a difference is.
#[derive(Clone, Copy)]
pub enum Place<'a> {
    /// In this as a whole.
    Whole(&'a str),
    /// In the one of these that has this number.
    Numbered(&'a str, u64),
    /// In a file, from this place on.
    From { file: u8, at: usize },
}

impl Place<'_> {
    /// Adds where it is.
    pub fn push(self, out: &mut String) -> Result<(), AllocError> {
        match self {
            Place::Whole(what) => out.push_str(what),
            Place::Numbered(what, number) => write!(out, "{what} {number}"),
            Place::From { file, at } => write!(out, "file {file} from {at} on"),
        }
    }
}

/// What is wanted at a place, or what came there.
#[derive(Clone, Copy)]
pub enum Shown<'a> {
    /// A text, in which digests under the sum are shown as `<xx>`.
    Text(&'a [u8]),
    /// The line that begins at a place of a text: without its LF, and with a word where it lacks one.
    Line(&'a [u8], usize),
    /// The octets from a place on, in hex: the first ones, and two dots where more stand behind them.
    Octets(&'a [u8], usize),
    /// A number.
    Number(u64),
}

impl Shown<'_> {
    /// Adds what is shown of it.
    pub fn push(self, out: &mut String) -> Result<(), AllocError> {
        match self {
            Shown::Text(text) => push_text(out, text),
            Shown::Line(text, start) => push_line(out, text.get(start..).unwrap_or(&[])),
            Shown::Octets(octets, start) => push_octets(out, octets.get(start..).unwrap_or(&[])),
            Shown::Number(number) => write!(out, "{number}"),
        }
    }
}

// Adds the first octets in hex, and two dots where more stand behind them.
fn push_octets(out: &mut String, octets: &[u8]) -> Result<(), AllocError> {
    if octets.is_empty() {
        return out.push_str("nothing");
    }
    push_hex(out, octets.get(..MOST).unwrap_or(octets))?;
    if octets.len() > MOST {
        out.push_str("..")
    } else {
        Ok(())
    }
}

// Adds octets in hex.
fn push_hex(out: &mut String, octets: &[u8]) -> Result<(), AllocError> {
    let digits = hex::encode(*out.allocator(), octets)?;
    out.push_str(&digits)
}

// Adds the first line of a text.
fn push_line(out: &mut String, text: &[u8]) -> Result<(), AllocError> {
    match cut(text, b'\n') {
        Some(([], _)) => out.push_str("an empty line"),
        Some((line, _)) => push_text(out, line),
        None if text.is_empty() => out.push_str("nothing"),
        None => {
            push_text(out, text)?;
            out.push_str(" (without an LF)")
        }
    }
}

// Adds a text, which may not be UTF-8, with `<xx>` in place of each digest under the sum.
fn push_text(out: &mut String, text: &[u8]) -> Result<(), AllocError> {
    let short = shortened(*out.allocator(), text)?;
    let told = String::from_utf8_lossy(*out.allocator(), &short)?;
    out.push_str(&told)
}

// A text with `<xx>` in place of each digest under the sum.
fn shortened(alloc: Global, text: &[u8]) -> Result<Vec<u8>, AllocError> {
    let mut out = Vec::new(alloc);
    let mut done = 0;
    for at in 0..text.len() {
        if at >= done {
            let taken = push_front(&mut out, &text[at..])?;
            done = at.saturating_add(taken);
        }
    }
    Ok(out)
}

// Adds the first octet of a text, or `<xx>` for a digest under the sum, and tells how many octets it stands for.
fn push_front(out: &mut Vec<u8>, text: &[u8]) -> Result<usize, AllocError> {
    if let Some([first, second, ..]) = after(text, ZEROS) {
        if is_hex_octet(*first) && is_hex_octet(*second) {
            out.extend_from_slice(&[b'<', *first, *second, b'>'])?;
            return Ok(64);
        }
    }
    out.extend_from_slice(text.get(..1).unwrap_or(text))?;
    Ok(1)
}

/// The line of each changing call.
pub fn calls_text(alloc: Global, calls: &[Call]) -> Result<String, AllocError> {
    let mut text = String::new(alloc);
    for call in calls {
        push_call(&mut text, call)?;
    }
    Ok(text)
}

// Adds the line of a changing call.
fn push_call(out: &mut String, call: &Call) -> Result<(), AllocError> {
    match call {
        Call::Wrote { file, at, piece } => push_write(out, *file, *at, piece.as_slice()),
        Call::Synced => out.push_str("sync\n"),
        Call::Tore { .. } | Call::Missed => out.push_str("fail\n"),
    }
}

/// Adds the line of a write.
pub fn push_write(out: &mut String, file: u8, at: u64, octets: &[u8]) -> Result<(), AllocError> {
    write!(out, "write {file} {at} ")?;
    push_hex(out, octets)?;
    out.push('\n')
}
