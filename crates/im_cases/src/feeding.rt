//! What stands on the standard input of a run.

use crate::lines::{CaseLine, Run, push_text};
use crate::octets::{number, octets};
use crate::texts::Scope;
use crate::wrong::{Fault, Wrong};
use im_text::cuts::after;
use std::alloc::Global;

/// One text in place of another, at the first place where that stands.
#[derive(Drop)]
pub struct Exchange {
    /// What stands there.
    old: Vec<u8>,
    /// What stands there instead.
    new: Vec<u8>,
}

/// The exchange that the words `OLD => NEW` ask for, of which the second one may be empty.
pub fn exchange_of(scope: Scope, rest: &str) -> Result<Exchange, Wrong> {
    let (old, new) = match rest.split_once(" => ") {
        Some(sides) => sides,
        None => match rest.strip_suffix(" =>") {
            Some(old) => (old, ""),
            None => return Err(Wrong::Words),
        },
    };
    if old.is_empty() {
        return Err(Wrong::Words);
    }
    Ok(Exchange {
        old: scope.text(old)?,
        new: scope.text(new)?,
    })
}

/// The first and the last line, from 1, that a word asks for of what the run before wrote; none where it asks for all.
pub fn earlier(word: &str) -> Result<Option<(u64, u64)>, Wrong> {
    let word = word.trim();
    if word == "all" {
        return Ok(None);
    }
    let (first, last) = word.split_once('-').unwrap_or((word, word));
    Ok(Some((number(first)?, number(last)?)))
}

// The octets so far, and where those of the nearest line begin.
#[derive(Drop)]
struct Input {
    octets: Vec<u8>,
    last: usize,
}

/// The octets that the lines of a run give, where the run before wrote these.
pub fn input_of(run: Run, before: &[u8]) -> Result<Vec<u8>, Fault> {
    let mut input = Input {
        octets: Vec::new(run.alloc),
        last: 0,
    };
    for line in run.lines {
        if let Err(wrong) = input.add(run.scope(*line), *line, before) {
            return Err(wrong.at(line.number));
        }
    }
    Ok(input.octets)
}

impl Input {
    // Adds what a line gives.
    fn add(&mut self, scope: Scope, line: CaseLine, before: &[u8]) -> Result<(), Wrong> {
        if line.mark.starts_with('>') {
            self.last = self.octets.len();
            return push(scope, &mut self.octets, line, before);
        }
        if line.mark == "with" {
            let exchange = exchange_of(scope, line.rest)?;
            self.octets = replaced(scope.alloc, &self.octets, self.last, &exchange)?;
        }
        Ok(())
    }
}

// Adds the octets that a line of input gives.
fn push(scope: Scope, out: &mut Vec<u8>, line: CaseLine, before: &[u8]) -> Result<(), Wrong> {
    match line.mark {
        ">x" => Ok(out.extend_from_slice(&octets(scope.alloc, line.rest)?)?),
        ">|" => push_earlier(out, before, line.rest),
        _ => push_text(scope, out, line),
    }
}

// Adds the part of what the run before wrote that a word asks for.
fn push_earlier(out: &mut Vec<u8>, before: &[u8], word: &str) -> Result<(), Wrong> {
    match earlier(word)? {
        None => Ok(out.extend_from_slice(before)?),
        Some((first, last)) => push_lines(out, before, first, last),
    }
}

// Adds some lines of a text, each with its LF where it has one.
fn push_lines(out: &mut Vec<u8>, text: &[u8], first: u64, last: u64) -> Result<(), Wrong> {
    let mut number = 0u64;
    let mut begins = true;
    for octet in text {
        if begins {
            number = number.saturating_add(1);
        }
        if first <= number && number <= last {
            out.push(*octet)?;
        }
        begins = *octet == b'\n';
    }
    if 0 < first && first <= last && last <= number {
        Ok(())
    } else {
        Err(Wrong::NoLine)
    }
}

// A text with another part in place of one, at the first place from this one on.
fn replaced(alloc: Global, text: &[u8], from: usize, asked: &Exchange) -> Result<Vec<u8>, Wrong> {
    let Some((front, behind)) = around(text, from, &asked.old) else {
        return Err(Wrong::NotThere);
    };
    let mut out = Vec::from_slice(alloc, front)?;
    out.extend_from_slice(&asked.new)?;
    out.extend_from_slice(behind)?;
    Ok(out)
}

// What stands in a text before and behind a part, at the first place from this one on.
fn around<'t>(text: &'t [u8], from: usize, part: &[u8]) -> Option<(&'t [u8], &'t [u8])> {
    for at in from..text.len() {
        if let Some(behind) = after(&text[at..], part) {
            return Some((&text[..at], behind));
        }
    }
    None
}
