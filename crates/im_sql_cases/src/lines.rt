//! The lines of a file of texts, and the line that is told of each.

use crate::statements::push_statement;
use crate::wrong::{Fault, Wrong};
use im_sql_words::faults::push_fault;
use im_sql_words::octets::octets;
use im_sqlparse::errors::ParseError;
use im_sqlparse::parse;
use std::alloc::{AllocError, Global};

/// A line for each line of a file: what its text is.
pub fn read(alloc: Global, texts: &str) -> Result<String, Fault> {
    let mut out = String::new(alloc);
    let mut number = 0u64;
    for line in texts.split_terminator('\n') {
        number = number.saturating_add(1);
        if let Err(wrong) = push_line(alloc, &mut out, line) {
            return Err(wrong.at(number));
        }
    }
    Ok(out)
}

// Adds what the text of a line is, and an LF.
fn push_line(alloc: Global, out: &mut String, line: &str) -> Result<(), Wrong> {
    let octets = octets(alloc, line)?;
    match str::from_utf8(octets.as_slice()) {
        Ok(text) => push_text(alloc, out, text)?,
        Err(_) => return Err(Wrong::Encoding),
    }
    out.push('\n')?;
    Ok(())
}

// Adds the statement that a text is, or its first fault.
fn push_text(alloc: Global, out: &mut String, text: &str) -> Result<(), AllocError> {
    match parse(alloc, text) {
        Ok(statement) => {
            let pushed = push_statement(out, &statement);
            drop(statement);
            pushed
        }
        Err(ParseError::Syntax(fault)) => push_fault(out, fault),
        Err(ParseError::Memory) => Err(AllocError),
    }
}
