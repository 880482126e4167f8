//! What is wanted of a run: its end, and its changing calls.

use crate::lines::Run;
use crate::octets::{at_blank, file_number, first_word, number, octets};
use crate::shown::push_write;
use crate::texts::Scope;
use crate::wrong::Wrong;
use std::alloc::{AllocError, Global};

/// The end that a run wants: exit status 0 where no line says another one.
pub fn run_end(run: Run) -> Result<Vec<u8>, Wrong> {
    match run.last("!") {
        Some(line) => end(run.scope(line), line.rest),
        None => Ok(Vec::from_slice(run.alloc, b"0")?),
    }
}

/// The exit status that a line wants, and behind a blank the line on standard error, if one is wanted.
pub fn end(scope: Scope, rest: &str) -> Result<Vec<u8>, Wrong> {
    let (code, text) = at_blank(rest);
    let Ok(code) = u8::try_from(number(code)?) else {
        return Err(Wrong::Number);
    };
    let told = scope.text(text)?;
    Ok(end_of(scope.alloc, code, &told)?)
}

/// An exit status, and behind a blank the line on standard error, if there is one.
pub fn end_of(alloc: Global, code: u8, told: &[u8]) -> Result<Vec<u8>, AllocError> {
    let mut end = code.to_string(alloc)?.into_bytes();
    if !told.is_empty() {
        end.push(b' ')?;
        end.extend_from_slice(told)?;
    }
    Ok(end)
}

/// The changing calls that a run wants, each as a line, and nothing where it wants none.
pub fn calls(run: Run) -> Result<String, Wrong> {
    let mut calls = String::new(run.alloc);
    for line in run.lines {
        if line.mark == "did" {
            push_call(run.alloc, &mut calls, line.rest)?;
        }
    }
    Ok(calls)
}

/// Adds the line of a changing call.
pub fn push_call(alloc: Global, out: &mut String, rest: &str) -> Result<(), Wrong> {
    let (word, behind) = first_word(rest);
    match word {
        "write" => push_written(alloc, out, behind),
        "sync" | "fail" if behind.trim().is_empty() => {
            write!(out, "{word}\n")?;
            Ok(())
        }
        _ => Err(Wrong::Words),
    }
}

// Adds the line of a write.
fn push_written(alloc: Global, out: &mut String, rest: &str) -> Result<(), Wrong> {
    let (file, behind) = first_word(rest);
    let (at, behind) = first_word(behind);
    let octets = octets(alloc, behind)?;
    push_write(out, file_number(file)?, number(at)?, &octets)?;
    Ok(())
}
