//! The marks of a run's lines: whether what stands behind one can be read, and the words of some.

use crate::feeding::{earlier, exchange_of};
use crate::lines::CaseLine;
use crate::octets::{file_number, first_word, number, octets};
use crate::texts::Scope;
use crate::wanting::{end, push_call};
use crate::wrong::Wrong;
use std::alloc::Global;

/// Checks that a line of a run can be read. It doesn't look for the line of input that stands above a `with`.
pub fn check(scope: Scope, line: CaseLine) -> Result<(), Wrong> {
    let rest = line.rest;
    match line.mark {
        ">" | ">-" | "<" | "<-" | "keep" | "kept" => read(scope.text(rest)),
        "with" => read(exchange_of(scope, rest)),
        "!" => read(end(scope, rest)),
        "did" => push_call(scope.alloc, &mut String::new(scope.alloc), rest),
        ">x" => read(octets(scope.alloc, rest)),
        "file" | "has" | "cut" | "length" | "spoil" => check_file(scope.alloc, line.mark, rest),
        _ => check_setting(line.mark, rest),
    }
}

// Whether something could be read.
fn read<T: Drop>(it: Result<T, Wrong>) -> Result<(), Wrong> {
    match it {
        Ok(it) => {
            drop(it);
            Ok(())
        }
        Err(wrong) => Err(wrong),
    }
}

// Checks what is said of a file.
fn check_file(alloc: Global, mark: &str, rest: &str) -> Result<(), Wrong> {
    let (file, behind) = first_word(rest);
    file_number(file)?;
    match mark {
        "file" | "has" => read(octets(alloc, behind)),
        "spoil" => {
            let (at, behind) = first_word(behind);
            number(at)?;
            read(octets(alloc, behind))
        }
        _ => read(number(behind)),
    }
}

// Checks a line that says numbers, or words that are given.
fn check_setting(mark: &str, rest: &str) -> Result<(), Wrong> {
    match mark {
        "lines" | "calls" | "left" | "room" => read(number(rest)),
        "blocks" => check_blocks(rest),
        "clock" | "ticks" => read(time(rest)),
        ">|" => read(earlier(rest)),
        "keeper" => read(number(behind_fails(rest)?)),
        "disk" => check_numbers(behind_fails(rest)?),
        _ => check_words(mark, rest.trim()),
    }
}

// Checks the number of blocks.
fn check_blocks(rest: &str) -> Result<(), Wrong> {
    if number(rest)? > u64::from(u32::MAX) {
        return Err(Wrong::Number);
    }
    Ok(())
}

// Checks a line that says one word of a few.
fn check_words(mark: &str, word: &str) -> Result<(), Wrong> {
    let good = match mark {
        "hash" => word == "sum" || word == "sha256",
        "lose" => word.is_empty(),
        "source" => word == "fails",
        _ => return Err(Wrong::Mark),
    };
    if good { Ok(()) } else { Err(Wrong::Words) }
}

// Checks the numbers that words say, one at least.
fn check_numbers(text: &str) -> Result<(), Wrong> {
    if text.trim().is_empty() {
        return Err(Wrong::Words);
    }
    for word in text.split_whitespace() {
        number(word)?;
    }
    Ok(())
}

/// What stands behind the word `fails`.
pub fn behind_fails(rest: &str) -> Result<&str, Wrong> {
    match first_word(rest) {
        ("fails", behind) => Ok(behind),
        _ => Err(Wrong::Words),
    }
}

/// A time, which may be before 1970.
pub fn time(text: &str) -> Result<i64, Wrong> {
    match text.trim().parse::<i64>() {
        Ok(time) => Ok(time),
        Err(_) => Err(Wrong::Number),
    }
}
