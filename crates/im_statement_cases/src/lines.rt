//! The lines of sessions, and what each is answered.

ghost use Rattle.std.specs.Prelude.{◌≤◌, length};

use crate::answers::push_judged;
use crate::puts::put;
use crate::session::Session;
use crate::statements::{Judged, judge, not_kept, to_place};
use crate::wrong::{Fault, Wrong};
use im_sql_words::octets::octets;
use im_text::numbers::read_number;
use std::alloc::Global;
use std::mem;

/// A line for each line of a file: what it is answered.
pub fn read(alloc: Global, lines: &str) -> Result<String, Fault> {
    let mut out = String::new(alloc);
    let mut session = Session::new(alloc);
    let mut number = 0u64;
    for line in lines.split_terminator('\n') {
        number = number.saturating_add(1);
        if let Err(wrong) = take(alloc, &mut out, &mut session, line) {
            drop(session);
            return Err(wrong.at(number));
        }
    }
    drop(session);
    Ok(out)
}

// Adds what a line is answered and an LF.
fn take(alloc: Global, out: &mut String, session: &mut Session, line: &str) -> Result<(), Wrong> {
    let (word, rest) = line.split_once(' ').unwrap_or((line, ""));
    answer(alloc, out, session, word, rest)?;
    Ok(out.push('\n')?)
}

fn answer(
    alloc: Global,
    out: &mut String,
    session: &mut Session,
    word: &str,
    rest: &str,
) -> Result<(), Wrong> {
    match word {
        "new" => anew(alloc, out, session),
        "put" => place_put(alloc, out, session, rest),
        "sql" => place_statement(alloc, out, session, rest),
        "at" => read_at(alloc, out, session, rest),
        "kept" => test(alloc, out, session),
        _ => Err(Wrong::Line),
    }
}

fn anew(alloc: Global, out: &mut String, session: &mut Session) -> Result<(), Wrong> {
    drop(mem::replace(session, Session::new(alloc)));
    Ok(out.push_str("new")?)
}

// `put KEY=VALUE !KEY ..`
fn place_put(
    alloc: Global,
    out: &mut String,
    session: &mut Session,
    words: &str,
) -> Result<(), Wrong> {
    session.place(alloc, put(alloc, words)?)?;
    Ok(out.push_str("put")?)
}

// `sql TEXT`: what it asks to be placed is placed.
fn place_statement(
    alloc: Global,
    out: &mut String,
    session: &mut Session,
    digits: &str,
) -> Result<(), Wrong> {
    let judged = judge_text(alloc, session, digits, session.len())?;
    if let Err(error) = push_judged(out, &judged) {
        drop(judged);
        return Err(error.into());
    }
    match to_place(judged) {
        Some(prepared) => session.place(alloc, prepared),
        None => Ok(()),
    }
}

// `at N TEXT`: nothing is placed.
fn read_at(alloc: Global, out: &mut String, session: &Session, words: &str) -> Result<(), Wrong> {
    let (number, digits) = words.split_once(' ').ok_or(Wrong::Line)?;
    let n = read_number(number.as_bytes()).ok_or(Wrong::Number)?;
    if n > session.len() {
        return Err(Wrong::Number);
    }
    let judged = judge_text(alloc, session, digits, n)?;
    let pushed = push_judged(out, &judged);
    drop(judged);
    Ok(pushed?)
}

// What the text of these hex digits comes to after the first `n` transactions.
fn judge_text(alloc: Global, session: &Session, digits: &str, n: u64) -> Result<Judged, Wrong>
    requires { n ≤ length session.now }
{
    let octets = octets(alloc, digits)?;
    match str::from_utf8(octets.as_slice()) {
        Ok(text) => Ok(judge(alloc, session, text, n)?),
        Err(_) => Err(Wrong::Encoding),
    }
}

// `kept`: whether the keys are SQL's after all transactions.
fn test(alloc: Global, out: &mut String, session: &Session) -> Result<(), Wrong> {
    match not_kept(alloc, session)? {
        Some(tx) => Ok(write!(out, "unkept {tx}")?),
        None => Ok(out.push_str("kept")?),
    }
}
