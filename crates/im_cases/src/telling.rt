//! What is told of a file of cases: each case that differs, and how many agree.

use crate::lines::{CaseLine, before};
use crate::playing::play;
use crate::reader::{Script, read};
use crate::texts::{Named, line_at};
use crate::wrong::{Fault, Wrong};
use std::alloc::Global;
use std::io;
use std::sync::Wait;
use std::thread::Threads;

/// Runs the cases of a file, tells each difference and at the end how many agree, and says whether all do.
pub fn tell(
    rt: &(impl Print + Alloc<A = Global> + Threads + Wait + Sync),
    name: &str,
    octets: &[u8],
) -> io::Result<bool> {
    match script_of(rt.alloc(), octets) {
        Ok(script) => {
            let well = tell_all(rt, name, &script);
            drop(script);
            well
        }
        Err(Fault { line, wrong }) => {
            let words = wrong.words();
            println!(rt; "{name} line {line}: {words}")?;
            tell_counts(rt, name, 0, 1)?;
            Ok(false)
        }
    }
}

// The lines that a file's octets say.
fn script_of(alloc: Global, octets: &[u8]) -> Result<Script<'_>, Fault> {
    match str::from_utf8(octets) {
        Ok(text) => read(alloc, text),
        Err(error) => Err(Wrong::Encoding.at(line_at(octets, error.valid_up_to()).0)),
    }
}

// Runs cases, tells each difference and how many agree, and says whether all do.
fn tell_all(
    rt: &(impl Print + Alloc<A = Global> + Threads + Wait + Sync),
    name: &str,
    script: &Script,
) -> io::Result<bool> {
    let mut agree = 0u64;
    let mut differ = 0u64;
    for (at, line) in script.lines.iter().enumerate() {
        if line.mark == "=" {
            let case = before(&script.lines[at + 1..], "=");
            if tell_case(rt, name, &script.named, line.rest, case)? {
                agree = agree.saturating_add(1);
            } else {
                differ = differ.saturating_add(1);
            }
        }
    }
    tell_counts(rt, name, agree, differ)?;
    Ok(differ == 0)
}

// Runs the case of this name and these lines, tells where it differs, and says whether it agrees.
fn tell_case(
    rt: &(impl Print + Alloc<A = Global> + Threads + Wait + Sync),
    name: &str,
    named: &[Named],
    case: &str,
    lines: &[CaseLine],
) -> io::Result<bool> {
    match play(rt, rt.alloc(), named, lines)? {
        Some(told) => {
            println!(rt; "{name}: {case}, {told}")?;
            Ok(false)
        }
        None => Ok(true),
    }
}

// Tells how many cases of a file agree, and how many differ where some do.
fn tell_counts(rt: &impl Print, name: &str, agree: u64, differ: u64) -> io::Result<()> {
    let agreeing = if agree == 1 {
        "case agrees"
    } else {
        "cases agree"
    };
    if differ == 0 {
        return println!(rt; "{name}: {agree} {agreeing}");
    }
    let differing = if differ == 1 { "differs" } else { "differ" };
    println!(rt; "{name}: {agree} {agreeing}, {differ} {differing}")
}
