//! Reads texts from a file, one a line as the lower-case hex of its octets, and prints a line for each: the statement
//! of SQL that it is, or its first fault. The file is the first word, and else `texts`. `docs/CASES.md` says how a
//! statement is printed.
#![tactic(auto)]

mod conditions;
mod creations;
mod lines;
mod selects;
mod statements;
mod values;
mod writes;
mod wrong;

use crate::wrong::Fault;
use std::process::ExitCode;
use std::{env, fs, io};

fn main(rt: HostRuntime) -> io::Result<ExitCode> {
    let word = env::args(&rt)?.nth(1);
    let file = word.as_deref().unwrap_or("texts");
    let texts = fs::read_to_string(&rt, file)?;
    match lines::read(rt.alloc(), texts.as_str()) {
        Ok(told) => {
            print!(rt; "{told}")?;
            Ok(ExitCode::SUCCESS)
        }
        Err(Fault { line, wrong }) => {
            let words = wrong.words();
            eprintln!(rt; "{file} line {line}: {words}")?;
            Ok(ExitCode::FAILURE)
        }
    }
}
