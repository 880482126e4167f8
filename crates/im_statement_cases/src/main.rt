//! Runs sessions of SQL's statements over a history's keys, and prints what each line is answered. The file is the first
//! word, and else `sessions`. `docs/CASES.md` says how a line is written, and what is printed.
#![tactic(auto)]

mod answers;
mod errors;
mod lines;
mod puts;
mod session;
mod statements;
mod values;
mod wrong;

use crate::wrong::Fault;
use std::process::ExitCode;
use std::{env, fs, io};

fn main(rt: HostRuntime) -> io::Result<ExitCode> {
    let word = env::args(&rt)?.nth(1);
    let file = word.as_deref().unwrap_or("sessions");
    let sessions = fs::read_to_string(&rt, file)?;
    match lines::read(rt.alloc(), sessions.as_str()) {
        Ok(told) => {
            print!(rt; "{told}")?;
            Ok(ExitCode::SUCCESS)
        }
        Err(Fault { line, wrong }) => {
            let words = wrong.words();
            eprintln!(rt; "{file} line {line}: {words}")?;
            Ok(ExitCode::FAILURE)
        }
    }
}
