//! Shows streams of lines to clients that keep facts, and prints what each client makes of each line. The file is the
//! first word, and else `streams`. `docs/CASES.md` says how a stream is written, and what is printed.
#![tactic(auto)]

mod streams;
mod texts;
mod told;
mod wrong;

use std::process::ExitCode;
use std::{env, fs, io};

fn main(rt: HostRuntime) -> io::Result<ExitCode> {
    let word = env::args(&rt)?.nth(1);
    let file = word.as_deref().unwrap_or("streams");
    let text = fs::read_to_string(&rt, file)?;
    match streams::read(rt.alloc(), text.as_str()) {
        Ok(told) => {
            print!(rt; "{told}")?;
            Ok(ExitCode::SUCCESS)
        }
        Err(wrong) => {
            let words = wrong.words();
            eprintln!(rt; "{file}: {words}")?;
            Ok(ExitCode::FAILURE)
        }
    }
}
