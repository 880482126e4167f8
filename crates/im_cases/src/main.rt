//! Runs the cases of the files `*.case` in a folder through the top call, and tells where what came of them isn't what
//! is wanted. The folder is its first word, and else the one that it runs in. `docs/CASES.md` says how a case is written.
#![tactic(auto)]

mod comparing;
mod doubles;
mod feeding;
mod folder;
mod given;
mod hashes;
mod images;
mod lines;
mod marks;
mod octets;
mod playing;
mod reader;
mod shown;
mod stage;
mod stop;
mod telling;
mod texts;
mod wanting;
mod wrong;

use std::process::ExitCode;
use std::{env, fs, io};

fn main(rt: HostRuntime) -> io::Result<ExitCode> {
    let word = env::args(&rt)?.nth(1);
    let folder = word.as_deref().unwrap_or(".");
    let mut well = true;
    for name in &folder::case_files(&rt, folder)? {
        let path = format!(in rt.alloc(); "{folder}/{name}")?;
        let octets = fs::read(&rt, path.as_str())?;
        well = telling::tell(&rt, name, &octets)? && well;
    }
    Ok(if well {
        ExitCode::SUCCESS
    } else {
        ExitCode::FAILURE
    })
}
