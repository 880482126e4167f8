//! Runs lists of events through the machine, and tells where one isn't answered as wanted. The files are `worked.events` and
//! `lists.events`, or the one that its first word names. `docs/CASES.md` says how a list is written.
#![tactic(auto)]

mod events;
mod images;
mod lists;
mod outputs;
mod placing;
mod told;
mod words;
mod wrong;

use std::{env, fs, io};

fn main(rt: HostRuntime) -> io::Result<()> {
    let word = env::args(&rt)?.nth(1);
    if let Some(file) = word.as_deref() {
        return tell(&rt, file);
    }
    tell(&rt, "worked.events")?;
    tell(&rt, "lists.events")
}

// Tells what a file's lists come to.
fn tell(rt: &HostRuntime, file: &str) -> io::Result<()> {
    let text = fs::read_to_string(rt, file)?;
    let told = told::told(rt.alloc(), file, text.as_str())?;
    print!(rt; "{told}")
}
