//! The program `im`.
#![tactic(auto)]

mod clock;

use clock::SystemClock;
use im_app::top::top;
use im_digest::Sha;
use im_edge::file_keeper::FileKeeper;
use im_edge::file_lock::FileLock;
use im_edge::gate::OpenGate;
use im_edge::locked_keeper::LockedKeeper;
use im_edge::sink::Writing;
use im_edge::source::Reading;
use im_folder::locked_folder::LockedFolder;
use im_sqlengine::engine::Engine;
use im_status::status::{Done, Status};
use std::io::{self, Lock, Write};
use std::process::ExitCode;
use std::{env, fs};

// The folder in the working folder whose files are the store's.
const STORED: &str = "im-data";

// The file whose lock says that the store's folder is taken.
const LOCK: &str = "im-data/lock";

// The file in the working folder whose lines are what the client keeps.
const KEPT: &str = "im-client.txt";

// A folder that can be opened, and neither read nor written as a file is.
const NOWHERE: &str = "/";

fn main(rt: HostRuntime) -> ExitCode {
    // A file that is opened gets the number of a standard end that is closed, and what was meant for that end
    // would be written into it. These are opened before all files of the store, and that end fails instead.
    let ends = [
        fs::open(&rt, NOWHERE),
        fs::open(&rt, NOWHERE),
        fs::open(&rt, NOWHERE),
    ];
    let words = match words_of(&rt) {
        Ok(words) => words,
        Err(status) => {
            let code = ended(&rt, status);
            drop(ends);
            return code;
        }
    };
    let disk = LockedFolder::new(&rt, rt.alloc(), STORED, LOCK);
    let mut keeper = LockedKeeper::new(
        FileKeeper::new(&rt, rt.alloc(), KEPT),
        FileLock::new(&rt, KEPT),
    );
    let Done { status, disk, .. } = top(
        &rt,
        rt.alloc(),
        words.as_slice(),
        &Sha,
        &Engine,
        &mut Reading::new(rt.reader()),
        &mut Writing::new(io::writer(&rt)),
        disk,
        &mut keeper,
        SystemClock { rt: &rt },
        &OpenGate,
    );
    // Both locks are held until the end was told.
    let code = ended(&rt, status);
    drop(disk);
    drop(keeper);
    drop(words);
    drop(ends);
    code
}

// The words of the command line, or how a run ends where they can't be had.
fn words_of(rt: &HostRuntime) -> Result<Vec<String>, Status> {
    let Ok(args) = env::args(rt) else {
        return Err(Status::Usage);
    };
    let Ok(words) = args.collect::<Vec<String>>(rt.alloc()) else {
        return Err(Status::Memory);
    };
    Ok(words)
}

// Tells how a run ended, on standard error and by the exit status.
fn ended(rt: &HostRuntime, status: Status) -> ExitCode {
    let told = match status.told(rt.alloc()) {
        Ok(text) => rt.stderr().lock().write_all(text.as_slice()),
        // The words need no memory.
        Err(_) => eprintln!(rt; "im: {}", status.words()),
    };
    // Where standard error can't be written, the exit status alone tells.
    let _ = told;
    ExitCode::from(status.code())
}
