//! A store in the memory of another program: two scripts are run over one disk, and what each is answered is
//! printed.
#![tactic(auto)]

use im_app::top::top;
use im_digest::Sha;
use im_disk::memory::MemDisk;
use im_edge::clock::TickingClock;
use im_edge::gate::OpenGate;
use im_edge::keeper::MemKeeper;
use im_edge::sink::Writing;
use im_edge::source::Reading;
use im_sqlengine::engine::Engine;
use im_status::status::{Done, Status};
use std::alloc::{AllocError, Global};
use std::io;
use std::process::ExitCode;
use std::sync::Wait;
use std::thread::Threads;

const FIRST: &str = "app: set stock/apples=10\n";

const SECOND: &str = "app: set since:stock/apples@1 stock/apples=9\napp: history stock/apples\n";

fn main(rt: HostRuntime) -> ExitCode {
    match run_both(&rt) {
        Ok(status) => ExitCode::from(status.code()),
        Err(_) => ExitCode::from(Status::Memory.code()),
    }
}

// Runs the second script where the first one was answered whole.
fn run_both<R: Print + Alloc<A = Global> + Threads + Wait + Sync>(
    rt: &R,
) -> Result<Status, AllocError> {
    let words = words_of(rt.alloc())?;
    let disk = MemDisk::new(rt.alloc(), Vec::new(rt.alloc()))?;
    let (first, disk) = run(rt, &words, disk, FIRST);
    let (status, disk) = match first {
        Status::Ok => run(rt, &words, disk, SECOND),
        _ => (first, disk),
    };
    drop(disk);
    Ok(status)
}

// The words of the command line.
fn words_of(alloc: Global) -> Result<Vec<String>, AllocError> {
    let mut words = Vec::new(alloc);
    for word in ["im", "run"] {
        words.push(String::from_str(alloc, word)?)?;
    }
    Ok(words)
}

// Runs a script over a disk, prints its report, and hands the disk back.
fn run<R: Print + Alloc<A = Global> + Threads + Wait + Sync>(
    rt: &R,
    words: &[String],
    disk: MemDisk,
    script: &str,
) -> (Status, MemDisk) {
    let Done { status, disk, .. } = top(
        rt,
        rt.alloc(),
        words,
        &Sha,
        &Engine,
        &mut Reading::new(script.as_bytes()),
        &mut Writing::new(io::writer(rt)),
        disk,
        &mut MemKeeper::new(rt.alloc()),
        TickingClock { asked: 0 },
        &OpenGate,
    );
    (status, disk)
}
