//! Commits by many threads on one store over a folder, each of one value of 100 octets and durable before the next one of its thread: for
//! measuring. It takes the number of threads and that of the commits of each, and prints how many were made, and what the disk was asked
//! for them.
#![tactic(auto)]

ghost use Rattle.std.specs.Prelude.{◌≤◌, IfSome};

mod counted;
mod sharing;

use counted::Counted;
use im_digest::Sha;
use im_folder::locked_folder::LockedFolder;
use sharing::{NotRun, run};
use std::env;
use std::process::ExitCode;

// The folder in the working folder whose files are the store's.
const STORED: &str = "im-data";

// The file whose lock says that the store's folder is taken.
const LOCK: &str = "im-data/lock";

const USAGE: &str = "usage: im_bench THREADS COMMITS";

fn main(rt: HostRuntime) -> ExitCode {
    let Some((threads, each)) = numbers(&rt) else {
        return fail(&rt, USAGE, 2);
    };
    let disk = Counted::new(LockedFolder::new(&rt, rt.alloc(), STORED, LOCK));
    match run(&rt, rt.alloc(), &Sha, disk, threads, each) {
        Ok((made, disk)) => {
            let ended = tell(&rt, made, disk.gates(), disk.flushes());
            drop(disk);
            ended
        }
        Err(NotRun::NotOpened) => fail(&rt, "not opened", 3),
        Err(NotRun::Memory) => fail(&rt, "out of memory", 4),
    }
}

// Says why nothing was measured, and gives the exit status.
fn fail(rt: &HostRuntime, why: &str, status: u8) -> ExitCode {
    eprintln!(rt; "{why}").ok();
    ExitCode::from(status)
}

// Prints what was measured, and gives the exit status.
fn tell(rt: &HostRuntime, made: u64, gates: u64, flushes: u64) -> ExitCode {
    match println!(rt; "commits {made} batches {gates} flushes {flushes}") {
        Ok(()) => ExitCode::from(0),
        Err(_) => ExitCode::from(5),
    }
}

// The two numbers of the command line, where it has just them, and 1 to 1000 threads.
fn numbers(rt: &HostRuntime) -> Option<(u32, u64)>
    ensures { IfSome result (λ n. (1 ≤ n.0) × (n.0 ≤ 1000)) }
{
    let args = env::args(rt).ok()?;
    let words = args.collect::<Vec<String>>(rt.alloc()).ok()?;
    if words.len() != 3 {
        return None;
    }
    let threads = words[1].as_str().parse::<u32>().ok()?;
    let each = words[2].as_str().parse::<u64>().ok()?;
    if threads == 0 || 1000 < threads {
        return None;
    }
    Some((threads, each))
}
