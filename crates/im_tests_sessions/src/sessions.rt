//! Sessions of a script, through the top call: that they run side by side, and that what they place is told once each.

use im_app::top::top;
use im_digest::Sum;
use im_disk::memory::MemDisk;
use im_edge::clock::FixedClock;
use im_edge::gate::{Gate, Point};
use im_edge::keeper::MemKeeper;
use im_edge::sink::Writing;
use im_edge::source::Reading;
use im_sqlengine::engine::Engine;
use im_status::status::{Done, Status};
use std::alloc::Global;
use std::sync::Wait;
use std::sync::atomic::{AtomicBool, Ordering};
use std::test::Fail;
use std::thread;
use std::thread::Threads;

// How often the session that comes first looks whether the other one was answered.
const MOST_TURNS: u64 = 100_000_000;

// The gate of two sessions with one line each. It holds up the first line that comes, until the other one was answered.
#[derive(Drop)]
struct Meeting {
    came: AtomicBool,
    first_answered: AtomicBool,
    second_answered: AtomicBool,
    met: AtomicBool,
}

impl Meeting {
    // Where a line came already, it holds up none.
    fn new(came: bool) -> Meeting {
        Meeting {
            came: AtomicBool::new(came),
            first_answered: AtomicBool::new(false),
            second_answered: AtomicBool::new(false),
            met: AtomicBool::new(false),
        }
    }

    // Whether a line of the first session was answered, or one of the other.
    fn answered(&self, is_first: bool) -> &AtomicBool {
        if is_first {
            &self.first_answered
        } else {
            &self.second_answered
        }
    }

    // Waits until that session's line was answered, for so many turns at most, and notes that it was.
    fn wait_for(&self, is_first: bool) {
        for _ in 0..MOST_TURNS {
            if self.answered(is_first).load(Ordering::SeqCst) {
                self.met.store(true, Ordering::SeqCst);
                return;
            }
            thread::yield_now();
        }
    }
}

impl Gate for Meeting {
    fn pause(&self, point: Point) {
        match point {
            Point::Before { session, .. } => {
                let is_later = self.came.swap(true, Ordering::SeqCst);
                if !is_later {
                    self.wait_for(session != 0);
                }
            }
            Point::After { session, .. } => {
                self.answered(session == 0).store(true, Ordering::SeqCst);
            }
        }
    }
}

// Runs a script over an empty disk in memory, with a linker: how it ended, and what it wrote.
fn ran<R: Threads + Wait + Sync>(
    rt: &R,
    alloc: Global,
    script: &[u8],
    gate: &Meeting,
) -> Result<(Status, Vec<u8>), Fail> {
    let mut words = Vec::new(alloc);
    for word in ["im", "run"] {
        words.push(String::from_str(alloc, word)?)?;
    }
    let mut sink = Writing::new(Vec::new(alloc));
    let Done { status, disk, .. } = top(
        rt,
        alloc,
        words.as_slice(),
        &Sum,
        &Engine,
        &mut Reading::new(script),
        &mut sink,
        MemDisk::new(alloc, Vec::new(alloc))?,
        &mut MemKeeper::new(alloc),
        FixedClock { time: 0 },
        gate,
    );
    drop(disk);
    let Writing { inner, .. } = sink;
    Ok((status, inner))
}

// Were sessions run one behind the other, the line that is held up would hold up the other one, and nothing would be met.
#[test]
fn two_sessions_run_side_by_side(rt: HostRuntime) -> Result<(), Fail> {
    let gate = Meeting::new(false);
    let (status, report) = ran(&rt, rt.alloc(), b"a: set k=1\nb: set j=2\n", &gate)?;
    let report = report.as_slice();
    let is_told = report == b"a 1 tx 1\nb 2 tx 2\n".as_slice()
        || report == b"a 2 tx 2\nb 1 tx 1\n".as_slice();
    if status == Status::Ok && is_told && gate.met.load(Ordering::SeqCst) {
        Ok(())
    } else {
        Err(Fail::new("the sessions didn't meet"))
    }
}

// The script of sessions a and b, fifty lines each, by turns.
fn fifty_each(alloc: Global) -> Result<Vec<u8>, Fail> {
    let mut script = Vec::new(alloc);
    for _ in 0..50 {
        script.extend_from_slice(b"a: set k=1\nb: set k=1\n")?;
    }
    Ok(script)
}

// The number before a reply `tx` and behind it, where it is one of this session.
fn number_of(line: &str, session: &str) -> Option<u64> {
    let (name, rest) = line.split_once(' ')?;
    let (number, reply) = rest.split_once(' ')?;
    let told = reply.strip_prefix("tx ")?;
    if name != session || told != number {
        return None;
    }
    number.parse::<u64>().ok()
}

// Notes a number, where it is above the last one, at most 100, and new.
fn is_noted(number: u64, last: u64, seen: &mut [bool; 101]) -> bool {
    if number <= last || number > 100 || seen[number as usize] {
        return false;
    }
    seen[number as usize] = true;
    true
}

// Whether the replies of a session, every other line from the first or the second one on, rise, each with a new number, which is noted.
fn rises(report: &str, session: &str, is_first: bool, seen: &mut [bool; 101]) -> bool {
    let mut is_own = is_first;
    let mut last = 0;
    for line in report.lines() {
        if is_own {
            let Some(number) = number_of(line, session) else {
                return false;
            };
            if !is_noted(number, last, seen) {
                return false;
            }
            last = number;
        }
        is_own = !is_own;
    }
    true
}

// Each line's number is new, so where all numbers up to a hundred were noted there are as many lines.
#[test]
fn each_of_a_hundred_transactions_is_told_once(rt: HostRuntime) -> Result<(), Fail> {
    let alloc = rt.alloc();
    let (status, report) = ran(&rt, alloc, &fifty_each(alloc)?, &Meeting::new(true))?;
    let Ok(report) = str::from_utf8(report.as_slice()) else {
        return Err(Fail::new("no text"));
    };
    let mut seen = [false; 101];
    let risen = rises(report, "a", true, &mut seen) && rises(report, "b", false, &mut seen);
    let all = seen.iter().skip(1).all(|is_told| *is_told);
    if status == Status::Ok && risen && all {
        Ok(())
    } else {
        Err(Fail::new("a number is told twice, or falls"))
    }
}
