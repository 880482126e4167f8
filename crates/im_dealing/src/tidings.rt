//! What the threads of a phase tell each other.

use std::sync::{Condvar, Mutex, Wait};

// How far a phase has come.
#[derive(Drop)]
struct SoFar {
    // How many transactions are durable, as some session was told.
    durable: u64,
    // Whether all sessions have ended.
    ended: bool,
}

// Who waits is waked where the number of durable transactions passes a multiple of this one: to wake a thread is a call of the system, and the
// session that makes it has a next line.
const TOLD_AT_ONCE: u64 = 16;

/// How far a phase has come: what the linker and the indexer wait for, so that they take no processor time where there is little to do.
///
/// # Thread safety
///
/// Any number of threads may call it at a time. Its lock is held for no other call.
#[derive(Drop)]
pub struct Tidings {
    so_far: Mutex<SoFar>,
    changed: Condvar,
}

impl Tidings {
    /// Those of a phase that begins.
    pub fn new() -> Self {
        Tidings {
            so_far: Mutex::new(SoFar {
                durable: 0,
                ended: false,
            }),
            changed: Condvar::new(),
        }
    }

    /// Tells that so many transactions are durable.
    pub fn tell<R: Wait>(&self, rt: &R, durable: u64) {
        if self.reaches(rt, durable) {
            self.changed.notify_all();
        }
    }

    // Keeps that so many are durable, and tells whether who waits has to be told.
    fn reaches<R: Wait>(&self, rt: &R, durable: u64) -> bool {
        let mut so_far = self.so_far.lock(rt);
        let before = so_far.durable;
        so_far.durable = before.max(durable);
        goes_on(before, durable)
    }

    /// Tells that all sessions have ended.
    pub fn end<R: Wait>(&self, rt: &R) {
        let mut so_far = self.so_far.lock(rt);
        so_far.ended = true;
        self.changed.notify_all();
    }

    /// Waits until some transactions more than so many are durable, at most as many as are told at once, or all sessions have ended, and
    /// tells whether they have.
    pub fn wait_past<R: Wait>(&self, rt: &R, known: u64) -> bool {
        let so_far = self.changed.wait_while(rt, self.so_far.lock(rt), |so_far| {
            !goes_on(known, so_far.durable) && !so_far.ended
        });
        so_far.ended
    }
}

// Whether the number passes a multiple of those that are told at once.
fn goes_on(known: u64, durable: u64) -> bool {
    known / TOLD_AT_ONCE < durable / TOLD_AT_ONCE
}
