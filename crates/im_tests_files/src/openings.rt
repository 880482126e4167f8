//! What opening tells of the gate behind the batches that count.

use crate::samples::{BATCH, RECORD, disk_of};
use im_clog::marks::Uncounted;
use im_digest::Sum;
use im_disk::memory::MemDisk;
use im_opening::errors::OpenError;
use im_opening::opening::{OpenFailed, Recovered, open, open_on};
use im_opening::reading::read_files;
use std::alloc::{AllocError, Global};
use std::test::Fail;
use std::thread::Threads;

// Why no batch counts behind those that do, where this is the commit log.
fn behind(alloc: Global, commits: &[u8]) -> Result<Option<Uncounted>, AllocError> {
    let mut disk = disk_of(alloc, &RECORD, commits, b"abc", Vec::new(alloc))?;
    Ok(match read_files(alloc, &Sum, &mut disk) {
        Ok(opened) => {
            let behind = opened.behind;
            drop(opened);
            Some(behind)
        }
        Err(_) => None,
    })
}

// The first octet of the commit log, how many octets of it are there, and the reason.
const BEHIND: &[(u8, usize, Uncounted)] = &[
    (1, 26, Uncounted::Closed { octet: 0 }),
    (1, 0, Uncounted::Missing),
    (1, 25, Uncounted::Short { len: 25 }),
    (0xa5, 26, Uncounted::Closed { octet: 0xa5 }),
];

#[test]
fn why_no_further_batch_counts(rt: HostRuntime) -> Result<(), Fail> {
    for (gate, len, want) in BEHIND {
        let mut commits = BATCH;
        commits[0] = *gate;
        let there = &commits[..(*len).min(26)];
        assert!(rt;
            behind(rt.alloc(), there)? == Some(*want),
            "{len} octets, gate {gate}"
        );
    }
    Ok(())
}

// Why a disk isn't opened, or None where it is.
fn why(answer: Result<Recovered<MemDisk>, OpenFailed<MemDisk>>) -> Option<OpenError> {
    match answer {
        Ok(recovered) => {
            drop(recovered);
            None
        }
        Err(failed) => {
            let error = failed.error;
            drop(failed);
            Some(error)
        }
    }
}

// Whether one thread and threads that hash ahead give the same answer of the sample with this octet of its transaction log
// changed, and open it only where none is.
fn agree<R: Threads + Sync>(rt: &R, alloc: Global, place: usize) -> Result<bool, AllocError> {
    let mut log = RECORD;
    if place < log.len() {
        log[place] ^= 1;
    }
    let one = disk_of(alloc, &log, &BATCH, b"abc", Vec::new(alloc))?;
    let two = disk_of(alloc, &log, &BATCH, b"abc", Vec::new(alloc))?;
    let alone = why(open(alloc, &Sum, one));
    let ahead = why(open_on(rt, alloc, &Sum, two));
    Ok(alone == ahead && alone.is_none() == (place == log.len()))
}

#[test]
fn threads_give_the_answer_of_one(rt: HostRuntime) -> Result<(), Fail> {
    for place in 0..=RECORD.len() {
        assert!(rt; agree(&rt, rt.alloc(), place)?, "octet {place}");
    }
    Ok(())
}
