//! The journal of a disk that was opened: what was read, and values read back.

use crate::samples::Shown::{self, Corrupt, Fault};
use crate::samples::{BATCH, RECORD, disk_of, placed, shows, sum_is};
use im_digest::{Hash32, Sum};
use im_disk::disk::{Disk, DiskError};
use im_disk::memory::MemDisk;
use im_journal::batches::Step;
use im_journal::ends::Ends;
use im_journal::errors::JournalError;
use im_journal::journal::Journal;
use im_opening::found::FoundHistory;
use im_opening::opening::{Recovered, open};
use std::alloc::Global;
use std::test::Fail;

// A disk's journal, and what was found on it.
fn opened<D: Disk, H: Hash32>(
    alloc: Global,
    hash: &H,
    disk: D,
) -> Result<(Journal<D>, FoundHistory), Fail> {
    match open(alloc, hash, disk) {
        Ok(Recovered { journal, found }) => Ok((journal, found)),
        Err(failed) => {
            drop(failed);
            Err(Fail::from("the disk wasn't opened"))
        }
    }
}

// What the journal says of one durable transaction, and reads of it.
fn holds_one(alloc: Global, journal: &mut Journal<MemDisk>) -> bool {
    let ends = Ends {
        records: 110,
        commits: 25,
        values: [3, 0, 0, 0],
    };
    journal.durable() == 1
        && *journal.ends() == ends
        && journal.step() == Step::Idle
        && shows(
            journal.read_value(alloc, &Sum, &placed(0x26, 3, 0, 0)),
            0x26,
            Shown::Octets(b"abc"),
        )
        && journal.failures() == 0
}

#[test]
fn a_disk_that_was_read_has_its_transaction(rt: HostRuntime) -> Result<(), Fail> {
    let alloc = rt.alloc();
    let disk = disk_of(alloc, &RECORD, &BATCH, b"abc", Vec::new(alloc))?;
    let (mut journal, found) = opened(alloc, &Sum, disk)?;
    assert!(rt; found.records.len() == 1 && found.headers.len() == 1);
    assert!(rt; found.alhs.as_slice() == [sum_is(0x95)].as_slice() && found.tree.size() == 0);
    drop(found);
    assert!(rt; holds_one(alloc, &mut journal));
    drop(journal);
    Ok(())
}

// Whether a journal whose disk failed once does nothing any more.
fn is_stopped<D: Disk>(alloc: Global, journal: &mut Journal<D>, faults: u64) -> bool {
    faults > 0
        && journal.failures() == faults
        && journal.durable() == 0
        && journal.stage(alloc, &[]) == Err(JournalError::Stopped { faults })
        && journal.begin(alloc, &[]) == Err(JournalError::Stopped { faults })
        && journal.stage_piece() == Err(JournalError::Stopped { faults })
        && journal.open_gate() == Err(JournalError::Stopped { faults })
        && journal.seal() == Err(JournalError::Stopped { faults })
        && journal.settle() == Err(JournalError::Stopped { faults })
        && journal.failures() == faults
}

// The octets of value log 0, and what references to its front show. abc adds up to 26 modulo 256 (hex), and abd
// to 27. There is no fifth log.
const SHOWN: &[(&[u8], u8, u32, u8, Shown)] = &[
    (b"abd", 0x26, 3, 0, Corrupt(0x27)),
    (b"abd", 0x27, 3, 0, Shown::Octets(b"abd")),
    (b"abc", 0x26, 0, 4, Corrupt(0)),
    (b"abc", 0, 0, 4, Shown::Octets(b"")),
];

#[test]
fn a_value_is_read_from_the_journal(rt: HostRuntime) -> Result<(), Fail> {
    let alloc = rt.alloc();
    for (values, total, len, log, want) in SHOWN {
        let disk = disk_of(alloc, &[], &[0], values, Vec::new(alloc))?;
        let (mut journal, found) = opened(alloc, &Sum, disk)?;
        drop(found);
        let read = journal.read_value(alloc, &Sum, &placed(*total, *len, *log, 0));
        assert!(rt; shows(read, *total, *want), "{total} in log {log}");
        assert!(rt; journal.failures() == 0);
        drop(journal);
    }
    Ok(())
}

// A disk that tells nothing, with three octets in value log 0, and nothing in the other files. Each read of a
// value fails.
#[derive(Drop)]
struct Unread {
    failures: u64,
}

impl Disk for Unread {
    ghost use Rattle.std.specs.Prelude.{None};

    ghost told = { λ _. None };

    ghost faults = { λ disk. disk.failures };

    fn len(&mut self, file: u8) -> Result<u64, DiskError> {
        Ok(if file == 2 { 3 } else { 0 })
    }

    fn read(&mut self, file: u8, _at: u64, _buffer: &mut [u8]) -> Result<(), DiskError> {
        if file != 2 {
            return Ok(());
        }
        self.failures = self.failures.saturating_add(1);
        Err(DiskError::Failed)
    }

    fn write_at(&mut self, _file: u8, _at: u64, _piece: &[u8]) -> Result<(), DiskError> {
        Ok(())
    }

    fn sync(&mut self) -> Result<(), DiskError> {
        Ok(())
    }
}

#[test]
fn after_a_read_that_failed_nothing_is_written(rt: HostRuntime) -> Result<(), Fail> {
    let alloc = rt.alloc();
    let (mut journal, found) = opened(alloc, &Sum, Unread { failures: 0 })?;
    drop(found);
    for _ in 0..2 {
        let read = journal.read_value(alloc, &Sum, &placed(0x26, 3, 0, 0));
        assert!(rt; shows(read, 0x26, Fault));
    }
    assert!(rt; is_stopped(alloc, &mut journal, 2));
    assert!(rt; journal.step() == Step::Idle);
    drop(journal);
    Ok(())
}
