//! The doubles of a disk: in memory, behind a fuse, and one that keeps nothing.

use crate::walks::Step::{self, Faults, Holds, Miss, Read, Sync, Tear, Time, Write};
use crate::walks::walk;
use im_disk::calls::Call;
use im_disk::disk::{Disk, DiskError};
use im_disk::fuse::Fuse;
use im_disk::memory::MemDisk;
use im_disk::no_disk::NoDisk;
use im_octet::octets::Octets;
use std::alloc::{AllocError, Global};
use std::test::Fail;

fn keeps_nothing() -> bool {
    let mut buffer = [7u8; 3];
    NoDisk.write_at(15, 0, b"abc") == Ok(())
        && NoDisk.sync() == Ok(())
        && NoDisk.len(15) == Ok(0)
        && NoDisk.read(15, 0, &mut buffer) == Ok(())
        && buffer == [0, 0, 0]
}

#[test]
fn nothing_is_kept(rt: HostRuntime) {
    assert!(rt; keeps_nothing());
}

// Writes over the end of what was there, and at the end.
const WRITTEN: [Step; 12] = [
    Holds(15, ""),
    Write(15, 0, "abcdef"),
    Write(15, 1, "XY"),
    Holds(15, "aXYdef"),
    Write(15, 5, "ghi"),
    Holds(15, "aXYdeghi"),
    Write(15, 8, "j"),
    Sync,
    Read(15, 6, "hij"),
    Holds(14, ""),
    Time(5),
    Faults(0),
];

fn tells_writes(calls: &[Call]) -> bool {
    calls.len() == 5
        && matches!(&calls[1], Call::Wrote { file: 15, at: 1, piece } if piece.as_slice() == b"XY".as_slice())
        && matches!(&calls[4], Call::Synced)
}

// The second changing call fails, and the fourth.
const FAILED: [Step; 11] = [
    Write(3, 0, "abc"),
    Tear(3, 1, "XYZ"),
    Faults(1),
    Holds(3, "abc"),
    Sync,
    Miss,
    Write(3, 3, "d"),
    Holds(3, "abcd"),
    Faults(2),
    Time(5),
    Read(3, 0, "abcd"),
];

fn tells_failures(calls: &[Call]) -> bool {
    calls.len() == 5
        && matches!(
            &calls[1],
            Call::Tore {
                file: 3,
                at: 1,
                n: 3
            }
        )
        && matches!(&calls[3], Call::Missed)
}

#[test]
fn a_disk_in_memory(rt: HostRuntime) -> Result<(), Fail> {
    let disk = walk(&rt, rt.alloc(), "written", &WRITTEN)?;
    assert!(rt; tells_writes(disk.calls()));
    drop(disk);
    let disk = walk(&rt, rt.alloc(), "failed", &FAILED)?;
    assert!(rt; tells_failures(disk.calls()));
    drop(disk);
    Ok(())
}

// Whether a call fails exactly where it was told to, and the one behind it doesn't.
fn fails_once(alloc: Global) -> Result<bool, AllocError> {
    let mut disk = MemDisk::new(alloc, vec![in alloc; 2]?)?;
    let first = disk.write_at(3, 0, b"abc") == Ok(());
    let second = disk.sync() == Err(DiskError::Failed);
    disk.fail_next()?;
    let third = disk.write_at(3, 0, b"XY") == Err(DiskError::Failed);
    let fourth = disk.sync() == Ok(());
    Ok(
        first
            && second
            && third
            && fourth
            && disk.file(3) == b"abc".as_slice()
            && disk.faults() == 2,
    )
}

#[test]
fn a_disk_that_is_told_to_fail(rt: HostRuntime) -> Result<(), Fail> {
    assert!(rt; fails_once(rt.alloc())?);
    Ok(())
}

// The two files of a disk that held `abc` and `de`, behind a write of `f` at the end of the second.
fn left(alloc: Global) -> Result<Option<Vec<Octets>>, AllocError> {
    let first = vec![in alloc;
        Octets::from_slice(alloc, b"abc")?,
        Octets::from_slice(alloc, b"de")?,
    ]?;
    let mut disk = MemDisk::from_files(alloc, first, Vec::new(alloc))?;
    if disk.file(1).len() != 2 || disk.write_at(1, 2, b"f") != Ok(()) {
        return Ok(None);
    }
    let first = disk.first();
    if first.len() != 2 || first[1].as_slice() != b"de".as_slice() {
        return Ok(None);
    }
    let zero = Octets::from_slice(alloc, disk.file(0))?;
    let one = Octets::from_slice(alloc, disk.file(1))?;
    Ok(Some(vec![in alloc; zero, one]?))
}

fn opens_again(alloc: Global) -> Result<bool, AllocError> {
    let Some(files) = left(alloc)? else {
        return Ok(false);
    };
    if files.len() != 2 {
        return Ok(false);
    }
    let again = MemDisk::from_files(alloc, files, Vec::new(alloc))?;
    Ok(
        again.file(0) == b"abc".as_slice()
            && again.file(1) == b"def".as_slice()
            && again.file(15).is_empty()
            && again.time() == 0,
    )
}

fn is_empty_at_first(alloc: Global) -> Result<bool, AllocError> {
    let mut disk = MemDisk::new(alloc, Vec::new(alloc))?;
    Ok(disk.first().is_empty() && disk.len(15) == Ok(0) && disk.file(0).is_empty())
}

#[test]
fn a_disk_opened_again(rt: HostRuntime) -> Result<(), Fail> {
    assert!(rt; opens_again(rt.alloc())?);
    assert!(rt; is_empty_at_first(rt.alloc())?);
    Ok(())
}

// The answer of a changing call behind a fuse that passes so many: done, where it is one of these.
fn answered(calls: u64, number: u64) -> Result<(), DiskError> {
    if number <= calls {
        Ok(())
    } else {
        Err(DiskError::Failed)
    }
}

// Whether a disk has these octets in file 2, and no others.
fn has<D: Disk>(disk: &mut D, want: &str) -> bool {
    let mut octets = [0u8; 3];
    match disk.len(2) {
        Ok(0) => want.is_empty(),
        Ok(3) => disk.read(2, 0, &mut octets) == Ok(()) && octets.as_slice() == want.as_bytes(),
        _ => false,
    }
}

// Whether a fuse passes just so many changing calls, and the disk within is then so.
fn burns(alloc: Global, calls: u64, want: &str) -> Result<bool, AllocError> {
    let inner = MemDisk::new(alloc, Vec::new(alloc))?;
    let mut fuse = Fuse::new(alloc, inner, calls);
    let passed = fuse.write_at(2, 0, b"abc") == answered(calls, 1)
        && fuse.sync() == answered(calls, 2)
        && fuse.write_at(2, 0, b"X") == answered(calls, 3)
        && has(&mut fuse, want);
    let inner = fuse.into_inner();
    let within = inner.file(2) == want.as_bytes();
    Ok(passed && within && inner.time() == calls.min(3) && inner.faults() == 0)
}

#[test]
fn a_disk_that_burns_through(rt: HostRuntime) -> Result<(), Fail> {
    for (calls, want) in [(0, ""), (1, "abc"), (2, "abc"), (3, "Xbc"), (9, "Xbc")] {
        assert!(rt; burns(rt.alloc(), calls, want)?, "at {calls}");
    }
    Ok(())
}
