//! Walks over a disk in memory, step by step.

use im_disk::disk::{Disk, DiskError};
use im_disk::memory::MemDisk;
use im_image::images::may_leave;
use im_image::within::are_within;
use im_octet::octets::Octets;
use std::alloc::{AllocError, Global};
use std::process::Abort;

/// What is done with a disk, or what is then seen of it.
#[derive(Clone, Copy)]
pub enum Step {
    /// Writes a piece at a place of a file.
    Write(u8, u64, &'static str),
    /// The same, and it fails.
    Tear(u8, u64, &'static str),
    Sync,
    /// A sync that fails.
    Miss,
    /// All that reads give of a file.
    Holds(u8, &'static str),
    /// What reads give of a file from a place on.
    Read(u8, u64, &'static str),
    /// How many changing calls there were.
    Time(u64),
    /// How many of them failed.
    Faults(u64),
    /// A crash may leave the files 0 and 1 so, and the others empty.
    May(&'static str, &'static str),
    /// It may not.
    Never(&'static str, &'static str),
}

use Step::{Faults, Holds, May, Miss, Never, Read, Sync, Tear, Time, Write};

/// Sixteen files, of which these are the first two, and the others are empty.
pub fn files(alloc: Global, zero: &str, one: &str) -> Result<Vec<Octets>, AllocError> {
    let mut files = Vec::new(alloc);
    files.push(Octets::from_slice(alloc, zero.as_bytes())?)?;
    files.push(Octets::from_slice(alloc, one.as_bytes())?)?;
    for _ in 2..16 {
        files.push(Octets::new(alloc))?;
    }
    Ok(files)
}

// Whether a crash may leave these files of the disk now.
fn leaves(alloc: Global, disk: &MemDisk, zero: &str, one: &str) -> Result<bool, AllocError> {
    let image = files(alloc, zero, one)?;
    let first = disk.first();
    Ok(first.len() == 16 && image.len() == 16 && may_leave(first, disk.calls(), &image))
}

// The answer of a write where the file has that place, and of none where it hasn't.
fn written(disk: &mut MemDisk, file: u8, at: u64, piece: &str) -> Option<Result<(), DiskError>> {
    if file < 16 && at < 100 && at <= disk.file(file).len() as u64 {
        return Some(disk.write_at(file, at, piece.as_bytes()));
    }
    None
}

fn holds(disk: &mut MemDisk, file: u8, want: &str) -> bool {
    file < 16 && disk.file(file) == want.as_bytes() && disk.len(file) == Ok(want.len() as u64)
}

fn reads(disk: &mut MemDisk, file: u8, at: u64, want: &str) -> bool {
    let mut buffer = [0u8; 8];
    let n = want.len();
    file < 16
        && n <= 8
        && at < 100
        && at + n as u64 <= disk.file(file).len() as u64
        && disk.read(file, at, &mut buffer[..n]) == Ok(())
        && &buffer[..n] == want.as_bytes()
}

// Takes a step, and tells whether all is as it says.
fn fits(alloc: Global, disk: &mut MemDisk, step: Step) -> Result<bool, AllocError> {
    Ok(match step {
        Write(file, at, piece) => written(disk, file, at, piece) == Some(Ok(())),
        Tear(file, at, piece) => written(disk, file, at, piece) == Some(Err(DiskError::Failed)),
        Sync => disk.sync() == Ok(()),
        Miss => disk.sync() == Err(DiskError::Failed),
        Holds(file, want) => holds(disk, file, want),
        Read(file, at, want) => reads(disk, file, at, want),
        Time(want) => disk.time() == want,
        Faults(want) => disk.faults() == want,
        May(zero, one) => leaves(alloc, disk, zero, one)?,
        Never(zero, one) => !leaves(alloc, disk, zero, one)?,
    })
}

// The numbers of the changing calls that are to fail.
fn failing(alloc: Global, steps: &[Step]) -> Result<Vec<u64>, AllocError> {
    let mut failing = Vec::new(alloc);
    let mut number = 0u64;
    for step in steps {
        if matches!(step, Write(..) | Tear(..) | Sync | Miss) {
            number = number.saturating_add(1);
        }
        if matches!(step, Tear(..) | Miss) {
            failing.push(number)?;
        }
    }
    Ok(failing)
}

/// Takes these steps over a disk with `abcd` in file 0 and `xy` in file 1, and gives the disk back.
pub fn walk(
    rt: &impl Abort,
    alloc: Global,
    name: &str,
    steps: &[Step],
) -> Result<MemDisk, AllocError> {
    let first = files(alloc, "abcd", "xy")?;
    assert!(rt; first.len() == 16);
    let mut disk = MemDisk::from_files(alloc, first, failing(alloc, steps)?)?;
    for (i, step) in steps.iter().enumerate() {
        assert!(rt; fits(alloc, &mut disk, *step)?, "{name}: {i}");
    }
    assert!(rt;
        disk.first().len() == 16 && are_within(disk.first(), disk.calls()),
        "{name}"
    );
    Ok(disk)
}
