//! The files that a disk begins a run with.

use crate::lines::{CaseLine, Run};
use crate::octets::{file_number, first_word, number, octets};
use crate::wrong::{Fault, Wrong};
use im_disk::calls::Call;
use im_disk::memory::MemDisk;
use im_octet::octets::Octets;
use std::alloc::{AllocError, Global};

// How many files a disk has.
const FILES: usize = 16;

/// A copy of each file, as the disk's calls made them of what they were at first: all of the calls, or where some are
/// lost those before the last sync that succeeded.
pub fn files_of(alloc: Global, disk: &MemDisk, loses: bool) -> Result<Vec<Vec<u8>>, AllocError> {
    let calls = disk.calls();
    let calls = if loses { synced(calls) } else { calls };
    let mut files = first_files_of(alloc, disk)?;
    for call in calls {
        if let Call::Wrote { file, at, piece } = call {
            if let Some(file) = files.get_mut(*file as usize) {
                put(file, *at as usize, piece.as_slice())?;
            }
        }
    }
    Ok(files)
}

// The calls before the last sync that succeeded.
fn synced(calls: &[Call]) -> &[Call] {
    let mut before = &calls[..0];
    for (at, call) in calls.iter().enumerate() {
        if let Call::Synced = call {
            before = &calls[..at];
        }
    }
    before
}

// A copy of each file, as it was at first.
fn first_files_of(alloc: Global, disk: &MemDisk) -> Result<Vec<Vec<u8>>, AllocError> {
    let mut files = Vec::new(alloc);
    for file in 0..FILES {
        let octets = match disk.first().get(file) {
            Some(octets) => octets.as_slice(),
            None => &[],
        };
        files.push(Vec::from_slice(alloc, octets)?)?;
    }
    Ok(files)
}

// Puts octets from a place on: in the place of others, and behind the last one.
fn put(file: &mut Vec<u8>, at: usize, octets: &[u8]) -> Result<(), AllocError> {
    for (i, octet) in octets.iter().enumerate() {
        match file.get_mut(at.saturating_add(i)) {
            Some(place) => *place = *octet,
            None => file.push(*octet)?,
        }
    }
    Ok(())
}

/// Changes the files as the lines of a run ask.
pub fn change_all(run: Run, files: &mut [Vec<u8>]) -> Result<(), Fault> {
    for line in run.lines {
        if let "file" | "spoil" | "cut" = line.mark {
            if let Err(wrong) = change(run.alloc, files, *line) {
                return Err(wrong.at(line.number));
            }
        }
    }
    Ok(())
}

// Changes a file as a line asks.
fn change(alloc: Global, files: &mut [Vec<u8>], line: CaseLine) -> Result<(), Wrong> {
    let (number, behind) = first_word(line.rest);
    let Some(file) = files.get_mut(file_number(number)? as usize) else {
        return Err(Wrong::File);
    };
    match line.mark {
        "file" => {
            *file = octets(alloc, behind)?;
            Ok(())
        }
        "spoil" => spoil(alloc, file, behind),
        _ => cut(file, behind),
    }
}

// Puts octets in the place of others, which are there.
fn spoil(alloc: Global, file: &mut Vec<u8>, rest: &str) -> Result<(), Wrong> {
    let (at, behind) = first_word(rest);
    let at = number(at)?;
    let octets = octets(alloc, behind)?;
    if at.saturating_add(octets.len() as u64) > file.len() as u64 {
        return Err(Wrong::Short);
    }
    put(file, at as usize, &octets)?;
    Ok(())
}

// Cuts a file that has as many octets.
fn cut(file: &mut Vec<u8>, rest: &str) -> Result<(), Wrong> {
    let length = number(rest)?;
    if length > file.len() as u64 {
        return Err(Wrong::Short);
    }
    file.truncate(length as usize);
    Ok(())
}

/// A disk with these files, whose changing calls of these numbers fail.
pub fn disk_of(
    alloc: Global,
    files: Vec<Vec<u8>>,
    failing: Vec<u64>,
) -> Result<MemDisk, AllocError> {
    let mut first = Vec::new(alloc);
    for file in files {
        first.push(Octets::from_vec(file))?;
    }
    first.truncate(FILES);
    MemDisk::from_files(alloc, first, failing)
}
