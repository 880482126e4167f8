//! What came of a run beside what is wanted: the first difference.

use crate::lines::{CaseLine, Run};
use crate::octets::{file_number, first_word, number, octets};
use crate::shown::{Place, Shown, calls_text};
use crate::stop::{Stop, differ};
use crate::texts::line_at;
use crate::wanting;
use im_disk::memory::MemDisk;
use im_octet::octets::Octets;
use std::alloc::{AllocError, Global};

/// Compares the exit status, and what is said on standard error.
pub fn compare_end(run: Run, came: &[u8]) -> Result<(), Stop> {
    let wanted = wanting::run_end(run)?;
    if wanted.as_slice() == came {
        return Ok(());
    }
    let (wanted, came) = (Shown::Text(&wanted), Shown::Text(came));
    Err(differ(run.alloc, Place::Whole("end"), wanted, came))
}

/// Compares two texts by lines.
pub fn compare_lines(alloc: Global, what: &str, wanted: &[u8], came: &[u8]) -> Result<(), Stop> {
    if wanted == came {
        return Ok(());
    }
    let (number, start) = line_at(wanted, same_front(wanted, came));
    let place = Place::Numbered(what, number);
    let wanted = Shown::Line(wanted, start);
    let came = Shown::Line(came, start);
    Err(differ(alloc, place, wanted, came))
}

// How many octets at the front are the same.
fn same_front(a: &[u8], b: &[u8]) -> usize {
    let most = a.len().min(b.len());
    for at in 0..most {
        if a[at] != b[at] {
            return at;
        }
    }
    most
}

/// Compares the lines that the keeper holds, where some are wanted, and their number, where one is.
pub fn compare_kept(run: Run, kept: &[Octets]) -> Result<(), Stop> {
    let wanted = run.texts("kept")?;
    if !wanted.is_empty() {
        let came = kept_text(run.alloc, kept)?;
        compare_lines(run.alloc, "kept line", &wanted, &came)?;
    }
    let place = Place::Whole("lines kept");
    compare_count(run.alloc, place, run.number("lines"), kept.len() as u64)
}

// Lines, each with an LF.
fn kept_text(alloc: Global, kept: &[Octets]) -> Result<Vec<u8>, AllocError> {
    let mut text = Vec::new(alloc);
    for line in kept {
        text.extend_from_slice(line.as_slice())?;
        text.push(b'\n')?;
    }
    Ok(text)
}

/// Compares the changing calls that the disk got, where some are wanted, and their number, where one is.
pub fn compare_calls(run: Run, disk: &MemDisk) -> Result<(), Stop> {
    let wanted = wanting::calls(run)?;
    if !wanted.is_empty() {
        let came = calls_text(run.alloc, disk.calls())?;
        compare_lines(
            run.alloc,
            "changing call",
            wanted.as_bytes(),
            came.as_bytes(),
        )?;
    }
    let place = Place::Whole("changing calls");
    compare_count(run.alloc, place, run.number("calls"), disk.time())
}

/// Compares what files hold.
pub fn compare_files(run: Run, disk: &MemDisk) -> Result<(), Stop> {
    for line in run.lines {
        match line.mark {
            "has" => compare_file(run.alloc, line.rest, disk)?,
            "length" => compare_length(run.alloc, line.rest, disk)?,
            _ => {}
        }
    }
    Ok(())
}

// Compares the octets of a file.
fn compare_file(alloc: Global, rest: &str, disk: &MemDisk) -> Result<(), Stop> {
    let (file, behind) = first_word(rest);
    let file = file_number(file)?;
    let wanted = octets(alloc, behind)?;
    let came = disk.file(file);
    if wanted.as_slice() == came {
        return Ok(());
    }
    let at = same_front(&wanted, came);
    let wanted = Shown::Octets(&wanted, at);
    let came = Shown::Octets(came, at);
    Err(differ(alloc, Place::From { file, at }, wanted, came))
}

// Compares how many octets a file has.
fn compare_length(alloc: Global, rest: &str, disk: &MemDisk) -> Result<(), Stop> {
    let (file, behind) = first_word(rest);
    let file = file_number(file)?;
    let place = Place::Numbered("octets of file", u64::from(file));
    let came = disk.file(file).len() as u64;
    compare_count(alloc, place, number(behind).ok(), came)
}

/// Compares a number, where one is wanted.
pub fn compare_count(
    alloc: Global,
    place: Place,
    wanted: Option<u64>,
    came: u64,
) -> Result<(), Stop> {
    match wanted {
        Some(wanted) if wanted != came => {
            let wanted = Shown::Number(wanted);
            Err(differ(alloc, place, wanted, Shown::Number(came)))
        }
        _ => Ok(()),
    }
}
