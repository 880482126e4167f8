//! Walks over a disk whose files are those of a folder.

use crate::watched::{Asked, WatchedFiles};
use im_disk::disk::{Disk, DiskError};
use im_folder::folder::FolderDisk;
use std::alloc::Global;
use std::fs;
use std::fs::Files;

// What is done with a disk or with its folder, and what is then seen of them.
#[derive(Clone, Copy)]
enum Act {
    Len(u8, u64),
    Read(u8, u64, &'static str),
    Write(u8, u64, &'static str),
    Sync,
    // The same calls, which fail: a read of so many octets, and a write of one.
    NoLen(u8),
    NoRead(u8, u64, usize),
    NoWrite(u8, u64),
    NoSync,
    // How often the disk has failed so far.
    Failures(u64),
    // The syncs that the files were asked for since this was last seen.
    Synced(&'static str),
    // Whether writes and syncs of the files fail from here on.
    Failing(bool),
    // What the system itself does with a path, and sees there.
    Remove(&'static str),
    MakeFolder(&'static str),
    MakeFile(&'static str, &'static str),
    Holds(&'static str, &'static str),
    Missing(&'static str),
}

use Act::{
    Failing, Failures, Holds, Len, MakeFile, MakeFolder, Missing, NoLen, NoRead, NoSync, NoWrite,
    Read, Remove, Sync, Synced, Write,
};

const FAILED: DiskError = DiskError::Failed;

// Whether these octets are read.
fn reads<R: Files>(disk: &mut FolderDisk<'_, R>, file: u8, at: u64, want: &str) -> bool {
    let mut buffer = [0u8; 8];
    let n = want.len();
    file < 16
        && n <= 8
        && disk.read(file, at, &mut buffer[..n]) == Ok(())
        && &buffer[..n] == want.as_bytes()
}

// Does an act with the disk, or else with its files, and tells whether all is as it says.
fn fits<R: Files + Alloc>(
    files: &WatchedFiles<'_, R>,
    disk: &mut FolderDisk<'_, WatchedFiles<'_, R>>,
    act: Act,
) -> bool {
    match act {
        Len(file, want) => file < 16 && disk.len(file) == Ok(want),
        Read(file, at, want) => reads(disk, file, at, want),
        Write(file, at, piece) => file < 16 && disk.write_at(file, at, piece.as_bytes()) == Ok(()),
        Sync => disk.sync() == Ok(()),
        NoLen(file) => file < 16 && disk.len(file) == Err(FAILED),
        NoRead(file, at, n) => {
            let mut buffer = [0u8; 8];
            file < 16 && n <= 8 && disk.read(file, at, &mut buffer[..n]) == Err(FAILED)
        }
        NoWrite(file, at) => file < 16 && disk.write_at(file, at, b"a") == Err(FAILED),
        NoSync => disk.sync() == Err(FAILED),
        Failures(want) => disk.failures() == want,
        _ => fits_below(files, act),
    }
}

fn fits_below<R: Files + Alloc>(files: &WatchedFiles<'_, R>, act: Act) -> bool {
    match act {
        Synced(want) => files.asked.synced(want),
        Failing(failing) => {
            files.asked.fail(failing);
            true
        }
        Remove(path) => {
            let _ = fs::remove_dir_all(files.inner, path);
            true
        }
        MakeFolder(path) => fs::create_dir(files.inner, path).is_ok(),
        MakeFile(path, text) => fs::write(files.inner, path, text.as_bytes()).is_ok(),
        Holds(path, want) => match fs::read(files.inner, path) {
            Ok(octets) => octets.as_slice() == want.as_bytes(),
            Err(_) => false,
        },
        Missing(path) => matches!(fs::exists(files.inner, path), Ok(false)),
        _ => false,
    }
}

// Each walk is over a new disk, whose folder comes behind the walk's name.
const WALKS: &[(&str, &str, &[Act])] = &[
    (
        "a folder that is not there",
        "im_disk_missing",
        &[
            Remove("im_disk_missing"),
            Len(1, 0),
            Read(1, 0, ""),
            Sync,
            Failures(0),
            NoRead(1, 0, 1),
            NoWrite(1, 1),
            Failures(2),
            Missing("im_disk_missing"),
        ],
    ),
    (
        "files in a folder",
        "im_disk_files",
        &[
            Remove("im_disk_files"),
            Write(1, 0, "abcdef"),
            Write(1, 2, "XY"),
            Write(1, 5, "ghi"),
            Sync,
            Holds("im_disk_files/1", "abXYeghi"),
            Len(1, 8),
            Read(1, 2, "XYe"),
            Len(2, 0),
            Failures(0),
        ],
    ),
    (
        "another disk takes what lies there",
        "im_disk_files",
        &[Read(1, 5, "ghi"), Sync, Remove("im_disk_files")],
    ),
    (
        "past the end of a file",
        "im_disk_short",
        &[
            Remove("im_disk_short"),
            Write(1, 0, "abc"),
            Read(1, 0, "abc"),
            NoRead(1, 1, 3),
            NoRead(1, 4, 3),
            NoRead(1, u64::MAX, 3),
            NoRead(1, 4, 0),
            NoWrite(1, 4),
            Failures(5),
            Len(1, 3),
            Remove("im_disk_short"),
        ],
    ),
    (
        "a folder where a file should be",
        "im_disk_spoilt",
        &[
            Remove("im_disk_spoilt"),
            MakeFolder("im_disk_spoilt"),
            MakeFolder("im_disk_spoilt/0"),
            NoLen(0),
            NoWrite(0, 0),
            Failures(2),
            Remove("im_disk_spoilt/0"),
        ],
    ),
    (
        "a file where the folder should be",
        "im_disk_spoilt/0",
        &[
            MakeFile("im_disk_spoilt/0", "abc"),
            NoWrite(0, 0),
            Failures(1),
        ],
    ),
    (
        "a folder whose folder is not there",
        "im_disk_spoilt/a/b",
        &[
            Len(0, 0),
            NoWrite(0, 0),
            Failures(1),
            Remove("im_disk_spoilt"),
        ],
    ),
    (
        "each file is synced once",
        "im_disk_synced",
        &[
            Remove("im_disk_synced"),
            // Nothing is there but the folder above, which is `.`.
            Sync,
            Synced(".+"),
            // Two new files, then the folder that names them, then the one above.
            Write(15, 0, "abc"),
            Write(0, 0, "abc"),
            Write(0, 1, "d"),
            Synced(""),
            Sync,
            Synced("0-5-d+.+"),
            // Nothing was written since.
            Len(0, 3),
            Len(7, 0),
            Read(7, 0, ""),
            Sync,
            Synced(""),
            Remove("im_disk_synced"),
        ],
    ),
    (
        "only what was written is synced",
        "im_disk_rewritten",
        &[
            Remove("im_disk_rewritten"),
            Write(0, 0, "abc"),
            Write(15, 0, "abc"),
            Sync,
            Synced("0-5-n+.+"),
            // A file that was there.
            Write(15, 1, "d"),
            Sync,
            Synced("5-"),
            // A new file, in a folder that was there.
            Write(7, 0, "abc"),
            Sync,
            Synced("7-n+"),
        ],
    ),
    (
        "another disk can't know of any sync",
        "im_disk_rewritten",
        &[Sync, Synced("0-7-5-n+.+"), Remove("im_disk_rewritten")],
    ),
    (
        "a failed sync is the last",
        "im_disk_lost",
        &[
            Remove("im_disk_lost"),
            Write(3, 0, "abc"),
            Failing(true),
            NoSync,
            Synced("3-"),
            Failures(1),
            // No later one succeeds, though nothing fails any more.
            Failing(false),
            NoSync,
            Synced(""),
            Failures(2),
            Remove("im_disk_lost"),
        ],
    ),
    (
        "so is one of the folder above",
        "im_disk_lost",
        &[
            Failing(true),
            NoSync,
            Synced(".+"),
            Failures(1),
            Failing(false),
            NoSync,
            Synced(""),
            Failures(2),
        ],
    ),
    (
        "a failed write is counted",
        "im_disk_refused",
        &[
            Remove("im_disk_refused"),
            Write(3, 0, "abc"),
            Sync,
            Synced("3-d+.+"),
            Failing(true),
            NoWrite(3, 3),
            Failures(1),
            // Some of it may have been written, so the file is synced.
            Failing(false),
            Sync,
            Synced("3-"),
            Failures(1),
            Remove("im_disk_refused"),
        ],
    ),
];

// The first act over a new disk of which not all is as it says.
fn first_difference<R: Files + Alloc>(
    rt: &R,
    alloc: Global,
    folder: &str,
    acts: &[Act],
) -> Option<usize> {
    let asked = Asked::new();
    let files = WatchedFiles {
        inner: rt,
        asked: &asked,
    };
    let mut disk = FolderDisk::new(&files, alloc, folder);
    for (i, act) in acts.iter().enumerate() {
        if !fits(&files, &mut disk, *act) {
            return Some(i);
        }
    }
    None
}

#[test]
fn disks_over_a_folder(rt: HostRuntime) {
    for (name, folder, acts) in WALKS {
        let at = first_difference(&rt, rt.alloc(), folder, acts);
        assert!(rt; at.is_none(), "{name}: {at:?}");
    }
}
