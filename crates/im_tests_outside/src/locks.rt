//! Locks, by which one program at a time has a folder or a keeper's file: the system tells two opens of one file apart
//! also within a program.

use im_disk::disk::{Disk, DiskError};
use im_edge::file_keeper::FileKeeper;
use im_edge::file_lock::{FileLock, Lockable};
use im_edge::keeper::{Keeper, KeeperError};
use im_edge::locked_keeper::LockedKeeper;
use im_folder::locked_folder::LockedFolder;
use std::alloc::Global;
use std::fs;
use std::fs::Files;
use std::test::Fail;

const FOLDER: &str = "im_locked";

const LOCK: &str = "im_locked/lock";

const KEPT: &str = "im_locked_kept.txt";

// The second disk's calls all fail, and touch nothing, until the first one is let go. It counts each of them once.
fn one_disk_has_it<R: Files>(rt: &R, alloc: Global) -> bool
where
    R::File: Lockable,
{
    let mut first = LockedFolder::new(rt, alloc, FOLDER, LOCK);
    let mut second = LockedFolder::new(rt, alloc, FOLDER, LOCK);
    let failed = first.write_at(0, 0, b"one") == Ok(())
        && second.write_at(0, 0, b"two") == Err(DiskError::Failed)
        && second.len(0) == Err(DiskError::Failed)
        && second.sync() == Err(DiskError::Failed)
        && second.failures() == 3
        && first.sync() == Ok(())
        && first.failures() == 0;
    drop(first);
    failed && second.len(0) == Ok(3) && second.failures() == 3
}

#[test]
fn one_disk_at_a_time_has_a_folder(rt: HostRuntime) -> Result<(), Fail> {
    let _ = fs::remove_dir_all(&rt, FOLDER);
    assert!(rt; one_disk_has_it(&rt, rt.alloc()));
    assert!(rt; fs::read(&rt, "im_locked/0")?.as_slice() == b"one".as_slice());
    fs::remove_dir_all(&rt, FOLDER)?;
    Ok(())
}

// The same of a keeper, whose lock is that of the file of its lines.
fn one_keeper_has_it<R: Files>(rt: &R, alloc: Global) -> bool
where
    R::File: Lockable,
{
    let mut first = LockedKeeper::new(FileKeeper::new(rt, alloc, KEPT), FileLock::new(rt, KEPT));
    let mut second = LockedKeeper::new(FileKeeper::new(rt, alloc, KEPT), FileLock::new(rt, KEPT));
    let failed = first.append(b"one") == Ok(())
        && second.append(b"two") == Err(KeeperError::Failed)
        && matches!(second.lines(alloc), Err(KeeperError::Failed))
        && second.failures == 2
        && first.failures == 0;
    drop(first);
    failed && matches!(second.lines(alloc), Ok(lines) if lines.len() == 1)
}

#[test]
fn one_keeper_at_a_time_has_a_file(rt: HostRuntime) -> Result<(), Fail> {
    let _ = fs::remove_file(&rt, KEPT);
    assert!(rt; one_keeper_has_it(&rt, rt.alloc()));
    fs::remove_file(&rt, KEPT)?;
    Ok(())
}
