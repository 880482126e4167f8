ghost use Rattle.std.specs.Prelude.{◌≡◌, ◌<◌, ◌+◌, ◌-◌, ◌^◌, ◌⊎◌, min, true, OnOk, IsSome, slice_set};
ghost use Rattle.im_disk.specs.Causes.{HasCause};
ghost use Rattle.im_folder.specs.Brought.{AllBrought};

use crate::folder::{FolderDisk, counted};
use im_disk::disk::{Disk, DiskError};
use im_edge::file_lock::{FileLock, Lockable};
use std::alloc::Global;
use std::fs::Files;

/// A disk over the files of a folder that one program at a time has: it takes the lock of a file at its first
/// call, and holds it for as long as it lives. Where another program holds the lock, that call fails, and the
/// folder's files aren't touched. What the lock is worth stands at `FileLock`; what the disk does besides, at
/// `FolderDisk`. It tells no content.
///
/// # Thread safety
///
/// None: one owner holds it.
#[derive(Drop)]
pub struct LockedFolder<'a, R: Files> {
    /// The disk over the folder.
    disk: FolderDisk<'a, R>,
    lock: FileLock<'a, R>,
    // How often the lock couldn't be had, at most `u64::MAX`.
    refused: u64,
}

impl<'a, R: Files> LockedFolder<'a, R> {
    /// A disk over the folder at `folder`, behind the lock of the file at `lock`, which isn't held yet. It looks
    /// at neither, and takes no memory.
    pub fn new(rt: &'a R, alloc: Global, folder: &'a str, lock: &'a str) -> Self
        ensures folder { result.disk.folder ≡ folder.entry }
        ensures lock { result.lock.path ≡ lock.entry }
        ensures failures { result.disk.failures + result.refused ≡ 0 }
    {
        LockedFolder {
            disk: FolderDisk::new(rt, alloc, folder),
            lock: FileLock::new(rt, lock),
            refused: 0,
        }
    }

    /// How often it has failed, or the lock couldn't be had, at most `u64::MAX`.
    pub fn failures(&self) -> u64
        ensures { result ≡ min (self.now.disk.failures + self.now.refused) (2 ^ 64 - 1) }
    {
        self.disk.failures().saturating_add(self.refused)
    }
}

impl<R: Files> LockedFolder<'_, R>
where
    R::File: Lockable,
{
    // Takes the lock, where it isn't held yet. A failure is counted.
    fn hold(&mut self) -> Result<(), DiskError>
        ensures disk { self.new.disk ≡ self.old.disk }
        ensures cause { HasCause self.old.refused self.new.refused result }
        ensures locked { OnOk result (IsSome self.new.lock.held) }
    {
        let answer = self.lock.hold().map_err(DiskError::from);
        counted(&mut self.refused, answer)
    }
}

impl<R: Files> Disk for LockedFolder<'_, R>
where
    R::File: Lockable,
{
    ghost use Rattle.std.specs.Prelude.{None};

    ghost told = { λ _. None };

    ghost faults = { λ disk. disk.disk.failures + disk.refused };

    fn len(&mut self, file: u8) -> Result<u64, DiskError>
        requires { file < 16 }
        ensures cause { HasCause (self.old.disk.failures + self.old.refused) (self.new.disk.failures + self.new.refused) result }
        ensures held { (self.new.refused ≡ self.old.refused) ⊎ (self.new.disk ≡ self.old.disk) }
        ensures locked { OnOk result (IsSome self.new.lock.held) }
    {
        self.hold()?;
        self.disk.len(file)
    }

    fn read(&mut self, file: u8, at: u64, buffer: &mut [u8]) -> Result<(), DiskError>
        requires { file < 16 }
        ensures cause { HasCause (self.old.disk.failures + self.old.refused) (self.new.disk.failures + self.new.refused) result }
        ensures held { (self.new.refused ≡ self.old.refused) ⊎ (self.new.disk ≡ self.old.disk) }
        ensures locked { OnOk result (IsSome self.new.lock.held) }
    {
        self.hold()?;
        self.disk.read(file, at, buffer)
    }

    fn write_at(&mut self, file: u8, at: u64, piece: &[u8]) -> Result<(), DiskError>
        requires { file < 16 }
        ensures cause { HasCause (self.old.disk.failures + self.old.refused) (self.new.disk.failures + self.new.refused) result }
        ensures held { (self.new.refused ≡ self.old.refused) ⊎ (self.new.disk ≡ self.old.disk) }
        ensures locked { OnOk result (IsSome self.new.lock.held) }
        ensures marked { OnOk result (self.new.disk.unsynced.files ≡ slice_set self.old.disk.unsynced.files file true) }
    {
        self.hold()?;
        self.disk.write_at(file, at, piece)
    }

    fn sync(&mut self) -> Result<(), DiskError>
        ensures cause { HasCause (self.old.disk.failures + self.old.refused) (self.new.disk.failures + self.new.refused) result }
        ensures held { (self.new.refused ≡ self.old.refused) ⊎ (self.new.disk ≡ self.old.disk) }
        ensures locked { OnOk result (IsSome self.new.lock.held) }
        ensures brought { OnOk result (AllBrought self.new.disk.unsynced) }
    {
        self.hold()?;
        self.disk.sync()
    }
}
