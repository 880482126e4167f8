ghost use Rattle.std.specs.Prelude.{◌≡◌, OnOk, IsSome};

use std::alloc::Global;
use std::fs::{File, Files, OpenOptions, TryLockError};
use std::io::ErrorKind;
use std::path::Path;
use std::{fs, io};

/// An open file that can be locked against other opens of the same file.
pub trait Lockable {
    /// Takes the lock for as long as the file is open. Fails with `WouldBlock` where another open of it
    /// holds the lock, and otherwise as the system does. It doesn't wait.
    fn take_lock(&self) -> io::Result<()>;
}

/// The system's lock (`flock`).
impl Lockable for File {
    fn take_lock(&self) -> io::Result<()> {
        match self.try_lock() {
            Ok(()) => Ok(()),
            Err(TryLockError::WouldBlock) => Err(io::Error::from(ErrorKind::WouldBlock)),
            Err(TryLockError::Error(error)) => Err(error),
        }
    }
}

/// The lock of a file, by which one program at a time says that what lies beside the file is its own. It is
/// taken at the first `hold`, and held for as long as this lives, whatever becomes of the program: the
/// system lets go of it as the program ends.
///
/// It is advisory: it keeps away those who ask for it, as each `im` does, and no other program. On a file
/// system over a network it is worth what that file system makes of it. Nothing of the file is read or
/// written. No clause says what the system does.
#[derive(Drop)]
pub struct FileLock<'a, R: Files> {
    rt: &'a R,
    /// Where the file is.
    pub path: &'a str,
    /// The file, once it is locked.
    pub held: Option<R::File>,
}

impl<'a, R: Files> FileLock<'a, R> {
    /// The lock of the file at `path`, which isn't held yet. It doesn't look at the file.
    pub fn new(rt: &'a R, path: &'a str) -> Self
        ensures path { result.path ≡ path.entry }
    {
        FileLock {
            rt,
            path,
            held: None,
        }
    }
}

impl<R: Files> FileLock<'_, R>
where
    R::File: Lockable,
{
    /// Takes the lock where it isn't held yet. The file, and the folder that it lies in, are made where
    /// they aren't there. Fails with `WouldBlock` where another program holds it, and otherwise as the
    /// system does.
    pub fn hold(&mut self) -> io::Result<()>
        ensures path { self.new.path ≡ self.old.path }
        ensures held { OnOk result (IsSome self.new.held) }
    {
        if self.held.is_none() {
            let file = opened(self.rt, self.path)?;
            file.take_lock()?;
            self.held = Some(file);
        }
        Ok(())
    }
}

// Opens the file, which is made where it isn't there.
fn opened<R: Files>(rt: &R, path: &str) -> io::Result<R::File> {
    match fs::create_dir(rt, folder_of(path)) {
        Err(error) if error.kind() != ErrorKind::AlreadyExists => return Err(error),
        _ => {}
    }
    OpenOptions::new().append(true).create(true).open(rt, path)
}

/// The folder in which a path names a file: `.` where the path has no other.
pub fn folder_of(path: &str) -> &str {
    match Path::new(path).parent() {
        Some(parent) if !parent.as_str().is_empty() => parent.as_str(),
        _ => ".",
    }
}
