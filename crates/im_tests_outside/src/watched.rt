//! The system's files, whose syncs are noted, and which fail where a test wants it.

use std::alloc::Allocator;
use std::cell::Cell;
use std::fs::{Files, Metadata, OpenFile, OpenOptions};
use std::io;
use std::io::{Read, Seek, SeekFrom, Write};

// What was asked of the files so far, and when they fail.
#[derive(Drop)]
pub struct Asked {
    // The last sixteen octets of the syncs in their order: of each the last octet of its path, and
    // then `-` where it was of the data, and `+` where it was of all.
    syncs: Cell<u128>,
    // How many writes and syncs succeed before all others fail.
    left: Cell<u64>,
}

impl Asked {
    pub fn new() -> Self {
        Asked {
            syncs: Cell::new(0),
            left: Cell::new(u64::MAX),
        }
    }

    // Whether these were the syncs since this was last asked.
    pub fn synced(&self, want: &str) -> bool {
        let mut octets = 0;
        for octet in want.as_bytes() {
            octets = behind(octets, *octet);
        }
        self.syncs.replace(0) == octets
    }

    // So many writes and syncs succeed from here on, and then none.
    pub fn fail_behind(&self, calls: u64) {
        self.left.set(calls);
    }

    // Whether each write and sync fails from here on, or none does.
    pub fn fail(&self, failing: bool) {
        self.fail_behind(if failing { 0 } else { u64::MAX });
    }

    fn add(&self, last: u8, kind: u8) {
        self.syncs.set(behind(behind(self.syncs.get(), last), kind));
    }

    fn answer(&self) -> io::Result<()> {
        match self.left.get().checked_sub(1) {
            Some(left) => {
                self.left.set(left);
                Ok(())
            }
            None => Err(io::Error::from(io::ErrorKind::Other)),
        }
    }
}

// An octet behind the others of a number.
fn behind(octets: u128, octet: u8) -> u128 {
    octets.wrapping_mul(256).wrapping_add(octet as u128)
}

// A file whose writes and syncs fail where the test wants it, and whose syncs are noted.
#[derive(Drop)]
pub struct WatchedFile<'a, F> {
    inner: F,
    last: u8,
    asked: &'a Asked,
}

impl<F: Read> Read for WatchedFile<'_, F> {
    fn read(&mut self, buf: &mut [u8]) -> io::Result<usize> {
        self.inner.read(buf)
    }
}

impl<F: Write> Write for WatchedFile<'_, F> {
    fn write(&mut self, buf: &[u8]) -> io::Result<usize> {
        self.asked.answer()?;
        self.inner.write(buf)
    }

    fn flush(&mut self) -> io::Result<()> {
        self.inner.flush()
    }
}

impl<F: Seek> Seek for WatchedFile<'_, F> {
    fn seek(&mut self, to: SeekFrom) -> io::Result<u64> {
        self.inner.seek(to)
    }
}

impl<F: OpenFile> OpenFile for WatchedFile<'_, F> {
    fn metadata(&self) -> io::Result<Metadata> {
        self.inner.metadata()
    }

    fn set_len(&self, size: u64) -> io::Result<()> {
        self.inner.set_len(size)
    }

    fn sync_all(&self) -> io::Result<()> {
        self.asked.add(self.last, b'+');
        self.asked.answer()?;
        self.inner.sync_all()
    }

    fn sync_data(&self) -> io::Result<()> {
        self.asked.add(self.last, b'-');
        self.asked.answer()?;
        self.inner.sync_data()
    }
}

// The system's files, each one watched.
#[derive(Drop)]
pub struct WatchedFiles<'a, R> {
    pub inner: &'a R,
    pub asked: &'a Asked,
}

impl<'a, R: Files> Files for WatchedFiles<'a, R> {
    type File = WatchedFile<'a, R::File>;

    type Dir = R::Dir;

    fn open_file(&self, how: &OpenOptions, path: &str) -> io::Result<WatchedFile<'a, R::File>> {
        let inner = self.inner.open_file(how, path)?;
        Ok(WatchedFile {
            inner,
            last: path.as_bytes().last().copied().unwrap_or(0),
            asked: self.asked,
        })
    }

    fn open_dir(&self, path: &str) -> io::Result<R::Dir> {
        self.inner.open_dir(path)
    }

    fn metadata(&self, path: &str) -> io::Result<Metadata> {
        self.inner.metadata(path)
    }

    fn symlink_metadata(&self, path: &str) -> io::Result<Metadata> {
        self.inner.symlink_metadata(path)
    }

    fn copy(&self, from: &str, to: &str) -> io::Result<u64> {
        self.inner.copy(from, to)
    }

    fn rename(&self, from: &str, to: &str) -> io::Result<()> {
        self.inner.rename(from, to)
    }

    fn remove_file(&self, path: &str) -> io::Result<()> {
        self.inner.remove_file(path)
    }

    fn create_dir(&self, path: &str) -> io::Result<()> {
        self.inner.create_dir(path)
    }

    fn remove_dir(&self, path: &str) -> io::Result<()> {
        self.inner.remove_dir(path)
    }

    fn remove_dir_all<B: Allocator>(&self, alloc: B, path: &str) -> io::Result<()> {
        self.inner.remove_dir_all(alloc, path)
    }
}
