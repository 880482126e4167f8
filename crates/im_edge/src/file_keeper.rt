ghost use Rattle.std.specs.Prelude.{◌≡◌, ◌↔◌};
ghost use Rattle.std.specs.IoError.{error_kind};
ghost use Rattle.std.specs.declared.io.ErrorKind.TheVariants.{OutOfMemory};
ghost use Rattle.im_edge.specs.declared.keeper.KeeperError.TheVariants.{Memory};

use crate::file_lock::folder_of;
use crate::keeper::{Keeper, KeeperError, counted};
use crate::lines::{line_of, texts_of};
use im_octet::octets::Octets;
use std::alloc::Global;
use std::fs::{Files, OpenFile, OpenOptions};
use std::io::{ErrorKind, Read, Seek, SeekFrom, Write};
use std::{fs, io};

// What ends a line.
const LF: u8 = b'\n';

/// A keeper over a file of lines, each ended by LF. It opens the file at each call, and makes it only to
/// append; a file that isn't there has no line. A line with an LF in it comes back as several. No clause
/// says what the file holds.
///
/// Each append looks at the file's last octet, writes the line, and syncs it (`sync_data`); before the first
/// one the name of the file is brought to the disk too (`sync_all` of its folder). Where the last line lacks
/// its LF, that LF is written first, so that no line is glued to another one. Where writing fails, the file is
/// cut back to its length before; if that fails too, or the machine stops in the middle, a part of the line
/// may stay at the end, and is then told as the last line. Each reading of the lines reads the file whole, and
/// copies each line.
#[derive(Drop)]
pub struct FileKeeper<'a, R> {
    rt: &'a R,
    alloc: Global,
    /// Where the file is.
    pub path: &'a str,
    /// How often it has failed, at most `u64::MAX`.
    pub failures: u64,
    // Whether the file's name is still to be brought to the disk, since nobody knows whether it's new.
    unnamed: bool,
}

impl<'a, R: Files> FileKeeper<'a, R> {
    /// A keeper over the file at `path`, which hasn't failed yet. It doesn't look at the file.
    pub fn new(rt: &'a R, alloc: Global, path: &'a str) -> Self
        ensures path { result.path ≡ path.entry }
        ensures failures { result.failures ≡ 0 }
    {
        FileKeeper {
            rt,
            alloc,
            path,
            failures: 0,
            unnamed: true,
        }
    }

    // Adds a line at the file's end, and makes the file where there is none. After an error the file is as
    // long as it was, unless cutting it back fails too.
    fn add(&mut self, text: &[u8]) -> Result<(), KeeperError>
        ensures path { self.new.path ≡ self.old.path }
        ensures failures { self.new.failures ≡ self.old.failures }
    {
        let mut file = appending(self.rt, self.path)?;
        self.bring_name()?;
        let length = file.metadata()?.len();
        let lacks_end = lacks_end(&mut file, length)?;
        let line = line_of(self.alloc, text)?;
        if let Err(error) = put(&mut file, lacks_end, &line) {
            let _ = file.set_len(length).and_then(|_| file.sync_data());
            return Err(KeeperError::from(error));
        }
        Ok(())
    }

    // Brings the file's name to the disk, once.
    fn bring_name(&mut self) -> Result<(), KeeperError>
        ensures path { self.new.path ≡ self.old.path }
        ensures failures { self.new.failures ≡ self.old.failures }
    {
        if self.unnamed {
            fs::open(self.rt, folder_of(self.path))?.sync_all()?;
            self.unnamed = false;
        }
        Ok(())
    }
}

impl<R: Files> Keeper for FileKeeper<'_, R> {
    ghost use Rattle.std.specs.Prelude.{None};

    ghost kept = { λ _. None };

    ghost faults = { λ keeper. keeper.failures };

    fn lines(&mut self, alloc: Global) -> Result<Vec<Octets>, KeeperError> {
        counted(&mut self.failures, read_file(self.rt, alloc, self.path))
    }

    fn append(&mut self, line: &[u8]) -> Result<(), KeeperError> {
        let answer = self.add(line);
        counted(&mut self.failures, answer)
    }
}

/// Want of memory, the system's too, is `Memory`, and every other error is a failure.
impl From<io::Error> for KeeperError {
    ghost from_gives = { λ error cause. (cause ≡ Memory) ↔ (error_kind error ≡ OutOfMemory) };

    fn from(error: io::Error) -> Self {
        match error.kind() {
            ErrorKind::OutOfMemory => KeeperError::Memory,
            _ => KeeperError::Failed,
        }
    }
}

// The texts of a file's lines, and none where there is no file.
fn read_file<R: Files>(rt: &R, alloc: Global, path: &str) -> Result<Vec<Octets>, KeeperError> {
    let mut file = match fs::open(rt, path) {
        Ok(file) => file,
        Err(error) if error.kind() == ErrorKind::NotFound => return Ok(Vec::new(alloc)),
        Err(error) => return Err(KeeperError::from(error)),
    };
    let mut octets = Vec::new(alloc);
    file.read_to_end(&mut octets)?;
    Ok(texts_of(alloc, &octets)?)
}

// Opens a file to add to it and to look at its end, and makes it where there is none.
fn appending<R: Files>(rt: &R, path: &str) -> io::Result<R::File> {
    let mut how = OpenOptions::new();
    how.read(true).append(true).create(true);
    how.open(rt, path)
}

// Whether a file of this length has a last line that lacks its LF.
fn lacks_end<F: Read + Seek>(file: &mut F, length: u64) -> io::Result<bool> {
    if length == 0 {
        return Ok(false);
    }
    let mut last = [LF];
    file.seek(SeekFrom::Start(length - 1))?;
    let read = file.read(&mut last)?;
    Ok(read == 1 && last[0] != LF)
}

// Writes a line to a file, behind the LF that the last one lacks, and brings both to the disk.
fn put<F: Write + OpenFile>(file: &mut F, lacks_end: bool, line: &[u8]) -> io::Result<()> {
    if lacks_end {
        file.write_all(&[LF])?;
    }
    file.write_all(line)?;
    file.flush()?;
    file.sync_data()
}
