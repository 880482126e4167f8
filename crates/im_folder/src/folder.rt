ghost use Rattle.std.specs.Prelude.{◌≡◌, ◌<◌, ◌≤◌, ◌+◌, ◌-◌, ◌^◌, ◌↔◌, ◌⊎◌, min, true, IsTrue, IsOk, IsErr, IsErrOf, IfErr, OnErr, OnOk, IsFalse, slice_set, slice_index_or, replicate, false};
ghost use Rattle.im_disk.specs.declared.disk.DiskError.TheVariants.{Failed};
ghost use Rattle.im_disk.specs.Causes.{HasCause};
ghost use Rattle.im_folder.specs.Brought.{AllBrought, KeepsRest, Stays};

use im_disk::disk::{Disk, DiskError};
use im_edge::file_lock::folder_of;
use im_edge::sink::{Writing, write_all};
use std::alloc::Global;
use std::fs::{Files, OpenFile, OpenOptions};
use std::io::{ErrorKind, Read, Seek, SeekFrom};
use std::{fs, io};

/// A disk over the files of a folder, which are named by their numbers: `0`, `1` and so on. It opens
/// a file at each call that needs it, and makes files and the folder only to write; what isn't there
/// is empty. A read past a file's end fails, and so does a write behind it. Nothing is tried again:
/// once a sync failed, no later one succeeds. It tells no content, and no clause says what the files
/// hold.
///
/// `len`, `read` and `write_at` open their file and ask for its length, and then `read` and `write_at`
/// go to the place and read or write until all octets are through. A write to a file that isn't there
/// looks for the folder, and makes what is missing. `sync` opens each file that was written since it
/// was last brought to the disk, and calls `sync_data`; it does the same by `sync_all` with the folder
/// where files were made in it, and with the one that names the folder where that was made. The first
/// `sync` does so with all of them that are there. Opening a file takes memory for its path.
///
/// # Thread safety
///
/// None: one owner holds it. Nothing keeps another disk or process from the folder's files.
///
/// # Invariants
///
/// - What a sync still has to bring to the disk stays marked: a write marks its file (`unsynced`) and
///   takes no other mark away (`stays`, by `Stays`); no clause of a public call says that it marks the
///   names and the folder that it makes. After a sync that succeeds nothing
///   is marked (`all`, by `AllBrought`), and after one that ends in an error something still is
///   (`left`), and what comes behind it keeps its mark (`kept`, by `KeepsRest`).
/// - What was lost stays lost: a sync that fails loses (`failed`), and no sync succeeds from then on
///   (`lost`, `still`); one that memory ran out for loses nothing (`again`).
/// - Failures are counted, as for each disk (`cause`), and each one as one, up to `u64::MAX`
///   (`count`).
/// - The folder stays the same (`path`).
#[derive(Drop)]
pub struct FolderDisk<'a, R> {
    rt: &'a R,
    alloc: Global,
    folder: &'a str,
    failures: u64,
    unsynced: Unsynced,
}

// What a sync still has to bring to the disk: at first all that is there, since nobody knows whether
// those who wrote it did.
#[derive(Drop)]
struct Unsynced {
    // The files that were written.
    files: [bool; 16],
    // Whether files were made in the folder.
    names: bool,
    // Whether the folder was made.
    folder: bool,
    // Whether a sync failed. The system may then have dropped what it was to bring, so that trying
    // again would succeed for nothing.
    lost: bool,
}

impl<'a, R: Files> FolderDisk<'a, R> {
    /// A disk over the folder at `path`, which hasn't failed yet. It doesn't look at the folder, and
    /// takes no memory. The first sync covers what was there before.
    pub fn new(rt: &'a R, alloc: Global, path: &'a str) -> Self
        ensures folder { result.folder ≡ path.entry }
        ensures failures { result.failures ≡ 0 }
        ensures unsynced { result.unsynced ≡
            record { files = replicate 16 true; names = true; folder = true; lost = false } }
    {
        FolderDisk {
            rt,
            alloc,
            folder: path,
            failures: 0,
            unsynced: Unsynced {
                files: [true; 16],
                names: true,
                folder: true,
                lost: false,
            },
        }
    }

    /// How often it has failed, at most `u64::MAX`.
    pub fn failures(&self) -> u64
        ensures { result ≡ self.now.failures }
    {
        self.failures
    }

    // Opens a file, where it's there.
    fn opened(&self, how: &OpenOptions, file: u8) -> Result<Option<R::File>, DiskError> {
        let path = self.path_of(file)?;
        match how.open(self.rt, path.as_str()) {
            Ok(opened) => Ok(Some(opened)),
            Err(error) if error.kind() == ErrorKind::NotFound => Ok(None),
            Err(error) => Err(DiskError::from(error)),
        }
    }

    // Where a file is.
    fn path_of(&self, file: u8) -> Result<String, DiskError> {
        let folder = self.folder;
        Ok(format!(in self.alloc; "{folder}/{file}")?)
    }

    fn length_of(&self, file: u8) -> Result<u64, DiskError> {
        match self.opened(OpenOptions::new().read(true), file)? {
            Some(opened) => octets_in(&opened),
            None => Ok(0),
        }
    }

    fn fill_from(&self, file: u8, at: u64, buffer: &mut [u8]) -> Result<(), DiskError> {
        let Some(mut opened) = self.opened(OpenOptions::new().read(true), file)? else {
            return lies_within(at, buffer.len() as u64, 0);
        };
        lies_within(at, buffer.len() as u64, octets_in(&opened)?)?;
        opened.seek(SeekFrom::Start(at))?;
        fill(&mut opened, buffer)
    }

    fn put(&mut self, file: u8, at: u64, piece: &[u8]) -> Result<(), DiskError>
        requires { file < 16 }
        ensures failures { self.new.failures ≡ self.old.failures }
        ensures path { self.new.folder ≡ self.old.folder }
        ensures unsynced { self.new.unsynced.files ≡ slice_set self.old.unsynced.files file true }
        ensures stays { Stays self.old.unsynced self.new.unsynced }
    {
        self.unsynced.files[file as usize] = true;
        let mut opened = match self.opened(OpenOptions::new().write(true), file)? {
            Some(opened) => opened,
            None => {
                lies_within(at, 0, 0)?;
                self.made(file)?
            }
        };
        lies_within(at, 0, octets_in(&opened)?)?;
        opened.seek(SeekFrom::Start(at))?;
        write_all(&mut Writing::new(opened), piece).map_err(|_| DiskError::Failed)
    }

    // Makes a file, and the folder where it isn't there.
    fn made(&mut self, file: u8) -> Result<R::File, DiskError>
        ensures failures { self.new.failures ≡ self.old.failures }
        ensures path { self.new.folder ≡ self.old.folder }
        ensures files { self.new.unsynced.files ≡ self.old.unsynced.files }
        ensures names { OnOk result (IsTrue self.new.unsynced.names) }
        ensures stays { Stays self.old.unsynced self.new.unsynced }
    {
        let path = self.path_of(file)?;
        if !fs::exists(self.rt, self.folder)? {
            self.unsynced.folder = true;
            fs::create_dir(self.rt, self.folder)?;
        }
        self.unsynced.names = true;
        let mut how = OpenOptions::new();
        how.write(true).create(true);
        Ok(how.open(self.rt, path.as_str())?)
    }

    // Each file before the folder that names it.
    fn bring_all(&mut self) -> Result<(), DiskError>
        ensures failures { self.new.failures ≡ self.old.failures }
        ensures path { self.new.folder ≡ self.old.folder }
        ensures lost { IsTrue self.old.unsynced.lost → IsErr result }
        ensures all { OnOk result (AllBrought self.new.unsynced) }
        ensures left { OnErr result
            (IsFalse self.old.unsynced.lost → AllBrought self.new.unsynced → ⊥) }
        ensures kept { OnErr result (KeepsRest self.old.unsynced self.new.unsynced) }
        ensures still { self.new.unsynced.lost ≡ self.old.unsynced.lost }
    {
        if self.unsynced.lost {
            return Err(DiskError::Failed);
        }
        for file in 0..16u8 {
            self.bring_file(file)?;
        }
        self.bring_names()
    }

    // Brings a file to the disk, where it was written and is there.
    fn bring_file(&mut self, file: u8) -> Result<(), DiskError>
        requires { file < 16 }
        ensures failures { self.new.failures ≡ self.old.failures }
        ensures path { self.new.folder ≡ self.old.folder }
        ensures files { OnOk result
            (self.new.unsynced.files ≡ slice_set self.old.unsynced.files file false) }
        ensures kept { OnErr result (self.new.unsynced.files ≡ self.old.unsynced.files) }
        ensures marked { OnErr result
            (slice_index_or self.new.unsynced.files file false ≡ true) }
        ensures names { self.new.unsynced.names ≡ self.old.unsynced.names }
        ensures folder { self.new.unsynced.folder ≡ self.old.unsynced.folder }
        ensures still { self.new.unsynced.lost ≡ self.old.unsynced.lost }
    {
        if self.unsynced.files[file as usize] {
            if let Some(opened) = self.opened(OpenOptions::new().read(true), file)? {
                brought(opened.sync_data())?;
            }
        }
        self.unsynced.files[file as usize] = false;
        Ok(())
    }

    // Brings to the disk which files the folder has, and which folders its own folder has.
    fn bring_names(&mut self) -> Result<(), DiskError>
        ensures failures { self.new.failures ≡ self.old.failures }
        ensures path { self.new.folder ≡ self.old.folder }
        ensures files { self.new.unsynced.files ≡ self.old.unsynced.files }
        ensures names { OnOk result (IsFalse self.new.unsynced.names) }
        ensures folder { OnOk result (IsFalse self.new.unsynced.folder) }
        ensures left { OnErr result
            (IsTrue self.new.unsynced.names ⊎ IsTrue self.new.unsynced.folder) }
        ensures behind { IsTrue self.new.unsynced.names →
            self.new.unsynced.folder ≡ self.old.unsynced.folder }
        ensures still { self.new.unsynced.lost ≡ self.old.unsynced.lost }
    {
        if self.unsynced.names {
            self.bring_folder(self.folder)?;
            self.unsynced.names = false;
        }
        if self.unsynced.folder {
            self.bring_folder(folder_of(self.folder))?;
            self.unsynced.folder = false;
        }
        Ok(())
    }

    // Brings the names in a folder to the disk, where it's there.
    fn bring_folder(&self, folder: &str) -> Result<(), DiskError> {
        match fs::open(self.rt, folder) {
            Ok(opened) => brought(opened.sync_all()),
            Err(error) if error.kind() == ErrorKind::NotFound => Ok(()),
            Err(error) => Err(DiskError::from(error)),
        }
    }
}

impl<R: Files> Disk for FolderDisk<'_, R> {
    ghost use Rattle.std.specs.Prelude.{None};

    ghost told = { λ _. None };

    ghost faults = { λ disk. disk.failures };

    fn len(&mut self, file: u8) -> Result<u64, DiskError>
        requires { file < 16 }
        ensures unsynced { self.new.unsynced ≡ self.old.unsynced }
        ensures cause { HasCause self.old.failures self.new.failures result }
        ensures count { IsErrOf result Failed →
            self.new.failures ≡ min (self.old.failures + 1) (2 ^ 64 - 1) }
        ensures path { self.new.folder ≡ self.old.folder }
    {
        let answer = self.length_of(file);
        counted(&mut self.failures, answer)
    }

    fn read(&mut self, file: u8, at: u64, buffer: &mut [u8]) -> Result<(), DiskError>
        requires { file < 16 }
        ensures unsynced { self.new.unsynced ≡ self.old.unsynced }
        ensures cause { HasCause self.old.failures self.new.failures result }
        ensures count { IsErrOf result Failed →
            self.new.failures ≡ min (self.old.failures + 1) (2 ^ 64 - 1) }
        ensures path { self.new.folder ≡ self.old.folder }
    {
        let answer = self.fill_from(file, at, buffer);
        counted(&mut self.failures, answer)
    }

    fn write_at(&mut self, file: u8, at: u64, piece: &[u8]) -> Result<(), DiskError>
        requires { file < 16 }
        ensures unsynced { self.new.unsynced.files ≡ slice_set self.old.unsynced.files file true }
        ensures stays { Stays self.old.unsynced self.new.unsynced }
        ensures cause { HasCause self.old.failures self.new.failures result }
        ensures count { IsErrOf result Failed →
            self.new.failures ≡ min (self.old.failures + 1) (2 ^ 64 - 1) }
        ensures path { self.new.folder ≡ self.old.folder }
    {
        let answer = self.put(file, at, piece);
        counted(&mut self.failures, answer)
    }

    fn sync(&mut self) -> Result<(), DiskError>
        ensures lost { IsTrue self.old.unsynced.lost → IsErr result }
        ensures all { OnOk result (AllBrought self.new.unsynced) }
        ensures left { OnErr result
            (IsFalse self.old.unsynced.lost → AllBrought self.new.unsynced → ⊥) }
        ensures kept { OnErr result (KeepsRest self.old.unsynced self.new.unsynced) }
        ensures failed { IsErrOf result Failed → IsTrue self.new.unsynced.lost }
        ensures still { IsTrue self.old.unsynced.lost → IsTrue self.new.unsynced.lost }
        ensures again { IsErrOf result DiskError.Memory → self.new.unsynced.lost ≡ self.old.unsynced.lost }
        ensures cause { HasCause self.old.failures self.new.failures result }
        ensures count { IsErrOf result Failed →
            self.new.failures ≡ min (self.old.failures + 1) (2 ^ 64 - 1) }
        ensures path { self.new.folder ≡ self.old.folder }
    {
        let answer = self.bring_all();
        if matches!(answer, Err(DiskError::Failed)) {
            self.unsynced.lost = true;
        }
        counted(&mut self.failures, answer)
    }
}

// The answer of a call, where a failure is counted.
pub(crate) fn counted<T>(failures: &mut u64, answer: Result<T, DiskError>) -> Result<T, DiskError>
    ensures same { result ≡ answer }
    ensures cause { HasCause failures.old failures.new result }
    ensures count { IsErrOf result Failed →
        failures.new ≡ min (failures.old + 1) (2 ^ 64 - 1) }
{
    if matches!(answer, Err(DiskError::Failed)) {
        *failures = failures.saturating_add(1);
    }
    answer
}

// Whether the system brought something to the disk. Where it couldn't, it may have dropped what it was
// to bring, so that is a failure also where it wanted memory.
fn brought(answer: io::Result<()>) -> Result<(), DiskError>
    ensures ok { IsOk result ↔ IsOk answer }
    ensures failed { IfErr result (λ error. error ≡ Failed) }
{
    answer.map_err(|_| DiskError::Failed)
}

// Fails unless `n` octets from `at` on are among the first `length`.
fn lies_within(at: u64, n: u64, length: u64) -> Result<(), DiskError>
    ensures ok { IsOk result ↔ (at + n ≤ length) }
    ensures failed { IfErr result (λ error. error ≡ Failed) }
{
    match at.checked_add(n) {
        Some(end) if end <= length => Ok(()),
        _ => Err(DiskError::Failed),
    }
}

// The length of a file. What is no file, as a folder, fails.
fn octets_in<F: OpenFile>(opened: &F) -> Result<u64, DiskError> {
    let data = opened.metadata()?;
    if data.is_file() {
        Ok(data.len())
    } else {
        Err(DiskError::Failed)
    }
}

// Fills a buffer with what a reader gives.
fn fill<S: Read>(reader: &mut S, buffer: &mut [u8]) -> Result<(), DiskError> {
    let mut filled = 0;
    while filled < buffer.len() {
        match reader.read(&mut buffer[filled..]) {
            Ok(n) if n > 0 => filled += n,
            _ => return Err(DiskError::Failed),
        }
    }
    Ok(())
}
