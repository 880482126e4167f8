ghost use Rattle.std.specs.Prelude.{◌≡◌, ◌≤◌, ◌<◌, ◌+◌, ◌^◌, ℕ, [], length, take, drop, reverse, IsTrue, IfOk, OnErr, OnOk};
ghost use Rattle.im_disk.specs.declared.disk.DiskError.TheVariants.{Failed, Memory};
ghost use Rattle.im_disk.specs.Disk.{seen};
ghost use Rattle.im_disk.specs.Records.{files_of, AreWithin, FitsBehind};
ghost use Rattle.im_disk.specs.Recorded.{unchanged, told_by, fails_next, failing_next, with_failure, is_failure};

use crate::calls::Call;
use crate::content::Content;
use crate::disk::{Disk, DiskError};
use im_octet::octets::Octets;
use std::alloc::{AllocError, Global};
use std::marker::Model;

/// A double for tests: a disk in memory, which keeps each changing call, and tells by them what a
/// crash may leave at any moment. Some changing calls are to fail: those change no octet that reads
/// give, and count as written. No other call fails. Which ones are to fail is told as it is made, and
/// `fail_next` adds to them. A clause sees the files at first, the changing calls, the numbers of those
/// that are to fail, and how often it has failed, at most `u64::MAX`.
///
/// `read` copies its octets once, and a write that succeeds copies its piece twice, for the record and
/// for the file. A changing call looks for its number among all of those that are to fail.
///
/// # Thread safety
///
/// None: one owner holds it.
///
/// # Invariants
///
/// `Stores`: there are sixteen files, each is what the changing calls made of the one at first, and
/// each write lay within what reads gave. So what it tells is what reads give (`file`, `len`, `read`).
#[derive(Drop)]
pub struct MemDisk {
    alloc: Global,
    first: Vec<Octets>,
    files: Vec<Content>,
    calls: Vec<Call>,
    failing: Vec<u64>,
    faults: u64,
}

impl Model for MemDisk {
    ghost use Rattle.im_disk.specs.Recorded.{Recorded};

    ghost Value = { Recorded };

    ghost use Rattle.im_disk.specs.Stored.{Stores};

    ghost view = { λ disk. record {
      first = disk.first.items;
      calls = disk.calls.items;
      failing = disk.failing.items;
      faults = disk.faults;
    } };

    ghost invariant = { λ disk. Stores disk.first.items disk.files.items disk.calls.items };
}

impl MemDisk {
    /// A disk of empty files. The changing calls of these numbers, counted from 1, are to fail.
    pub fn new(alloc: Global, failing: Vec<u64>) -> Result<Self, AllocError>
        ensures { IfOk result (λ disk. disk ≡ unchanged [] failing.items) }
    {
        MemDisk::from_files(alloc, Vec::new(alloc), failing)
    }

    /// A disk with these files at first, of which file 0 is the first one; the others are empty. The
    /// changing calls of these numbers, counted from 1, are to fail. It copies the files once.
    pub fn from_files(
        alloc: Global,
        first: Vec<Octets>,
        failing: Vec<u64>,
    ) -> Result<Self, AllocError>
        requires { length first.items ≤ 16 }
        ensures { IfOk result (λ disk. disk ≡ unchanged first.items failing.items) }
    {
        let files = contents_of(alloc, &first)?;
        Ok(MemDisk {
            alloc,
            first,
            files,
            calls: Vec::new(alloc),
            failing,
            faults: 0,
        })
    }

    /// Lends what reads of a file give.
    pub fn file(&self, file: u8) -> &[u8]
        requires { file < 16 }
        ensures { result.now ≡ seen (told_by self.now) file }
    {
        self.files[file as usize].as_slice()
    }

    /// Lends the files as they were at first, as they were given.
    pub fn first(&self) -> &[Octets]
        ensures value { result.now ≡ self.now.first }
        ensures few { length result.now ≤ 16 }
    {
        &self.first
    }

    /// Lends the changing calls so far, the first one first. Each write lay within what reads gave.
    pub fn calls(&self) -> &[Call]
        ensures calls { result.now ≡ self.now.calls }
        ensures within { AreWithin (files_of self.now.first) (reverse self.now.calls) }
    {
        &self.calls
    }

    /// The disk's time: the number of its changing calls so far.
    pub fn time(&self) -> u64
        ensures { result ≡ length self.now.calls }
    {
        self.calls.len() as u64
    }

    /// How often it has failed, at most `u64::MAX`.
    pub fn faults(&self) -> u64
        ensures { result ≡ self.now.faults }
    {
        self.faults
    }

    /// Has the next changing call fail, beside those that are to fail already. Its only error is want of
    /// memory, and leaves the disk as it was. It tells what it told. That the next call then fails is said by
    /// the law `a_disk_told_to_fail_fails_next`.
    pub fn fail_next(&mut self) -> Result<(), AllocError>
        ensures ok { OnOk result (self.new ≡ failing_next self.old) }
        ensures told { told_by self.new ≡ told_by self.old }
        ensures err { OnErr result (self.new ≡ self.old) }
    {
        let number = self.calls.len() as u64 + 1;
        self.failing.push(number)?;
        Ok(())
    }

    // Whether the next changing call is to fail.
    fn fails_next(&self) -> bool
        ensures { result ≡ fails_next self.now }
    {
        let number = self.calls.len() as u64 + 1;
        self.failing.contains(&number)
    }

    // Records a call that failed, and counts it.
    fn fail(&mut self, call: Call) -> DiskError
        requires fits { FitsBehind (files_of self.old.first) (reverse self.old.calls) call }
        requires failure { IsTrue (is_failure call) }
        ensures failed { result ≡ Failed → self.new ≡ with_failure call self.old }
        ensures memory { result ≡ Memory → self.new ≡ self.old }
    {
        match self.calls.push(call) {
            Ok(()) => {
                self.faults = self.faults.saturating_add(1);
                DiskError::Failed
            }
            Err(_) => DiskError::Memory,
        }
    }
}

// Sixteen files, of which the first ones are copies of these and the others are empty.
fn contents_of(alloc: Global, first: &[Octets]) -> Result<Vec<Content>, AllocError>
    requires { length first.now ≤ 16 }
    ensures sixteen { IfOk result (λ files. length files.items ≡ 16) }
    ensures same { IfOk result (λ files.
        (file : ℕ) → files_of files.items file ≡ files_of first.now file) }
{
    let mut files = Vec::with_capacity(alloc, 16)?;
    for file in 0..16usize {
        let content = match first.get(file) {
            Some(octets) => Content::from_slice(alloc, octets.as_slice())?,
            None => Content::new(alloc),
        };
        files.push(content)?;
    }
    Ok(files)
}

impl Disk for MemDisk {
    ghost use Rattle.std.specs.Prelude.{Some};
    ghost use Rattle.im_disk.specs.Causes.{HasCause};
    ghost use Rattle.im_disk.specs.Recorded.{told_by, Changes};
    ghost use Rattle.im_disk.specs.declared.calls.Call.TheVariants.{Wrote, Tore, Synced, Missed};

    ghost told = { λ disk. Some (told_by disk) };

    ghost faults = { λ disk. disk.faults };

    fn len(&mut self, file: u8) -> Result<u64, DiskError>
        requires { file < 16 }
        ensures length { result ≡ Ok (length (seen (told_by self.old) file)) }
        ensures same { self.new ≡ self.old }
    {
        Ok(self.files[file as usize].as_slice().len() as u64)
    }

    fn read(&mut self, file: u8, at: u64, buffer: &mut [u8]) -> Result<(), DiskError>
        requires file { file < 16 }
        requires within { at + length buffer.old ≤ length (seen (told_by self.old) file) }
        ensures done { result ≡ Ok tt }
        ensures octets { buffer.new ≡ take (length buffer.old)
            (drop at (seen (told_by self.old) file)) }
        ensures same { self.new ≡ self.old }
    {
        let octets = self.files[file as usize].as_slice();
        let at = at as usize;
        buffer.copy_from_slice(&octets[at..at + buffer.len()]);
        Ok(())
    }

    fn write_at(&mut self, file: u8, at: u64, piece: &[u8]) -> Result<(), DiskError>
        requires file { file < 16 }
        requires within { at ≤ length (seen (told_by self.old) file) }
        requires end { at < 2 ^ 62 }
        ensures exact { Changes (Wrote file at piece.now) (Tore file at (length piece.now))
            self.old self.new result }
        ensures cause { HasCause self.old.faults self.new.faults result }
    {
        if self.fails_next() {
            let n = piece.len() as u64;
            return Err(self.fail(Call::Tore { file, at, n }));
        }
        let copy = Octets::from_slice(self.alloc, piece)?;
        self.calls.reserve(1)?;
        let content = &mut self.files[file as usize];
        content.write_at(at as usize, piece)?;
        let call = Call::Wrote {
            file,
            at,
            piece: copy,
        };
        self.calls.push(call).map_err(AllocError::from)?;
        Ok(())
    }

    fn sync(&mut self) -> Result<(), DiskError>
        ensures exact { Changes Synced Missed self.old self.new result }
        ensures cause { HasCause self.old.faults self.new.faults result }
    {
        if self.fails_next() {
            return Err(self.fail(Call::Missed));
        }
        self.calls.push(Call::Synced).map_err(AllocError::from)?;
        Ok(())
    }
}
