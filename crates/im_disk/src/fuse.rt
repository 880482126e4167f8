ghost use Rattle.std.specs.Prelude.{◌≡◌, ◌<◌, ◌+◌, ◌-◌, ◌^◌, ◌∷◌, ◌++◌, [], length, take, drop, IfOk, IfSome, OnOk, IsTrue};
ghost use Rattle.im_disk.specs.declared.disk.DiskError.TheVariants.{Failed, Memory};
ghost use Rattle.im_disk.specs.declared.calls.Call.TheVariants.{Wrote, Tore, Synced, Missed};
ghost use Rattle.im_disk.specs.Causes.{HasCause};
ghost use Rattle.im_disk.specs.Disk.{LiesWithin, seen};
ghost use Rattle.im_disk.specs.Fused.{told_through, faults_through, used, TellsCall, PassesCall, Burns, Keeps};
ghost use Rattle.im_disk.specs.Recorded.{is_failure};

use crate::calls::Call;
use crate::disk::{Disk, DiskError};
use std::alloc::Global;
use std::marker::Model;

/// A double for tests, of a disk that breaks at a known call: it passes so many changing calls on to
/// another disk, and fails at each changing call behind them. A call that fails here doesn't reach
/// the disk within, but is told on top of what that one tells. A call that the disk within leaves for
/// want of memory doesn't count. A clause sees the disk within, how many calls are still passed on,
/// and those that failed here.
#[derive(Drop)]
pub struct Fuse<D> {
    inner: D,
    calls_left: u64,
    failed: Vec<Call>,
}

impl<D> Model for Fuse<D> {
    ghost use Rattle.im_disk.specs.Fused.{Fused, IsOrderly};

    ghost Value = { Fused D };

    ghost view = { λ fuse. record {
      disk = fuse.inner;
      calls_left = fuse.calls_left;
      failed = fuse.failed.items;
    } };

    ghost invariant = { λ fuse. IsOrderly fuse.calls_left fuse.failed.items };
}

impl<D: Disk> Fuse<D> {
    /// A disk that passes `calls` changing calls on to `inner`. It takes no memory.
    pub fn new(alloc: Global, inner: D, calls: u64) -> Self
        ensures { result ≡ record { disk = inner; calls_left = calls; failed = [] } }
    {
        Fuse {
            inner,
            calls_left: calls,
            failed: Vec::new(alloc),
        }
    }

    /// The disk within, which never saw the calls that failed here.
    pub fn into_inner(self) -> D
        ensures { result ≡ self.disk }
    {
        let Fuse { inner, .. } = self;
        inner
    }

    // Records a call that failed here, unless memory runs out.
    fn fail(&mut self, call: Call) -> DiskError
        requires burnt { self.old.calls_left ≡ 0 }
        requires failure { IsTrue (is_failure call) }
        ensures disk { self.new.disk ≡ self.old.disk }
        ensures left { self.new.calls_left ≡ 0 }
        ensures failed { result ≡ Failed → self.new.failed ≡ self.old.failed ++ call ∷ [] }
        ensures memory { result ≡ Memory → self.new.failed ≡ self.old.failed }
    {
        match self.failed.push(call) {
            Ok(()) => DiskError::Failed,
            Err(_) => DiskError::Memory,
        }
    }

    // Counts a call that was passed on, unless it left all as it was.
    fn use_up(&mut self, answer: Result<(), DiskError>)
        requires { 0 < self.old.calls_left }
        ensures { self.new ≡ record {
          disk = self.old.disk;
          calls_left = self.old.calls_left - used answer;
          failed = self.old.failed;
        } }
    {
        if answer != Err(DiskError::Memory) {
            self.calls_left -= 1;
        }
    }
}

impl<D: Disk> Disk for Fuse<D> {
    ghost told = { λ fuse. told_through D.told fuse };

    ghost faults = { λ fuse. faults_through D.faults fuse };

    fn len(&mut self, file: u8) -> Result<u64, DiskError>
        requires { file < 16 }
        ensures length { IfOk result (λ n. IfSome (told_through D.told self.old)
            (λ t. n ≡ length (seen t file))) }
        ensures keeps { Keeps D.told self.old self.new }
        ensures cause { HasCause (faults_through D.faults self.old)
            (faults_through D.faults self.new) result }
    {
        self.inner.len(file)
    }

    fn read(&mut self, file: u8, at: u64, buffer: &mut [u8]) -> Result<(), DiskError>
        requires file { file < 16 }
        requires within { LiesWithin (told_through D.told self.old) file at (length buffer.old) }
        ensures octets { OnOk result (IfSome (told_through D.told self.old)
            (λ t. buffer.new ≡ take (length buffer.old) (drop at (seen t file)))) }
        ensures keeps { Keeps D.told self.old self.new }
        ensures cause { HasCause (faults_through D.faults self.old)
            (faults_through D.faults self.new) result }
    {
        self.inner.read(file, at, buffer)
    }

    fn write_at(&mut self, file: u8, at: u64, piece: &[u8]) -> Result<(), DiskError>
        requires file { file < 16 }
        requires within { LiesWithin (told_through D.told self.old) file at 0 }
        requires end { at < 2 ^ 62 }
        ensures passes { 0 < self.old.calls_left → PassesCall D.told (Wrote file at piece.now)
            (Tore file at (length piece.now)) self.old self.new result }
        ensures burns { self.old.calls_left ≡ 0 →
            Burns (Tore file at (length piece.now)) self.old self.new result }
        ensures tells { TellsCall (Wrote file at piece.now) (Tore file at (length piece.now))
            (told_through D.told self.old) (told_through D.told self.new) result }
        ensures cause { HasCause (faults_through D.faults self.old)
            (faults_through D.faults self.new) result }
    {
        if self.calls_left == 0 {
            let n = piece.len() as u64;
            return Err(self.fail(Call::Tore { file, at, n }));
        }
        let answer = self.inner.write_at(file, at, piece);
        self.use_up(answer);
        answer
    }

    fn sync(&mut self) -> Result<(), DiskError>
        ensures passes { 0 < self.old.calls_left →
            PassesCall D.told Synced Missed self.old self.new result }
        ensures burns { self.old.calls_left ≡ 0 → Burns Missed self.old self.new result }
        ensures tells { TellsCall Synced Missed
            (told_through D.told self.old) (told_through D.told self.new) result }
        ensures cause { HasCause (faults_through D.faults self.old)
            (faults_through D.faults self.new) result }
    {
        if self.calls_left == 0 {
            return Err(self.fail(Call::Missed));
        }
        let answer = self.inner.sync();
        self.use_up(answer);
        answer
    }
}
