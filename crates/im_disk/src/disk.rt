ghost use Rattle.std.specs.Prelude.{◌≡◌, ◌<◌, ◌^◌, ℕ, length, take, drop, Option, IfOk, OnOk, IfSome, IsErrOf};
ghost use Rattle.std.specs.Option.{option_map};
ghost use Rattle.im_disk.specs.Disk.{Told, LiesWithin, seen, after};
ghost use Rattle.im_disk.specs.Causes.{HasCause};
ghost use Rattle.im_disk.specs.declared.calls.Call.TheVariants.{Wrote, Tore, Synced, Missed};

use std::alloc::AllocError;
use std::io;
use std::io::ErrorKind;

/// Why a disk didn't do what it was asked.
#[derive(Clone, Copy, Debug, PartialEq, Eq)]
pub enum DiskError {
    /// The disk failed, and was counted.
    Failed,
    /// Memory ran out. The disk is as it was.
    Memory,
}

impl From<AllocError> for DiskError {
    ghost use Rattle.im_disk.specs.declared.disk.DiskError.TheVariants.{Memory};

    ghost from_gives = { λ _ error. error ≡ Memory };

    fn from(_: AllocError) -> Self {
        DiskError::Memory
    }
}

/// Want of memory, the system's too, is `Memory`, and every other error is a failure.
impl From<io::Error> for DiskError {
    ghost use Rattle.std.specs.Prelude.{◌↔◌};
    ghost use Rattle.std.specs.IoError.{error_kind};
    ghost use Rattle.std.specs.declared.io.ErrorKind.TheVariants.{OutOfMemory};
    ghost use Rattle.im_disk.specs.declared.disk.DiskError.TheVariants.{Memory};

    ghost from_gives = { λ error cause. (cause ≡ Memory) ↔ (error_kind error ≡ OutOfMemory) };

    fn from(error: io::Error) -> Self {
        match error.kind() {
            ErrorKind::OutOfMemory => DiskError::Memory,
            _ => DiskError::Failed,
        }
    }
}

/// A disk of sixteen files, numbered 0 to 15. Places and lengths count octets.
///
/// Its changing calls are `write_at` and `sync`, those that failed too, and their number so far is
/// the disk's time. A crash may come at any moment. Between two syncs each written range, and what
/// lies past the old end up to the furthest written octet, may hold any octets after a crash, and
/// the length may be any between; the octets elsewhere stay. A failed write counts as written.
/// After a sync that succeeds a crash leaves what reads give.
///
/// # Thread safety
///
/// None: one owner holds it, and each call borrows it for itself.
///
/// # Invariants
///
/// - The record, where it is told, only grows: `len` and `read` leave it (`told`), and a changing call
///   adds itself as the last one, as it succeeded or failed (`ok`, `failed`), or nothing where memory
///   ran out (`memory`).
/// - Failures are counted: `Failed` comes only where the count rose, and every other answer leaves the
///   count (`cause`, by `HasCause`).
pub trait Disk: Drop {
    /// What the files were at first, and the changing calls so far, where the disk tells them. What
    /// reads give, and what a crash may leave now and might have left since an earlier time,
    /// follows from these.
    ghost told: { Self → Option Told };

    /// How often it has failed.
    ghost faults: { Self → ℕ };

    /// The number of octets of a file.
    fn len(&mut self, file: u8) -> Result<u64, DiskError>
        requires { file < 16 }
        ensures length { IfOk result (λ n. IfSome (told self.old) (λ t. n ≡ length (seen t file))) }
        ensures told { told self.new ≡ told self.old }
        ensures cause { HasCause (faults self.old) (faults self.new) result };

    /// Fills `buffer` with the octets of a file from the place `at` on. After an error it may hold
    /// anything.
    fn read(&mut self, file: u8, at: u64, buffer: &mut [u8]) -> Result<(), DiskError>
        requires file { file < 16 }
        requires within { LiesWithin (told self.old) file at (length buffer.old) }
        ensures octets { OnOk result (IfSome (told self.old)
            (λ t. buffer.new ≡ take (length buffer.old) (drop at (seen t file)))) }
        ensures told { told self.new ≡ told self.old }
        ensures cause { HasCause (faults self.old) (faults self.new) result };

    /// Writes a piece over a file from the place `at` on, which is at most the file's length, and
    /// past its end. The place is below 2^62, so that the piece's end stays within 64 bits.
    fn write_at(&mut self, file: u8, at: u64, piece: &[u8]) -> Result<(), DiskError>
        requires file { file < 16 }
        requires within { LiesWithin (told self.old) file at 0 }
        requires end { at < 2 ^ 62 }
        ensures ok { OnOk result
            (told self.new ≡ option_map (after (Wrote file at piece.now)) (told self.old)) }
        ensures failed { IsErrOf result DiskError.Failed
            → told self.new ≡ option_map (after (Tore file at (length piece.now))) (told self.old) }
        ensures memory { IsErrOf result DiskError.Memory → told self.new ≡ told self.old }
        ensures cause { HasCause (faults self.old) (faults self.new) result };

    /// Makes what reads give durable, in all files.
    fn sync(&mut self) -> Result<(), DiskError>
        ensures ok { OnOk result (told self.new ≡ option_map (after Synced) (told self.old)) }
        ensures failed { IsErrOf result DiskError.Failed
            → told self.new ≡ option_map (after Missed) (told self.old) }
        ensures memory { IsErrOf result DiskError.Memory → told self.new ≡ told self.old }
        ensures cause { HasCause (faults self.old) (faults self.new) result };
}
