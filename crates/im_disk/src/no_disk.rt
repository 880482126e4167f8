ghost use Rattle.std.specs.Prelude.{◌≡◌, ◌<◌, length, replicate};

use crate::disk::{Disk, DiskError};

/// A double for tests: a disk that keeps nothing and tells nothing. Each file is empty, reads give 00
/// octets, what is written is dropped, and no call fails.
#[derive(Clone, Copy, Debug, PartialEq, Eq)]
pub struct NoDisk;

impl Disk for NoDisk {
    ghost use Rattle.std.specs.Prelude.{None};

    ghost told = { λ _. None };

    ghost faults = { λ _. 0 };

    fn len(&mut self, file: u8) -> Result<u64, DiskError>
        requires { file < 16 }
        ensures { result ≡ Ok 0 }
    {
        Ok(0)
    }

    fn read(&mut self, file: u8, _at: u64, buffer: &mut [u8]) -> Result<(), DiskError>
        requires { file < 16 }
        ensures done { result ≡ Ok tt }
        ensures zeros { buffer.new ≡ replicate (length buffer.old) 0 }
    {
        buffer.fill(0);
        Ok(())
    }

    fn write_at(&mut self, file: u8, _at: u64, _piece: &[u8]) -> Result<(), DiskError>
        requires { file < 16 }
        ensures { result ≡ Ok tt }
    {
        Ok(())
    }

    fn sync(&mut self) -> Result<(), DiskError>
        ensures { result ≡ Ok tt }
    {
        Ok(())
    }
}
