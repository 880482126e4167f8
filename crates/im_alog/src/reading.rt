ghost use Rattle.std.specs.Prelude.{◌≡◌, ◌<◌, ◌≤◌, IfOk, IfSome, length};
ghost use Rattle.im_disk.specs.Causes.{HasCause};
ghost use Rattle.im_disk.specs.Disk.{seen};
ghost use Rattle.im_format.specs.Spans.{octets_at};

use im_disk::disk::{Disk, DiskError};
use std::alloc::Global;

/// All octets of a file, in one buffer of its length: one `len` and one `read`.
pub fn read_all<D: Disk>(alloc: Global, disk: &mut D, file: u8) -> Result<Vec<u8>, DiskError>
    requires { file < 16 }
    ensures octets { IfOk result (λ octets. IfSome (D.told disk.old) (λ t. octets.items ≡ seen t file)) }
    ensures told { D.told disk.new ≡ D.told disk.old }
    ensures cause { HasCause (D.faults disk.old) (D.faults disk.new) result }
{
    let len = disk.len(file)?;
    let mut octets = vec![in alloc; 0u8; len as usize]?;
    disk.read(file, 0, &mut octets)?;
    Ok(octets)
}

/// The octets of a file from the place `at` on, `n` of them, or those that are there where the file ends
/// before, in one buffer of their number: one `len` and one `read`.
pub fn read_at<D: Disk>(
    alloc: Global,
    disk: &mut D,
    file: u8,
    at: u64,
    n: usize,
) -> Result<Vec<u8>, DiskError>
    requires { file < 16 }
    ensures octets { IfOk result (λ octets. IfSome (D.told disk.old)
        (λ t. octets.items ≡ octets_at (seen t file) at n)) }
    ensures most { IfOk result (λ octets. length octets.items ≤ n) }
    ensures told { D.told disk.new ≡ D.told disk.old }
    ensures cause { HasCause (D.faults disk.old) (D.faults disk.new) result }
{
    let len = disk.len(file)?;
    let start = at.min(len);
    let there = n.min((len - start) as usize);
    let mut octets = vec![in alloc; 0u8; there]?;
    disk.read(file, start, &mut octets)?;
    Ok(octets)
}
