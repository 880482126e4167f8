ghost use Rattle.std.specs.Prelude.{◌≡◌, ◌≤◌, ◌+◌, ◌∷◌, [], length, Some, IfOk};
ghost use Rattle.im_disk.specs.Disk.{LiesWithin, Told, seen};
ghost use Rattle.im_format.specs.Reading.{value_at};
ghost use Rattle.im_opening.specs.Answers.{HasOpenCause, Judges};
ghost use Rattle.im_opening.specs.Parts.{digest_check};

use crate::errors::OpenError;
use im_digest::Hash32;
use im_disk::disk::Disk;
use im_format::damages::{Damage, Difference};
use im_format::references::ValueRef;
use im_vlog::showing::{ValueError, read_whole};
use std::alloc::Global;

/// The octets that a reference shows, by one read, where they have its digest.
pub(crate) fn read_value<D: Disk, H: Hash32>(
    alloc: Global,
    hash: &H,
    disk: &mut D,
    value: &ValueRef,
) -> Result<Vec<u8>, OpenError>
    requires log { value.now.log ≤ 3 }
    requires within { LiesWithin (D.told disk.old) (2 + value.now.log) value.now.at value.now.len }
    ensures octets { (t : Told) → D.told disk.old ≡ Some t → IfOk result (λ octets. octets.items ≡ value_at (seen t) value.now) }
    ensures size { IfOk result (λ octets. length octets.items ≡ value.now.len) }
    ensures digest { IfOk result (λ octets. value.now.hval ≡ H.digest hash.now octets.items) }
    ensures first { (t : Told) → D.told disk.old ≡ Some t
        → Judges (digest_check (H.digest hash.now) (seen t) value.now ∷ []) result }
    ensures told { D.told disk.new ≡ D.told disk.old }
    ensures cause { HasOpenCause (D.faults disk.old) (D.faults disk.new) result }
{
    match read_whole(alloc, hash, disk, value) {
        Ok(octets) => Ok(octets),
        Err(ValueError::Corrupt { want, got }) => Err(OpenError::Damaged(Damage {
            file: value.file(),
            at: value.at,
            found: Difference::Digests { want, got },
        })),
        Err(ValueError::DiskFault) => Err(OpenError::DiskFault),
        Err(ValueError::Memory) => Err(OpenError::Memory),
    }
}
