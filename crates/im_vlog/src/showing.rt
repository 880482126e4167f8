ghost use Rattle.std.specs.Prelude.{◌≡◌, ◌≤◌, ◌<◌, ◌+◌, IfOk, IfErr, IfSome, IsErrOf, IsOk, length};
ghost use Rattle.im_disk.specs.Causes.{HasCause};
ghost use Rattle.im_disk.specs.Disk.{LiesWithin, seen};
ghost use Rattle.im_format.specs.Reading.{value_at};
ghost use Rattle.im_vlog.specs.Showing.{shown, IsCorrupt, IsOther, HasReadCause};

use im_alog::reading::read_at;
use im_digest::{D32, Hash32};
use im_disk::disk::{Disk, DiskError};
use im_format::files::LAST_VALUE_LOG;
use im_format::references::ValueRef;
use std::alloc::{AllocError, Global};

/// Why a value wasn't read.
#[derive(Clone, Copy, Debug, PartialEq, Eq)]
pub enum ValueError {
    /// The disk failed, and was counted.
    DiskFault,
    /// The octets at the value's place have another digest than its reference.
    Corrupt {
        /// The digest in the reference.
        want: D32,
        /// The digest of the octets.
        got: D32,
    },
    /// Memory ran out.
    Memory,
}

impl From<DiskError> for ValueError {
    ghost use Rattle.im_vlog.specs.Showing.{error_of};

    ghost from_gives = { λ cause error. error ≡ error_of cause };

    fn from(cause: DiskError) -> Self {
        match cause {
            DiskError::Failed => ValueError::DiskFault,
            DiskError::Memory => ValueError::Memory,
        }
    }
}

/// The value that a reference shows: the octets at its place of its log, fewer where the log ends before, and
/// none where there is no such log. They are checked against the reference's digest. One `len` and one `read`,
/// which fills one buffer of their number, and one hash; where there is no such log, the hash alone: then neither
/// the disk nor memory can fail.
#[tactic(auto, using(crate::proofs::ShowLemmas::other_corrupt, crate::proofs::ShowLemmas::other_alone))]
pub fn read_value<D: Disk, H: Hash32>(
    alloc: Global,
    hash: &H,
    disk: &mut D,
    value: &ValueRef,
) -> Result<Vec<u8>, ValueError>
    ensures octets { IfOk result (λ octets. IfSome (D.told disk.old) (λ t. octets.items ≡ shown (seen t) value.now)) }
    ensures digest { IfOk result (λ octets. H.digest hash.now octets.items ≡ value.now.hval) }
    ensures most { IfOk result (λ octets. length octets.items ≤ value.now.len) }
    ensures corrupt { IfErr result (λ error. IsCorrupt (H.digest hash.now) (D.told disk.old) value.now error) }
    ensures told { D.told disk.new ≡ D.told disk.old }
    ensures none { 3 < value.now.log → disk.new ≡ disk.old }
    ensures hashed { 3 < value.now.log → (IsErrOf result ValueError.DiskFault → ⊥) × (IsErrOf result ValueError.Memory → ⊥) }
    ensures cause { HasReadCause (D.faults disk.old) (D.faults disk.new) result }
{
    let octets = octets_of(alloc, disk, value)?;
    checked(hash, octets, value)
}

/// The value that a reference shows, all of which is there, checked against the reference's digest. One `read`,
/// which fills one buffer of its length, and one hash.
#[tactic(auto, using(crate::proofs::ShowLemmas::other_corrupt, crate::proofs::ShowLemmas::other_alone))]
pub fn read_whole<D: Disk, H: Hash32>(
    alloc: Global,
    hash: &H,
    disk: &mut D,
    value: &ValueRef,
) -> Result<Vec<u8>, ValueError>
    requires log { value.now.log ≤ 3 }
    requires within { LiesWithin (D.told disk.old) (2 + value.now.log) value.now.at value.now.len }
    ensures octets { IfOk result (λ octets. IfSome (D.told disk.old) (λ t. octets.items ≡ value_at (seen t) value.now)) }
    ensures size { IfOk result (λ octets. length octets.items ≡ value.now.len) }
    ensures digest { IfOk result (λ octets. H.digest hash.now octets.items ≡ value.now.hval) }
    ensures corrupt { IfErr result (λ error. IsCorrupt (H.digest hash.now) (D.told disk.old) value.now error) }
    ensures told { D.told disk.new ≡ D.told disk.old }
    ensures cause { HasReadCause (D.faults disk.old) (D.faults disk.new) result }
{
    let octets = whole_octets(alloc, disk, value)?;
    checked(hash, octets, value)
}

// The octets, where they have the digest of the reference.
fn checked<H: Hash32>(hash: &H, octets: Vec<u8>, value: &ValueRef) -> Result<Vec<u8>, ValueError>
    ensures octets { IfOk result (λ found. found.items ≡ octets.items) }
    ensures digest { IfOk result (λ found. H.digest hash.now found.items ≡ value.now.hval) }
    ensures other { IfErr result (IsOther (H.digest hash.now) octets.items value.now) }
{
    let got = hash.hash(octets.as_slice(), &[], &[]);
    if got != value.hval {
        return Err(ValueError::Corrupt {
            want: value.hval,
            got,
        });
    }
    Ok(octets)
}

// The octets that a reference shows, unchecked.
fn octets_of<D: Disk>(alloc: Global, disk: &mut D, value: &ValueRef) -> Result<Vec<u8>, DiskError>
    ensures octets { IfOk result (λ octets. IfSome (D.told disk.old) (λ t. octets.items ≡ shown (seen t) value.now)) }
    ensures most { IfOk result (λ octets. length octets.items ≤ value.now.len) }
    ensures told { D.told disk.new ≡ D.told disk.old }
    ensures none { 3 < value.now.log → disk.new ≡ disk.old }
    ensures empty { 3 < value.now.log → IsOk result }
    ensures cause { HasCause (D.faults disk.old) (D.faults disk.new) result }
{
    if value.log > LAST_VALUE_LOG {
        return Ok(Vec::new(alloc));
    }
    read_at(alloc, disk, value.file(), value.at, value.len as usize)
}

// The octets that a reference shows, all of which are there, unchecked.
fn whole_octets<D: Disk>(
    alloc: Global,
    disk: &mut D,
    value: &ValueRef,
) -> Result<Vec<u8>, DiskError>
    requires log { value.now.log ≤ 3 }
    requires within { LiesWithin (D.told disk.old) (2 + value.now.log) value.now.at value.now.len }
    ensures octets { IfOk result (λ octets. IfSome (D.told disk.old) (λ t. octets.items ≡ value_at (seen t) value.now)) }
    ensures size { IfOk result (λ octets. length octets.items ≡ value.now.len) }
    ensures told { D.told disk.new ≡ D.told disk.old }
    ensures cause { HasCause (D.faults disk.old) (D.faults disk.new) result }
{
    let mut octets = vec![in alloc; 0u8; value.len as usize]?;
    disk.read(value.file(), value.at, &mut octets)?;
    Ok(octets)
}
