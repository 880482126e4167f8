ghost use Rattle.std.specs.Prelude.{◌≡◌, IfOk};
ghost use Rattle.im_versions.specs.Versions.{has_attribute, is_shown, version_of};

use crate::versions::Version;
use im_model::entries::Entry;
use im_octet::octets::Octets;
use std::alloc::{AllocError, Global};

// The attribute of an entry that deletes its key.
const DELETED: u8 = 0;

// The attribute of an entry that no index shows.
const NON_INDEXABLE: u8 = 2;

// Whether the entry's metadata has this attribute.
fn has_attribute(code: u8, entry: &Entry) -> bool
    ensures { result ≡ has_attribute code entry.now }
{
    entry.md.as_slice().contains(&code)
}

/// Whether the entry is a version of its key.
pub fn is_shown(entry: &Entry) -> bool
    ensures { result ≡ is_shown entry.now }
{
    !has_attribute(NON_INDEXABLE, entry)
}

/// Whether the entry deletes its key.
pub fn is_deletion(entry: &Entry) -> bool
    ensures { result ≡ has_attribute 0 entry.now }
{
    has_attribute(DELETED, entry)
}

/// The version that an entry of transaction `k` is: its key and its value are copied. Its only error is want of
/// memory.
pub fn version_of(alloc: Global, k: u64, entry: &Entry) -> Result<Version, AllocError>
    ensures { IfOk result (λ v. v ≡ version_of k entry.now) }
{
    Ok(Version {
        tx: k,
        deleted: is_deletion(entry),
        key: Octets::from_slice(alloc, entry.key.as_slice())?,
        value: Octets::from_slice(alloc, entry.value.as_slice())?,
    })
}
