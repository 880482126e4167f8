//! What is read off a list of versions in the order of their transactions.

ghost use Rattle.std.specs.Prelude.{◌≡◌, List, filter, take, IfOk};
ghost use Rattle.std.specs.Option.{option_map};
ghost use Rattle.im_model.specs.declared.transactions.Transaction.{Transaction};
ghost use Rattle.im_versions.specs.Versions.{all_versions, is_of, IsScan};
ghost use Rattle.im_index.specs.Newest.{last_of, HasNewest};

use im_index::maps::{copies_of, live_of, put};
use im_versions::versions::{Version, Versions};
use std::alloc::{AllocError, Global};
use std::collections::BTreeMap;

// The versions of the first `n` transactions, which stand in front of those of the later ones. It halves what
// is left at each version that it looks at.
pub(crate) fn up_to(versions: &[Version], n: u64) -> &[Version]
    ensures { (history : List Transaction) → versions.now ≡ all_versions history → result.now ≡ all_versions (take n history) }
{
    let end = versions.partition_point(|version| version.tx <= n);
    &versions[..end]
}

// A copy of each version.
pub(crate) fn copy_of(alloc: Global, versions: &[Version]) -> Result<Vec<Version>, AllocError>
    ensures { IfOk result (λ copies. copies.items ≡ versions.now) }
{
    let mut copies = Vec::with_capacity(alloc, versions.len())?;
    for version in versions {
        copies.push(version.try_clone(alloc)?)?;
    }
    Ok(copies)
}

// A copy of the last version of a key. It looks at the versions from the last one back to that one.
pub(crate) fn last(
    alloc: Global,
    versions: &[Version],
    key: &[u8],
) -> Result<Option<Version>, AllocError>
    ensures { IfOk result (λ version. version ≡ last_of versions.now key.now) }
{
    match last_of(versions, key) {
        Some(version) => Ok(Some(version.try_clone(alloc)?)),
        None => Ok(None),
    }
}

// The last version of a key.
fn last_of<'v>(versions: &'v [Version], key: &[u8]) -> Option<&'v Version>
    ensures { option_map (λ v. v.now) result ≡ last_of versions.now key.now }
{
    versions
        .iter()
        .rev()
        .find(|version| version.key.as_slice() == key)
}

// Copies of the versions of a key, in their order. It looks at each version.
pub(crate) fn of_key(
    alloc: Global,
    versions: &[Version],
    key: &[u8],
) -> Result<Versions, AllocError>
    ensures { IfOk result (λ copies. copies ≡ filter (is_of key.now) versions.now) }
{
    let mut copies = Vec::new(alloc);
    for version in versions {
        if version.key.as_slice() == key {
            copies.push(version.try_clone(alloc)?)?;
        }
    }
    Ok(Versions::from_vec(copies))
}

// Copies of the last versions of the live keys that begin with a prefix, in rising order. It looks at each
// version, and puts those of such keys into a map.
pub(crate) fn scan(
    alloc: Global,
    versions: &[Version],
    prefix: &[u8],
) -> Result<Versions, AllocError>
    ensures { (history : List Transaction) → versions.now ≡ all_versions history → IfOk result (λ shown. IsScan history prefix.now shown) }
{
    let newest = newest(alloc, versions, prefix)?;
    let live = live_of(alloc, &newest)?;
    copies_of(alloc, live.as_slice())
}

// The last version of each key that begins with a prefix.
fn newest<'v>(
    alloc: Global,
    versions: &'v [Version],
    prefix: &[u8],
) -> Result<BTreeMap<&'v [u8], &'v Version>, AllocError>
    ensures { IfOk result (HasNewest versions.now prefix.now) }
{
    let mut newest = BTreeMap::new(alloc);
    for version in versions {
        let key = version.key.as_slice();
        if key.starts_with(prefix) {
            put(&mut newest, key, version)?;
        }
    }
    Ok(newest)
}
