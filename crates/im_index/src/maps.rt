//! Maps from lent keys to lent versions.

ghost use Rattle.std.specs.Prelude.{◌≡◌, filter, map, not, IfOk, OnOk};
ghost use Rattle.std.specs.BTreeMap.{IsOrdered};
ghost use Rattle.std.specs.Cmp.Lexicographic.{slice_cmp};
ghost use Rattle.std.specs.Ordering.{nat_cmp};
ghost use Rattle.im_index.specs.Newest.{PutsNewest};

use im_versions::versions::{Version, Versions};
use std::alloc::{AllocError, Global};
use std::collections::BTreeMap;

/// Puts a version at its key, in the place of an earlier one.
pub fn put<'v>(
    newest: &mut BTreeMap<&'v [u8], &'v Version>,
    key: &'v [u8],
    version: &'v Version,
) -> Result<(), AllocError>
    ensures { OnOk result (PutsNewest newest.old newest.new key.now version.now) }
{
    newest.insert(key, version)?;
    Ok(())
}

/// The versions of a map that aren't deletions, in the order of their keys.
pub fn live_of<'v>(
    alloc: Global,
    newest: &BTreeMap<&'v [u8], &'v Version>,
) -> Result<Vec<&'v Version>, AllocError>
    ensures live { IfOk result (λ live. map (λ v. v.now) live.items ≡ filter (λ v. not v.deleted) (map (λ e. e.1.now) newest.now.entries)) }
    ensures ordered { OnOk result (IsOrdered (λ x y. slice_cmp nat_cmp x.now y.now) newest.now) }
{
    let mut live = Vec::with_capacity(alloc, newest.len())?;
    for version in newest.values() {
        if !version.deleted {
            live.push(*version)?;
        }
    }
    Ok(live)
}

/// Copies of lent versions.
pub fn copies_of(alloc: Global, lent: &[&Version]) -> Result<Versions, AllocError>
    ensures { IfOk result (λ copies. copies ≡ map (λ v. v.now) lent.now) }
{
    let mut copies = Vec::with_capacity(alloc, lent.len())?;
    for version in lent {
        copies.push(version.try_clone(alloc)?)?;
    }
    Ok(Versions::from_vec(copies))
}
