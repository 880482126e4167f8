//! Versions without their values: what an index of the keys alone takes.

ghost use Rattle.std.specs.Prelude.{◌≡◌, ◌≤◌, ◌+◌, length, map, IfOk};
ghost use Rattle.im_versions.specs.Versions.{version_of, versions_from, versions_in};
ghost use Rattle.im_index.specs.Keys.{bare, bare_entry};

use crate::shared::Shared;
use im_model::entries::Entry;
use im_model::transactions::Transaction;
use im_octet::octets::Octets;
use im_versions::entries::{is_deletion, is_shown};
use im_versions::versions::Version;
use std::alloc::{AllocError, Global};

// The version that an entry of transaction `k` is, without its value. Its key is copied.
fn key_of(alloc: Global, k: u64, entry: &Entry) -> Result<Version, AllocError>
    ensures { IfOk result (λ v. v ≡ version_of k (bare_entry entry.now)) }
{
    Ok(Version {
        tx: k,
        deleted: is_deletion(entry),
        key: Octets::from_slice(alloc, entry.key.as_slice())?,
        value: Octets::new(alloc),
    })
}

// The versions that the entries of transaction `k` are, in their order, without their values.
fn keys_in(alloc: Global, k: u64, entries: &[Entry]) -> Result<Vec<Shared>, AllocError>
    ensures { IfOk result (λ versions. versions.items ≡ versions_in k (map bare_entry entries.now)) }
{
    let mut versions = Vec::with_capacity(alloc, entries.len())?;
    for entry in entries {
        if is_shown(entry) {
            versions.push(Shared::new(alloc, key_of(alloc, k, entry)?)?)?;
        }
    }
    Ok(versions)
}

// The versions that the entries of transactions are, of which the first has number `k`, without their values.
pub(crate) fn keys_from(
    alloc: Global,
    k: u64,
    txs: &[Transaction],
) -> Result<Vec<Shared>, AllocError>
    requires { k + length txs.now ≤ 1048577 }
    ensures { IfOk result (λ versions. versions.items ≡ versions_from k (bare txs.now)) }
{
    let mut versions = Vec::new(alloc);
    for (i, tx) in txs.iter().enumerate() {
        let mut added = keys_in(alloc, k + i as u64, tx.entries.as_slice())?;
        versions.append(&mut added)?;
    }
    Ok(versions)
}
