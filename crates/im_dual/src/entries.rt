ghost use Rattle.std.specs.Prelude.{◌≡◌, ◌<◌, length, map, slice_index_or, IfOk};
ghost use Rattle.im_model.specs.Entries.{entry_digest};
ghost use Rattle.im_proof.specs.Between.{no_entry};
ghost use Rattle.im_proof.specs.Built.{path_of};

use im_digest::Hash32;
use im_entry::digests::digests_of;
use im_model::entries::Entry;
use im_mtree::digests::Digests;
use im_mtree::paths::path;
use std::alloc::{AllocError, Global};

/// A copy of an entry of these, and its path among them, the terms from the leaf up. It hashes each value and each entry
/// once. Its only error is want of memory.
pub fn entry_and_path<H: Hash32>(
    alloc: Global,
    hash: &H,
    entries: &[Entry],
    index: u32,
) -> Result<(Entry, Digests), AllocError>
    requires { index < length entries.now }
    ensures entry { IfOk result (λ shown. shown.0 ≡ slice_index_or entries.now index no_entry) }
    ensures path { IfOk result (λ shown. shown.1 ≡ path_of (H.digest hash.now) (map (entry_digest (H.digest hash.now)) entries.now) index) }
{
    let digests = digests_of(alloc, hash, entries)?;
    let path = path(alloc, hash, digests.as_slice(), index as usize)?;
    let entry = entries[index as usize].try_clone(alloc)?;
    Ok((entry, path))
}
