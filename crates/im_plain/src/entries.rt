ghost use Rattle.std.specs.Prelude.{◌≡◌, IfOk};
ghost use Rattle.im_versions.specs.Versions.{versions_in};

use im_model::entries::Entry;
use im_versions::entries::{is_shown, version_of};
use im_versions::versions::Version;
use std::alloc::{AllocError, Global};

/// The versions that the entries of transaction `k` are, in their order. Its only error is want of memory.
pub fn versions_in(alloc: Global, k: u64, entries: &[Entry]) -> Result<Vec<Version>, AllocError>
    ensures { IfOk result (λ versions. versions.items ≡ versions_in k entries.now) }
{
    let mut versions = Vec::with_capacity(alloc, entries.len())?;
    for entry in entries {
        if is_shown(entry) {
            versions.push(version_of(alloc, k, entry)?)?;
        }
    }
    Ok(versions)
}
