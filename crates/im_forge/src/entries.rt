ghost use Rattle.std.specs.Prelude.{◌≡◌, ◌<◌, ◌++◌, IfOk, length, reverse};
ghost use Rattle.im_model.specs.Entries.{entry_digest, entry_strings};
ghost use Rattle.im_model.specs.Paths.{path_length, up, up_strings};
ghost use Rattle.im_forge.specs.Same.{IsSame, IsCompared};

use crate::parts::part;
use crate::ranges::entry_fits;
use crate::same::{Same, compared};
use crate::strings::{digest_of, entry_octets};
use im_digest::{D32, Hash32};
use im_model::entries::Entry;
use im_octet::octets::Octets;
use std::alloc::{AllocError, Global};

/// Whether two entries that paths of one index, from 0, of one number of entries lead from to one root (RFC
/// 6962, section 2.1.1) are equal. They are, just where metadata, key and value are; else the two strings are
/// those of the entries, or of their values, or of two leaves or nodes on the way. Both paths have the exact
/// length. It hashes each entry, its leaf, and a node for each term, once or twice. The only error is want of
/// memory.
pub fn same_entry<H: Hash32>(
    alloc: Global,
    hash: &H,
    width: u32,
    i: u32,
    entry: &Entry,
    path: &[D32],
    entry2: &Entry,
    path2: &[D32],
) -> Result<Same, AllocError>
    requires within { i < width }
    requires path { length path.now ≡ path_length width i }
    requires path2 { length path2.now ≡ path_length width i }
    requires one_root { up (H.digest hash.now) width i (entry_digest (H.digest hash.now) entry.now) (reverse path.now) ≡ up (H.digest hash.now) width i (entry_digest (H.digest hash.now) entry2.now) (reverse path2.now) }
    ensures { IfOk result (IsSame (entry.now ≡ entry2.now) (H.digest hash.now) ((entry_strings (H.digest hash.now) entry.now ++ entry_strings (H.digest hash.now) entry2.now) ++ (up_strings (H.digest hash.now) width i (entry_digest (H.digest hash.now) entry.now) (reverse path.now) ++ up_strings (H.digest hash.now) width i (entry_digest (H.digest hash.now) entry2.now) (reverse path2.now)))) }
{
    entry_fits(entry);
    entry_fits(entry2);
    let x = entry_octets(alloc, hash, entry)?;
    let y = entry_octets(alloc, hash, entry2)?;
    match compared(x, y) {
        Same::Equal => same_value(alloc, entry, entry2),
        Same::Pair { x, y } => {
            let leaf = digest_of(hash, &x);
            let leaf2 = digest_of(hash, &y);
            if leaf == leaf2 {
                return Ok(Same::Pair { x, y });
            }
            let parted = part(
                alloc,
                hash,
                width as usize,
                i as usize,
                &leaf,
                path,
                &leaf2,
                path2,
            )?;
            Ok(parted.into_pair())
        }
    }
}

// Whether two entries have one value.
fn same_value(alloc: Global, entry: &Entry, entry2: &Entry) -> Result<Same, AllocError>
    ensures { IfOk result (IsCompared entry.now.value entry2.now.value) }
{
    let x = Octets::from_slice(alloc, entry.value.as_slice())?;
    let y = Octets::from_slice(alloc, entry2.value.as_slice())?;
    Ok(compared(x, y))
}
