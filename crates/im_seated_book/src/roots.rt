ghost use Rattle.std.specs.Prelude.{◌≡◌, ◌≤◌, length, map};
ghost use Rattle.im_model.specs.History.{entries_root};

use im_digest::{D32, Hash32};
use im_entry::digests::digest_over;
use im_format::references::ValueRef;
use im_model::entries::Entry;
use im_mtree::frontiers::Frontier;

/// Eh of entries whose values have the digests that these references tell. It hashes each entry, each leaf and each node once, and no value.
/// It takes no memory.
pub(crate) fn entry_root_over<H: Hash32>(hash: &H, entries: &[Entry], refs: &[ValueRef]) -> D32
    requires some { 1 ≤ length entries.now }
    requires count { length refs.now ≡ length entries.now }
    requires values { map (λ r. r.hval) refs.now ≡ map (λ e. H.digest hash.now e.value) entries.now }
    ensures { result ≡ entries_root (H.digest hash.now) entries.now }
{
    let mut tree = Frontier::new();
    for i in 0..entries.len() {
        let digest = digest_over(hash, &entries[i], &refs[i].hval);
        tree.append(hash, &digest);
    }
    tree.root(hash)
}
