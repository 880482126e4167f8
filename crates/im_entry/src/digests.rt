ghost use Rattle.std.specs.Prelude.{◌≡◌, ◌≤◌, IfOk, length, map};
ghost use Rattle.im_model.specs.Entries.{entry_digest};
ghost use Rattle.im_model.specs.History.{entries_root};

use arrayvec::ArrayVec;
use im_digest::{D32, Hash32};
use im_model::entries::Entry;
use im_mtree::roots::root;
use im_octet::buffers::append;
use im_octet::fields::two;
use std::alloc::{AllocError, Global};

/// The digest of an entry: of `mdLen 2 | md | keyLen 2 | key | H(value) 32`. It takes no memory, and costs two
/// hashes: the value, and the entry.
pub fn digest<H: Hash32>(hash: &H, entry: &Entry) -> D32
    ensures { result ≡ entry_digest (H.digest hash.now) entry.now }
{
    let value = hash.hash(entry.value.as_slice(), &[], &[]);
    digest_over(hash, entry, &value)
}

/// The digest of an entry whose value has this digest. The value isn't hashed again. It takes no memory, and
/// costs one hash.
pub fn digest_over<H: Hash32>(hash: &H, entry: &Entry, value: &D32) -> D32
    requires { value.now ≡ H.digest hash.now entry.now.value }
    ensures { result ≡ entry_digest (H.digest hash.now) entry.now }
{
    let md = entry.md.as_slice();
    let key = entry.key.as_slice();
    let mut head = ArrayVec::<u8, 260>::new();
    append(&mut head, &two(md.len() as u16));
    append(&mut head, md);
    append(&mut head, &two(key.len() as u16));
    hash.hash(head.as_slice(), key, value)
}

/// The digest of each of some entries. It hashes each value and each entry once. Its only error is want of
/// memory.
pub fn digests_of<H: Hash32>(
    alloc: Global,
    hash: &H,
    entries: &[Entry],
) -> Result<Vec<D32>, AllocError>
    ensures { IfOk result (λ digests. digests.items ≡ map (entry_digest (H.digest hash.now)) entries.now) }
{
    let mut digests = Vec::with_capacity(alloc, entries.len())?;
    for entry in entries {
        digests.push(digest(hash, entry))?;
    }
    Ok(digests)
}

/// Eh: the root over the digests of some entries. It hashes each value, each entry, each leaf and each node
/// once, and takes memory for a digest an entry. Its only error is want of memory.
pub fn entry_root<H: Hash32>(alloc: Global, hash: &H, entries: &[Entry]) -> Result<D32, AllocError>
    requires { 1 ≤ length entries.now }
    ensures { IfOk result (λ eh. eh ≡ entries_root (H.digest hash.now) entries.now) }
{
    let digests = digests_of(alloc, hash, entries)?;
    Ok(root(hash, digests.as_slice()))
}
