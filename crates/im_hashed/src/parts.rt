ghost use Rattle.std.specs.Prelude.{◌≡◌, ◌∷◌, [], IfOk, OnOk, reverse};
ghost use Rattle.im_model.specs.Entries.{entry_digest, entry_strings};
ghost use Rattle.im_model.specs.Headers.{alh, header_strings};
ghost use Rattle.im_model.specs.Paths.{up, up_strings};
ghost use Rattle.im_model.specs.Trees.{leaf, leaf_string};
ghost use Rattle.im_hashed.specs.Added.{AddsStrings};

use crate::added::{add, add_node};
use im_digest::{D32, Hash32};
use im_forge::strings::{alh_octets, digest_of, entry_octets, inner_octets, leaf_octets};
use im_model::entries::Entry;
use im_model::headers::Header;
use im_model::trees::{leaf_digest, split};
use im_octet::octets::Octets;
use im_pairs::strings::Children;
use std::alloc::{AllocError, Global};

// Adds the strings of a header, and gives its Alh.
pub(crate) fn add_header<H: Hash32>(
    alloc: Global,
    hash: &H,
    out: &mut Vec<Octets>,
    header: &Header,
) -> Result<D32, AllocError>
    ensures digest { IfOk result (λ digest. digest ≡ alh (H.digest hash.now) header.now) }
    ensures strings { OnOk result (AddsStrings out.old.items out.new.items (header_strings (H.digest hash.now) header.now)) }
{
    let whole = alh_octets(alloc, hash, header)?;
    let digest = digest_of(hash, &whole);
    add(out, whole)?;
    let inner = inner_octets(alloc, header)?;
    add(out, inner)?;
    Ok(digest)
}

// Adds the strings of an entry, and gives its digest.
pub(crate) fn add_entry<H: Hash32>(
    alloc: Global,
    hash: &H,
    out: &mut Vec<Octets>,
    entry: &Entry,
) -> Result<D32, AllocError>
    ensures digest { IfOk result (λ digest. digest ≡ entry_digest (H.digest hash.now) entry.now) }
    ensures strings { OnOk result (AddsStrings out.old.items out.new.items (entry_strings (H.digest hash.now) entry.now)) }
{
    let whole = entry_octets(alloc, hash, entry)?;
    let digest = digest_of(hash, &whole);
    add(out, whole)?;
    let value = Octets::from_slice(alloc, entry.value.as_slice())?;
    add(out, value)?;
    Ok(digest)
}

// Adds the strings of a path of leaf i, from 0, of n, its terms from the leaf up, and gives the root that it leads to.
// Each is hashed once.
pub(crate) fn add_path<H: Hash32>(
    alloc: Global,
    hash: &H,
    out: &mut Vec<Octets>,
    n: usize,
    i: usize,
    digest: &D32,
    path: &[D32],
) -> Result<D32, AllocError>
    ensures root { IfOk result (λ root. root ≡ up (H.digest hash.now) n i digest.now (reverse path.now)) }
    ensures strings { OnOk result (AddsStrings out.old.items out.new.items (up_strings (H.digest hash.now) n i digest.now (reverse path.now))) }
{
    match path.split_last() {
        None => add_leaf(alloc, hash, out, digest),
        Some((term, front)) => {
            let k = split(n);
            if i < k {
                let left = add_path(alloc, hash, out, k, i, digest, front)?;
                let children = Children { left, right: *term };
                return add_node(alloc, hash, out, &children);
            }
            let rest = n.saturating_sub(k);
            let right = add_path(alloc, hash, out, rest, i - k, digest, front)?;
            let children = Children { left: *term, right };
            add_node(alloc, hash, out, &children)
        }
    }
}

// Adds the string of a leaf, and gives the leaf's digest.
fn add_leaf<H: Hash32>(
    alloc: Global,
    hash: &H,
    out: &mut Vec<Octets>,
    digest: &D32,
) -> Result<D32, AllocError>
    ensures digest { IfOk result (λ root. root ≡ leaf (H.digest hash.now) digest.now) }
    ensures strings { OnOk result (AddsStrings out.old.items out.new.items (leaf_string digest.now ∷ [])) }
{
    let octets = leaf_octets(alloc, digest)?;
    add(out, octets)?;
    Ok(leaf_digest(hash, digest))
}
