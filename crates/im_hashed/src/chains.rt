ghost use Rattle.std.specs.Prelude.{◌≡◌, ◌<◌, ◌≤◌, ◌+◌, ◌-◌, ◌^◌, ◌∷◌, [], IfOk, OnOk, length};
ghost use Rattle.im_model.specs.Chains.{link_string, chain_strings};
ghost use Rattle.im_carried.specs.Hashed.{path_strings, linear_strings, walk_strings, advance_strings};
ghost use Rattle.im_hashed.specs.Added.{AddsStrings};

use crate::added::add;
use crate::parts::add_path;
use im_digest::{D32, Hash32};
use im_forge::strings::digest_of;
use im_mtree::digests::Digests;
use im_octet::octets::Octets;
use im_octet::writer::Writer;
use std::alloc::{AllocError, Global};

// Adds the strings of the path of transaction k in a tree of this size.
pub(crate) fn add_path_of<H: Hash32>(
    alloc: Global,
    hash: &H,
    out: &mut Vec<Octets>,
    size: u64,
    k: u64,
    alh: &D32,
    path: &[D32],
) -> Result<(), AllocError>
    ensures { OnOk result (AddsStrings out.old.items out.new.items (path_strings (H.digest hash.now) size k alh.now path.now)) }
{
    let index = k.saturating_sub(1);
    add_path(alloc, hash, out, size as usize, index as usize, alh, path)?;
    Ok(())
}

// Adds the strings of linear terms from a number.
pub(crate) fn add_linear<H: Hash32>(
    alloc: Global,
    hash: &H,
    out: &mut Vec<Octets>,
    from: u64,
    terms: &[D32],
) -> Result<(), AllocError>
    requires { from + length terms.now ≤ 2 ^ 64 }
    ensures { OnOk result (AddsStrings out.old.items out.new.items (linear_strings (H.digest hash.now) from terms.now)) }
{
    match terms.split_first() {
        None => Ok(()),
        Some((first, inners)) => add_chain(alloc, hash, out, first, from, inners),
    }
}

// Adds the strings of an advance from the tree's end a, in a tree of this size.
pub(crate) fn add_advance<H: Hash32>(
    alloc: Global,
    hash: &H,
    out: &mut Vec<Octets>,
    a: u64,
    size: u64,
    terms: &[D32],
    paths: &[Digests],
) -> Result<(), AllocError>
    requires number { a + length terms.now < 2 ^ 64 }
    requires paths { length paths.now ≡ length terms.now - 1 }
    ensures { OnOk result (AddsStrings out.old.items out.new.items (advance_strings (H.digest hash.now) a size terms.now paths.now)) }
{
    match terms.split_first() {
        None => Ok(()),
        Some((first, inners)) => add_walk(alloc, hash, out, size, first, a + 1, inners, paths),
    }
}

// Adds the strings of a chain from the Alh of transaction `from`.
fn add_chain<H: Hash32>(
    alloc: Global,
    hash: &H,
    out: &mut Vec<Octets>,
    start: &D32,
    from: u64,
    inners: &[D32],
) -> Result<(), AllocError>
    requires { from + length inners.now < 2 ^ 64 }
    ensures { OnOk result (AddsStrings out.old.items out.new.items (chain_strings (H.digest hash.now) start.now from inners.now)) }
{
    let mut alh = *start;
    let mut k = from;
    for inner in inners {
        k += 1;
        alh = add_link(alloc, hash, out, k, &alh, inner)?;
    }
    Ok(())
}

// Adds the strings of the paths of transaction `from` and of those that the inner digests lead to but for the last, and
// of the links between them.
fn add_walk<H: Hash32>(
    alloc: Global,
    hash: &H,
    out: &mut Vec<Octets>,
    size: u64,
    start: &D32,
    from: u64,
    inners: &[D32],
    paths: &[Digests],
) -> Result<(), AllocError>
    requires number { from + length inners.now < 2 ^ 64 }
    requires paths { length paths.now ≡ length inners.now }
    ensures { OnOk result (AddsStrings out.old.items out.new.items (walk_strings (H.digest hash.now) size from start.now inners.now paths.now)) }
{
    let mut alh = *start;
    let mut k = from;
    for (i, inner) in inners.iter().enumerate() {
        add_path_of(alloc, hash, out, size, k, &alh, paths[i].as_slice())?;
        k += 1;
        alh = add_link(alloc, hash, out, k, &alh, inner)?;
    }
    Ok(())
}

// Adds the string whose digest is the Alh of transaction k, and gives that Alh.
fn add_link<H: Hash32>(
    alloc: Global,
    hash: &H,
    out: &mut Vec<Octets>,
    k: u64,
    previous: &D32,
    inner: &D32,
) -> Result<D32, AllocError>
    ensures digest { IfOk result (λ alh. alh ≡ H.digest hash.now (link_string k previous.now inner.now)) }
    ensures strings { OnOk result (AddsStrings out.old.items out.new.items (link_string k previous.now inner.now ∷ [])) }
{
    let octets = link_octets(alloc, k, previous, inner)?;
    let digest = digest_of(hash, &octets);
    add(out, octets)?;
    Ok(digest)
}

// The string whose digest is the Alh of transaction k: `k 8 | the Alh before it 32 | its inner digest 32`.
fn link_octets(alloc: Global, k: u64, previous: &D32, inner: &D32) -> Result<Octets, AllocError>
    ensures { IfOk result (λ octets. octets ≡ link_string k previous.now inner.now) }
{
    let mut writer = Writer::new(alloc);
    writer.u64(k)?;
    writer.octets(previous)?;
    writer.octets(inner)?;
    Ok(Octets::from_vec(writer.into_vec()))
}
