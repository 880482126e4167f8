ghost use Rattle.std.specs.Prelude.{◌≡◌, ◌++◌, ◌<◌, ◌^◌, OnOk, Ok};
ghost use Rattle.im_mtree.specs.Checks.{first_fail};
ghost use Rattle.im_proof.specs.Duals.{dual_checks};
ghost use Rattle.im_carried.specs.Hashed.{inclusion_strings, grown_strings, last_strings, linear_strings, advance_strings, dual_strings};
ghost use Rattle.im_hashed.specs.Added.{AddsStrings, HasCountedLists, terms_start};

use crate::chains::{add_advance, add_linear, add_path_of};
use crate::lists::add_consistency;
use crate::parts::add_header;
use im_digest::{D32, Hash32};
use im_octet::octets::Octets;
use im_proof::proofs::DualProof;
use std::alloc::{AllocError, Global};

// Adds the strings that are hashed in checking a dual proof whose checks all hold. Each is hashed once more.
pub(crate) fn add_dual<H: Hash32>(
    alloc: Global,
    hash: &H,
    out: &mut Vec<Octets>,
    dual: &DualProof,
) -> Result<(), AllocError>
    requires { first_fail (dual_checks (H.digest hash.now) dual.now) ≡ Ok tt }
    ensures { OnOk result (AddsStrings out.old.items out.new.items (dual_strings (H.digest hash.now) dual.now)) }
{
    number_fits(dual.target.id);
    let alh = add_header(alloc, hash, out, &dual.source)?;
    add_header(alloc, hash, out, &dual.target)?;
    add_trees(alloc, hash, out, dual, &alh)?;
    add_chains(alloc, hash, out, dual)
}

// What the type of a number says.
fn number_fits(number: u64)
    ensures { number < 2 ^ 64 }
{
    let _number = number;
}

// Adds the strings of the paths and of the consistency list, where the source has this Alh.
fn add_trees<H: Hash32>(
    alloc: Global,
    hash: &H,
    out: &mut Vec<Octets>,
    dual: &DualProof,
    alh: &D32,
) -> Result<(), AllocError>
    ensures { OnOk result (AddsStrings out.old.items out.new.items (inclusion_strings (H.digest hash.now) dual.now.source.id dual.now.target.bl_tx_id alh.now dual.now.inclusion ++ (grown_strings (H.digest hash.now) dual.now.source.bl_tx_id dual.now.target.bl_tx_id dual.now.consistency ++ last_strings (H.digest hash.now) dual.now.target.bl_tx_id dual.now.target_bl_tx_alh dual.now.last_inclusion))) }
{
    let size = dual.target.bl_tx_id;
    let inclusion = dual.inclusion.as_slice();
    let list = dual.consistency.as_slice();
    let last = dual.last_inclusion.as_slice();
    add_inclusion(alloc, hash, out, dual.source.id, size, alh, inclusion)?;
    add_consistency(alloc, hash, out, dual.source.bl_tx_id, size, list)?;
    add_last(alloc, hash, out, size, &dual.target_bl_tx_alh, last)
}

// Adds the strings of the source's path, where it is due.
fn add_inclusion<H: Hash32>(
    alloc: Global,
    hash: &H,
    out: &mut Vec<Octets>,
    s: u64,
    size: u64,
    alh: &D32,
    path: &[D32],
) -> Result<(), AllocError>
    ensures { OnOk result (AddsStrings out.old.items out.new.items (inclusion_strings (H.digest hash.now) s size alh.now path.now)) }
{
    if s >= size {
        return Ok(());
    }
    add_path_of(alloc, hash, out, size, s, alh, path)
}

// Adds the strings of the path of the last transaction in the tree, where it holds any.
fn add_last<H: Hash32>(
    alloc: Global,
    hash: &H,
    out: &mut Vec<Octets>,
    size: u64,
    alh: &D32,
    path: &[D32],
) -> Result<(), AllocError>
    ensures { OnOk result (AddsStrings out.old.items out.new.items (last_strings (H.digest hash.now) size alh.now path.now)) }
{
    if size == 0 {
        return Ok(());
    }
    add_path_of(alloc, hash, out, size, size, alh, path)
}

// Adds the strings of the linear terms and of the advance.
fn add_chains<H: Hash32>(
    alloc: Global,
    hash: &H,
    out: &mut Vec<Octets>,
    dual: &DualProof,
) -> Result<(), AllocError>
    requires { HasCountedLists dual.now }
    ensures { OnOk result (AddsStrings out.old.items out.new.items (linear_strings (H.digest hash.now) (terms_start dual.now.source.id dual.now.target.bl_tx_id) dual.now.linear ++ advance_strings (H.digest hash.now) dual.now.source.bl_tx_id dual.now.target.bl_tx_id dual.now.linear_advance.terms dual.now.linear_advance.inclusions)) }
{
    let size = dual.target.bl_tx_id;
    let linear = dual.linear.as_slice();
    let terms = dual.linear_advance.terms.as_slice();
    let paths = dual.linear_advance.inclusions.as_slice();
    add_linear(alloc, hash, out, start(dual.source.id, size), linear)?;
    add_advance(alloc, hash, out, dual.source.bl_tx_id, size, terms, paths)
}

// The number that the linear terms begin with.
fn start(s: u64, size: u64) -> u64
    ensures { result ≡ terms_start s size }
{
    if s < size { size } else { s }
}
