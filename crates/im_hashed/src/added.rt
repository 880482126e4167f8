ghost use Rattle.std.specs.Prelude.{◌≡◌, ◌∷◌, [], IfOk, OnOk};
ghost use Rattle.im_model.specs.Trees.{node, node_string};
ghost use Rattle.im_hashed.specs.Added.{AddsStrings};

use im_digest::{D32, Hash32};
use im_model::trees::node_digest;
use im_octet::octets::Octets;
use im_pairs::strings::{Children, node_octets};
use std::alloc::{AllocError, Global};

// Adds a string.
pub(crate) fn add(out: &mut Vec<Octets>, octets: Octets) -> Result<(), AllocError>
    ensures { OnOk result (AddsStrings out.old.items out.new.items (octets ∷ [])) }
{
    out.push(octets)?;
    Ok(())
}

// Adds the string of a node, and gives the node's digest.
pub(crate) fn add_node<H: Hash32>(
    alloc: Global,
    hash: &H,
    out: &mut Vec<Octets>,
    children: &Children,
) -> Result<D32, AllocError>
    ensures digest { IfOk result (λ digest. digest ≡ node (H.digest hash.now) children.now.left children.now.right) }
    ensures strings { OnOk result (AddsStrings out.old.items out.new.items (node_string children.now.left children.now.right ∷ [])) }
{
    let octets = node_octets(alloc, children)?;
    add(out, octets)?;
    Ok(node_digest(hash, &children.left, &children.right))
}
