ghost use Rattle.std.specs.Prelude.{◌≡◌, IfOk};
ghost use Rattle.im_model.specs.Trees.{node_string};

use im_digest::D32;
use im_octet::octets::Octets;
use std::alloc::{AllocError, Global};

/// The children of a node.
#[derive(Clone, Copy)]
pub struct Children {
    /// The digest on the left.
    pub left: D32,
    /// The digest on the right.
    pub right: D32,
}

/// The string that is hashed for a node: 01 | left | right (RFC 6962, section 2.1). It hashes nothing. Its only
/// error is want of memory.
pub fn node_octets(alloc: Global, node: &Children) -> Result<Octets, AllocError>
    ensures { IfOk result (λ octets. octets ≡ node_string node.now.left node.now.right) }
{
    let mut octets = Vec::new(alloc);
    octets.push(1)?;
    octets.extend_from_slice(&node.left)?;
    octets.extend_from_slice(&node.right)?;
    Ok(Octets::from_vec(octets))
}
