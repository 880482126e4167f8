ghost use Rattle.std.specs.Prelude.{◌≡◌, ◌∷◌, [], IfOk};
ghost use Rattle.im_model.specs.Trees.{node, node_string};
ghost use Rattle.im_forge.specs.Same.{IsSame};

use crate::same::{Same, compared};
use im_digest::{D32, Hash32};
use im_pairs::strings::{Children, node_octets};
use std::alloc::{AllocError, Global};

/// Whether two nodes of one digest (RFC 6962, section 2.1) have the same children. They are equal just where
/// both left and both right children are; else the two strings are those that are hashed for the nodes. It
/// hashes nothing. The only error is want of memory.
pub fn same_node<H: Hash32>(
    alloc: Global,
    hash: &H,
    left: &D32,
    right: &D32,
    left2: &D32,
    right2: &D32,
) -> Result<Same, AllocError>
    requires { node (H.digest hash.now) left.now right.now ≡ node (H.digest hash.now) left2.now right2.now }
    ensures { IfOk result (IsSame ((left.now ≡ left2.now) × (right.now ≡ right2.now)) (H.digest hash.now) (node_string left.now right.now ∷ node_string left2.now right2.now ∷ [])) }
{
    let ours = Children {
        left: *left,
        right: *right,
    };
    let theirs = Children {
        left: *left2,
        right: *right2,
    };
    let x = node_octets(alloc, &ours)?;
    let y = node_octets(alloc, &theirs)?;
    Ok(compared(x, y))
}
