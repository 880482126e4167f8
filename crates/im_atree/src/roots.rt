//! The root of all leaves of a tree.

ghost use Rattle.std.specs.Prelude.{◌≡◌, ℕ, List, length};
ghost use Rattle.im_levels.specs.Leveled.{IsLeveled};
ghost use Rattle.im_model.specs.History.{bl_root_of};

use crate::trees::Tree;
use im_digest::{D32, Hash32};

/// The root of all leaves of a tree, and 32 zeros where it has none: the BlRoot of a header over it. It takes no memory.
pub fn root_of<H: Hash32>(hash: &H, tree: &Tree) -> D32
    ensures { (leaves : List (List ℕ)) → IsLeveled (H.digest hash.now) leaves tree.now
        → result ≡ bl_root_of (H.digest hash.now) leaves (length leaves) }
{
    let size = tree.size();
    if size == 0 {
        return [0; 32];
    }
    tree.root_at(hash, size)
}
