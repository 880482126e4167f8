//! What is kept of a tree that grows: its whole subtrees, and the root that they give.

ghost use Rattle.std.specs.Prelude.{◌≡◌, ◌≤◌, ℕ, List, length, take};
ghost use Rattle.im_mtree.specs.Kept.{IsFrontier};
ghost use Rattle.im_model.specs.History.{bl_root_of};

use im_digest::{D32, Hash32};
use im_mtree::frontiers::Frontier;

/// Brings what is kept of the first of these Alh to the first `end`. It hashes the leaves that are added.
pub fn extend_to<H: Hash32>(hash: &H, frontier: &mut Frontier, alhs: &[D32], end: usize)
    requires kept { IsFrontier (H.digest hash.now) (take frontier.old.size alhs.now) frontier.old }
    requires up { frontier.old.size ≤ end }
    requires within { end ≤ length alhs.now }
    ensures { IsFrontier (H.digest hash.now) (take end alhs.now) frontier.new }
{
    let start = frontier.size() as usize;
    frontier.extend(hash, &alhs[start..end]);
}

/// The root of the tree whose whole subtrees these are, and 32 zeros where it is empty.
pub fn root_of<H: Hash32>(hash: &H, frontier: &Frontier) -> D32
    ensures { (leaves : List (List ℕ)) → IsFrontier (H.digest hash.now) leaves frontier.now
        → result ≡ bl_root_of (H.digest hash.now) leaves (length leaves) }
{
    if frontier.size() == 0 {
        [0; 32]
    } else {
        frontier.root(hash)
    }
}
