ghost use Rattle.std.specs.Prelude.{◌≡◌, ℕ, ◌<◌, ◌≤◌, ◌+◌, ◌*◌, ◌^◌, ◌&&◌, List, length, nat_eq, count_ones};
ghost use Rattle.im_digest.specs.Digests.{Hash};
ghost use Rattle.im_model.specs.Trees.{root};
ghost use Rattle.im_levels.specs.Counts.{whole};
ghost use Rattle.im_levels.specs.Edges.{IsEdgeOf};
ghost use Rattle.im_levels.specs.Leveled.{leaves_of, AreStored, IsPart};

use crate::parts::{Part, front};
use crate::roots::part_root;
use crate::steps::Steps;
use crate::steps::nodes::Nodes;
use im_digest::{D32, Hash32};
use std::sync::ledger::Ledger;

/// The root over the part of a tree that was last made of more digests than one, or none yet. All paths in a tree whose
/// leaves are in one whole subtree at its right edge have the same such term, and so have its consistency lists: with
/// one edge for all of them it is hashed once.
///
/// # Invariants
///
/// `IsEdgeOf`, of the hash and the digests of the calls that it was lent to.
#[derive(Clone, Copy)]
pub struct Edge {
    /// The first leaf of the part, from 0.
    pub at: usize,
    /// The number of its leaves: 0 where there is no root yet.
    pub width: usize,
    /// The root over it.
    pub root: D32,
}

/// No root yet.
pub fn no_edge() -> Edge
    ensures { (hash : Hash) (digests : List (List ℕ)) → IsEdgeOf hash digests result }
{
    Edge {
        at: 0,
        width: 0,
        root: [0; 32],
    }
}

// Whether it is the root over this part.
fn is_over(edge: &Edge, part: Part) -> bool
    ensures { result ≡ (nat_eq edge.now.at part.at && nat_eq edge.now.width part.width) }
{
    edge.at == part.at && edge.width == part.width
}

/// The root over a part, as `part_root` gives it. Where it is that of the edge, nothing is read or hashed; where it is
/// made of more digests than one, it is the edge's from then on. It takes no memory.
pub fn edge_root<H: Hash32, L: Ledger>(
    hash: &H,
    digests: &Nodes,
    part: Part,
    edge: &mut Edge,
    steps: &mut Steps<L>,
) -> D32
    requires some { 0 < part.width }
    requires fits { part.width + 1 < 2 ^ 64 }
    requires aligned { IsPart part.at part.width }
    requires inside { whole (part.at + part.width) ≤ length digests.now }
    requires made { IsEdgeOf (H.digest hash.now) digests.now edge.old }
    ensures value { (leaves : List (List ℕ)) → part.at + part.width ≤ length leaves
        → AreStored (H.digest hash.now) leaves digests.now → result ≡ root (H.digest hash.now) (leaves_of leaves part.at part.width) }
    ensures made { IsEdgeOf (H.digest hash.now) digests.now edge.new }
    ensures cost { steps.new + 1 ≤ steps.old + 2 * count_ones part.width }
{
    let k = front(part);
    if k == part.width {
        return digests.read(part, steps);
    }
    if is_over(edge, part) {
        return edge.root;
    }
    let root = part_root(hash, digests, part, steps);
    *edge = Edge {
        at: part.at,
        width: part.width,
        root,
    };
    root
}
