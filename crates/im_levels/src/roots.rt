ghost use Rattle.std.specs.Prelude.{◌≡◌, ℕ, ◌<◌, ◌≤◌, ◌+◌, ◌*◌, ◌^◌, List, length, count_ones};
ghost use Rattle.im_digest.specs.Digests.{Hash};
ghost use Rattle.im_model.specs.Trees.{root};
ghost use Rattle.im_levels.specs.Counts.{whole};
ghost use Rattle.im_levels.specs.Leveled.{leaves_of, AreStored, IsPart};

use crate::parts::{Part, front};
use crate::steps::Steps;
use crate::steps::hashes::node_step;
use crate::steps::nodes::Nodes;
use im_digest::{D32, Hash32};
use std::sync::ledger::Ledger;

/// The root over a part of a tree, of stored digests alone: one for each one in the binary digits of its
/// width, and a node for each of them but one. It takes no memory.
pub fn part_root<H: Hash32, L: Ledger>(
    hash: &H,
    digests: &Nodes,
    part: Part,
    steps: &mut Steps<L>,
) -> D32
    requires some { 0 < part.width }
    requires fits { part.width + 1 < 2 ^ 64 }
    requires aligned { IsPart part.at part.width }
    requires inside { whole (part.at + part.width) ≤ length digests.now }
    ensures value { (leaves : List (List ℕ)) → part.at + part.width ≤ length leaves
        → AreStored (H.digest hash.now) leaves digests.now → result ≡ root (H.digest hash.now) (leaves_of leaves part.at part.width) }
    ensures cost { steps.new + 1 ≡ steps.old + 2 * count_ones part.width }
{
    let k = front(part);
    let tree = Part {
        at: part.at,
        width: k,
    };
    let left = digests.read(tree, steps);
    if k == part.width {
        return left;
    }
    let rest = Part {
        at: part.at + k,
        width: part.width - k,
    };
    let right = part_root(hash, digests, rest, steps);
    node_step(hash, &left, &right, steps)
}
