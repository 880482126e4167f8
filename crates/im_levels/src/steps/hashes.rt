ghost use Rattle.std.specs.Prelude.{◌≡◌, ◌+◌};
ghost use Rattle.im_model.specs.Trees.{leaf, node};

use crate::steps::Steps;
use im_digest::{D32, Hash32};
use im_model::trees::{leaf_digest, node_digest};
use std::sync::ledger::Ledger;

/// The digest of a leaf, as `leaf_digest` gives it. It takes one step, and no memory.
pub fn leaf_step<H: Hash32, L: Ledger>(hash: &H, alh: &D32, steps: &mut Steps<L>) -> D32
    ensures value { result ≡ leaf (H.digest hash.now) alh.now }
    ensures cost { steps.new ≡ steps.old + 1 }
{
    steps.tick();
    leaf_digest(hash, alh)
}

/// The digest of a node, as `node_digest` gives it. It takes one step, and no memory.
pub fn node_step<H: Hash32, L: Ledger>(
    hash: &H,
    left: &D32,
    right: &D32,
    steps: &mut Steps<L>,
) -> D32
    ensures value { result ≡ node (H.digest hash.now) left.now right.now }
    ensures cost { steps.new ≡ steps.old + 1 }
{
    steps.tick();
    node_digest(hash, left, right)
}
