//! What counted calls take over a tree of seven leaves. Each function makes one, and its contract is the law.

ghost use Rattle.std.specs.Prelude.{◌≡◌, ◌+◌};

use crate::trees::Tree;
use im_digest::{D32, Hash32};
use im_levels::steps::Steps;
use std::alloc::AllocError;
use std::sync::ledger::Ledger;

/// The root over seven leaves takes 5 steps: three digests read, and two hashes.
pub fn root_of_seven<H: Hash32, L: Ledger>(tree: &Tree, hash: &H, steps: &mut Steps<L>) -> D32
    requires { tree.now.size ≡ 7 }
    ensures { steps.new ≡ steps.old + 5 }
{
    tree.root_steps(hash, 7, steps)
}

/// The eighth leaf takes 7 steps, four hashes and three digests read, also where memory runs out.
pub fn eighth_leaf<H: Hash32, L: Ledger>(
    tree: &mut Tree,
    hash: &H,
    alh: &D32,
    steps: &mut Steps<L>,
) -> Result<u64, AllocError>
    requires { tree.old.size ≡ 7 }
    ensures { steps.new ≡ steps.old + 7 }
{
    tree.append_steps(hash, alh, steps)
}
