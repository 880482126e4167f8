ghost use Rattle.std.specs.Prelude.{◌≡◌, ℕ, ◌<◌, ◌≤◌, ◌+◌, ◌-◌, ◌*◌, ◌^◌, List, [], ◌∷◌, ◌++◌, length, take, slice_index_or, OnOk, OnErr};
ghost use Rattle.im_model.specs.Trees.{root};
ghost use Rattle.im_levels.specs.Counts.{whole};
ghost use Rattle.im_levels.specs.Leveled.{leaves_of, AreStored, IsLeveled, stored};

use crate::parts::Part;
use crate::steps::Steps;
use crate::steps::hashes::{leaf_step, node_step};
use crate::steps::nodes::Nodes;
use arrayvec::ArrayVec;
use im_digest::{D32, Hash32};
use std::alloc::AllocError;
use std::sync::ledger::Ledger;

/// Adds the digests of the subtrees that become whole with a leaf behind `size` others. With b binary digits in
/// the new size it takes less than 2b steps. Its only error is want of memory, and nothing was added then.
pub fn add_leaf<H: Hash32, L: Ledger>(
    hash: &H,
    digests: &mut Nodes,
    size: usize,
    alh: &D32,
    steps: &mut Steps<L>,
) -> Result<(), AllocError>
    requires { length digests.old ≡ whole size }
    ensures room { OnOk result (size + 1 < 2 ^ 64) }
    ensures filled { OnOk result (length digests.new ≡ whole (size + 1)) }
    ensures front { OnOk result (take (length digests.old) digests.new ≡ digests.old) }
    ensures leaves { OnOk result ((leaves : List (List ℕ)) → IsLeveled (H.digest hash.now) leaves (stored digests.old size)
        → IsLeveled (H.digest hash.now) (leaves ++ alh.now ∷ []) (stored digests.new (size + 1))) }
    ensures err { OnErr result (digests.new ≡ digests.old) }
    ensures cost { steps.new + 1 + 2 * whole size ≡ steps.old + 2 * whole (size + 1) }
    ensures bound { (b : ℕ) → size + 1 < 2 ^ b → steps.new < steps.old + 2 * b }
{
    digests.next_fits(size);
    let fresh = fresh_digests(hash, digests, size, alh, steps);
    let more = fresh.as_slice();
    digests.add(more)?;
    Ok(())
}

// The digests of the subtrees that become whole with a leaf behind `size` others, the smallest first: of the
// leaf, and of a node for each one at the end of the size in binary, made with the stored digest beside it.
fn fresh_digests<H: Hash32, L: Ledger>(
    hash: &H,
    digests: &Nodes,
    size: usize,
    alh: &D32,
    steps: &mut Steps<L>,
) -> ArrayVec<D32, 64>
    requires room { size + 1 < 2 ^ 64 }
    requires inside { whole size ≤ length digests.now }
    ensures count { whole (size + 1) ≡ whole size + length result.items }
    ensures most { 2 ^ length result.items ≤ 2 * (size + 1) }
    ensures cost { steps.new + 1 ≡ steps.old + 2 * length result.items }
    ensures leaves { (leaves : List (List ℕ)) → size ≡ length leaves → AreStored (H.digest hash.now) leaves digests.now
        → (k : ℕ) → k < length result.items
        → slice_index_or result.items k [] ≡ root (H.digest hash.now) (leaves_of (leaves ++ alh.now ∷ []) (size + 1 - 2 ^ k) (2 ^ k)) }
{
    let mut fresh = ArrayVec::<D32, 64>::new();
    let mut digest = leaf_step(hash, alh, steps);
    let mut count = size;
    let mut at = size;
    let mut width = 1;
    while count % 2 == 1 {
        fresh.push(digest);
        at -= width;
        let left = digests.read(Part { at, width }, steps);
        digest = node_step(hash, &left, &digest, steps);
        width = 2 * width;
        count /= 2;
    }
    fresh.push(digest);
    fresh
}
