ghost use Rattle.std.specs.Prelude.{◌≡◌, ◌≤◌, ◌&&◌, List, length, take, nat_lt, if◌then◌else◌, IfOk, Some, None};
ghost use Rattle.im_model.specs.History.{alhs_of, IsHistory};
ghost use Rattle.im_model.specs.declared.transactions.Transaction.{Transaction};
ghost use Rattle.im_proof.specs.Between.{anchor_between, dual_between};
ghost use Rattle.im_proof.specs.Built.{headers_of};
ghost use Rattle.im_levels.specs.Leveled.{IsLeveled};
ghost use Rattle.im_dual.specs.Kept.{header_at};

use crate::build::{build, size_at};
use im_atree::trees::Tree;
use im_digest::Hash32;
use im_model::headers::Header;
use im_proof::proofs::DualProof;
use std::alloc::{AllocError, Global};

/// The anchor of an advance from transaction s to t of a history, from the headers of the history and the tree of its
/// first Alh: the dual proof from the end of the target's tree to s, where that end lies behind the tree of s and before
/// s, and else none. It costs what `build` does. The only error is want of memory.
pub fn anchor_between<H: Hash32>(
    alloc: Global,
    hash: &H,
    headers: &[Header],
    tree: &Tree,
    s: u64,
    t: u64,
) -> Result<Option<DualProof>, AllocError>
    requires history { (history : List Transaction) × IsHistory history × (headers.now ≡ headers_of (H.digest hash.now) history) × IsLeveled (H.digest hash.now) (take tree.now.size (alhs_of (H.digest hash.now) history)) tree.now }
    requires some { 1 ≤ s }
    requires order { s ≤ t }
    requires within { t ≤ length headers.now }
    requires tree { (header_at headers.now t).bl_tx_id ≤ tree.now.size }
    ensures value { IfOk result (λ anchor. (history : List Transaction) → IsHistory history → headers.now ≡ headers_of (H.digest hash.now) history → anchor ≡ anchor_between (H.digest hash.now) history s t) }
{
    let old = size_at(headers, s as usize);
    let size = size_at(headers, t as usize);
    anchor_from(alloc, hash, headers, tree, s, old, size)
}

// The dual proof from transaction `size` to s, where it lies behind `old` and before s.
fn anchor_from<H: Hash32>(
    alloc: Global,
    hash: &H,
    headers: &[Header],
    tree: &Tree,
    s: u64,
    old: u64,
    size: u64,
) -> Result<Option<DualProof>, AllocError>
    requires history { (history : List Transaction) × IsHistory history × (headers.now ≡ headers_of (H.digest hash.now) history) × IsLeveled (H.digest hash.now) (take tree.now.size (alhs_of (H.digest hash.now) history)) tree.now }
    requires within { s ≤ length headers.now }
    requires tree { (header_at headers.now s).bl_tx_id ≤ tree.now.size }
    ensures value { IfOk result (λ anchor. (history : List Transaction) → IsHistory history → headers.now ≡ headers_of (H.digest hash.now) history
        → anchor ≡ (if nat_lt old size && nat_lt size s then Some (dual_between (H.digest hash.now) history size s) else None)) }
{
    if old < size && size < s {
        Ok(Some(build(alloc, hash, headers, tree, size, s)?))
    } else {
        Ok(None)
    }
}
