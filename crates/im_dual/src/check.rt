ghost use Rattle.std.specs.Prelude.{◌≡◌, ◌<◌, ◌≤◌};
ghost use Rattle.im_model.specs.Headers.{alh};
ghost use Rattle.im_mtree.specs.Checks.{first_fail};
ghost use Rattle.im_proof.specs.TreeChecks.{bl_checks};
ghost use Rattle.im_proof.specs.Duals.{tree_checks, chain_checks, dual_checks};

use crate::advance::{TreeHead, check_advance};
use crate::headers::check_headers;
use im_atree::checks::{check_consistency, check_inclusion, check_last};
use im_chain::check_linear;
use im_digest::{D32, Hash32};
use im_header::alh;
use im_proof::faults::DualFault;
use im_proof::proofs::DualProof;

/// Whether a dual proof holds: one history leads from its source's header to its target's. `build` is its
/// twin: the lists that it builds are checked here in their order in `DualProof`. It takes no memory. It
/// hashes at most each header twice, for each path a leaf and a node a term, two nodes for each term of the
/// consistency list, and once each linear term but the first.
///
/// # Errors
///
/// The first check that fails, with what was wanted and what was found.
pub fn check<H: Hash32>(hash: &H, proof: &DualProof) -> Result<(), DualFault>
    ensures { result ≡ first_fail (dual_checks (H.digest hash.now) proof.now) }
{
    let source_alh = alh(hash, &proof.source);
    let target_alh = alh(hash, &proof.target);
    check_known(hash, proof, &source_alh, &target_alh)
}

/// `check` of a proof whose headers' Alh are known, so that it hashes neither header.
///
/// # Errors
///
/// The first check that fails, with what was wanted and what was found.
#[tactic(auto, using(im_mtree::proofs::CheckLemmas::fail_both, im_mtree::proofs::CheckLemmas::fail_append))]
pub fn check_known<H: Hash32>(
    hash: &H,
    proof: &DualProof,
    source_alh: &D32,
    target_alh: &D32,
) -> Result<(), DualFault>
    requires source { source_alh.now ≡ alh (H.digest hash.now) proof.now.source }
    requires target { target_alh.now ≡ alh (H.digest hash.now) proof.now.target }
    ensures { result ≡ first_fail (dual_checks (H.digest hash.now) proof.now) }
{
    check_headers(&proof.source, &proof.target)?;
    check_trees(hash, proof, source_alh)?;
    check_chains(hash, proof, source_alh, target_alh)
}

// Both trees, where the source has this Alh.
#[tactic(auto, using(im_mtree::proofs::CheckLemmas::fail_both, im_mtree::proofs::CheckLemmas::fail_append), unfolding(im_proof::specs::Duals::tree_checks))]
fn check_trees<H: Hash32>(hash: &H, proof: &DualProof, source_alh: &D32) -> Result<(), DualFault>
    requires { 1 ≤ proof.now.source.id }
    ensures { result ≡ first_fail (tree_checks (H.digest hash.now) proof.now source_alh.now) }
{
    let s = proof.source.id;
    let size = proof.target.bl_tx_id;
    let root = &proof.target.bl_root;
    check_inclusion(hash, s, size, root, source_alh, proof.inclusion.as_slice())?;
    check_consistency(
        hash,
        proof.source.bl_tx_id,
        size,
        &proof.source.bl_root,
        root,
        proof.consistency.as_slice(),
    )?;
    check_last(
        hash,
        size,
        root,
        &proof.target_bl_tx_alh,
        proof.last_inclusion.as_slice(),
    )?;
    check_bl(s, size, source_alh, &proof.target_bl_tx_alh)
}

// What is told as the last Alh of a tree of `size` leaves, where transaction s has this Alh.
fn check_bl(s: u64, size: u64, alh: &D32, told: &D32) -> Result<(), DualFault>
    ensures { result ≡ first_fail (bl_checks s size alh.now told.now) }
{
    if size == 0 {
        if *told != [0; 32] {
            return Err(DualFault::BlAlh {
                want: [0; 32],
                got: *told,
            });
        }
    } else if s == size && told != alh {
        return Err(DualFault::BlAlh {
            want: *alh,
            got: *told,
        });
    }
    Ok(())
}

// The chain and the advance, where source and target have these Alh.
#[tactic(auto, using(im_mtree::proofs::CheckLemmas::fail_both, im_mtree::proofs::CheckLemmas::fail_append), unfolding(im_proof::specs::Duals::chain_checks))]
fn check_chains<H: Hash32>(
    hash: &H,
    proof: &DualProof,
    source_alh: &D32,
    target_alh: &D32,
) -> Result<(), DualFault>
    requires source { proof.now.source.bl_tx_id < proof.now.source.id }
    requires target { proof.now.target.bl_tx_id < proof.now.target.id }
    requires order { proof.now.source.id ≤ proof.now.target.id }
    ensures { result ≡ first_fail (chain_checks (H.digest hash.now) proof.now source_alh.now target_alh.now) }
{
    let s = proof.source.id;
    let t = proof.target.id;
    let old = proof.source.bl_tx_id;
    let size = proof.target.bl_tx_id;
    let root = proof.target.bl_root;
    let told = &proof.target_bl_tx_alh;
    let tree = TreeHead { size, root };
    let linear = proof.linear.as_slice();
    if s < size {
        check_linear(hash, size, t, told, target_alh, linear)?;
        check_advance(hash, old, s, tree, source_alh, &proof.linear_advance)
    } else {
        check_linear(hash, s, t, source_alh, target_alh, linear)?;
        check_advance(hash, old, size, tree, told, &proof.linear_advance)
    }
}
