//! Chains of transactions (immudb's linear proofs): their steps, what is built of a history, and the
//! check. Alh and inner digests stand in lists with those of transaction k at place k - 1.
#![tactic(auto)]

ghost use Rattle.std.specs.Prelude.{◌≡◌, ◌≤◌, ◌-◌, [], length, slice_index_or, IfOk, Ok};
ghost use Rattle.im_digest.specs.Digests.{Hash};
ghost use Rattle.im_model.specs.Chains.{link_string};
ghost use Rattle.im_mtree.specs.Checks.{first_fail};
ghost use Rattle.im_proof.specs.Built.{linear_terms, AreLinked};
ghost use Rattle.im_proof.specs.ChainChecks.{linear_checks};

use im_digest::{D32, Hash32};
use im_model::chains::chain_end;
use im_mtree::digests::Digests;
use im_octet::fields::eight;
use im_proof::faults::DualFault;
use std::alloc::{AllocError, Global};

/// The Alh of transaction k: the digest of `k 8 | the Alh before it 32 | its inner digest 32`. It takes no
/// memory, and costs one hash.
pub fn step<H: Hash32>(hash: &H, k: u64, previous: &D32, inner: &D32) -> D32
    ensures { result ≡ H.digest hash.now (link_string k previous.now inner.now) }
{
    hash.hash(&eight(k), previous, inner)
}

/// The linear terms from transaction s to t: the Alh of s, and the inner digests of s + 1 to t. Of lists
/// in which each Alh is a step from the one before they pass `check_linear`, the twin. It hashes nothing, and
/// copies the terms. The only error is want of memory.
#[tactic(auto, using(crate::proofs::LinearLemmas::linear_passes))]
pub fn linear(
    alloc: Global,
    alhs: &[D32],
    inners: &[D32],
    s: usize,
    t: usize,
) -> Result<Digests, AllocError>
    requires some { 1 ≤ s }
    requires order { s ≤ t }
    requires alhs { t ≤ length alhs.now }
    requires inners { t ≤ length inners.now }
    ensures value { IfOk result (λ terms. terms ≡ linear_terms alhs.now inners.now s t) }
    ensures passes { IfOk result (λ terms. (hash : Hash) → AreLinked hash alhs.now inners.now → first_fail (linear_checks hash s t (slice_index_or alhs.now (s - 1) []) (slice_index_or alhs.now (t - 1) []) terms) ≡ Ok tt) }
{
    let mut terms = Vec::new(alloc);
    terms.push(alhs[s - 1])?;
    terms.extend_from_slice(&inners[s..t])?;
    Ok(Digests::from_vec(terms))
}

/// Whether linear terms lead from transaction `from`, from 1, with an Alh, to transaction `to` with another.
/// `linear` is its twin, which builds them. It takes no memory, and hashes at most once for each term behind
/// the first.
///
/// # Errors
///
/// The first of these that is so: there are more or fewer terms than `to - from + 1`, the first term isn't
/// the Alh of `from`, or the chain over the terms ends elsewhere than at the Alh of `to`.
pub fn check_linear<H: Hash32>(
    hash: &H,
    from: u64,
    to: u64,
    start: &D32,
    end: &D32,
    terms: &[D32],
) -> Result<(), DualFault>
    requires some { 1 ≤ from }
    requires order { from ≤ to }
    ensures { result ≡ first_fail (linear_checks (H.digest hash.now) from to start.now end.now terms.now) }
{
    let want = to - from + 1;
    let got = terms.len() as u64;
    if got != want {
        return Err(DualFault::LinearLength { want, got });
    }
    let first = terms[0];
    if first != *start {
        return Err(DualFault::LinearStart {
            want: *start,
            got: first,
        });
    }
    let (_, inners) = terms.split_at(1);
    let got = chain_end(hash, &first, from, inners);
    if got != *end {
        return Err(DualFault::LinearEnd { want: *end, got });
    }
    Ok(())
}
