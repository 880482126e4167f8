//! An operator that puts a false transaction into the tree, while the chain that its clients follow holds
//! the true one. It is the attack that was published against immudb, and that the linear advance closes.

use crate::values::digest;
use im_digest::{D32, Sum};
use im_dual::check::check;
use im_model::headers::Header;
use im_model::limits::Metadata;
use im_mtree::digests::Digests;
use im_octet::octets::Octets;
use im_proof::digest_lists::DigestLists;
use im_proof::faults::DualFault;
use im_proof::proofs::{AdvanceProof, DualProof};
use std::alloc::{AllocError, Global};
use std::test::Fail;

// The header of a transaction with one entry.
fn header(alloc: Global, id: u64, bl_tx_id: u64, bl_root: D32, prev_alh: D32, eh: D32) -> Header {
    Header {
        id,
        ts: 0,
        bl_tx_id,
        bl_root,
        prev_alh,
        version: 1,
        md: Metadata::new(Octets::new(alloc)),
        nentries: 1,
        eh,
    }
}

// A list of these digests.
fn list(alloc: Global, lasts: &[u8]) -> Result<Digests, AllocError> {
    let mut digests = Vec::new(alloc);
    for last in lasts {
        digests.push(digest(*last))?;
    }
    Ok(Digests::from_vec(digests))
}

// In the tree the path of transaction 1 has 43 and e6 beside it, and that of 2 has a0 and e6.
fn paths(alloc: Global) -> Result<DigestLists, AllocError> {
    let mut paths = Vec::new(alloc);
    paths.push(list(alloc, &[0x43, 0xe6])?)?;
    paths.push(list(alloc, &[0xa0, 0xe6])?)?;
    Ok(DigestLists::from_vec(paths))
}

// The advance over the transactions 1 to 3, with this inner digest of transaction 2.
fn advance(alloc: Global, told: u8) -> Result<AdvanceProof, AllocError> {
    let terms = list(alloc, &[0xa0, told, 0xa1])?;
    let inclusions = paths(alloc)?;
    Ok(AdvanceProof { terms, inclusions })
}

// Under the sum of octets (in hex) the Alh of the transactions 1 to 3 are a0, 42 and e6, and their inner
// digests 9f, a0 and a1. None has a tree. Transaction 4 has a tree of three, in which 43 stands in the place
// of 42: its root is 1 + (1 + a0 + 43) + e6 = cb, its inner digest 1 + 1 + a0 + 3 + cb = 70, its Alh
// 4 + e6 + 70 = 5a. The proof from 3 to 4 over that tree tells this inner digest of transaction 2. The path
// of 3 in the tree has 1 + a0 + 43 = e4 beside it.
fn forged(alloc: Global, told: u8) -> Result<DualProof, AllocError> {
    let last_inclusion = list(alloc, &[0xe4])?;
    let linear = list(alloc, &[0xe6, 0x70])?;
    let linear_advance = advance(alloc, told)?;
    Ok(DualProof {
        source: header(alloc, 3, 0, digest(0), digest(0x42), digest(0x9f)),
        target: header(alloc, 4, 3, digest(0xcb), digest(0xe6), digest(0xa0)),
        inclusion: Digests::from_vec(Vec::new(alloc)),
        consistency: Digests::from_vec(Vec::new(alloc)),
        target_bl_tx_alh: digest(0xe6),
        last_inclusion,
        linear,
        linear_advance,
    })
}

// Whether the check of the forged proof ends with this fault.
fn is_refused(alloc: Global, told: u8, fault: DualFault) -> Result<bool, AllocError> {
    let proof = forged(alloc, told)?;
    let refused = proof.linear_advance.inclusions.len() == 2 && check(&Sum, &proof) == Err(fault);
    drop(proof);
    Ok(refused)
}

// The true inner digest leads to 42, whose path gives 1 + (1 + a0 + 42) + e6 = ca. The checks of headers,
// paths and the chain come before, and pass. An inner digest of a1 leads to 43, which is in the tree, and then
// to 3 + 43 + a1 = e7.
#[test]
fn a_false_transaction_is_not_on_the_chain(rt: HostRuntime) -> Result<(), Fail> {
    let path = DualFault::AdvancePathRoot {
        number: 2,
        want: digest(0xcb),
        got: digest(0xca),
    };
    let end = DualFault::AdvanceEnd {
        want: digest(0xe6),
        got: digest(0xe7),
    };
    assert!(rt; is_refused(rt.alloc(), 0xa0, path)? && is_refused(rt.alloc(), 0xa1, end)?);
    Ok(())
}
