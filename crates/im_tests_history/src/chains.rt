//! Chains of transactions: linear terms built and checked.
//!
//! By the sum of octets an Alh is its number, the Alh before it and its inner digest, all added. In hex: 2 + a0 + a0
//! is 42, and 3 + 42 + a1 is e6, modulo 100.

use crate::values::{are, digest};
use im_chain::{check_linear, linear, step};
use im_digest::Sum;
use im_model::chains::chain_end;
use im_proof::faults::DualFault;
use std::alloc::{AllocError, Global};
use std::test::Fail;

fn terms_of_three(alloc: Global) -> Result<bool, AllocError> {
    let alhs = [digest(0xa0), digest(0x42), digest(0xe6)];
    let inners = [digest(0x9f), digest(0xa0), digest(0xa1)];
    let built = linear(alloc, &alhs, &inners, 1, 3)?;
    let terms = built.as_slice();
    Ok(
        step(&Sum, 2, &alhs[0], &inners[1]) == alhs[1]
            && chain_end(&Sum, &alhs[0], 1, &inners[1..]) == alhs[2]
            && are(terms, &[0xa0, 0xa0, 0xa1])
            && check_linear(&Sum, 1, 3, &alhs[0], &alhs[2], terms) == Ok(())
            && check_linear(&Sum, 1, 2, &alhs[0], &alhs[1], terms)
                == Err(DualFault::LinearLength { want: 2, got: 3 }),
    )
}

#[test]
fn a_chain_of_three_is_built_and_checked(rt: HostRuntime) -> Result<(), Fail> {
    assert!(rt; terms_of_three(rt.alloc())?);
    Ok(())
}
