//! References, and the marks of batches.

use im_clog::batches::batch_octets;
use im_clog::marks::{Mark, Uncounted, batch_at};
use im_format::references::{Refs, ValueRef};
use std::alloc::{AllocError, Global};
use std::test::Fail;

fn keeps_their_order(alloc: Global) -> Result<bool, AllocError> {
    let first = ValueRef {
        hval: [1; 32],
        len: 3,
        log: 0,
        at: 5,
    };
    let second = ValueRef {
        hval: [2; 32],
        len: 4,
        log: 1,
        at: 0,
    };
    let refs = Refs::from_vec(Vec::from_slice(alloc, &[first, second])?);
    let lent = refs.as_slice() == [first, second].as_slice();
    Ok(lent && refs.into_vec().as_slice() == [first, second].as_slice())
}

#[test]
fn references(rt: HostRuntime) -> Result<(), Fail> {
    assert!(rt; keeps_their_order(rt.alloc())?);
    Ok(())
}

// Transactions 7 to 9, which end at 0x0102 in the transaction log, behind an open gate; then a gate that is closed.
const LOG: [u8; 26] = [
    1, 0, 0, 0, 0, 0, 0, 0, 7, 0, 0, 0, 0, 0, 0, 0, 3, 0, 0, 0, 0, 0, 0, 1, 2, 0,
];

// Such a log with this gate, of which so many octets are there, and what stands at a place of it.
const READ: &[(u8, usize, usize, Result<Mark, Uncounted>)] = &[
    (
        1,
        26,
        0,
        Ok(Mark {
            first: 7,
            count: 3,
            end: 258,
        }),
    ),
    (1, 26, 25, Err(Uncounted::Closed { octet: 0 })),
    (1, 26, 26, Err(Uncounted::Missing)),
    (1, 26, usize::MAX, Err(Uncounted::Missing)),
    // Short of the next gate, it doesn't count.
    (1, 25, 0, Err(Uncounted::Short { len: 25 })),
    (1, 1, 0, Err(Uncounted::Short { len: 1 })),
    (1, 0, 0, Err(Uncounted::Missing)),
    // Only 01 is open.
    (2, 26, 0, Err(Uncounted::Closed { octet: 2 })),
    (255, 26, 0, Err(Uncounted::Closed { octet: 255 })),
];

#[test]
fn batches(rt: HostRuntime) {
    assert!(rt; batch_octets(7, 3, 0x0102).as_slice() == &LOG[1..]);
    for (gate, len, at, want) in READ {
        let mut log = LOG;
        log[0] = *gate;
        let there = &log[..(*len).min(26)];
        assert!(rt;
            batch_at(there, *at) == *want,
            "{len} octets at {at}, gate {gate}"
        );
    }
}
