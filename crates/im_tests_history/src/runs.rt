//! How many runs an index has.

use crate::values::{Write, history_of};
use im_index::index::Index;
use im_model::transactions::Transaction;
use std::alloc::{AllocError, Global};
use std::test::Fail;

static EIGHT: &[&[Write]] = &[
    &[(b"", b"k", b"a")],
    &[(b"", b"j", b"b")],
    &[(b"", b"k", b"c")],
    &[(b"", b"i", b"d")],
    &[(b"\x00", b"k", b"")],
    &[(b"", b"z", b"e")],
    &[(b"", b"a", b"f")],
    &[(b"", b"k", b"g")],
];

// The number of runs after each of eight transactions of one entry. Their lengths: 1; 2; 2 1; 4; 4 1; 4 2; 4 2 1; 8.
static RUNS: [u64; 8] = [1, 1, 2, 1, 2, 2, 3, 1];

// Whether an index that takes these transactions has so many runs after each.
fn has_as_many(
    alloc: Global,
    index: &mut Index,
    history: &[Transaction],
) -> Result<bool, AllocError> {
    for (tx, runs) in history.iter().zip(&RUNS) {
        if index.taken() > 8 {
            return Ok(false);
        }
        index.take(alloc, tx)?;
        if index.runs() != *runs {
            return Ok(false);
        }
    }
    Ok(index.taken() == 8)
}

fn runs_are_as_many(alloc: Global) -> Result<bool, Fail> {
    let history = history_of(alloc, EIGHT)?;
    let mut index = Index::new(alloc);
    let same = has_as_many(alloc, &mut index, &history);
    drop(index);
    drop(history);
    Ok(same?)
}

#[test]
fn runs_become_one_where_the_older_is_shorter_than_twice_the_newer(
    rt: HostRuntime,
) -> Result<(), Fail> {
    assert!(rt; runs_are_as_many(rt.alloc())?);
    Ok(())
}
