//! Replies of a history that is full, that want of memory has no reply, and what statements tell that they read.

use im_draft::refusals::PrepareError;
use im_report::reads::place_text;
use im_report::replies::{refused_text, reply_text, tx_text};
use im_report::statements::{conflict_text, full_read_text, tx_read_text};
use im_versions::refusals::PlaceError;
use std::alloc::{AllocError, Global};
use std::test::Fail;

// The last transaction that a history takes, and what is told of the one behind it.
fn tells_of_a_full_history(alloc: Global) -> Result<bool, AllocError> {
    Ok(
        tx_text(alloc, 1_048_576)?.as_slice() == b"tx 1048576".as_slice()
            && place_text(alloc, &PlaceError::Full)?.as_slice() == b"full".as_slice()
            && reply_text(alloc, b"a9", 10, b"full")?.as_slice() == b"a9 10 full\n".as_slice(),
    )
}

#[test]
fn a_full_history_is_told_and_want_of_memory_is_not(rt: HostRuntime) -> Result<(), Fail> {
    let alloc = rt.alloc();
    assert!(rt;
        tells_of_a_full_history(alloc)?
            && place_text(alloc, &PlaceError::Memory).is_err()
            && refused_text(alloc, PrepareError::Memory).is_err()
    );
    Ok(())
}

// What statements tell that asked for something to be placed.
fn tells_what_was_read(alloc: Global) -> Result<bool, AllocError> {
    let unique = b"\x00\x06\x00\x00\x00\x01";
    Ok(
        tx_read_text(alloc, 1_048_576, 0)?.as_slice() == b"tx 1048576 read 0".as_slice()
            && conflict_text(alloc, unique, 5, 4)?.as_slice()
                == b"conflict 0x000600000001 tx 5 read 4".as_slice()
            && full_read_text(alloc, 4)?.as_slice() == b"full read 4".as_slice(),
    )
}

#[test]
fn statements_tell_what_they_read(rt: HostRuntime) -> Result<(), Fail> {
    let alloc = rt.alloc();
    assert!(rt; tells_what_was_read(alloc)?);
    Ok(())
}
