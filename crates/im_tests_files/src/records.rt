//! Records, written behind others and read among other octets.

use crate::samples::{RECORD, record_of, sum_is};
use im_format::references::ValueRef;
use im_record::alhs::read_alh;
use im_record::heads::{Head, read_head};
use im_record::keys::Keys;
use im_record::slots::{Slot, read_slot};
use im_record::writing::{push_record, records_octets};
use std::alloc::{AllocError, Global};
use std::test::Fail;

// A record behind an octet that was there.
fn behind(alloc: Global) -> Result<bool, AllocError> {
    let record = record_of(alloc, &[])?;
    let mut out = vec![in alloc; 9u8]?;
    push_record(&mut out, 1, &record)?;
    drop(record);
    Ok(out.first() == Some(&9) && &out[1..] == RECORD.as_slice())
}

// The second record of a batch has the next ID, and its attributes 00 and 02 stand behind their number.
fn one_after_the_other(alloc: Global) -> Result<bool, AllocError> {
    let records = vec![in alloc; record_of(alloc, &[])?, record_of(alloc, &[0, 2])?]?;
    let octets = records_octets(alloc, 1, &records)?;
    drop(records);
    let mut known = Vec::from_slice(alloc, &RECORD)?;
    known.extend_from_slice(&[0, 0, 0, 0, 0, 0, 0, 2])?;
    known.extend_from_slice(&RECORD[8..28])?;
    known.extend_from_slice(&[0, 2, 0, 2])?;
    known.extend_from_slice(&RECORD[30..])?;
    Ok(octets.as_slice() == known.as_slice())
}

#[test]
fn records_are_written(rt: HostRuntime) -> Result<(), Fail> {
    assert!(rt; behind(rt.alloc())?);
    assert!(rt; one_after_the_other(rt.alloc())?);
    Ok(())
}

fn is_the_entry(slot: &Slot) -> bool {
    let value = ValueRef {
        hval: sum_is(0x26),
        len: 3,
        log: 0,
        at: 0,
    };
    slot.md.is_empty() && slot.key == [0x6b].as_slice() && slot.value == value && slot.end == 81
}

// Three octets before the record, and garbage behind it.
#[test]
fn a_record_is_read_among_other_octets(rt: HostRuntime) -> Result<(), Fail> {
    let mut log = [255u8; 153];
    log[..3].copy_from_slice(&[7, 7, 7]);
    log[3..113].copy_from_slice(&RECORD);
    let head = Head {
        ts: 0,
        bl: 0,
        count: 1,
    };
    let mut keys = Keys::new(rt.alloc());
    assert!(rt; read_head(&log, 3, 1, 0) == Ok(head));
    assert!(rt; is_the_entry(&read_slot(&log, 31, 1, &[3, 0, 0, 0], &mut keys)?));
    assert!(rt; read_alh(&log, 81, &sum_is(0x95)) == Ok(113));
    Ok(())
}
