use arrayvec::ArrayVec;
use im_octet::bounded::Bounded;
use im_octet::buffers::append;
use im_octet::octets::Octets;
use im_octet::reader::{Reader, Short};
use im_octet::writer::Writer;
use std::alloc::{AllocError, Global};
use std::test::Fail;

// The fields 1, 2, 3 and -1 of 2, 4, 8 and 8 octets, and then `abc`.
#[rattlefmt::skip]
const OCTETS: [u8; 25] = [
    0, 1,
    0, 0, 0, 2,
    0, 0, 0, 0, 0, 0, 0, 3,
    255, 255, 255, 255, 255, 255, 255, 255,
    97, 98, 99,
];

fn reads_the_fields(reader: &mut Reader) -> bool {
    reader.at() == 0
        && reader.u16() == Ok(1)
        && reader.u32() == Ok(2)
        && reader.u64() == Ok(3)
        && reader.i64() == Ok(-1)
        && reader.at() == 22
}

// Three octets are left, too few for each of these, and stay.
fn is_short(reader: &mut Reader) -> bool {
    let short = Short { at: 22 };
    reader.u32() == Err(short)
        && reader.u64() == Err(short)
        && reader.i64() == Err(short)
        && reader.take(4) == Err(short)
        && reader.at() == 22
        && reader.rest() == b"abc".as_slice()
}

fn reads_the_rest(reader: &mut Reader) -> bool {
    reader.take(2) == Ok(b"ab".as_slice())
        && reader.u16() == Err(Short { at: 24 })
        && !reader.is_empty()
        && reader.u8() == Ok(99)
        && reader.is_empty()
        && reader.u8() == Err(Short { at: 25 })
        && reader.at() == 25
}

#[test]
fn fields_are_read(rt: HostRuntime) {
    let mut reader = Reader::new(&OCTETS);
    assert!(rt; reads_the_fields(&mut reader));
    assert!(rt; is_short(&mut reader));
    assert!(rt; reads_the_rest(&mut reader));
}

fn written(alloc: Global) -> Result<Writer, AllocError> {
    let mut writer = Writer::new(alloc);
    writer.u16(1)?;
    writer.u32(2)?;
    writer.u64(3)?;
    writer.i64(-1)?;
    writer.octets(b"ab")?;
    writer.u8(99)?;
    Ok(writer)
}

#[test]
fn fields_are_written(rt: HostRuntime) -> Result<(), Fail> {
    let writer = written(rt.alloc())?;
    assert!(rt; writer.as_slice() == OCTETS.as_slice());
    assert!(rt; writer.into_vec().as_slice() == OCTETS.as_slice());
    Ok(())
}

// Octets go through each form that keeps them, and fill a buffer to its last place.
fn keeps(alloc: Global) -> Result<bool, AllocError> {
    let octets = Octets::from_slice(alloc, b"abc")?;
    let same = octets.as_slice() == b"abc".as_slice() && octets.len() == 3 && !octets.is_empty();
    let bounded = Bounded::<3, 3>::new(octets);
    let mut buffer = ArrayVec::<u8, 3>::new();
    append(&mut buffer, bounded.as_slice());
    let octets = bounded.into_octets().into_vec();
    Ok(same && buffer.as_slice() == b"abc".as_slice() && octets.as_slice() == b"abc".as_slice())
}

#[test]
fn octets_are_kept(rt: HostRuntime) -> Result<(), Fail> {
    assert!(rt; keeps(rt.alloc())?);
    assert!(rt; Octets::new(rt.alloc()).is_empty());
    Ok(())
}
