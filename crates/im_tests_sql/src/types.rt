//! Values of each kind in rising order, with their texts.

use im_octet::octets::Octets;
use im_sqltype::kinds::ValueKind;
use im_sqltype::reading::{ReadError, read_row, read_value};
use im_sqltype::rows::Row;
use im_sqltype::texts::{row_text, value_text};
use im_sqltype::values::Value;
use std::alloc::{AllocError, Global};
use std::test::Fail;

// A value, for constants.
#[derive(Clone, Copy)]
enum Sample {
    Null,
    Integer(i64),
    Boolean(bool),
    Varchar(&'static [u8]),
    Blob(&'static [u8]),
}

// The values of each kind are in rising order.
#[rattlefmt::skip]
static SAMPLES: &[(ValueKind, Sample, &[u8])] = &[
    (ValueKind::Integer, Sample::Null, &[0]),
    (ValueKind::Integer, Sample::Integer(-9223372036854775808), &[1, 0, 0, 0, 0, 0, 0, 0, 0]),
    (ValueKind::Integer, Sample::Integer(-2), &[1, 127, 255, 255, 255, 255, 255, 255, 254]),
    (ValueKind::Integer, Sample::Integer(-1), &[1, 127, 255, 255, 255, 255, 255, 255, 255]),
    (ValueKind::Integer, Sample::Integer(0), &[1, 128, 0, 0, 0, 0, 0, 0, 0]),
    (ValueKind::Integer, Sample::Integer(1), &[1, 128, 0, 0, 0, 0, 0, 0, 1]),
    (ValueKind::Integer, Sample::Integer(9223372036854775807), &[1, 255, 255, 255, 255, 255, 255, 255, 255]),
    (ValueKind::Boolean, Sample::Null, &[0]),
    (ValueKind::Boolean, Sample::Boolean(false), &[1, 0]),
    (ValueKind::Boolean, Sample::Boolean(true), &[1, 1]),
    (ValueKind::Varchar, Sample::Null, &[0]),
    (ValueKind::Varchar, Sample::Varchar(b""), &[1, 0, 0]),
    (ValueKind::Varchar, Sample::Varchar(b"\0"), &[1, 0, 255, 0, 0]),
    (ValueKind::Varchar, Sample::Varchar(b"a"), &[1, 97, 0, 0]),
    (ValueKind::Varchar, Sample::Varchar(b"a\0b"), &[1, 97, 0, 255, 98, 0, 0]),
    (ValueKind::Varchar, Sample::Varchar(b"ab"), &[1, 97, 98, 0, 0]),
    (ValueKind::Blob, Sample::Null, &[0]),
    (ValueKind::Blob, Sample::Blob(b"\x00\x00"), &[1, 0, 255, 0, 255, 0, 0]),
    (ValueKind::Blob, Sample::Blob(b"\x01"), &[1, 1, 0, 0]),
    (ValueKind::Blob, Sample::Blob(b"\xff"), &[1, 255, 0, 0]),
];

// No value of the kind has these texts.
static OTHERS: &[(ValueKind, &[u8])] = &[
    (ValueKind::Integer, &[]),
    (ValueKind::Integer, &[1, 128, 0, 0, 0, 0, 0, 0]),
    (ValueKind::Integer, &[1, 128, 0, 0, 0, 0, 0, 0, 0, 0]),
    (ValueKind::Boolean, &[1, 2]),
    (ValueKind::Boolean, &[0, 0]),
    (ValueKind::Boolean, &[2]),
    (ValueKind::Varchar, &[1, 97]),
    (ValueKind::Varchar, &[1, 97, 0]),
    (ValueKind::Varchar, &[1, 97, 0, 1, 0, 0]),
    (ValueKind::Blob, &[1, 97, 0, 0, 98]),
    (ValueKind::Blob, &[1, 97, 0, 255]),
];

fn value_of(alloc: Global, sample: Sample) -> Result<Value, AllocError> {
    Ok(match sample {
        Sample::Null => Value::Null,
        Sample::Integer(number) => Value::Integer(number),
        Sample::Boolean(truth) => Value::Boolean(truth),
        Sample::Varchar(octets) => Value::Varchar(Octets::from_slice(alloc, octets)?),
        Sample::Blob(octets) => Value::Blob(Octets::from_slice(alloc, octets)?),
    })
}

// Whether a value has this text.
fn is_written(alloc: Global, value: &Value, text: &[u8]) -> Result<bool, AllocError> {
    let written = value_text(alloc, value)?;
    let same = written.as_slice() == text;
    drop(written);
    Ok(same)
}

// Whether a value of this kind is read from this text.
fn is_read(alloc: Global, kind: ValueKind, value: &Value, text: &[u8]) -> Result<bool, ReadError> {
    let read = read_value(alloc, kind, text)?;
    let same = read == *value;
    drop(read);
    Ok(same)
}

// Whether a value has this text, and is read back from it.
fn is_kept(alloc: Global, kind: ValueKind, sample: Sample, text: &[u8]) -> Result<bool, Fail> {
    let value = value_of(alloc, sample)?;
    let written = is_written(alloc, &value, text);
    let read = is_read(alloc, kind, &value, text);
    drop(value);
    Ok(written? && read?)
}

// Whether a value is below the second.
fn is_less(alloc: Global, one: &Value, other: Sample) -> Result<bool, AllocError> {
    let other = value_of(alloc, other)?;
    let less = *one < other;
    drop(other);
    Ok(less)
}

// Whether the first value is below the second.
fn is_below(alloc: Global, one: Sample, other: Sample) -> Result<bool, AllocError> {
    let one = value_of(alloc, one)?;
    let below = is_less(alloc, &one, other);
    drop(one);
    below
}

static ROW: &[Sample] = &[Sample::Integer(1), Sample::Varchar(b"a"), Sample::Null];

// The row of these values.
fn sample_row(alloc: Global) -> Result<Row, AllocError> {
    let mut values = Vec::new(alloc);
    for sample in ROW {
        values.push(value_of(alloc, *sample)?)?;
    }
    Ok(Row::from_vec(values))
}

// Its text.
const ROW_TEXT: [u8; 14] = [1, 128, 0, 0, 0, 0, 0, 0, 1, 1, 97, 0, 0, 0];

// Whether a row has its text.
fn is_row_written(alloc: Global, row: &[Value]) -> Result<bool, AllocError> {
    let written = row_text(alloc, row)?;
    let same = written.as_slice() == ROW_TEXT.as_slice();
    drop(written);
    Ok(same)
}

// Whether a row is read from its text.
fn is_row_read(alloc: Global, row: &[Value]) -> Result<bool, ReadError> {
    let kinds = [ValueKind::Integer, ValueKind::Varchar, ValueKind::Blob];
    let read = read_row(alloc, &kinds, &ROW_TEXT)?;
    let same = read.as_slice() == row;
    drop(read);
    Ok(same)
}

// Whether the row of 1, `a` and NULL has its text, and is read back from it.
fn a_row_is_kept(alloc: Global) -> Result<bool, Fail> {
    let row = sample_row(alloc)?;
    let written = is_row_written(alloc, row.as_slice());
    let read = is_row_read(alloc, row.as_slice());
    drop(row);
    Ok(written? && read?)
}

#[test]
fn values_have_their_texts_and_are_read_back(rt: HostRuntime) -> Result<(), Fail> {
    let mut before = None;
    for (kind, sample, text) in SAMPLES {
        assert!(rt; is_kept(rt.alloc(), *kind, *sample, text)?);
        match before {
            Some((other_kind, other)) if other_kind == *kind => {
                assert!(rt; is_below(rt.alloc(), other, *sample)?);
            }
            _ => {}
        }
        before = Some((*kind, *sample));
    }
    for (kind, text) in OTHERS {
        let read = read_value(rt.alloc(), *kind, text);
        assert!(rt; read.err() == Some(ReadError::NotText));
    }
    assert!(rt; a_row_is_kept(rt.alloc())?);
    Ok(())
}
