//! What the plain program tells of keys, as it was worked by hand.

use crate::values::{FOUR, Write, history_of};
use im_model::transactions::Transaction;
use im_plain::versions as plain;
use im_versions::versions::{Version, Versions};
use std::alloc::{AllocError, Global};
use std::test::Fail;

// Keys that begin with others.
pub(crate) static FRONTS: &[&[Write]] = &[
    &[(b"", b"b", b"1")],
    &[(b"", b"abc", b"2")],
    &[(b"", b"a", b"3")],
    &[(b"", b"ab", b"4")],
    &[(b"", b"abc", b"5")],
];

// Entries that no index shows, and a deletion with a value.
pub(crate) static HIDDEN: &[&[Write]] = &[
    &[(b"", b"k", b"c")],
    &[(b"\x02", b"k", b"a")],
    &[(b"\x00\x02", b"k", b"")],
    &[(b"\x00", b"k", b"a")],
];

// A number of transactions, a key, and what is told of it after so many: its last version, all its versions, and
// the live keys that begin with it.
type Row<'a> = (usize, &'a [u8], &'a [u8]);

static OF_FOUR: &[Row] = &[
    (0, b"", b"||"),
    (3, b"", b"||j=b@2 k=c@3 "),
    (4, b"", b"||j=b@2 "),
    (0, b"k", b"||"),
    (1, b"k", b"k=a@1 |k=a@1 |k=a@1 "),
    (2, b"k", b"k=a@1 |k=a@1 |k=a@1 "),
    (3, b"k", b"k=c@3 |k=a@1 k=c@3 |k=c@3 "),
    (4, b"k", b"k!@4 |k=a@1 k=c@3 k!@4 |"),
    (1, b"j", b"||"),
    (4, b"j", b"j=b@2 |j=b@2 |j=b@2 "),
    (3, b"kk", b"||"),
    (4, b"kk", b"||"),
    (4, b"z", b"||"),
];

static OF_FRONTS: &[Row] = &[
    (5, b"", b"||a=3@3 ab=4@4 abc=5@5 b=1@1 "),
    (5, b"a", b"a=3@3 |a=3@3 |a=3@3 ab=4@4 abc=5@5 "),
    (5, b"ab", b"ab=4@4 |ab=4@4 |ab=4@4 abc=5@5 "),
    (5, b"abcd", b"||"),
];

static OF_HIDDEN: &[Row] = &[
    (3, b"", b"||k=c@1 "),
    (3, b"k", b"k=c@1 |k=c@1 |k=c@1 "),
    (4, b"k", b"k!a@4 |k=c@1 k!a@4 |"),
];

// One version as its key, = or ! where it is a deletion, its value, @, its number and a space.
fn write_version(alloc: Global, text: &mut Vec<u8>, version: &Version) -> Result<(), AllocError> {
    text.extend_from_slice(version.key.as_slice())?;
    text.push(if version.deleted { b'!' } else { b'=' })?;
    text.extend_from_slice(version.value.as_slice())?;
    let number = format!(in alloc; "@{} ", version.tx)?;
    text.extend_from_slice(number.as_bytes())
}

// Writes the last version of a key, where there is one.
pub(crate) fn write_last(
    alloc: Global,
    text: &mut Vec<u8>,
    last: Option<Version>,
) -> Result<(), AllocError> {
    let written = match &last {
        Some(version) => write_version(alloc, text, version),
        None => Ok(()),
    };
    drop(last);
    written
}

// Writes a | and these versions.
fn write_each(alloc: Global, text: &mut Vec<u8>, versions: &[Version]) -> Result<(), AllocError> {
    text.push(b'|')?;
    for version in versions {
        write_version(alloc, text, version)?;
    }
    Ok(())
}

// The same of what was told.
pub(crate) fn write_all(
    alloc: Global,
    text: &mut Vec<u8>,
    versions: Versions,
) -> Result<(), AllocError> {
    let written = write_each(alloc, text, versions.as_slice());
    drop(versions);
    written
}

// What the plain program tells of a key.
pub(crate) fn told_plainly(
    alloc: Global,
    past: &[Transaction],
    key: &[u8],
) -> Result<Vec<u8>, AllocError> {
    let mut text = Vec::new(alloc);
    write_last(alloc, &mut text, plain::last_version(alloc, past, key)?)?;
    write_all(alloc, &mut text, plain::versions_of(alloc, past, key)?)?;
    write_all(alloc, &mut text, plain::scan(alloc, past, key)?)?;
    Ok(text)
}

fn are_told(alloc: Global, history: &[Transaction], rows: &[Row]) -> Result<bool, AllocError> {
    for (n, key, text) in rows {
        if *n > history.len() || told_plainly(alloc, &history[..*n], key)?.as_slice() != *text {
            return Ok(false);
        }
    }
    Ok(true)
}

// Whether the plain program tells these rows of a history.
fn is_told(alloc: Global, writes: &[&[Write]], rows: &[Row]) -> Result<bool, Fail> {
    let history = history_of(alloc, writes)?;
    let told = are_told(alloc, &history, rows);
    drop(history);
    Ok(told?)
}

fn all_is_told(alloc: Global) -> Result<bool, Fail> {
    Ok(
        is_told(alloc, FOUR, OF_FOUR)?
            && is_told(alloc, FRONTS, OF_FRONTS)?
            && is_told(alloc, HIDDEN, OF_HIDDEN)?,
    )
}

#[test]
fn the_plain_program_tells_what_was_written(rt: HostRuntime) -> Result<(), Fail> {
    assert!(rt; all_is_told(rt.alloc())?);
    Ok(())
}
