//! What becomes of drafts: entries, their metadata and their refusals; and copies of entries and headers.

use crate::values::{digest, entry_of, setting};
use im_draft::drafts::Attrs;
use im_draft::preconditions::Pre;
use im_entry::attrs::{BadMeta, read_attrs};
use im_entry::make::{EntryError, entry};
use im_model::entries::Entry;
use im_model::headers::Header;
use im_model::limits::Metadata;
use im_octet::octets::Octets;
use im_tx::prepared::Prepared;
use im_versions::errors::ViewError;
use std::alloc::{AllocError, Global};
use std::test::Fail;

const fn attrs(deleted: bool, non_indexable: bool) -> Attrs {
    Attrs {
        deleted,
        non_indexable,
    }
}

fn metadata_is_read() -> bool {
    read_attrs(&[]) == Ok(attrs(false, false))
        && read_attrs(&[0]) == Ok(attrs(true, false))
        && read_attrs(&[2]) == Ok(attrs(false, true))
        && read_attrs(&[0, 2]) == Ok(attrs(true, true))
        && read_attrs(&[2, 0]) == Err(BadMeta { at: 1 })
        && read_attrs(&[1]) == Err(BadMeta { at: 0 })
        && read_attrs(&[0, 2, 2]) == Err(BadMeta { at: 2 })
}

// The refusal of an entry whose key and value have these lengths.
fn refusal_of(alloc: Global, key: usize, value: usize) -> Result<Option<EntryError>, AllocError> {
    let key = Octets::from_vec(Vec::from_elem(alloc, 7, key)?);
    let value = Octets::from_vec(Vec::from_elem(alloc, 7, value)?);
    Ok(entry(alloc, attrs(false, false), key, value).err())
}

fn lengths_are_judged_in_order(alloc: Global) -> Result<bool, AllocError> {
    Ok(
        refusal_of(alloc, 0, 4097)? == Some(EntryError::KeyEmpty)
            && refusal_of(alloc, 1025, 4097)? == Some(EntryError::KeyLong { len: 1025 })
            && refusal_of(alloc, 1024, 4097)? == Some(EntryError::ValueLong { len: 4097 })
            && refusal_of(alloc, 1024, 4096)?.is_none(),
    )
}

#[test]
fn entries_keep_to_their_limits(rt: HostRuntime) -> Result<(), Fail> {
    let read = metadata_is_read() && ViewError::from(AllocError) == ViewError::Memory;
    assert!(rt; read && lengths_are_judged_in_order(rt.alloc())?);
    Ok(())
}

// Whether an entry has this metadata, key and value.
fn is(entry: &Entry, md: &[u8], key: &[u8], value: &[u8]) -> bool {
    entry.md.as_slice() == md && entry.key.as_slice() == key && entry.value.as_slice() == value
}

// Whether these are k=1 and j=2, where k is missing.
fn are_as_asked(entries: &[Entry], pres: &[Pre]) -> bool {
    match (entries, pres) {
        ([first, second], [Pre::Missing { key }]) => {
            is(first, b"", b"k", b"1")
                && is(second, b"", b"j", b"2")
                && key.as_slice() == b"k".as_slice()
        }
        _ => false,
    }
}

// What is asked for is lent and given back.
fn is_as_asked(prepared: Prepared) -> bool {
    let lent = prepared.entries().len() == 2 && prepared.pres().len() == 1;
    let (entries, pres) = prepared.into_parts();
    let same = are_as_asked(entries.as_slice(), pres.as_slice());
    drop(entries);
    drop(pres);
    lent && same
}

fn drafts_become_entries(alloc: Global) -> Result<bool, Fail> {
    let key = Octets::from_slice(alloc, b"k")?;
    let pres = vec![in alloc; Pre::Missing { key }]?;
    let prepared = setting(alloc, &[(b"k", b"1"), (b"j", b"2")], pres)?;
    Ok(is_as_asked(prepared))
}

fn an_entry_is_copied_whole(alloc: Global) -> Result<bool, Fail> {
    let entry = entry_of(alloc, &(&[0], b"key", b"value"))?;
    let copied = entry.try_clone(alloc);
    drop(entry);
    let copy = copied?;
    let whole = is(&copy, &[0], b"key", b"value");
    drop(copy);
    Ok(whole)
}

// Whether a header has all parts of the one below.
fn is_that_header(header: &Header) -> bool {
    header.id == 7
        && header.ts == -8
        && header.bl_tx_id == 6
        && header.version == 1
        && header.nentries == 9
        && header.bl_root == digest(1)
        && header.prev_alh == digest(2)
        && header.eh == digest(3)
        && header.md.as_slice() == b"md".as_slice()
}

fn a_header_is_copied_whole(alloc: Global) -> Result<bool, AllocError> {
    let md = Octets::from_slice(alloc, b"md")?;
    let header = Header {
        id: 7,
        ts: -8,
        bl_tx_id: 6,
        bl_root: digest(1),
        prev_alh: digest(2),
        version: 1,
        md: Metadata::new(md),
        nentries: 9,
        eh: digest(3),
    };
    let copied = header.try_clone(alloc);
    drop(header);
    let copy = copied?;
    let whole = is_that_header(&copy);
    drop(copy);
    Ok(whole)
}

#[test]
fn drafts_entries_and_headers_stay_whole(rt: HostRuntime) -> Result<(), Fail> {
    let alloc = rt.alloc();
    let copied = an_entry_is_copied_whole(alloc)? && a_header_is_copied_whole(alloc)?;
    assert!(rt; copied && drafts_become_entries(alloc)?);
    Ok(())
}
