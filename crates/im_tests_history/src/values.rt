//! Digests and histories that the tests share.

ghost use Rattle.std.specs.Prelude.{◌<◌};

use im_digest::D32;
use im_draft::drafts::{Attrs, Draft};
use im_draft::preconditions::{Pre, Pres};
use im_model::entries::{Entries, Entry};
use im_model::limits::{EntryValue, Key, Metadata};
use im_model::transactions::Transaction;
use im_octet::octets::Octets;
use im_tx::prepare::prepare;
use im_tx::prepared::Prepared;
use std::alloc::{AllocError, Global};
use std::test::Fail;

// 31 zero octets, and then this one.
pub(crate) fn digest(last: u8) -> D32 {
    let mut octets = [0u8; 32];
    octets[31] = last;
    octets
}

// Whether these are 31 zero octets each, and then these ones.
pub(crate) fn are(digests: &[D32], lasts: &[u8]) -> bool {
    digests.len() == lasts.len()
        && digests
            .iter()
            .zip(lasts)
            .all(|(octets, last)| *octets == digest(*last))
}

// The digests of 1 to N.
pub(crate) fn one_to<const N: usize>() -> [D32; N]
    requires { N < 256 }
{
    let mut digests = [[0u8; 32]; N];
    for (i, place) in digests.iter_mut().enumerate() {
        *place = digest(i as u8 + 1);
    }
    digests
}

// A write: the metadata, the key and the value of its entry.
pub(crate) type Write<'a> = (&'a [u8], &'a [u8], &'a [u8]);

// k is set to a, j to b and k to c, and k is deleted.
pub(crate) static FOUR: &[&[Write]] = &[
    &[(b"", b"k", b"a")],
    &[(b"", b"j", b"b")],
    &[(b"", b"k", b"c")],
    &[(b"\x00", b"k", b"")],
];

// The entry of a write.
pub(crate) fn entry_of(alloc: Global, write: &Write) -> Result<Entry, Fail> {
    let (md, key, value) = *write;
    if md.len() > 256 || key.is_empty() || key.len() > 1024 || value.len() > 4096 {
        return Err(Fail::from("an entry is beyond the limits"));
    }
    let md = Octets::from_slice(alloc, md)?;
    let key = Octets::from_slice(alloc, key)?;
    let value = Octets::from_slice(alloc, value)?;
    Ok(Entry {
        md: Metadata::new(md),
        key: Key::new(key),
        value: EntryValue::new(value),
    })
}

// The entries of these writes.
fn entries_of(alloc: Global, writes: &[Write]) -> Result<Entries, Fail> {
    let mut entries = Vec::new(alloc);
    for write in writes {
        entries.push(entry_of(alloc, write)?)?;
    }
    Ok(Entries::from_vec(entries))
}

// The transactions of these writes, at the time 0, over no tree.
pub(crate) fn history_of(
    alloc: Global,
    transactions: &[&[Write]],
) -> Result<Vec<Transaction>, Fail> {
    let mut history = Vec::new(alloc);
    for writes in transactions {
        let entries = entries_of(alloc, writes)?;
        history.push(Transaction {
            ts: 0,
            entries,
            bl: 0,
        })?;
    }
    Ok(history)
}

// A draft that sets a key to a value.
fn draft_of(alloc: Global, key: &[u8], value: &[u8]) -> Result<Draft, AllocError> {
    let key = Octets::from_slice(alloc, key)?;
    let value = Octets::from_slice(alloc, value)?;
    Ok(Draft {
        attrs: Attrs {
            deleted: false,
            non_indexable: false,
        },
        key,
        value,
    })
}

// What sets these keys to these values under these preconditions.
pub(crate) fn setting(
    alloc: Global,
    pairs: &[(&[u8], &[u8])],
    pres: Vec<Pre>,
) -> Result<Prepared, Fail> {
    let mut drafts = Vec::new(alloc);
    for (key, value) in pairs {
        drafts.push(draft_of(alloc, key, value)?)?;
    }
    Ok(prepare(alloc, drafts, Pres::from_vec(pres))?)
}
