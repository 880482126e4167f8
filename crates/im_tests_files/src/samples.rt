//! The transaction of `set k=abc`, the first one, at second 0 with no tree, under the sum of octets, and what
//! the files hold of it. 97 + 98 + 99 is 0x126, so hVal ends with 26; the entry's digest, 1 + 0x6b + 0x26, ends
//! with 92, the inner digest with 94 (version 1, 1 entry), and the Alh with 95 (ID 1).

ghost use Rattle.std.specs.Prelude.{◌≤◌, length, IfOk};
ghost use Rattle.im_record.specs.Writing.{IsWhole};

use im_digest::D32;
use im_disk::memory::MemDisk;
use im_format::records::Record;
use im_format::references::{Refs, ValueRef};
use im_model::entries::{Entries, Entry};
use im_model::limits::{EntryValue, Key, Metadata};
use im_model::transactions::Transaction;
use im_octet::octets::Octets;
use im_vlog::showing::ValueError;
use std::alloc::{AllocError, Global};

/// Its record: ID, Ts, BlTxID, number of entries; no metadata, key, hVal, length, log, place; Alh.
#[rattlefmt::skip]
pub const RECORD: [u8; 110] = [
    0, 0, 0, 0, 0, 0, 0, 1,
    0, 0, 0, 0, 0, 0, 0, 0,
    0, 0, 0, 0, 0, 0, 0, 0,
    0, 0, 0, 1,
    0, 0,
    0, 1, 0x6b,
    0, 0, 0, 0, 0, 0, 0, 0, 0, 0, 0, 0, 0, 0, 0, 0,
    0, 0, 0, 0, 0, 0, 0, 0, 0, 0, 0, 0, 0, 0, 0, 0x26,
    0, 0, 0, 3,
    0,
    0, 0, 0, 0, 0, 0, 0, 0,
    0, 0, 0, 0, 0, 0, 0, 0, 0, 0, 0, 0, 0, 0, 0, 0,
    0, 0, 0, 0, 0, 0, 0, 0, 0, 0, 0, 0, 0, 0, 0, 0x95,
];

/// Its batch: the open gate, the first ID, the number of transactions, where the records end, the next gate.
pub const BATCH: [u8; 26] = [
    1, 0, 0, 0, 0, 0, 0, 0, 1, 0, 0, 0, 0, 0, 0, 0, 1, 0, 0, 0, 0, 0, 0, 0, 110, 0,
];

/// A digest under the sum of octets.
pub fn sum_is(last: u8) -> D32 {
    let mut digest = [0u8; 32];
    digest[31] = last;
    digest
}

/// A reference to a value whose octets add up to this.
pub fn placed(total: u8, len: u32, log: u8, at: u64) -> ValueRef {
    ValueRef {
        hval: sum_is(total),
        len,
        log,
        at,
    }
}

/// The entry that sets `k` to a value.
pub fn entry_of(alloc: Global, md: &[u8], value: &[u8]) -> Result<Entry, AllocError>
    requires md { length md.now ≤ 2 }
    requires value { length value.now ≤ 4096 }
{
    Ok(Entry {
        md: Metadata::new(Octets::from_slice(alloc, md)?),
        key: Key::new(Octets::from_slice(alloc, b"k")?),
        value: EntryValue::new(Octets::from_slice(alloc, value)?),
    })
}

/// The record of `k=abc`, with these attributes.
pub fn record_of(alloc: Global, md: &[u8]) -> Result<Record, AllocError>
    requires { length md.now ≤ 2 }
    ensures { IfOk result IsWhole }
{
    let entry = entry_of(alloc, md, b"abc")?;
    Ok(Record {
        tx: Transaction {
            ts: 0,
            entries: Entries::from_vec(vec![in alloc; entry]?),
            bl: 0,
        },
        refs: Refs::from_vec(vec![in alloc; placed(0x26, 3, 0, 0)]?),
        alh: sum_is(0x95),
    })
}

/// A disk that holds these files at first: the transaction log, the commit log, value log 0.
pub fn disk_of(
    alloc: Global,
    log: &[u8],
    commits: &[u8],
    values: &[u8],
    failing: Vec<u64>,
) -> Result<MemDisk, AllocError> {
    let log = Octets::from_slice(alloc, log)?;
    let commits = Octets::from_slice(alloc, commits)?;
    let values = Octets::from_slice(alloc, values)?;
    MemDisk::from_files(alloc, vec![in alloc; log, commits, values]?, failing)
}

/// What a reference to a value shows.
#[derive(Clone, Copy)]
pub enum Shown {
    Octets(&'static [u8]),
    /// Octets that add up to this, and not to what the reference says.
    Corrupt(u8),
    /// The disk fails.
    Fault,
}

/// Whether this was read by a reference whose octets add up to `total`.
pub fn shows(read: Result<Vec<u8>, ValueError>, total: u8, want: Shown) -> bool {
    match (read, want) {
        (Ok(octets), Shown::Octets(want)) => octets.as_slice() == want,
        (Err(ValueError::Corrupt { want, got }), Shown::Corrupt(sum)) => {
            want == sum_is(total) && got == sum_is(sum)
        }
        (Err(ValueError::DiskFault), Shown::Fault) => true,
        _ => false,
    }
}
