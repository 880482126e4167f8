ghost use Rattle.std.specs.Prelude.{◌≡◌, ◌≤◌, length, IfSome};

use im_digest::{D32, Hash32};
use im_model::limits::{MOST_ENTRIES, MOST_KEY_OCTETS};
use std::alloc::{AllocError, Global};

// The most records that are looked ahead at in a short log: its windows should take little memory.
const FEW_LEADS: usize = 4096;

// And in a long one: the fewer windows it is cut into, the less often all threads wait for the last.
const MOST_LEADS: usize = 16_384;

// Between the two they are at most one for each so many octets of the log.
const LOG_OCTETS: usize = 8192;

// For each of the most records so many octets of the log are looked ahead at, at most, but for the last record.
const LEAD_OCTETS: usize = 512;

/// What a record says of itself, unchecked. Nothing rests on it: what is hashed by it is a digest of some string in any case.
#[derive(Clone, Copy)]
pub struct Lead {
    /// The number that the transaction should have.
    pub id: u64,
    /// Where the record begins in the transaction log, in octets.
    pub at: usize,
    /// The number of its entries, 1 to 1024.
    pub entries: usize,
    /// The number of the entries of the records that are looked ahead at before it.
    pub values: usize,
    /// The size of its tree.
    pub bl: u64,
    /// The Alh of the record before.
    pub before: D32,
    /// Its own.
    pub alh: D32,
    /// Where it ends in the transaction log, in octets.
    pub end: usize,
}

/// The fields of an entry that its digest is made of, where its value lies, and where the entry ends.
#[derive(Clone, Copy)]
pub struct Fields<'a> {
    /// The octets of its metadata.
    pub md: &'a [u8],
    /// Those of its key.
    pub key: &'a [u8],
    /// The digest of its value, 32 octets.
    pub hval: &'a [u8],
    /// The value's length, in octets.
    pub len: u64,
    /// The number of its value log, as the octet says, 0 to 255: it isn't looked at whether there is such a log.
    pub log: u64,
    /// Where the value begins in that log, in octets.
    pub place: u64,
    /// Where the entry ends in the transaction log, in octets.
    pub end: usize,
}

/// Where records begin: how many there are before, the place in the transaction log, and the Alh of the record before.
#[derive(Clone, Copy)]
pub struct Start {
    /// How many records are before.
    pub count: u64,
    /// The place in the transaction log, in octets.
    pub at: usize,
    /// The Alh of the record before.
    pub before: D32,
}

impl Start {
    /// Where the first record begins.
    pub fn of_all<H: Hash32>(hash: &H) -> Self {
        Start {
            count: 0,
            at: 0,
            before: hash.hash(&[], &[], &[]),
        }
    }
}

// The most records that are looked ahead at in a log of so many octets.
fn most_leads(octets: usize) -> usize {
    (octets / LOG_OCTETS).max(FEW_LEADS).min(MOST_LEADS)
}

/// Looks at the records from a start on, as far as they can be told apart: up to 4,096 of them, or up to one for each 8 KiB of the
/// log where these are more, and 16,384 at most; and, but for the last record, no more than lie in 512 octets for each of this highest
/// number, 2 to 8 MiB. It hashes nothing. Its only error is want of memory.
pub fn survey(alloc: Global, log: &[u8], start: &Start) -> Result<Vec<Lead>, AllocError> {
    let most = most_leads(log.len());
    let mut leads = Vec::with_capacity(alloc, most)?;
    let mut id = start.count;
    let mut at = start.at;
    let mut values = 0usize;
    let mut before = start.before;
    for _i in 0..most {
        id = id.saturating_add(1);
        if at.saturating_sub(start.at) > most.saturating_mul(LEAD_OCTETS) {
            break;
        }
        let Some(lead) = lead_at(log, id, at, values, before) else {
            break;
        };
        leads.push(lead)?;
        at = lead.end;
        values = values.saturating_add(lead.entries);
        before = lead.alh;
    }
    Ok(leads)
}

// The record at a place, where its fields are there, and its lengths within the limits.
fn lead_at(log: &[u8], id: u64, at: usize, values: usize, before: D32) -> Option<Lead> {
    let bl = number_at(log, at.saturating_add(16), 8)?;
    let entries = number_at(log, at.saturating_add(24), 4)? as usize;
    if entries == 0 || entries > MOST_ENTRIES as usize {
        return None;
    }
    let mut end = at.saturating_add(28);
    for _i in 0..entries {
        end = fields_at(log, end)?.end;
    }
    let mut alh = [0; 32];
    alh.copy_from_slice(part_at(log, end, 32)?);
    Some(Lead {
        id,
        at,
        entries,
        values,
        bl,
        before,
        alh,
        end: end.saturating_add(32),
    })
}

/// The entry at a place, where its fields are there, and its lengths within the limits.
pub fn fields_at(log: &[u8], at: usize) -> Option<Fields<'_>>
    ensures md { IfSome result (λ fields. length fields.md.now ≤ 2) }
    ensures key { IfSome result (λ fields. length fields.key.now ≤ 1024) }
{
    let md = counted_at(log, at, 2)?;
    let key_at = at.saturating_add(2).saturating_add(md.len());
    let key = counted_at(log, key_at, MOST_KEY_OCTETS)?;
    let hval_at = key_at.saturating_add(2).saturating_add(key.len());
    with_reference(log, md, key, hval_at)
}

// The octets behind a number of two octets that counts them, where they are there, and at most so many.
fn counted_at(log: &[u8], at: usize, most: usize) -> Option<&[u8]>
    ensures { IfSome result (λ part. length part.now ≤ most) }
{
    let count = number_at(log, at, 2)? as usize;
    if count > most {
        return None;
    }
    part_at(log, at.saturating_add(2), count)
}

// The entry with this metadata and this key, whose reference stands at a place, where it is there.
fn with_reference<'a>(log: &'a [u8], md: &'a [u8], key: &'a [u8], at: usize) -> Option<Fields<'a>>
    ensures md { IfSome result (λ fields. fields.md ≡ md.entry) }
    ensures key { IfSome result (λ fields. fields.key ≡ key.entry) }
{
    let hval = part_at(log, at, 32)?;
    let len = number_at(log, at.saturating_add(32), 4)?;
    let log_number = number_at(log, at.saturating_add(36), 1)?;
    let place = number_at(log, at.saturating_add(37), 8)?;
    Some(Fields {
        md,
        key,
        hval,
        len,
        log: log_number,
        place,
        end: at.saturating_add(45),
    })
}

/// So many octets of the log from a place on, where they are there.
pub fn part_at(log: &[u8], at: usize, n: usize) -> Option<&[u8]>
    ensures { IfSome result (λ part. length part.now ≡ n) }
{
    if log.len() < at || log.len() - at < n {
        return None;
    }
    let (_, rest) = log.split_at(at);
    let (part, _) = rest.split_at(n);
    Some(part)
}

// The number of so many octets from a place on, the highest first; of more than eight the last eight.
fn number_at(log: &[u8], at: usize, n: usize) -> Option<u64> {
    let mut number = 0u64;
    for octet in part_at(log, at, n)? {
        number = number.wrapping_mul(256).wrapping_add(u64::from(*octet));
    }
    Some(number)
}
