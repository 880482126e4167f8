ghost use Rattle.std.specs.Prelude.{◌≡◌, ◌≤◌, ◌<◌, ◌+◌, ◌^◌, ◌∷◌, ◌++◌, [], length, map, Some, IfOk, OnOk, IfSome, All, AllPairs, ◌≢◌};
ghost use Rattle.im_disk.specs.Disk.{Told, seen};
ghost use Rattle.im_format.specs.Damages.{index_of, slots_checks};
ghost use Rattle.im_format.specs.Records.{AreReferences, IsReference, entries_octets, entry_octets};
ghost use Rattle.im_model.specs.Entries.{entry_digest};
ghost use Rattle.im_model.specs.History.{IsEntry};
ghost use Rattle.im_opening.specs.Answers.{HasOpenCause, Judges};
ghost use Rattle.im_opening.specs.Parts.{Shows, IsEntryAt, AreEntriesAt, entry_checks};

use crate::errors::OpenError;
use crate::source::RecordSource;
use crate::values::read_value;
use im_digest::{D32, Hash32};
use im_disk::disk::Disk;
use im_entry::digests::digest_over;
use im_format::references::ValueRef;
use im_model::entries::Entry;
use im_model::limits::{EntryValue, Key, Metadata};
use im_octet::octets::Octets;
use im_record::keys::Keys;
use im_record::slots::read_slot;
use std::alloc::{AllocError, Global};

// An entry as it was read, its digest, its value's reference, and the place where it ends in the transaction log.
#[derive(Drop)]
struct EntryRead {
    entry: Entry,
    digest: D32,
    value: ValueRef,
    end: u64,
}

/// The entries of a record as they were read, their digests, the references of their values, and the place where they end in
/// the transaction log.
#[derive(Drop)]
pub(crate) struct EntriesRead {
    pub entries: Vec<Entry>,
    pub digests: Vec<D32>,
    pub refs: Vec<ValueRef>,
    pub end: u64,
}

impl EntriesRead {
    // None yet, from a place on, with room for so many where memory is there.
    fn with_room(alloc: Global, count: usize, at: u64) -> Self
        ensures none { (result.entries.items ≡ []) × (result.digests.items ≡ []) × (result.refs.items ≡ []) }
        ensures end { result.end ≡ at }
    {
        EntriesRead {
            entries: room_for(alloc, count),
            digests: room_for(alloc, count),
            refs: room_for(alloc, count),
            end: at,
        }
    }

    // Adds the entry that follows. Its only error is want of memory.
    fn add(&mut self, next: EntryRead) -> Result<(), AllocError>
        ensures entries { OnOk result (self.new.entries.items ≡ self.old.entries.items ++ next.entry ∷ []) }
        ensures digests { OnOk result (self.new.digests.items ≡ self.old.digests.items ++ next.digest ∷ []) }
        ensures refs { OnOk result (self.new.refs.items ≡ self.old.refs.items ++ next.value ∷ []) }
        ensures end { OnOk result (self.new.end ≡ next.end) }
    {
        let EntryRead {
            entry,
            digest,
            value,
            end,
        } = next;
        self.entries.push(entry)?;
        self.refs.push(value)?;
        self.digests.push(digest)?;
        self.end = end;
        Ok(())
    }
}

// A vector of nothing, with room for so many where memory is there. A vector that grows by itself begins with room for four,
// and most transactions have one entry.
fn room_for<T>(alloc: Global, count: usize) -> Vec<T>
    ensures { result.items ≡ [] }
{
    match Vec::with_capacity(alloc, count) {
        Ok(items) => items,
        Err(_) => Vec::new(alloc),
    }
}

// The entry with copies of these octets, and with this value. Its only error is want of memory.
fn entry_of(alloc: Global, md: &[u8], key: &[u8], value: Vec<u8>) -> Result<Entry, AllocError>
    requires md { length md.now ≤ 256 }
    requires key { (1 ≤ length key.now) × (length key.now ≤ 1024) }
    requires value { length value.items ≤ 4096 }
    ensures md { IfOk result (λ entry. entry.md ≡ md.now) }
    ensures key { IfOk result (λ entry. entry.key ≡ key.now) }
    ensures value { IfOk result (λ entry. entry.value ≡ value.items) }
{
    let value = EntryValue::new(Octets::from_vec(value));
    let md = Octets::from_slice(alloc, md)?;
    let key = Octets::from_slice(alloc, key)?;
    Ok(Entry {
        md: Metadata::new(md),
        key: Key::new(key),
        value,
    })
}

// Reads an entry with its value, behind entries with these keys.
fn read_entry<'a, D: Disk, H: Hash32>(
    alloc: Global,
    hash: &H,
    disk: &mut D,
    source: &RecordSource<'a>,
    id: u64,
    at: u64,
    keys: &mut Keys<'a>,
) -> Result<EntryRead, OpenError>
    requires shows { IfSome (D.told disk.old) (λ t. Shows (seen t) source.now.log.now source.now.lengths) }
    requires place { at ≤ length source.now.log.now }
    requires some { 1 ≤ id }
    requires few { id < 2 ^ 42 }
    ensures is { IfOk result (λ read. IsEntry read.entry) }
    ensures digest { IfOk result (λ read. read.digest ≡ entry_digest (H.digest hash.now) read.entry) }
    ensures refers { IfOk result (λ read. IsReference (H.digest hash.now) id read.entry.value read.value) }
    ensures within { IfOk result (λ read. read.end ≤ length source.now.log.now) }
    ensures whole { IfOk result (λ read. read.end ≡ at + length (entry_octets read.entry read.value)) }
    ensures keys { IfOk result (λ read. keys.new ≡ keys.old ++ read.entry.key ∷ []) }
    ensures fresh { IfOk result (λ read. index_of read.entry.key keys.old ≡ length keys.old) }
    ensures read { (t : Told) → D.told disk.old ≡ Some t
        → IfOk result (λ read. IsEntryAt (seen t) at read.entry read.value read.end) }
    ensures first { (t : Told) → D.told disk.old ≡ Some t
        → Judges (entry_checks (H.digest hash.now) (seen t) id keys.old at) result }
    ensures told { D.told disk.new ≡ D.told disk.old }
    ensures cause { HasOpenCause (D.faults disk.old) (D.faults disk.new) result }
{
    let slot = read_slot(source.log, at, id, &source.lengths, keys)?;
    let octets = read_value(alloc, hash, disk, &slot.value)?;
    let entry = entry_of(alloc, slot.md, slot.key, octets)?;
    Ok(EntryRead {
        digest: digest_over(hash, &entry, &slot.value.hval),
        entry,
        value: slot.value,
        end: slot.end,
    })
}

/// Reads `count` entries that follow each other in the record of transaction `id`, each with its value.
pub(crate) fn read_entries<D: Disk, H: Hash32>(
    alloc: Global,
    hash: &H,
    disk: &mut D,
    source: &RecordSource,
    id: u64,
    at: u64,
    count: u32,
) -> Result<EntriesRead, OpenError>
    requires shows { IfSome (D.told disk.old) (λ t. Shows (seen t) source.now.log.now source.now.lengths) }
    requires place { at ≤ length source.now.log.now }
    requires some { 1 ≤ id }
    requires few { id < 2 ^ 42 }
    ensures are { IfOk result (λ read. All IsEntry read.entries.items) }
    ensures size { IfOk result (λ read. length read.entries.items ≡ count) }
    ensures distinct { IfOk result (λ read. AllPairs (λ a b. a.key ≢ b.key) read.entries.items) }
    ensures digests { IfOk result (λ read. read.digests.items ≡ map (entry_digest (H.digest hash.now)) read.entries.items) }
    ensures refer { IfOk result (λ read. AreReferences (H.digest hash.now) id read.entries.items read.refs.items) }
    ensures within { IfOk result (λ read. read.end ≤ length source.now.log.now) }
    ensures whole { IfOk result (λ read. read.end ≡ at + length (entries_octets read.entries.items read.refs.items)) }
    ensures read { (t : Told) → D.told disk.old ≡ Some t
        → IfOk result (λ read. AreEntriesAt (seen t) at count read.entries.items read.refs.items read.end) }
    ensures first { (t : Told) → D.told disk.old ≡ Some t
        → Judges (slots_checks (H.digest hash.now) (seen t) id [] at count) result }
    ensures told { D.told disk.new ≡ D.told disk.old }
    ensures cause { HasOpenCause (D.faults disk.old) (D.faults disk.new) result }
{
    let mut keys = Keys::new(alloc);
    let mut read = EntriesRead::with_room(alloc, count as usize, at);
    while read.entries.len() < count as usize {
        let next = read_entry(alloc, hash, disk, source, id, read.end, &mut keys)?;
        read.add(next)?;
    }
    Ok(read)
}
