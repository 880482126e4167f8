ghost use Rattle.std.specs.Prelude.{◌≡◌, ◌↔◌, ◌<◌, ◌≤◌, ◌+◌, ◌&&◌, ◌||◌, nat_eq, nat_lt, true, false, AllPairs, IsTrue, length, option_map, vec_len, vec_capacity};
ghost use Rattle.std.specs.List.Sorted.{IsPartitionPoint};
ghost use Rattle.im_model.specs.declared.entries.Entry.{Entry as TheEntry};
ghost use Rattle.im_model.specs.declared.headers.Header.{Header as TheHeader};
ghost use Rattle.im_facts.specs.Facts.{known_header, entry_at, is_lower, is_level, is_before, is_beside, with_fact, IsBefore};

use im_model::entries::Entry;
use im_model::headers::Header;

/// An entry of a transaction as it was shown, by its place.
#[derive(Drop)]
pub struct EntryFact {
    /// The number of its transaction.
    pub tx: u64,
    /// Its index there, from 0.
    pub index: u32,
    /// The entry.
    pub entry: Entry,
}

// Whether the numbers of two headers are equal.
fn same_numbers(a: &Header, b: &Header) -> bool
    ensures { IsTrue result ↔ ((a.now.id ≡ b.now.id) × (a.now.ts ≡ b.now.ts) × (a.now.bl_tx_id ≡ b.now.bl_tx_id) × (a.now.version ≡ b.now.version) × (a.now.nentries ≡ b.now.nentries)) }
{
    a.id == b.id
        && a.ts == b.ts
        && a.bl_tx_id == b.bl_tx_id
        && a.version == b.version
        && a.nentries == b.nentries
}

// Whether their octets are.
fn same_octets(a: &Header, b: &Header) -> bool
    ensures { IsTrue result ↔ ((a.now.bl_root ≡ b.now.bl_root) × (a.now.prev_alh ≡ b.now.prev_alh) × (a.now.md ≡ b.now.md) × (a.now.eh ≡ b.now.eh)) }
{
    a.bl_root == b.bl_root
        && a.prev_alh == b.prev_alh
        && a.md.as_slice() == b.md.as_slice()
        && a.eh == b.eh
}

// Whether two headers are equal in every field.
pub(crate) fn same_header(a: &Header, b: &Header) -> bool
    ensures { IsTrue result ↔ (a.now ≡ b.now) }
{
    same_numbers(a, b) && same_octets(a, b)
}

// Whether two entries are.
pub(crate) fn same_entry(a: &Entry, b: &Entry) -> bool
    ensures { IsTrue result ↔ (a.now ≡ b.now) }
{
    a.md.as_slice() == b.md.as_slice()
        && a.key.as_slice() == b.key.as_slice()
        && a.value.as_slice() == b.value.as_slice()
}

// The place of the first header whose number isn't below this one's. It halves what is left at each header that it looks at.
fn header_place(headers: &[Header], header: &Header) -> usize
    requires { AllPairs (λ (a b : TheHeader). a.id < b.id) headers.now }
    ensures bound { result ≤ length headers.now }
    ensures point { IsPartitionPoint (λ y. is_lower y header.now ≡ true) (λ y. is_lower y header.now ≡ false) headers.now result }
{
    let id = header.id;
    headers.partition_point(|kept| kept.id < id)
}

// The kept header that has this one's number.
pub(crate) fn find_header<'h>(headers: &'h [Header], header: &Header) -> Option<&'h Header>
    requires { AllPairs (λ (a b : TheHeader). a.id < b.id) headers.now }
    ensures { option_map (λ kept. kept.now) result ≡ known_header headers.now header.now.id }
{
    let place = header_place(headers, header);
    if place < headers.len() && headers[place].id == header.id {
        return Some(&headers[place]);
    }
    None
}

// Puts a header at its place, unless one is kept for its number. There is room for it.
pub(crate) fn put_header(headers: &mut Vec<Header>, header: Header)
    requires rising { AllPairs (λ (a b : TheHeader). a.id < b.id) headers.old.items }
    requires room { vec_len headers.old < vec_capacity headers.old }
    ensures items { headers.new.items ≡ with_fact is_lower is_level headers.old.items header }
    ensures rising { AllPairs (λ (a b : TheHeader). a.id < b.id) headers.new.items }
    ensures len { vec_len headers.new ≤ vec_len headers.old + 1 }
    ensures capacity { vec_capacity headers.old ≤ vec_capacity headers.new }
{
    let place = header_place(headers.as_slice(), &header);
    if place < headers.len() && headers[place].id == header.id {
        drop(header);
    } else if let Err(full) = headers.insert(place, header) {
        drop(full);
    }
}

// Whether a place lies before entry `index` of transaction `tx`.
fn is_before(fact: &EntryFact, tx: u64, index: u32) -> bool
    ensures { result ≡ (nat_lt fact.now.tx tx || (nat_eq fact.now.tx tx && nat_lt fact.now.index index)) }
{
    fact.tx < tx || (fact.tx == tx && fact.index < index)
}

// Whether it is that place.
fn is_at(fact: &EntryFact, tx: u64, index: u32) -> bool
    ensures { result ≡ (nat_eq fact.now.tx tx && nat_eq fact.now.index index) }
{
    fact.tx == tx && fact.index == index
}

// The first place that isn't before this one. It halves what is left at each entry that it looks at.
fn entry_place(facts: &[EntryFact], tx: u64, index: u32) -> usize
    requires { AllPairs IsBefore facts.now }
    ensures bound { result ≤ length facts.now }
    ensures point { (entry : TheEntry) → IsPartitionPoint (λ y. is_before y (record { tx = tx; index = index; entry = entry }) ≡ true) (λ y. is_before y (record { tx = tx; index = index; entry = entry }) ≡ false) facts.now result }
{
    facts.partition_point(|fact| is_before(fact, tx, index))
}

// The kept entry of a place.
pub(crate) fn find_entry(facts: &[EntryFact], tx: u64, index: u32) -> Option<&Entry>
    requires { AllPairs IsBefore facts.now }
    ensures { option_map (λ kept. kept.now) result ≡ entry_at facts.now tx index }
{
    let place = entry_place(facts, tx, index);
    if place < facts.len() && is_at(&facts[place], tx, index) {
        return Some(&facts[place].entry);
    }
    None
}

// Puts an entry at its place, unless one is kept for it. There is room for it.
pub(crate) fn put_entry(facts: &mut Vec<EntryFact>, fact: EntryFact)
    requires rising { AllPairs IsBefore facts.old.items }
    requires room { vec_len facts.old < vec_capacity facts.old }
    ensures { facts.new.items ≡ with_fact is_before is_beside facts.old.items fact }
{
    let place = entry_place(facts.as_slice(), fact.tx, fact.index);
    if place < facts.len() && is_at(&facts[place], fact.tx, fact.index) {
        drop(fact);
    } else if let Err(full) = facts.insert(place, fact) {
        drop(full);
    }
}
