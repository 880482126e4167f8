ghost use Rattle.std.specs.Prelude.{◌≡◌, ◌<◌, ◌+◌, ◌^◌, ◌++◌, ℕ, length, take, All, IfOk, OnOk, OnErr};
ghost use Rattle.im_format.specs.Records.{reference_octets, entry_octets, entries_octets, head_octets, record_octets, records_octets};
ghost use Rattle.im_octet.specs.Fields.{field2};
ghost use Rattle.im_record.specs.Writing.{IsWhole};

use im_format::records::Record;
use im_format::references::ValueRef;
use im_model::entries::Entry;
use im_model::transactions::Transaction;
use im_octet::fields::{eight, four, signed_eight, two};
use std::alloc::{AllocError, Global};

/// The octets of records that follow each other, from this ID on:
///
/// ```text
/// log       = {record}
/// record    = ID 8 | Ts 8 | BlTxID 8 | entry count 4 | {entry} | Alh 32
/// entry     = mdLen 2 | md | keyLen 2 | key | reference
/// reference = hVal 32 | value length 4 | log 1 | place 8
/// ```
///
/// The room for all of them is taken first, so that each octet is written once.
pub fn records_octets(alloc: Global, id: u64, records: &[Record]) -> Result<Vec<u8>, AllocError>
    requires whole { All IsWhole records.now }
    requires few { id + length records.now < 2 ^ 64 }
    ensures { IfOk result (λ octets. octets.items ≡ records_octets id records.now) }
{
    let mut out = Vec::with_capacity(alloc, room_for(records))?;
    let mut next = id;
    for kept in records {
        push_record(&mut out, next, kept)?;
        next += 1;
    }
    Ok(out)
}

// The number of octets that records take, or the greatest number where it is above that. Nothing but how often
// memory is taken rests on it.
fn room_for(records: &[Record]) -> usize {
    let mut room: usize = 0;
    for kept in records {
        room = room.saturating_add(60);
        for entry in kept.tx.entries.as_slice() {
            let fields = entry.md.as_slice().len() + entry.key.as_slice().len() + 49;
            room = room.saturating_add(fields);
        }
    }
    room
}

/// Adds the record of transaction `id`:
///
/// ```text
/// record    = ID 8 | Ts 8 | BlTxID 8 | entry count 4 | {entry} | Alh 32
/// entry     = mdLen 2 | md | keyLen 2 | key | reference
/// reference = hVal 32 | value length 4 | log 1 | place 8
/// ```
///
/// Where memory is short, a front part of it may have been added.
#[tactic(auto, unfolding(im_format::specs::Records::record_octets), using(im_octet::proofs::PartLemmas::part_two))]
pub fn push_record(out: &mut Vec<u8>, id: u64, kept: &Record) -> Result<(), AllocError>
    requires { IsWhole kept.now }
    ensures whole { OnOk result (out.new.items ≡ out.old.items ++ record_octets id kept.now) }
    ensures part { OnErr result ((n : ℕ) × (out.new.items ≡ out.old.items ++ take n (record_octets id kept.now))) }
{
    push_head(out, id, &kept.tx)?;
    push_entries(out, kept.tx.entries.as_slice(), kept.refs.as_slice())?;
    out.extend_from_slice(&kept.alh)
}

// Adds `ID 8 | Ts 8 | BlTxID 8 | entry count 4`.
#[tactic(auto, unfolding(im_format::specs::Records::head_octets))]
fn push_head(out: &mut Vec<u8>, id: u64, tx: &Transaction) -> Result<(), AllocError>
    requires { length tx.now.entries < 2 ^ 32 }
    ensures whole { OnOk result (out.new.items ≡ out.old.items ++ head_octets id tx.now) }
    ensures part { OnErr result ((n : ℕ) × (out.new.items ≡ out.old.items ++ take n (head_octets id tx.now))) }
{
    out.extend_from_slice(&eight(id))?;
    out.extend_from_slice(&signed_eight(tx.ts))?;
    out.extend_from_slice(&eight(tx.bl))?;
    out.extend_from_slice(&four(tx.entries.as_slice().len() as u32))
}

// Adds the entries in order, each with its reference.
fn push_entries(out: &mut Vec<u8>, entries: &[Entry], refs: &[ValueRef]) -> Result<(), AllocError>
    requires { length refs.now ≡ length entries.now }
    ensures whole { OnOk result (out.new.items ≡ out.old.items ++ entries_octets entries.now refs.now) }
    ensures part { OnErr result ((n : ℕ) × (out.new.items ≡ out.old.items ++ take n (entries_octets entries.now refs.now))) }
{
    for (i, entry) in entries.iter().enumerate() {
        push_entry(out, entry, &refs[i])?;
    }
    Ok(())
}

// Adds `mdLen 2 | md | keyLen 2 | key | the reference of the value`.
#[tactic(auto, unfolding(im_format::specs::Records::entry_octets))]
fn push_entry(out: &mut Vec<u8>, entry: &Entry, reference: &ValueRef) -> Result<(), AllocError>
    ensures whole { OnOk result (out.new.items ≡ out.old.items ++ entry_octets entry.now reference.now) }
    ensures part { OnErr result ((n : ℕ) × (out.new.items ≡ out.old.items ++ take n (entry_octets entry.now reference.now))) }
{
    push_fields(out, entry)?;
    push_reference(out, reference)
}

// Adds `mdLen 2 | md | keyLen 2 | key`.
fn push_fields(out: &mut Vec<u8>, entry: &Entry) -> Result<(), AllocError>
    ensures whole { OnOk result (out.new.items ≡ out.old.items ++ field2 (length entry.now.md) ++ entry.now.md ++ field2 (length entry.now.key) ++ entry.now.key) }
    ensures part { OnErr result ((n : ℕ) × (out.new.items ≡ out.old.items ++ take n (field2 (length entry.now.md) ++ entry.now.md ++ field2 (length entry.now.key) ++ entry.now.key))) }
{
    let md = entry.md.as_slice();
    let key = entry.key.as_slice();
    out.extend_from_slice(&two(md.len() as u16))?;
    out.extend_from_slice(md)?;
    out.extend_from_slice(&two(key.len() as u16))?;
    out.extend_from_slice(key)
}

// Adds `hVal 32 | value length 4 | log 1 | place 8`.
#[tactic(auto, unfolding(im_format::specs::Records::reference_octets))]
fn push_reference(out: &mut Vec<u8>, reference: &ValueRef) -> Result<(), AllocError>
    ensures whole { OnOk result (out.new.items ≡ out.old.items ++ reference_octets reference.now) }
    ensures part { OnErr result ((n : ℕ) × (out.new.items ≡ out.old.items ++ take n (reference_octets reference.now))) }
{
    out.extend_from_slice(&reference.hval)?;
    out.extend_from_slice(&four(reference.len))?;
    out.extend_from_slice(&[reference.log])?;
    out.extend_from_slice(&eight(reference.at))
}
