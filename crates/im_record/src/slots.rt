ghost use Rattle.std.specs.Prelude.{◌≡◌, ◌<◌, ◌≤◌, ◌+◌, ◌^◌, [], ◌∷◌, ◌++◌, length, IfOk, OnErr, OnOk, MatchResult, Ok, Err};
ghost use Rattle.im_mtree.specs.Checks.{first_fail};
ghost use Rattle.im_format.specs.Damages.{index_of, md_checks};
ghost use Rattle.im_format.specs.Reading.{number2, slot_at};
ghost use Rattle.im_format.specs.Spans.{octets_at};
ghost use Rattle.im_record.specs.Slots.{md_part, key_part, slot_checks_by, AreAttributes, IsSlot, LiesInLogs, Tells};

use crate::errors::SlotError;
use crate::fields::{number2, numbers, octets_at};
use crate::keys::Keys;
use crate::refs::read_ref;
use im_format::damages::Damage;
use im_format::references::ValueRef;
use im_model::limits::MOST_KEY_OCTETS;

/// An entry of a record, with the reference of its value. Its octets are those of the log, and aren't copied.
#[derive(Clone, Copy)]
pub struct Slot<'a> {
    /// The metadata, of at most 2 octets.
    pub md: &'a [u8],
    /// The key, of 1 to 1024 octets.
    pub key: &'a [u8],
    /// The reference of the value.
    pub value: ValueRef,
    /// The place in the transaction log where the entry ends.
    pub end: u64,
}

/// Reads an entry of transaction `id` at a place of the transaction log:
///
/// ```text
/// entry     = mdLen 2 | md | keyLen 2 | key | reference
/// reference = hVal 32 | value length 4 | log 1 | place 8
/// ```
///
/// `logs` are the lengths of the value logs 0 to 3. The entry's key joins those of the entries before it. The
/// value itself isn't looked at.
///
/// # Errors
///
/// The first damage, field by field, or `Memory`; the keys are then as they were.
#[tactic(auto, unfolding(im_format::specs::Reading::slot_at))]
pub fn read_slot<'a>(
    log: &'a [u8],
    at: u64,
    id: u64,
    logs: &[u64; 4],
    keys: &mut Keys<'a>,
) -> Result<Slot<'a>, SlotError>
    requires place { at ≤ length log.now }
    requires some { 1 ≤ id }
    requires few { id < 2 ^ 42 }
    ensures slot { IfOk result (IsSlot log.now at) }
    ensures md { IfOk result (λ slot. AreAttributes slot.md.now) }
    ensures two { IfOk result (λ slot. length slot.md.now ≤ 2) }
    ensures given { IfOk result (λ slot. 1 ≤ length slot.key.now) }
    ensures short { IfOk result (λ slot. length slot.key.now ≤ 1024) }
    ensures lies { IfOk result (λ slot. LiesInLogs logs.now id slot.value) }
    ensures within { IfOk result (λ slot. slot.end ≤ length log.now) }
    ensures keys { IfOk result (λ slot. keys.new ≡ keys.old ++ slot.key.now ∷ []) }
    ensures kept { OnErr result (keys.new ≡ keys.old) }
    ensures first { MatchResult result (λ slot. first_fail (slot_checks_by log.now logs.now id keys.old (slot_at log.now at)) ≡ Ok tt) (Tells (slot_checks_by log.now logs.now id keys.old (slot_at log.now at))) }
{
    let md = read_md(log, at)?;
    let key_at = at + 2 + md.len() as u64;
    let key = read_key(log, key_at, keys)?;
    let ref_at = key_at + 2 + key.len() as u64;
    let value = match read_ref(log, ref_at, id, logs) {
        Ok(value) => value,
        Err(damage) => return Err(SlotError::Damaged(damage)),
    };
    keys.add(key)?;
    Ok(Slot {
        md,
        key,
        value,
        end: ref_at + 45,
    })
}

// Reads `mdLen 2 | md`.
fn read_md(log: &[u8], at: u64) -> Result<&[u8], Damage>
    requires { at ≤ length log.now }
    ensures octets { IfOk result (λ md. md.now ≡ octets_at log.now (at + 2) (number2 log.now at)) }
    ensures size { IfOk result (λ md. length md.now ≡ number2 log.now at) }
    ensures short { IfOk result (λ md. length md.now ≤ 2) }
    ensures within { IfOk result (λ md. at + 2 + length md.now ≤ length log.now) }
    ensures attributes { IfOk result (λ md. AreAttributes md.now) }
    ensures first { MatchResult result (λ md. first_fail (md_part log.now at) ≡ Ok tt) (λ d. first_fail (md_part log.now at) ≡ Err d) }
{
    let len = number2(log, at)?;
    if len > 2 {
        return Err(numbers(at, 2, len as u64));
    }
    let md = octets_at(log, at + 2, len)?;
    check_md(at + 2, md)?;
    Ok(md)
}

// Whether octets at a place are the codes of attributes in rising order, 0 and 2.
fn check_md(at: u64, md: &[u8]) -> Result<(), Damage>
    requires place { at < 2 ^ 63 }
    requires short { length md.now ≤ 2 }
    ensures first { result ≡ first_fail (md_checks at md.now) }
    ensures attributes { OnOk result (AreAttributes md.now) }
{
    match md {
        [] | [0] | [2] | [0, 2, ..] => Ok(()),
        [0, octet, ..] => Err(numbers(at + 1, 2, *octet as u64)),
        [2, octet, ..] => Err(numbers(at + 1, 256, *octet as u64)),
        [octet, ..] => Err(numbers(at, 0, *octet as u64)),
    }
}

// Reads `keyLen 2 | key`, behind entries with these keys.
#[tactic(auto, using(crate::proofs::NumberLemmas::absent_key))]
fn read_key<'a>(log: &'a [u8], at: u64, keys: &Keys) -> Result<&'a [u8], Damage>
    requires { at ≤ length log.now }
    ensures octets { IfOk result (λ key. key.now ≡ octets_at log.now (at + 2) (number2 log.now at)) }
    ensures size { IfOk result (λ key. length key.now ≡ number2 log.now at) }
    ensures given { IfOk result (λ key. 1 ≤ length key.now) }
    ensures short { IfOk result (λ key. length key.now ≤ 1024) }
    ensures within { IfOk result (λ key. at + 2 + length key.now ≤ length log.now) }
    ensures fresh { IfOk result (λ key. index_of key.now keys.now ≡ length keys.now) }
    ensures first { MatchResult result (λ key. first_fail (key_part log.now keys.now at) ≡ Ok tt) (λ d. first_fail (key_part log.now keys.now at) ≡ Err d) }
{
    let len = number2(log, at)?;
    if len == 0 {
        return Err(numbers(at, 1, 0));
    }
    if len as usize > MOST_KEY_OCTETS {
        return Err(numbers(at, MOST_KEY_OCTETS as u64, len as u64));
    }
    let key = octets_at(log, at + 2, len)?;
    if let Some(earlier) = keys.number_of(key) {
        return Err(numbers(at + 2, keys.len(), earlier));
    }
    Ok(key)
}
