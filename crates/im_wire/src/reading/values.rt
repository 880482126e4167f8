ghost use Rattle.std.specs.Prelude.{◌≡◌, ◌^◌};
ghost use Rattle.std.specs.Result.{result_ok};
ghost use Rattle.hex.specs.Hex.{decode_of};
ghost use Rattle.serde_json.specs.View.{view, items_view};
ghost use Rattle.im_wire.specs.Gives.{GivesReading};
ghost use Rattle.im_wire.specs.Fields.{number_of, signed_of, octets_of, digest_of, digests_of, digest_lists_of, each_of};

use crate::errors::WireError;
use hex::FromHexError;
use im_digest::D32;
use im_mtree::digests::Digests;
use im_octet::bounded::Bounded;
use im_octet::octets::Octets;
use im_proof::digest_lists::DigestLists;
use serde_json::Value;
use std::alloc::Global;

// A number below 2^64.
#[tactic(auto, unfolding(crate::specs::Fields::number_of))]
pub(crate) fn u64_of(value: &Value) -> Result<u64, WireError>
    ensures { GivesReading result (number_of (2 ^ 64) (view value.now)) }
{
    value.as_u64().ok_or(WireError::Syntax)
}

// A number below 2^32.
#[tactic(auto, unfolding(crate::specs::Fields::number_of))]
pub(crate) fn u32_of(value: &Value) -> Result<u32, WireError>
    ensures { GivesReading result (number_of (2 ^ 32) (view value.now)) }
{
    match value.as_u64() {
        Some(number) => u32::try_from(number).map_err(|_| WireError::Syntax),
        None => Err(WireError::Syntax),
    }
}

// A number below 2^16.
#[tactic(auto, unfolding(crate::specs::Fields::number_of))]
pub(crate) fn u16_of(value: &Value) -> Result<u16, WireError>
    ensures { GivesReading result (number_of (2 ^ 16) (view value.now)) }
{
    match value.as_u64() {
        Some(number) if number < 65536 => Ok(number as u16),
        _ => Err(WireError::Syntax),
    }
}

// A number of 64 bits with a sign.
#[tactic(auto, unfolding(crate::specs::Fields::signed_of))]
pub(crate) fn i64_of(value: &Value) -> Result<i64, WireError>
    ensures { GivesReading result (signed_of (view value.now)) }
{
    value.as_i64().ok_or(WireError::Syntax)
}

// The octets that hex says.
fn hex_octets(alloc: Global, text: &str) -> Result<Octets, WireError>
    ensures { GivesReading result (result_ok (decode_of text.now)) }
{
    match hex::decode(alloc, text) {
        Ok(octets) => Ok(Octets::from_vec(octets)),
        Err(FromHexError::OutOfMemory) => Err(WireError::Memory),
        Err(_) => Err(WireError::Syntax),
    }
}

// Octets as many as the type allows.
#[tactic(auto, unfolding(crate::specs::Fields::octets_of))]
pub(crate) fn octets_of<const LEAST: usize, const MOST: usize>(
    alloc: Global,
    value: &Value,
) -> Result<Bounded<LEAST, MOST>, WireError>
    ensures { GivesReading result (octets_of LEAST MOST (view value.now)) }
{
    let text = value.as_str().ok_or(WireError::Syntax)?;
    let octets = hex_octets(alloc, text)?;
    if octets.len() < LEAST || octets.len() > MOST {
        return Err(WireError::Syntax);
    }
    Ok(Bounded::new(octets))
}

// A digest of 32 octets.
#[tactic(auto, unfolding(crate::specs::Fields::digest_of))]
pub(crate) fn digest_of(value: &Value) -> Result<D32, WireError>
    ensures { GivesReading result (digest_of (view value.now)) }
{
    match value.as_str() {
        Some(text) => {
            let mut digest = [0; 32];
            match hex::decode_to_slice(text, &mut digest) {
                Ok(()) => Ok(digest),
                Err(_) => Err(WireError::Syntax),
            }
        }
        None => Err(WireError::Syntax),
    }
}

// The digests that the values of a list are.
fn each_digest(alloc: Global, list: &[Value]) -> Result<Digests, WireError>
    ensures { GivesReading result (each_of digest_of (items_view list.now)) }
{
    let mut digests = Vec::new(alloc);
    for value in list {
        match digest_of(value) {
            Ok(digest) => digests.push(digest)?,
            Err(error) => return Err(error),
        }
    }
    Ok(Digests::from_vec(digests))
}

// A list of digests.
#[tactic(auto, unfolding(crate::specs::Fields::digests_of))]
pub(crate) fn digests_of(alloc: Global, value: &Value) -> Result<Digests, WireError>
    ensures { GivesReading result (digests_of (view value.now)) }
{
    match value.as_array() {
        Some(list) => each_digest(alloc, list.as_slice()),
        None => Err(WireError::Syntax),
    }
}

// The lists of digests that the values of a list are.
fn each_list(alloc: Global, list: &[Value]) -> Result<DigestLists, WireError>
    ensures { GivesReading result (each_of digests_of (items_view list.now)) }
{
    let mut lists = Vec::new(alloc);
    for value in list {
        match digests_of(alloc, value) {
            Ok(digests) => lists.push(digests)?,
            Err(error) => return Err(error),
        }
    }
    Ok(DigestLists::from_vec(lists))
}

// A list of lists of digests.
#[tactic(auto, unfolding(crate::specs::Fields::digest_lists_of))]
pub(crate) fn digest_lists_of(alloc: Global, value: &Value) -> Result<DigestLists, WireError>
    ensures { GivesReading result (digest_lists_of (view value.now)) }
{
    match value.as_array() {
        Some(list) => each_list(alloc, list.as_slice()),
        None => Err(WireError::Syntax),
    }
}
