ghost use Rattle.std.specs.Prelude.{◌≡◌, ◌^◌, IfOk, IfErr, Some};
ghost use Rattle.serde_json.specs.Find.{get};
ghost use Rattle.serde_json.specs.View.{view};
ghost use Rattle.im_wire.specs.Gives.{GivesReading, Fails};
ghost use Rattle.im_wire.specs.Fields.{number_of, signed_of, octets_of, digest_of, digests_of, digest_lists_of, field};

use crate::errors::WireError;
use crate::reading::values::{
    digest_lists_of, digest_of, digests_of, i64_of, octets_of, u16_of, u32_of, u64_of,
};
use im_digest::D32;
use im_mtree::digests::Digests;
use im_octet::bounded::Bounded;
use im_proof::digest_lists::DigestLists;
use serde_json::Value;
use std::alloc::Global;

// The member of that name, which must be there.
pub(crate) fn member<'v>(value: &'v Value, name: &str) -> Result<&'v Value, WireError>
    ensures some { IfOk result (λ found. get name.now (view value.now) ≡ Some (view found.now)) }
    ensures none { IfErr result (λ error. Fails error (get name.now (view value.now))) }
{
    match value.get(name) {
        Some(found) => Ok(found),
        None => Err(WireError::Syntax),
    }
}

// The member that is a number below 2^64.
pub(crate) fn u64_field(value: &Value, name: &str) -> Result<u64, WireError>
    ensures { GivesReading result (field name.now (number_of (2 ^ 64)) (view value.now)) }
{
    u64_of(member(value, name)?)
}

// The member that is a number below 2^32.
pub(crate) fn u32_field(value: &Value, name: &str) -> Result<u32, WireError>
    ensures { GivesReading result (field name.now (number_of (2 ^ 32)) (view value.now)) }
{
    u32_of(member(value, name)?)
}

// The member that is a number below 2^16.
pub(crate) fn u16_field(value: &Value, name: &str) -> Result<u16, WireError>
    ensures { GivesReading result (field name.now (number_of (2 ^ 16)) (view value.now)) }
{
    u16_of(member(value, name)?)
}

// The member that is a number of 64 bits with a sign.
pub(crate) fn i64_field(value: &Value, name: &str) -> Result<i64, WireError>
    ensures { GivesReading result (field name.now signed_of (view value.now)) }
{
    i64_of(member(value, name)?)
}

// The member that is octets, as many as the type allows.
pub(crate) fn octets_field<const LEAST: usize, const MOST: usize>(
    alloc: Global,
    value: &Value,
    name: &str,
) -> Result<Bounded<LEAST, MOST>, WireError>
    ensures { GivesReading result (field name.now (octets_of LEAST MOST) (view value.now)) }
{
    octets_of(alloc, member(value, name)?)
}

// The member that is a digest.
pub(crate) fn digest_field(value: &Value, name: &str) -> Result<D32, WireError>
    ensures { GivesReading result (field name.now digest_of (view value.now)) }
{
    digest_of(member(value, name)?)
}

// The member that is a list of digests.
pub(crate) fn digests_field(alloc: Global, value: &Value, name: &str) -> Result<Digests, WireError>
    ensures { GivesReading result (field name.now digests_of (view value.now)) }
{
    digests_of(alloc, member(value, name)?)
}

// The member that is a list of lists of digests.
pub(crate) fn digest_lists_field(
    alloc: Global,
    value: &Value,
    name: &str,
) -> Result<DigestLists, WireError>
    ensures { GivesReading result (field name.now digest_lists_of (view value.now)) }
{
    digest_lists_of(alloc, member(value, name)?)
}
